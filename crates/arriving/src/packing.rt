// A check as bytes that a caller keeps: numbers of one byte, then of eight, then the kinds of the open brackets.
ghost use Rattle.std.specs.Prelude.{◌≡◌, ◌+◌, ◌*◌, ◌≤◌, length};
ghost use Rattle.std.proofs.lemmas.List.Edits.{sets};
ghost use Rattle.meaning.specs.Bytes.{flag};
ghost use Rattle.arriving.specs.Between.Packing.{flat, due_number, due_of, flat_decimal, decimal_of, flat_open, flat_figure, figure_of};
ghost use Rattle.arriving.specs.Between.Packing.{flat_time, flat_field, flat_moment};
ghost use Rattle.arriving.specs.Between.Packing.{stamp_of, slot_of, moment_of, flat_quoted, flat_inner, quoted_of, inner_of, flat_octets, octets_of};
ghost use Rattle.arriving.specs.Between.Packing.{flat_refusal, refusal_of, flat_mode, mode_of, open_of, FitFigure, FitSlot, FitMoment, FitInner, FitMode};
ghost use Rattle.arriving.specs.Between.Packing.{spread, Narrow, smalls, larges, Kept, packed, unpacked, padded, flat_at, utf_at, here_at};

use crate::octets::Utf;
use crate::states::{
    Decimal, Due, Figure, Here, Inner, Mode, Moment, Octets, Open, Quoted, Slot, Stamp,
};
use crate::{Check, Core};
use items::number::Acc;
use items::store;
use meaning::Refusal;
use tape::little_endian;

// A mode by numbers: which, which of its cases, and their fields; those that a case has not are 0.
#[derive(Clone, Copy)]
pub struct Flat {
    pub kind: u8,
    pub sort: u8,
    pub x: u8,
    pub y: u8,
    pub a: u64,
    pub b: u64,
    pub c: u64,
    pub d: u64,
    pub e: u64,
}

// A mode whose numbers are all 0.
const ZERO: Flat = Flat {
    kind: 0,
    sort: 0,
    x: 0,
    y: 0,
    a: 0,
    b: 0,
    c: 0,
    d: 0,
    e: 0,
};

impl From<Due> for u8 {
    ghost from_gives = { λ due n. n ≡ due_number due };

    // What is due, as a number.
    fn from(due: Due) -> u8 {
        match due {
            Due::Value => 0,
            Due::Key => 1,
            Due::StringPart => 2,
            Due::KeyPart => 3,
            Due::BinaryPart => 4,
            Due::AfterValue => 5,
            Due::AfterKey => 6,
            Due::AfterString => 7,
            Due::AfterKeyString => 8,
            Due::AfterBinary => 9,
        }
    }
}

impl From<usize> for Due {
    ghost from_gives = { λ n due. due ≡ due_of n };

    // What the number says is due.
    fn from(n: usize) -> Due {
        match n {
            0 => Due::Value,
            1 => Due::Key,
            2 => Due::StringPart,
            3 => Due::KeyPart,
            4 => Due::BinaryPart,
            5 => Due::AfterValue,
            6 => Due::AfterKey,
            7 => Due::AfterString,
            8 => Due::AfterKeyString,
            _ => Due::AfterBinary,
        }
    }
}

// A decimal number, of which the exponent's sign and digits are known so far.
fn flat_decimal(sort: u8, decimal: Decimal, down: bool, power: usize) -> Flat
    ensures { result ≡ flat_decimal sort decimal down power }
{
    Flat {
        kind: 6,
        sort,
        x: u8::from(decimal.acc.over),
        y: u8::from(down),
        a: decimal.first as u64,
        b: decimal.acc.c,
        c: decimal.acc.z as u64,
        d: decimal.fraction as u64,
        e: power as u64,
    }
}

impl From<Flat> for Decimal {
    ghost from_gives = { λ f decimal. decimal ≡ decimal_of f };

    // The decimal number that these numbers are.
    fn from(f: Flat) -> Decimal {
        Decimal {
            first: f.a as usize,
            acc: Acc {
                c: f.b,
                over: f.x == 1,
                z: f.c as usize,
            },
            fraction: f.d as usize,
        }
    }
}

// A number of which no more than its first place and one number is known.
fn flat_begun(sort: u8, over: bool, first: usize, value: u64) -> Flat
    ensures { result ≡ flat 6 sort (flag over) 0 first value 0 0 0 }
{
    Flat {
        kind: 6,
        sort,
        x: u8::from(over),
        a: first as u64,
        b: value,
        ..ZERO
    }
}

impl From<Open> for Flat {
    ghost from_gives = { λ o f. f ≡ flat_open o };

    // Digits that may yet be a time.
    fn from(o: Open) -> Flat {
        Flat {
            kind: 6,
            sort: 5,
            x: o.count,
            y: u8::from(o.nought),
            a: o.first as u64,
            b: o.acc.c,
            c: o.acc.z as u64,
            d: u64::from(o.value),
            e: u64::from(o.acc.over),
        }
    }
}

impl From<Figure> for Flat {
    ghost from_gives = { λ figure f. (f ≡ flat_figure figure) × FitFigure figure };

    // A number.
    fn from(figure: Figure) -> Flat {
        match figure {
            Figure::Sign(first) => flat_begun(0, false, first, 0),
            Figure::Nought(first) => flat_begun(1, false, first, 0),
            Figure::Point(first) => flat_begun(2, false, first, 0),
            Figure::HexMark(first) => flat_begun(3, false, first, 0),
            Figure::Hex { first, value, over } => flat_begun(4, over, first, value),
            Figure::Open(o) => Flat::from(o),
            Figure::Whole(decimal) => flat_decimal(6, decimal, false, 0),
            Figure::Fraction(decimal) => flat_decimal(7, decimal, false, 0),
            Figure::Exponent(decimal) => flat_decimal(8, decimal, false, 0),
            Figure::ExponentSign(decimal, down) => flat_decimal(9, decimal, down, 0),
            Figure::ExponentDigits {
                decimal,
                down,
                power,
            } => flat_decimal(10, decimal, down, power),
        }
    }
}

impl From<Flat> for Open {
    ghost from_gives = { λ f o. o ≡ open_of f };

    // The digits that may yet be a time, alike.
    fn from(f: Flat) -> Open {
        Open {
            first: f.a as usize,
            count: f.x,
            nought: f.y == 1,
            value: (f.d % 65536) as u16,
            acc: Acc {
                c: f.b,
                over: f.e == 1,
                z: f.c as usize,
            },
        }
    }
}

impl From<Flat> for Figure {
    ghost from_gives = { λ f figure. figure ≡ figure_of f };

    // Any number, alike.
    fn from(f: Flat) -> Figure {
        let first = f.a as usize;
        let decimal = Decimal::from(f);
        match f.sort {
            0 => Figure::Sign(first),
            1 => Figure::Nought(first),
            2 => Figure::Point(first),
            3 => Figure::HexMark(first),
            4 => Figure::Hex {
                first,
                value: f.b,
                over: f.x == 1,
            },
            5 => Figure::Open(Open::from(f)),
            6 => Figure::Whole(decimal),
            7 => Figure::Fraction(decimal),
            8 => Figure::Exponent(decimal),
            9 => Figure::ExponentSign(decimal, f.y == 1),
            _ => Figure::ExponentDigits {
                decimal,
                down: f.y == 1,
                power: f.e as usize,
            },
        }
    }
}

// A time value, with what a date's fields are so far.
fn flat_time(sort: u8, stamp: Stamp, left: u8, value: u8, year: u16, month: u8) -> Flat
    ensures { result ≡ flat_time sort stamp left value year month }
{
    Flat {
        kind: 7,
        sort,
        x: left,
        y: value,
        a: stamp.first as u64,
        b: u64::from(year),
        c: u64::from(month),
        d: u64::from(stamp.dated),
        e: u64::from(stamp.good),
    }
}

// A field of a time value.
fn flat_field(stamp: Stamp, slot: Slot, left: u8, value: u8) -> Flat
    ensures { (result ≡ flat_field stamp left value slot) × FitSlot slot }
{
    match slot {
        Slot::Month(year) => flat_time(0, stamp, left, value, year, 0),
        Slot::Day { year, month } => flat_time(1, stamp, left, value, year, month),
        Slot::Hour => flat_time(2, stamp, left, value, 0, 0),
        Slot::Minute => flat_time(3, stamp, left, value, 0, 0),
        Slot::Second => flat_time(4, stamp, left, value, 0, 0),
        Slot::OffsetHour => flat_time(5, stamp, left, value, 0, 0),
        Slot::OffsetMinute => flat_time(6, stamp, left, value, 0, 0),
    }
}

// A time value.
fn flat_moment(stamp: Stamp, moment: Moment) -> Flat
    ensures { (result ≡ flat_moment stamp moment) × FitMoment moment }
{
    match moment {
        Moment::Field { slot, left, value } => flat_field(stamp, slot, left, value),
        Moment::Spaced => flat_time(7, stamp, 0, 0, 0, 0),
        Moment::Point => flat_time(8, stamp, 0, 0, 0, 0),
        Moment::Fraction => flat_time(9, stamp, 0, 0, 0, 0),
        Moment::Zulu => flat_time(10, stamp, 0, 0, 0, 0),
    }
}

impl From<Flat> for Stamp {
    ghost from_gives = { λ f stamp. stamp ≡ stamp_of f };

    // The time value that these numbers are: its first place and what holds of it.
    fn from(f: Flat) -> Stamp {
        Stamp {
            first: f.a as usize,
            dated: f.d == 1,
            good: f.e == 1,
        }
    }
}

impl From<Flat> for Slot {
    ghost from_gives = { λ f slot. slot ≡ slot_of f };

    // Its field, alike.
    fn from(f: Flat) -> Slot {
        let year = (f.b % 65536) as u16;
        let month = (f.c % 256) as u8;
        match f.sort {
            0 => Slot::Month(year),
            1 => Slot::Day { year, month },
            2 => Slot::Hour,
            3 => Slot::Minute,
            4 => Slot::Second,
            5 => Slot::OffsetHour,
            _ => Slot::OffsetMinute,
        }
    }
}

impl From<Flat> for Moment {
    ghost from_gives = { λ f moment. moment ≡ moment_of f };

    // Where in it, alike.
    fn from(f: Flat) -> Moment {
        match f.sort {
            0..=6 => Moment::Field {
                slot: Slot::from(f),
                left: f.x,
                value: f.y,
            },
            7 => Moment::Spaced,
            8 => Moment::Point,
            9 => Moment::Fraction,
            _ => Moment::Zulu,
        }
    }
}

// A string part, with the fields that the place in it has.
fn flat_quoted(sort: u8, quoted: Quoted, left: u8, at: usize, value: u32) -> Flat
    ensures { result ≡ flat_quoted sort quoted left at value }
{
    Flat {
        kind: 8,
        sort,
        x: quoted.quote,
        y: left,
        a: quoted.bad as u64,
        b: quoted.half as u64,
        c: at as u64,
        d: u64::from(value),
        ..ZERO
    }
}

// A string part, by where in it.
fn flat_inner(quoted: Quoted, inner: Inner) -> Flat
    ensures { (result ≡ flat_inner quoted inner) × FitInner inner }
{
    match inner {
        Inner::One => flat_quoted(0, quoted, 0, 0, 0),
        Inner::Two => flat_quoted(1, quoted, 0, 0, 0),
        Inner::Opened => flat_quoted(2, quoted, 0, 0, 0),
        Inner::OpenedCr => flat_quoted(3, quoted, 0, 0, 0),
        Inner::Lines(left) => flat_quoted(4, quoted, left, 0, 0),
        Inner::Body => flat_quoted(5, quoted, 0, 0, 0),
        Inner::Escape(at) => flat_quoted(6, quoted, 0, at, 0),
        Inner::Unicode(at) => flat_quoted(7, quoted, 0, at, 0),
        Inner::Hex { value, left, at } => flat_quoted(8, quoted, left, at, value),
        Inner::BraceOpen(at) => flat_quoted(9, quoted, 0, at, 0),
        Inner::Brace { value, at } => flat_quoted(10, quoted, 0, at, value),
        Inner::Done => flat_quoted(11, quoted, 0, 0, 0),
    }
}

impl From<Flat> for Quoted {
    ghost from_gives = { λ f quoted. quoted ≡ quoted_of f };

    // The string part that these numbers are.
    fn from(f: Flat) -> Quoted {
        Quoted {
            quote: f.x,
            bad: f.a as usize,
            half: f.b as usize,
        }
    }
}

impl From<Flat> for Inner {
    ghost from_gives = { λ f inner. inner ≡ inner_of f };

    // Where in it, alike.
    fn from(f: Flat) -> Inner {
        let at = f.c as usize;
        let left = f.y;
        let value = (f.d % 4294967296) as u32;
        match f.sort {
            0 => Inner::One,
            1 => Inner::Two,
            2 => Inner::Opened,
            3 => Inner::OpenedCr,
            4 => Inner::Lines(left),
            5 => Inner::Body,
            6 => Inner::Escape(at),
            7 => Inner::Unicode(at),
            8 => Inner::Hex { value, left, at },
            9 => Inner::BraceOpen(at),
            10 => Inner::Brace { value, at },
            _ => Inner::Done,
        }
    }
}

// A mode with no fields but a quote or a place.
fn flat_plain(kind: u8, sort: u8, quote: u8, at: usize) -> Flat
    ensures { result ≡ flat kind sort quote 0 at 0 0 0 0 }
{
    Flat {
        kind,
        sort,
        x: quote,
        a: at as u64,
        ..ZERO
    }
}

impl From<Octets> for Flat {
    ghost from_gives = { λ octets f. f ≡ flat_octets octets };

    // A binary part.
    fn from(octets: Octets) -> Flat {
        match octets {
            Octets::Dollar => flat_plain(9, 0, 0, 0),
            Octets::Text(quote) => flat_plain(9, 1, quote, 0),
            Octets::Escape(quote) => flat_plain(9, 2, quote, 0),
            Octets::Hex(quote) => flat_plain(9, 3, quote, 0),
            Octets::HexLow(quote) => flat_plain(9, 4, quote, 0),
            Octets::Low => flat_plain(9, 5, 0, 0),
            Octets::Pair => flat_plain(9, 6, 0, 0),
            Octets::Dot => flat_plain(9, 7, 0, 0),
            Octets::Done => flat_plain(9, 8, 0, 0),
        }
    }
}

impl From<Flat> for Octets {
    ghost from_gives = { λ f octets. octets ≡ octets_of f };

    // The binary part that these numbers are.
    fn from(f: Flat) -> Octets {
        let quote = f.x;
        match f.sort {
            0 => Octets::Dollar,
            1 => Octets::Text(quote),
            2 => Octets::Escape(quote),
            3 => Octets::Hex(quote),
            4 => Octets::HexLow(quote),
            5 => Octets::Low,
            6 => Octets::Pair,
            7 => Octets::Dot,
            _ => Octets::Done,
        }
    }
}

impl From<Refusal> for Flat {
    ghost from_gives = { λ why f. f ≡ flat_refusal why };

    // A refusal.
    fn from(why: Refusal) -> Flat {
        match why {
            Refusal::TextTooLong => flat_plain(11, 0, 0, 0),
            Refusal::NotUtf8(at) => flat_plain(11, 1, 0, at),
            Refusal::NotGrammar(at) => flat_plain(11, 2, 0, at),
            Refusal::BadEscape(at) => flat_plain(11, 3, 0, at),
            Refusal::BadTime(at) => flat_plain(11, 4, 0, at),
            Refusal::BadNumber(at) => flat_plain(11, 5, 0, at),
            Refusal::TooDeep(at) => flat_plain(11, 6, 0, at),
            Refusal::TapeTooShort(at) => flat_plain(11, 7, 0, at),
            Refusal::StoreTooShort(at) => flat_plain(11, 8, 0, at),
            Refusal::NotWellFormed(at) => flat_plain(11, 9, 0, at),
            Refusal::NoJsonForm(at) => flat_plain(11, 10, 0, at),
            Refusal::OutputTooShort(at) => flat_plain(11, 11, 0, at),
            Refusal::WrittenTooLong(at) => flat_plain(11, 12, 0, at),
            Refusal::NoSuchRecord(at) => flat_plain(11, 13, 0, at),
            Refusal::RepeatedKey(at) => flat_plain(11, 14, 0, at),
        }
    }
}

impl From<Flat> for Refusal {
    ghost from_gives = { λ f why. why ≡ refusal_of f };

    // The refusal that these numbers are.
    fn from(f: Flat) -> Refusal {
        let at = f.a as usize;
        match f.sort {
            0 => Refusal::TextTooLong,
            1 => Refusal::NotUtf8(at),
            2 => Refusal::NotGrammar(at),
            3 => Refusal::BadEscape(at),
            4 => Refusal::BadTime(at),
            5 => Refusal::BadNumber(at),
            6 => Refusal::TooDeep(at),
            7 => Refusal::TapeTooShort(at),
            8 => Refusal::StoreTooShort(at),
            9 => Refusal::NotWellFormed(at),
            10 => Refusal::NoJsonForm(at),
            11 => Refusal::OutputTooShort(at),
            12 => Refusal::WrittenTooLong(at),
            13 => Refusal::NoSuchRecord(at),
            _ => Refusal::RepeatedKey(at),
        }
    }
}

impl From<Mode> for Flat {
    ghost from_gives = { λ mode f. (f ≡ flat_mode mode) × FitMode mode };

    // Any mode.
    fn from(mode: Mode) -> Flat {
        match mode {
            Mode::At => flat_plain(0, 0, 0, 0),
            Mode::Slash => flat_plain(1, 0, 0, 0),
            Mode::Line => flat_plain(2, 0, 0, 0),
            Mode::Block => flat_plain(3, 0, 0, 0),
            Mode::Star => flat_plain(4, 0, 0, 0),
            Mode::Spelling(at) => flat_plain(5, 0, 0, at),
            Mode::Counting(figure) => Flat::from(figure),
            Mode::Timing(stamp, moment) => flat_moment(stamp, moment),
            Mode::Quoting(quoted, inner) => flat_inner(quoted, inner),
            Mode::Packing(octets) => Flat::from(octets),
            Mode::Naming => flat_plain(10, 0, 0, 0),
            Mode::Failed(why) => Flat::from(why),
        }
    }
}

impl From<Flat> for Mode {
    ghost from_gives = { λ f mode. mode ≡ mode_of f };

    // The mode that these numbers are; any numbers are one.
    fn from(f: Flat) -> Mode {
        match f.kind {
            0 => Mode::At,
            1 => Mode::Slash,
            2 => Mode::Line,
            3 => Mode::Block,
            4 => Mode::Star,
            5 => Mode::Spelling(f.a as usize),
            6 => Mode::Counting(Figure::from(f)),
            7 => Mode::Timing(Stamp::from(f), Moment::from(f)),
            8 => Mode::Quoting(Quoted::from(f), Inner::from(f)),
            9 => Mode::Packing(Octets::from(f)),
            10 => Mode::Naming,
            _ => Mode::Failed(Refusal::from(f)),
        }
    }
}

// Numbers of eight bytes each, put one after the other from the place `at`.
fn put_words(words: &[u64], bytes: &mut [u8], at: usize)
    requires { at + 8 * length words.now ≤ length bytes.old }
    ensures put { bytes.new ≡ sets bytes.old at (spread words.now) }
    ensures fit { Narrow words.now }
{
    for (i, word) in words.iter().enumerate() {
        little_endian::store8(bytes, at + 8 * i, *word);
    }
}

// The numbers of one byte: of UTF-8, of what is due, and a mode's.
#[tactic(auto, unfolding(crate::specs::Between::Packing::smalls))]
fn put_small(utf: Utf, due: Due, f: Flat, bytes: &mut [u8; 640])
    ensures { bytes.new ≡ sets bytes.old 0 (smalls utf due f) }
{
    let small = [
        utf.left,
        utf.low,
        utf.high,
        u8::from(utf.broken),
        u8::from(due),
        f.kind,
        f.sort,
        f.x,
        f.y,
        0,
        0,
        0,
        0,
        0,
        0,
        0,
    ];
    store::copy(&small, 0, 16, bytes, 0);
}

// The numbers of eight bytes: places and counts, and a mode's.
#[tactic(auto, unfolding(crate::specs::Between::Packing::larges))]
fn put_large(length: usize, utf: Utf, here: Here, f: Flat, bytes: &mut [u8; 640])
    ensures put { bytes.new ≡ sets bytes.old 16 (spread (larges length utf here f)) }
    ensures fit { Narrow (larges length utf here f) }
{
    let large = [
        length as u64,
        utf.first as u64,
        here.depth as u64,
        here.records as u64,
        here.stored as u64,
        f.a,
        f.b,
        f.c,
        f.d,
        f.e,
        0,
        0,
        0,
        0,
    ];
    put_words(&large, bytes, 16);
}

// All but the kinds of the open brackets.
fn put_core(core: Core, bytes: &mut [u8; 640])
    ensures { Kept core bytes.old bytes.new }
{
    let utf = core.utf;
    let here = core.here;
    let mode = here.mode;
    let due = here.due;
    let f = Flat::from(mode);
    put_small(utf, due, f, bytes);
    put_large(core.length, utf, here, f, bytes);
}

// The kinds of the open brackets, after the numbers.
fn put_kinds(kinds: &[u8; 64], bytes: &mut [u8; 640])
    ensures { (bytes.new ≡ sets bytes.old 128 kinds.now) × (length kinds.now ≡ 64) }
{
    store::copy(kinds, 0, 64, bytes, 128);
}

// The bytes over those that a caller keeps, as far as there are any.
fn give_back(bytes: &[u8; 640], state: &mut [u8])
    ensures { state.new ≡ sets state.old 0 bytes.now }
{
    store::copy(bytes, 0, 640, state, 0);
}

// A check, put into the bytes that a caller keeps, as far as there are any.
pub fn keep(check: Check, state: &mut [u8])
    ensures { (state.new ≡ sets state.old 0 (packed check)) × (unpacked (packed check) ≡ check) }
{
    let core = check.core;
    let kinds = check.kinds;
    let mut bytes = [0; 640];
    put_core(core, &mut bytes);
    put_kinds(&kinds, &mut bytes);
    give_back(&bytes, state);
}

// A mode's numbers.
#[tactic(auto, unfolding(crate::specs::Between::Packing::flat_at))]
fn flat_at(bytes: &[u8; 640]) -> Flat
    ensures { result ≡ flat_at bytes.now }
{
    Flat {
        kind: bytes[5],
        sort: bytes[6],
        x: bytes[7],
        y: bytes[8],
        a: little_endian::load8(bytes, 56),
        b: little_endian::load8(bytes, 64),
        c: little_endian::load8(bytes, 72),
        d: little_endian::load8(bytes, 80),
        e: little_endian::load8(bytes, 88),
    }
}

// How far a character of UTF-8 has come.
#[tactic(auto, unfolding(crate::specs::Between::Packing::utf_at))]
fn utf_at(bytes: &[u8; 640]) -> Utf
    ensures { result ≡ utf_at bytes.now }
{
    Utf {
        left: bytes[0],
        low: bytes[1],
        high: bytes[2],
        first: little_endian::load8(bytes, 24) as usize,
        broken: bytes[3] == 1,
    }
}

// Where the grammar stands.
fn here_at(bytes: &[u8; 640]) -> Here
    ensures { result ≡ here_at bytes.now }
{
    Here {
        mode: Mode::from(flat_at(bytes)),
        due: Due::from(usize::from(bytes[4])),
        depth: little_endian::load8(bytes, 32) as usize,
        records: little_endian::load8(bytes, 40) as usize,
        stored: little_endian::load8(bytes, 48) as usize,
    }
}

// The check of any bytes.
fn check_of(bytes: &[u8; 640]) -> Check
    ensures { result ≡ unpacked bytes.now }
{
    let mut kinds = [0; 64];
    store::copy(bytes, 128, 192, &mut kinds, 0);
    Check {
        core: Core {
            length: little_endian::load8(bytes, 16) as usize,
            utf: utf_at(bytes),
            here: here_at(bytes),
        },
        kinds,
    }
}

// The check of the bytes that a caller keeps; those that are missing count as zero.
pub fn kept(state: &[u8]) -> Check
    ensures { result ≡ unpacked (padded state.now) }
{
    let mut bytes = [0; 640];
    store::copy(state, 0, state.len(), &mut bytes, 0);
    check_of(&bytes)
}
