// Numbers, a byte at a time. The text's end does to a number what a zero byte does.
ghost use Rattle.std.specs.Prelude.{◌≡◌, true, false, ◌^◌, ◌≤◌, ◌<◌};
ghost use Rattle.meaning.specs.Letters.{ch};
ghost use Rattle.meaning.specs.Limits.{text_limit};
ghost use Rattle.machine.specs.Numeric.{fst_of, num_of, exp_of, dg_of, hex_of};
ghost use Rattle.items.specs.Between.NumberOrTime.{IsDigit};
ghost use Rattle.arriving.specs.Between.Figures as Spec;
ghost use Rattle.arriving.specs.Between.Figures.{Sound, begin_figure, next_figure, sane_figure, sane_decimal};

use crate::states::{Decimal, Figure, Mode, Moment, Open, Out, Slot, Stamp};
use items::number::{Acc, NONE};
use items::{hex_digit, number};
use meaning::{COEFFICIENT_MOST, POWER_LIMIT, Refusal};

// Sixteen times a number above this is no coefficient.
const SIXTEENTH: u64 = COEFFICIENT_MOST / 16;

// Where the letters after the first one of NaN and of Infinity begin in the list of words.
const NOT_A_NUMBER: usize = 17;

const INFINITY: usize = 21;

// The byte is taken, and the number goes on.
fn goes(f: Figure) -> Out
    ensures { result ≡ Spec.counts f }
{
    Out::Takes(Mode::Counting(f), 0)
}

// A decimal number with these digits.
fn decimal(first: usize, acc: Acc, fraction: usize) -> Decimal
    ensures { result ≡ Spec.decimal first acc fraction }
{
    Decimal {
        first,
        acc,
        fraction,
    }
}

// With one more digit, and so many more of a fraction.
fn digited(d: Decimal, b: u8, more: usize) -> Decimal
    requires { IsDigit b × Sound d × (more ≤ 1) }
    ensures { result ≡ Spec.digited d b more }
{
    let a = d.acc;
    let acc = number::push(a, b);
    decimal(d.first, acc, d.fraction + more)
}

// Whether digits times 10 ^ up / 10 ^ down are a number within the limits.
#[tactic(auto, unfolding(crate::specs::Between::Figures::fits))]
fn fits(a: Acc, up: usize, down: usize) -> bool
    requires { (a.z ≤ text_limit) × (up < 2 ^ 40) }
    ensures { result ≡ Spec.fits a up down }
{
    !a.over && (a.c == 0 || (a.z + up).abs_diff(down) <= POWER_LIMIT)
}

// The number has ended: its digits times 10 ^ up / 10 ^ down.
#[tactic(auto, unfolding(crate::specs::Between::Figures::settled))]
fn settled(d: Decimal, up: usize, down: usize) -> Out
    requires { Sound d × (up < 2 ^ 40) }
    ensures { result ≡ Spec.settled d up down }
{
    let a = d.acc;
    if fits(a, up, down) {
        return Out::Stops;
    }
    Out::Breaks(Refusal::BadNumber(d.first))
}

// Where a number may go on with no digit, at its first byte or after a sign.
fn undigited(first: usize, p: usize, b: u8) -> Out
    requires { IsDigit b → ⊥ }
    ensures { result ≡ Spec.on_sign p first b (fst_of b) }
{
    match b {
        b'.' => goes(Figure::Point(first)),
        b'N' => Out::Takes(Mode::Spelling(NOT_A_NUMBER), 0),
        b'I' => Out::Takes(Mode::Spelling(INFINITY), 0),
        _ => Out::Breaks(Refusal::NotGrammar(p)),
    }
}

// The first byte of a number or a time value.
#[tactic(auto, unfolding(crate::specs::Between::Figures::begin_figure))]
pub fn begin(p: usize, b: u8) -> Out
    ensures { result ≡ begin_figure p b }
{
    match b {
        b'+' | b'-' => goes(Figure::Sign(p)),
        b'0'..=b'9' => goes(Figure::Open(Open {
            first: p,
            count: 1,
            nought: b == b'0',
            value: (b - b'0') as u16,
            acc: number::push(NONE, b),
        })),
        _ => undigited(p, p, b),
    }
}

// After a sign.
fn signed(first: usize, p: usize, b: u8) -> Out
    ensures { result ≡ Spec.on_sign p first b (fst_of b) }
{
    match b {
        b'0' => goes(Figure::Nought(first)),
        b'1'..=b'9' => goes(Figure::Whole(digited(decimal(first, NONE, 0), b, 0))),
        _ => undigited(first, p, b),
    }
}

// After a first 0.
fn nought(first: usize, b: u8) -> Out
    ensures { result ≡ Spec.on_nought first (num_of b) }
{
    match b {
        b'.' => goes(Figure::Fraction(decimal(first, NONE, 0))),
        b'e' | b'E' => goes(Figure::Exponent(decimal(first, NONE, 0))),
        b'x' | b'X' => goes(Figure::HexMark(first)),
        _ => Out::Stops,
    }
}

// After digits of the whole part.
fn whole(d: Decimal, b: u8) -> Out
    requires { Sound d }
    ensures { result ≡ Spec.on_whole d b (num_of b) }
{
    match b {
        b'0'..=b'9' => goes(Figure::Whole(digited(d, b, 0))),
        b'.' => goes(Figure::Fraction(d)),
        b'e' | b'E' => goes(Figure::Exponent(d)),
        _ => settled(d, 0, 0),
    }
}

// After a point with no digit before it.
fn point(first: usize, p: usize, b: u8) -> Out
    ensures { result ≡ Spec.on_point p first b (dg_of b) }
{
    match b {
        b'0'..=b'9' => goes(Figure::Fraction(digited(decimal(first, NONE, 0), b, 1))),
        _ => Out::Breaks(Refusal::NotGrammar(p)),
    }
}

// After digits of a fraction, or after a point that follows others.
fn fraction(d: Decimal, b: u8) -> Out
    requires { Sound d }
    ensures { result ≡ Spec.on_fraction d b (num_of b) }
{
    match b {
        b'0'..=b'9' => goes(Figure::Fraction(digited(d, b, 1))),
        b'e' | b'E' => goes(Figure::Exponent(d)),
        _ => settled(d, 0, d.fraction),
    }
}

// After an exponent's sign.
fn exponent_sign(d: Decimal, down: bool, p: usize, b: u8) -> Out
    ensures { result ≡ Spec.on_exponent_sign p d down b (dg_of b) }
{
    match b {
        b'0'..=b'9' => goes(Figure::ExponentDigits {
            decimal: d,
            down,
            power: (b - b'0') as usize,
        }),
        _ => Out::Breaks(Refusal::NotGrammar(p)),
    }
}

// After the letter of an exponent.
fn exponent(d: Decimal, p: usize, b: u8) -> Out
    ensures { result ≡ Spec.on_exponent p d b (exp_of b) }
{
    match b {
        b'+' => goes(Figure::ExponentSign(d, false)),
        b'-' => goes(Figure::ExponentSign(d, true)),
        _ => exponent_sign(d, false, p, b),
    }
}

// The number has ended with this exponent.
#[tactic(auto, unfolding(crate::specs::Between::Figures::scaled))]
fn scaled(d: Decimal, down: bool, power: usize) -> Out
    requires { Sound d × (power < 10000000000) }
    ensures { result ≡ Spec.scaled d down power }
{
    if down {
        return settled(d, 0, d.fraction + power);
    }
    settled(d, power, d.fraction)
}

// After digits of an exponent.
fn exponent_digits(d: Decimal, down: bool, power: usize, b: u8) -> Out
    requires { Sound d × (power < 10000000000) }
    ensures { result ≡ Spec.on_exponent_digits d down power b (dg_of b) }
{
    match b {
        b'0'..=b'9' => goes(Figure::ExponentDigits {
            decimal: d,
            down,
            power: number::raise(power, b),
        }),
        _ => scaled(d, down, power),
    }
}

// After the mark of a hexadecimal number.
fn hex_mark(first: usize, p: usize, b: u8) -> Out
    ensures { result ≡ Spec.on_hex_mark p first (hex_of b) }
{
    match hex_digit::hex(b) {
        Some(x) => goes(Figure::Hex {
            first,
            value: u64::from(x),
            over: false,
        }),
        None => Out::Breaks(Refusal::NotGrammar(p)),
    }
}

// After hexadecimal digits. Such a number must itself be below 2^64.
fn hex(first: usize, value: u64, over: bool, b: u8) -> Out
    ensures { result ≡ Spec.on_hex first value over (hex_of b) }
{
    match hex_digit::hex(b) {
        Some(x) if value <= SIXTEENTH => goes(Figure::Hex {
            first,
            value: 16 * value + u64::from(x),
            over,
        }),
        Some(_) => goes(Figure::Hex {
            first,
            value,
            over: true,
        }),
        None if over => Out::Breaks(Refusal::BadNumber(first)),
        None => Out::Stops,
    }
}

// Digits with no sign that are no time; more digits after a first 0 are no number.
fn as_number(o: Open, p: usize, b: u8) -> Out
    requires { o.acc.z ≤ text_limit }
    ensures { result ≡ Spec.as_number p o b (num_of b) }
{
    if o.nought {
        if o.count <= 1 {
            return nought(o.first, b);
        }
        return Out::Breaks(Refusal::NotGrammar(p));
    }
    whole(decimal(o.first, o.acc, 0), b)
}

// One more digit with no sign.
fn open_digit(o: Open, p: usize, b: u8) -> Out
    requires { IsDigit b × (o.acc.z ≤ text_limit) }
    ensures { result ≡ Spec.on_digit p o b }
{
    if o.count < 4 {
        return goes(Figure::Open(Open {
            count: o.count + 1,
            value: 10 * (o.value % 1000) + (b - b'0') as u16,
            acc: number::push(o.acc, b),
            ..o
        }));
    }
    as_number(o, p, b)
}

// A colon after digits with no sign: two may be an hour.
fn open_colon(o: Open, p: usize) -> Out
    requires { o.acc.z ≤ text_limit }
    ensures { result ≡ Spec.on_colon p o (ch ":") }
{
    if o.count == 2 {
        let s = Stamp {
            first: o.first,
            dated: false,
            good: o.value <= 23,
        };
        let m = Moment::Field {
            slot: Slot::Minute,
            left: 2,
            value: 0,
        };
        return Out::Takes(Mode::Timing(s, m), 0);
    }
    as_number(o, p, b':')
}

// A minus after digits with no sign: four may be a year.
fn open_minus(o: Open, p: usize) -> Out
    requires { o.acc.z ≤ text_limit }
    ensures { result ≡ Spec.on_minus p o (ch "-") }
{
    if o.count == 4 {
        let s = Stamp {
            first: o.first,
            dated: true,
            good: true,
        };
        let m = Moment::Field {
            slot: Slot::Month(o.value),
            left: 2,
            value: 0,
        };
        return Out::Takes(Mode::Timing(s, m), 0);
    }
    as_number(o, p, b'-')
}

// After digits with no sign, a number's or a time's.
fn open_digits(o: Open, p: usize, b: u8) -> Out
    requires { o.acc.z ≤ text_limit }
    ensures { result ≡ Spec.on_open p o b (num_of b) }
{
    match b {
        b'0'..=b'9' => open_digit(o, p, b),
        b':' => open_colon(o, p),
        b'-' => open_minus(o, p),
        _ => as_number(o, p, b),
    }
}

// What the byte b does at the place p to a number.
#[tactic(auto, unfolding(crate::specs::Between::Figures::next_figure, crate::specs::Between::Figures::sane_figure))]
pub fn figure_next(f: Figure, p: usize, b: u8) -> Out
    requires { (sane_figure p f ≡ true) × (p ≤ text_limit) }
    ensures { result ≡ next_figure f p b }
{
    match f {
        Figure::Sign(q) => signed(q, p, b),
        Figure::Nought(q) => nought(q, b),
        Figure::Point(q) => point(q, p, b),
        Figure::HexMark(q) => hex_mark(q, p, b),
        Figure::Hex { first, value, over } => hex(first, value, over, b),
        Figure::Open(o) => open_digits(o, p, b),
        Figure::Whole(d) => whole(d, b),
        Figure::Fraction(d) => fraction(d, b),
        Figure::Exponent(d) => exponent(d, p, b),
        Figure::ExponentSign(d, down) => exponent_sign(d, down, p, b),
        Figure::ExponentDigits {
            decimal,
            down,
            power,
        } => exponent_digits(decimal, down, power, b),
    }
}

// Whether a decimal number is within the bounds that its sums need, after n bytes.
fn sane_decimal(d: Decimal, n: usize) -> bool
    ensures { result ≡ sane_decimal n d }
{
    d.acc.z <= n && d.fraction <= n
}

// The same of any number.
#[tactic(auto, unfolding(crate::specs::Between::Figures::sane_figure))]
pub fn sane_figure(f: Figure, n: usize) -> bool
    ensures { result ≡ sane_figure n f }
{
    match f {
        Figure::Sign(_)
        | Figure::Nought(_)
        | Figure::Point(_)
        | Figure::HexMark(_)
        | Figure::Hex { .. } => true,
        Figure::Open(o) => o.acc.z <= n,
        Figure::Whole(d) | Figure::Fraction(d) | Figure::Exponent(d) | Figure::ExponentSign(d, _) =>
            sane_decimal(d, n),
        Figure::ExponentDigits { decimal, power, .. } => sane_decimal(decimal, n)
            && power < 10000000000,
    }
}
