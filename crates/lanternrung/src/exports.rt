// The calls for C and Rust (include/lanternrung.h), which crate `lanternrung_c` exports under these names. Each passes on the library's answer, as its
// number and place (docs/FORMAT.md, 10.1).
ghost use Rattle.std.specs.Prelude.{◌≡◌};
ghost use Rattle.lanternrung.specs.Told.{sizes_of, text_of, refused_fields, plain_fields, container_fields, number_fields};
ghost use Rattle.lanternrung.specs.Told.{dated_fields, time_fields, fields_of};
ghost use Rattle.lanternrung.specs.Told.{Utf8Told, DateTold, MeasureTold, ReadTold, LookTold, JaxnTold, JsonTold};
ghost use Rattle.lanternrung.specs.Told.{CheckStartTold, CheckFeedTold, CheckFinishTold};

use crate::{number, place};
use arriving::packing;
use meaning::{Date, Number, Record, Refusal, Time};
use reader::Counts;
pub use rules::exports::Status;

// A refusal's number, 0 where there is none, and its place; what a text needs or has filled.
#[repr(C)]
#[derive(Clone, Copy)]
pub struct Sizes {
    pub refused: u32,
    pub place: u64,
    pub records: u64,
    pub bytes: u64,
}

// The same, and how many bytes were written.
#[repr(C)]
#[derive(Clone, Copy)]
pub struct Text {
    pub refused: u32,
    pub place: u64,
    pub length: u64,
}

// The same, and a record with its fields; those that its kind has not are 0.
#[repr(C)]
#[derive(Clone, Copy)]
pub struct Fields {
    pub refused: u32,
    pub place: u64,
    pub kind: u32,
    pub flag: u32,
    pub power: i32,
    pub coefficient: u64,
    pub length: u64,
    pub start: u64,
    pub year: u32,
    pub month: u32,
    pub day: u32,
    pub offset: i32,
    pub time: u64,
    pub end: u64,
    pub count: u64,
}

// The reader's counts, or its refusal with both counts 0.
impl From<Result<Counts, Refusal>> for Sizes {
    ghost from_gives = { λ a r. r ≡ sizes_of a };

    // The counts, or the refusal's number and place.
    fn from(a: Result<Counts, Refusal>) -> Sizes {
        match a {
            Ok(counts) => Sizes {
                refused: 0,
                place: 0,
                records: counts.records as u64,
                bytes: counts.bytes as u64,
            },
            Err(why) => Sizes {
                refused: number(why),
                place: place(why),
                records: 0,
                bytes: 0,
            },
        }
    }
}

// The length of what was written, or the refusal with length 0.
impl From<Result<usize, Refusal>> for Text {
    ghost from_gives = { λ a r. r ≡ text_of a };

    // The length, or the refusal's number and place.
    fn from(a: Result<usize, Refusal>) -> Text {
        match a {
            Ok(size) => Text {
                refused: 0,
                place: 0,
                length: size as u64,
            },
            Err(why) => Text {
                refused: number(why),
                place: place(why),
                length: 0,
            },
        }
    }
}

// A record of no kind, all of whose fields are 0.
const NOTHING: Fields = Fields {
    refused: 0,
    place: 0,
    kind: 0,
    flag: 0,
    power: 0,
    coefficient: 0,
    length: 0,
    start: 0,
    year: 0,
    month: 0,
    day: 0,
    offset: 0,
    time: 0,
    end: 0,
    count: 0,
};

// A record of this kind whose other fields are 0, but for these.
fn plain(kind: u32, flag: u32, length: usize, start: usize) -> Fields
    ensures { result ≡ plain_fields kind flag length start }
{
    Fields {
        kind,
        flag,
        length: length as u64,
        start: start as u64,
        ..NOTHING
    }
}

// An array or an object.
fn container(kind: u32, count: usize, end: usize) -> Fields
    ensures { result ≡ container_fields kind count end }
{
    Fields {
        kind,
        end: end as u64,
        count: count as u64,
        ..NOTHING
    }
}

// A date with a time of day and an offset, either 0 where the kind has none.
fn dated(kind: u32, d: Date, clock: u64, offset: i32) -> Fields
    ensures { result ≡ dated_fields kind d clock offset }
{
    Fields {
        kind,
        year: u32::from(d.year),
        month: u32::from(d.month),
        day: u32::from(d.day),
        offset,
        time: clock,
        ..NOTHING
    }
}

// A refusal: all but its number and place are 0.
impl From<Refusal> for Fields {
    ghost from_gives = { λ why r. r ≡ refused_fields why };

    // Its number and place.
    fn from(why: Refusal) -> Fields {
        Fields {
            refused: number(why),
            place: place(why),
            ..NOTHING
        }
    }
}

// Kind 3 if finite; otherwise kind 4, with flag 0 for NaN, 1 for Infinity and 2 for -Infinity.
impl From<Number> for Fields {
    ghost from_gives = { λ n r. r ≡ number_fields n };

    // The sign, the power and the coefficient that the number has.
    fn from(n: Number) -> Fields {
        match n {
            Number::NotANumber => plain(4, 0, 0, 0),
            Number::Infinite { minus } => plain(4, 1 + u32::from(minus), 0, 0),
            Number::Finite {
                minus,
                coefficient,
                power,
            } => Fields {
                kind: 3,
                flag: u32::from(minus),
                power,
                coefficient,
                ..NOTHING
            },
        }
    }
}

// Kinds 8 to 11, one for each time type.
impl From<Time> for Fields {
    ghost from_gives = { λ t r. r ≡ time_fields t };

    // The parts that the time type has.
    fn from(t: Time) -> Fields {
        match t {
            Time::LocalDate(d) => dated(8, d, 0, 0),
            Time::LocalTime(clock) => Fields {
                kind: 9,
                time: clock,
                ..NOTHING
            },
            Time::LocalDateTime { date, clock } => dated(10, date, clock, 0),
            Time::OffsetDateTime {
                date,
                clock,
                offset,
            } => dated(11, date, clock, i32::from(offset)),
        }
    }
}

// A record's kind as its number, and the fields that the kind has.
impl From<Record> for Fields {
    ghost from_gives = { λ x r. r ≡ fields_of x };

    // The fields of each kind.
    fn from(r: Record) -> Fields {
        match r {
            Record::Null => plain(1, 0, 0, 0),
            Record::Bool(b) => plain(2, u32::from(b), 0, 0),
            Record::Number(n) => Fields::from(n),
            Record::Str { length, start } => plain(5, 0, length, start),
            Record::Key { length, start } => plain(6, 0, length, start),
            Record::Bin { length, start } => plain(7, 0, length, start),
            Record::Time(t) => Fields::from(t),
            Record::Array { count, end } => container(12, count, end),
            Record::Object { count, end } => container(13, count, end),
        }
    }
}

// Whether the bytes are UTF-8: refusal 2, with its place, where they are not.
pub fn lanternrung_utf8(bytes: &[u8]) -> Status
    ensures { Utf8Told bytes.now result }
{
    Status::from(rules::utf8(bytes))
}

// Whether there is such a date: refusal 5, at place 0, where there is none.
pub fn lanternrung_date(year: u64, month: u64, day: u64) -> Status
    ensures { DateTold year month day result }
{
    Status::from(rules::date(year, month, day))
}

// How many records and store bytes the text needs, or the refusal.
pub fn lanternrung_measure(text: &[u8]) -> Sizes
    ensures { MeasureTold text.now result }
{
    Sizes::from(reader::measure(text))
}

// How many records and store bytes the text has filled, or the refusal.
pub fn lanternrung_read(text: &[u8], tape: &mut [u8], store: &mut [u8]) -> Sizes
    ensures { ReadTold text.now tape.old store.old result tape.new store.new }
{
    Sizes::from(reader::read(text, tape, store))
}

// The record at this index, or the refusal.
pub fn lanternrung_look(tape: &[u8], store: &[u8], index: u64) -> Fields
    ensures { LookTold tape.now store.now index result }
{
    match tape::look(tape, store, index as usize) {
        Ok(r) => Fields::from(r),
        Err(why) => Fields::from(why),
    }
}

// The length of the canonical text in the output, or the refusal.
pub fn lanternrung_write_jaxn(tape: &[u8], store: &[u8], out: &mut [u8]) -> Text
    ensures { JaxnTold tape.now store.now out.old result out.new }
{
    Text::from(writer::write_jaxn(tape, store, out))
}

// The length of the JSON text in the output, or the refusal.
pub fn lanternrung_write_json(tape: &[u8], store: &[u8], out: &mut [u8]) -> Text
    ensures { JsonTold tape.now store.now out.old result out.new }
{
    Text::from(writer::write_json(tape, store, out))
}

// A check of a text in parts begins: its state is put into the first bytes lent, whatever they held.
pub fn lanternrung_check_start(state: &mut [u8])
    ensures { CheckStartTold state.old state.new }
{
    packing::keep(arriving::check_start(), state);
}

// The next part of the text.
pub fn lanternrung_check_feed(state: &mut [u8], part: &[u8])
    ensures { CheckFeedTold state.old part.now state.new }
{
    packing::keep(arriving::check_feed(packing::kept(state), part), state);
}

// What `lanternrung_measure` hands over for the parts joined, with 15 left out. The state stays as it is.
pub fn lanternrung_check_finish(state: &[u8]) -> Sizes
    ensures { CheckFinishTold state.now result }
{
    Sizes::from(arriving::check_finish(packing::kept(state)))
}
