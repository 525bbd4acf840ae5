// A record and its four numbers, each way.
ghost use Rattle.std.specs.Prelude.{◌≡◌, ◌+◌, ◌≤◌, ◌<◌, ◌^◌, length};
ghost use Rattle.meaning.specs.declared.Record.{Record};
ghost use Rattle.meaning.specs.Between.Words.{month_day, four_words, FitDate};
ghost use Rattle.tape.specs.Between.Shapes.{Written, Holds, Loaded, not_finite, finite, date_of};
ghost use Rattle.tape.specs.Between.Shapes.{only_record, NoNumber, Common, Shaped, words_at};

use crate::{Words, little_endian};
use meaning::{Date, Number, Record, Time};

// The marks, two letters each; in a constant no function of std is called.
const NU: u64 = b'n' as u64 + b'u' as u64 * 256;

const BO: u64 = b'b' as u64 + b'o' as u64 * 256;

pub const NB: u64 = b'n' as u64 + b'b' as u64 * 256;

const NX: u64 = b'n' as u64 + b'x' as u64 * 256;

pub const ST: u64 = b's' as u64 + b't' as u64 * 256;

pub const KY: u64 = b'k' as u64 + b'y' as u64 * 256;

const BY: u64 = b'b' as u64 + b'y' as u64 * 256;

const LD: u64 = b'l' as u64 + b'd' as u64 * 256;

const LT: u64 = b'l' as u64 + b't' as u64 * 256;

const DT: u64 = b'd' as u64 + b't' as u64 * 256;

const OD: u64 = b'o' as u64 + b'd' as u64 * 256;

pub const AR: u64 = b'a' as u64 + b'r' as u64 * 256;

pub const OB: u64 = b'o' as u64 + b'b' as u64 * 256;

impl From<Number> for Words {
    ghost from_gives = { λ n w. Written (Record.Number n) w };

    // Mark `nb` with sign, power and coefficient; or `nx` with 0 for NaN, 1 for Infinity and 2 for -Infinity.
    fn from(n: Number) -> Words {
        match n {
            Number::Finite {
                minus,
                coefficient,
                power,
            } => Words {
                mark: NB,
                low: u64::from(minus),
                mid: u64::from(power.cast_unsigned()),
                high: coefficient,
            },
            Number::NotANumber => Words {
                mark: NX,
                low: 0,
                mid: 0,
                high: 0,
            },
            Number::Infinite { minus } => Words {
                mark: NX,
                low: 0,
                mid: 1 + u64::from(minus),
                high: 0,
            },
        }
    }
}

// Month, day and offset in bytes 4-7.
fn month_day(d: Date, offset: u16) -> u64
    ensures { (result ≡ month_day d offset) × FitDate d }
{
    u64::from(d.month) + u64::from(d.day) * 256 + u64::from(offset) * 65536
}

impl From<Time> for Words {
    ghost from_gives = { λ t w. Written (Record.Time t) w };

    // The four numbers of a time value; the parts that its type has not are 0.
    fn from(t: Time) -> Words {
        match t {
            Time::LocalDate(d) => Words {
                mark: LD,
                low: u64::from(d.year),
                mid: month_day(d, 0),
                high: 0,
            },
            Time::LocalTime(clock) => Words {
                mark: LT,
                low: 0,
                mid: 0,
                high: clock,
            },
            Time::LocalDateTime { date: d, clock } => Words {
                mark: DT,
                low: u64::from(d.year),
                mid: month_day(d, 0),
                high: clock,
            },
            Time::OffsetDateTime {
                date: d,
                clock,
                offset,
            } => Words {
                mark: OD,
                low: u64::from(d.year),
                mid: month_day(d, offset.cast_unsigned()),
                high: clock,
            },
        }
    }
}

// The four numbers of a record that has two: a length and a start in the store, or a count and an end.
fn two_words(mark: u64, first: usize, second: usize) -> Words
    ensures { Holds result mark 0 first second }
{
    Words {
        mark,
        low: 0,
        mid: first as u64,
        high: second as u64,
    }
}

impl From<Record> for Words {
    ghost from_gives = { λ r w. Written r w };

    // The four numbers of a record.
    fn from(r: Record) -> Words {
        match r {
            Record::Null => Words {
                mark: NU,
                low: 0,
                mid: 0,
                high: 0,
            },
            Record::Bool(b) => Words {
                mark: BO,
                low: 0,
                mid: u64::from(b),
                high: 0,
            },
            Record::Number(n) => Words::from(n),
            Record::Str { length, start } => two_words(ST, length, start),
            Record::Key { length, start } => two_words(KY, length, start),
            Record::Bin { length, start } => two_words(BY, length, start),
            Record::Time(t) => Words::from(t),
            Record::Array { count, end } => two_words(AR, count, end),
            Record::Object { count, end } => two_words(OB, count, end),
        }
    }
}

// The sixteen bytes of four numbers: of each as many low ones as it has place for.
pub fn put_words(bytes: &mut [u8], w: Words)
    requires { length bytes.old ≡ 16 }
    ensures { bytes.new ≡ four_words w.mark w.low w.mid w.high }
{
    bytes[0..2].copy_from_slice(&((w.mark % 65536) as u16).to_le_bytes());
    bytes[2..4].copy_from_slice(&((w.low % 65536) as u16).to_le_bytes());
    bytes[4..8].copy_from_slice(&((w.mid % 4294967296) as u32).to_le_bytes());
    little_endian::store8(bytes, 8, w.high);
}

// 0 is NaN and 2 is -Infinity; any other number is taken for Infinity, and not tested here.
fn not_finite(mid: u64) -> Number
    ensures { result ≡ not_finite mid }
{
    match mid {
        0 => Number::NotANumber,
        2 => Number::Infinite { minus: true },
        _ => Number::Infinite { minus: false },
    }
}

// A finite number: its sign in byte 2, its power in bytes 4-7, its coefficient in bytes 8-15.
fn finite(w: Words) -> Number
    requires { Loaded w }
    ensures { result ≡ finite w.low w.mid w.high }
{
    Number::Finite {
        minus: w.low == 1,
        coefficient: w.high,
        power: (w.mid as u32).cast_signed(),
    }
}

// The year is in bytes 2-3, the month in byte 4, the day in byte 5.
fn date_of(low: u64, mid: u64) -> Date
    requires { low < 2 ^ 16 }
    ensures { result ≡ date_of low mid }
{
    Date {
        year: low as u16,
        month: (mid % 256) as u8,
        day: (mid / 256 % 256) as u8,
    }
}

// The record with bytes in the store that has these four numbers, or a time or a container; null at every other mark. Of a flag's or a number's
// mark nothing is promised: `record_of` has taken these.
fn bytes_of(w: Words) -> Record
    requires { Loaded w }
    ensures { NoNumber w.mark → result ≡ only_record w }
{
    let (length, start) = (w.mid as usize, w.high as usize);
    let (count, end) = (length, start);
    match w.mark {
        ST => Record::Str { length, start },
        KY => Record::Key { length, start },
        BY => Record::Bin { length, start },
        LD => Record::Time(Time::LocalDate(date_of(w.low, w.mid))),
        LT => Record::Time(Time::LocalTime(w.high)),
        DT => Record::Time(Time::LocalDateTime {
            date: date_of(w.low, w.mid),
            clock: w.high,
        }),
        OD => Record::Time(Time::OffsetDateTime {
            date: date_of(w.low, w.mid),
            clock: w.high,
            offset: ((w.mid / 65536) as u16).cast_signed(),
        }),
        AR => Record::Array { count, end },
        OB => Record::Object { count, end },
        _ => Record::Null,
    }
}

// The record with these four numbers, if there is one; what they must be beside the mark is not tested here. The rest is a function of its own: in one
// `match` a number's power and a time's offset, which share a place, were written by halves and read whole, and that took 5 ns a record.
fn record_of(w: Words) -> Record
    requires { Loaded w }
    ensures { result ≡ only_record w }
{
    match w.mark {
        BO => Record::Bool(w.mid == 1),
        NB => Record::Number(finite(w)),
        NX => Record::Number(not_finite(w.mid)),
        _ => bytes_of(w),
    }
}

// The same. Keys, strings, numbers and containers, which fill most tapes, come first: so much is compiled into the
// callers. The last answer has a local of its own, so that the others need no place in memory. Kept: the four numbers are put
// together anew for the call. `record_of(w)` would store them at every record: counted, 9 percent more in the writer's walk.
fn common_record(w: Words) -> Record
    requires { Loaded w }
    ensures { result ≡ only_record w }
{
    let (length, start) = (w.mid as usize, w.high as usize);
    let (count, end) = (length, start);
    match w.mark {
        KY => Record::Key { length, start },
        ST => Record::Str { length, start },
        NB => Record::Number(finite(w)),
        AR => Record::Array { count, end },
        OB => Record::Object { count, end },
        _ => {
            let r = record_of(Words { ..w });
            r
        }
    }
}

// The record with these four numbers, or none: a record's own numbers are these, or no record has them.
fn any_shape(w: Words) -> Option<Record>
    requires { Loaded w }
    ensures { Shaped w result }
{
    let r = record_of(w);
    if Words::from(r) == w { Some(r) } else { None }
}

// Whether these are the numbers of a key, a string, a number or a container: their unnamed bytes are zero.
fn common(w: Words) -> bool
    requires { Loaded w }
    ensures { Common w result }
{
    match w.mark {
        NB => w.low <= 1,
        KY | ST | AR | OB => w.low == 0,
        _ => false,
    }
}

// The same as of any record, the common ones first.
fn shape_of(w: Words) -> Option<Record>
    requires { Loaded w }
    ensures { Shaped w result }
{
    if common(w) {
        return Some(common_record(w));
    }
    let s = any_shape(w);
    s
}

// The four numbers in the sixteen bytes from the place `at`.
pub fn words_at(tape: &[u8], at: usize) -> Words
    requires { at + 16 ≤ length tape.now }
    ensures { result ≡ words_at tape.now at }
{
    Words {
        mark: u64::from(u16::from_le_bytes([tape[at], tape[at + 1]])),
        low: u64::from(u16::from_le_bytes([tape[at + 2], tape[at + 3]])),
        mid: u64::from(u32::from_le_bytes([
            tape[at + 4],
            tape[at + 5],
            tape[at + 6],
            tape[at + 7],
        ])),
        high: little_endian::load8(tape, at + 8),
    }
}

// What stands in the sixteen bytes from the place `at`.
pub fn shape_at(tape: &[u8], at: usize) -> Option<Record>
    requires { at + 16 ≤ length tape.now }
    ensures { Shaped (words_at tape.now at) result }
{
    shape_of(words_at(tape, at))
}

// The one record that may stand in the sixteen bytes from the place `at`.
pub fn only_at(tape: &[u8], at: usize) -> Record
    requires { at + 16 ≤ length tape.now }
    ensures { result ≡ only_record (words_at tape.now at) }
{
    common_record(words_at(tape, at))
}
