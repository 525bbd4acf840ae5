// Whether a record's own fields are as they must be, each rule by itself.
ghost use Rattle.std.specs.Prelude.{◌≤◌, ◌<◌, nat_abs};
ghost use Rattle.meaning.specs.Limits.{day, offset_limit};
ghost use Rattle.meaning.specs.Good.{GoodFinite, GoodNumber, GoodDate, GoodTime};
ghost use Rattle.meaning.specs.Look.{Inside, Utf8Inside, Ends, OwnFields};
ghost use Rattle.rules.specs.Between.Tests.{Decides};

use meaning::{DAY, Date, Number, OFFSET_LIMIT, POWER_LIMIT, Record, Time};

// Zero has power 0; any other coefficient does not end in the digit 0, and its power lies from -9,999 to 9,999.
pub fn good_finite(coefficient: u64, power: i32) -> bool
    ensures { Decides (GoodFinite coefficient power) result }
{
    if coefficient == 0 {
        return power == 0;
    }
    coefficient % 10 != 0 && power.unsigned_abs() as usize <= POWER_LIMIT
}

// Only a finite number has a rule.
fn good_number(n: Number) -> bool
    ensures { Decides (GoodNumber n) result }
{
    match n {
        Number::Finite {
            coefficient,
            power,
            ..
        } => good_finite(coefficient, power),
        Number::NotANumber | Number::Infinite { .. } => true,
    }
}

// Whether the calendar has this date.
fn good_date(d: Date) -> bool
    ensures { Decides (GoodDate d) result }
{
    rules::date(u64::from(d.year), u64::from(d.month), u64::from(d.day)).is_ok()
}

// A time of day is less than a whole day.
fn good_clock(clock: u64) -> bool
    ensures { Decides (clock < day) result }
{
    clock < DAY
}

// An offset lies within its limit on either side of 0.
fn good_offset(offset: i16) -> bool
    ensures { Decides (nat_abs offset ≤ offset_limit) result }
{
    offset.unsigned_abs() <= OFFSET_LIMIT as u16
}

// Each part that the time type has is good.
fn good_time(t: Time) -> bool
    ensures { Decides (GoodTime t) result }
{
    match t {
        Time::LocalDate(d) => good_date(d),
        Time::LocalTime(clock) => good_clock(clock),
        Time::LocalDateTime { date: d, clock } => good_clock(clock) && good_date(d),
        Time::OffsetDateTime {
            date: d,
            clock,
            offset,
        } => good_clock(clock) && good_offset(offset) && good_date(d),
    }
}

// The bytes lie inside the store; the sum of start and length is never made.
fn inside(length: usize, start: usize, store: &[u8]) -> bool
    ensures { Decides (Inside length start store.now) result }
{
    start <= store.len() && length <= store.len() - start
}

// Inside the store, and UTF-8.
pub fn utf8_inside(length: usize, start: usize, store: &[u8]) -> bool
    ensures { Decides (Utf8Inside length start store.now) result }
{
    inside(length, start, store) && rules::utf8(&store[start..start + length]).is_ok()
}

// A container's end is past its own index and not above the number of whole records.
pub fn ends(end: usize, index: usize, whole: usize) -> bool
    ensures { Decides (Ends end index whole) result }
{
    index < end && end <= whole
}

// The fields of the record at this index, among so many whole records, beside this store.
pub fn own_fields(r: Record, index: usize, whole: usize, store: &[u8]) -> bool
    ensures { Decides (OwnFields r index whole store.now) result }
{
    match r {
        Record::Null | Record::Bool(_) => true,
        Record::Number(n) => good_number(n),
        Record::Str { length, start } | Record::Key { length, start } => utf8_inside(
            length, start, store,
        ),
        Record::Bin { length, start } => inside(length, start, store),
        Record::Time(t) => good_time(t),
        Record::Array { end, .. } | Record::Object { end, .. } => ends(end, index, whole),
    }
}
