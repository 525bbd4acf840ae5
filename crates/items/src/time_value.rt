// Time values. The check of one is made at its end, and gives 5 at its first byte, q.
ghost use Rattle.std.specs.Prelude.{◌≡◌, ◌&&◌, ◌⊎◌, ◌+◌, ◌*◌, ◌^◌, ◌<◌, Ok};
ghost use Rattle.meaning.specs.Clock.{time_of_day};
ghost use Rattle.meaning.specs.declared.Time.TheVariants as Time;
ghost use Rattle.grammar.specs.Times.{signed};
ghost use Rattle.machine.specs.Numeric as Numeric;
ghost use Rattle.machine.specs.Numeric.{field};
ghost use Rattle.items.specs.declared.Item.TheVariants as Item;
ghost use Rattle.items.specs.Between.Fractions.{FractionSays};
ghost use Rattle.items.specs.Between.NumberOrTime.{Reads, Closes, Place, TwoSays, ThenSays, when_of, clock_test, Zoned, NanosSays, taken};

use crate::clock::Clock;
use crate::{Item, NotGrammar, Scanned, Taken, number};
use meaning::{Date, Refusal, SECOND, Time};

// A date and a time of day as they are written, and the place of their first byte.
#[derive(Clone, Copy)]
struct Moment {
    first: usize,
    date: Date,
    clock: Clock,
}

// A field of two digits.
fn two(s: &[u8], i: usize) -> Result<Taken<u8>, NotGrammar>
    requires { Place s.now i }
    ensures { TwoSays s.now i result }
{
    let tens = number::digit_here(s, i)?;
    let k = i + 1;
    let ones = number::digit_here(s, k)?;
    Ok(Taken {
        value: 10 * tens + ones,
        end: k + 1,
    })
}

// A field of two digits and the byte that must follow it.
fn two_then(s: &[u8], i: usize, mark: u8) -> Result<Taken<u8>, NotGrammar>
    requires { Place s.now i }
    ensures { ThenSays s.now i mark result }
{
    let field = two(s, i)?;
    let k = field.end;
    if k >= s.len() || s[k] != mark {
        return Err(NotGrammar { place: k });
    }
    Ok(Taken {
        value: field.value,
        end: k + 1,
    })
}

// Whether a date is one of the calendar's.
fn is_date(d: Date) -> bool
    ensures { result ≡ Numeric.ok_date d }
{
    rules::date(d.year as u64, d.month as u64, d.day as u64).is_ok()
}

// Whether hour, minute and second are in range.
fn is_clock(c: Clock) -> bool
    ensures { result ≡ clock_test c }
{
    c.hour <= 23 && c.minute <= 59 && c.second <= 59
}

// The nanoseconds since midnight.
fn time_of_day(c: Clock) -> u64
    ensures { result ≡ time_of_day c.hour c.minute c.second c.nanos }
{
    let h = c.hour as u64;
    let m = c.minute as u64;
    let s = c.second as u64;
    ((h * 60 + m) * 60 + s) * SECOND + c.nanos
}

// A time value before the place `at`.
fn time(t: Time, at: usize) -> Scanned
    ensures { result ≡ Ok (taken (Item.Time t) at) }
{
    Ok(Taken {
        value: Item::Time(t),
        end: at,
    })
}

// A date that ends before the place `at`.
fn date_done(q: usize, d: Date, at: usize) -> Scanned
    ensures { Closes at (Numeric.date_done q d) result }
{
    if is_date(d) {
        return time(Time::LocalDate(d), at);
    }
    Err(Refusal::BadTime(q))
}

// A time of day that ends before the place `at`.
fn local_time(q: usize, c: Clock, at: usize) -> Scanned
    ensures { Closes at (Numeric.clock_done q Numeric.alone c.hour c.minute c.second c.nanos) result }
{
    if is_clock(c) {
        return time(Time::LocalTime(time_of_day(c)), at);
    }
    Err(Refusal::BadTime(q))
}

// A date and a time of day that end before the place `at`.
fn local_date_time(m: Moment, at: usize) -> Scanned
    ensures { Closes at (Numeric.clock_done m.first (Numeric.on m.date) m.clock.hour m.clock.minute m.clock.second m.clock.nanos) result }
{
    if is_date(m.date) && is_clock(m.clock) {
        return time(
            Time::LocalDateTime {
                date: m.date,
                clock: time_of_day(m.clock),
            },
            at,
        );
    }
    Err(Refusal::BadTime(m.first))
}

// The same with an offset.
fn offset_date_time(m: Moment, offset: i16, at: usize) -> Scanned
    ensures { Closes at (Numeric.tested m.first (Numeric.ok_date m.date && clock_test m.clock)
        (Time.OffsetDateTime m.date (time_of_day m.clock.hour m.clock.minute m.clock.second m.clock.nanos) offset)) result }
{
    if is_date(m.date) && is_clock(m.clock) {
        return time(
            Time::OffsetDateTime {
                date: m.date,
                clock: time_of_day(m.clock),
                offset,
            },
            at,
        );
    }
    Err(Refusal::BadTime(m.first))
}

// Hours and minutes with their sign.
fn minutes(minus: bool, hour: u8, minute: u8) -> i16
    ensures { result ≡ signed minus (hour * 60 + minute) }
{
    number::with_sign(minus, hour as usize * 60 + minute as usize) as i16
}

// After an offset's hour and its colon.
fn offset_minute(s: &[u8], m: Moment, minus: bool, hour: u8, i: usize) -> Scanned
    requires { Place s.now i }
    ensures { Reads s.now i
        (field m.first (Numeric.offset_minute m.date m.clock.hour m.clock.minute m.clock.second m.clock.nanos minus hour) 2 0) result }
{
    let minute = two(s, i)?;
    if hour > 23 || minute.value > 59 {
        return Err(Refusal::BadTime(m.first));
    }
    offset_date_time(m, minutes(minus, hour, minute.value), minute.end)
}

// After an offset's sign.
fn offset(s: &[u8], m: Moment, minus: bool, i: usize) -> Scanned
    requires { Place s.now i }
    ensures { Reads s.now i (field m.first (Numeric.offset_hour m.date m.clock.hour m.clock.minute m.clock.second m.clock.nanos minus) 2 0) result }
{
    let hour = two_then(s, i, b':')?;
    offset_minute(s, m, minus, hour.value, hour.end)
}

// After a date and a time of day.
fn zone(s: &[u8], m: Moment, at: usize) -> Scanned
    requires { Place s.now at }
    ensures { Zoned s.now m.first (Numeric.on m.date) m.clock at result }
{
    if at >= s.len() {
        return local_date_time(m, at);
    }
    match s[at] {
        b'Z' | b'z' => offset_date_time(m, 0, at + 1),
        b'+' => offset(s, m, false, at + 1),
        b'-' => offset(s, m, true, at + 1),
        _ => local_date_time(m, at),
    }
}

// After a time of day: a local time has no offset.
fn clocked(s: &[u8], first: usize, w: Option<Date>, clock: Clock, at: usize) -> Scanned
    requires { Place s.now at }
    ensures { Zoned s.now first (when_of w) clock at result }
{
    match w {
        None => local_time(first, clock, at),
        Some(date) => zone(s, Moment { first, date, clock }, at),
    }
}

// The fraction's digits from a place on, in nanoseconds: those after the ninth weigh nothing.
fn nano_digits(s: &[u8], from: usize) -> Taken<u64>
    requires { Place s.now from }
    ensures { NanosSays s.now from result }
{
    let mut nanos: u64 = 0;
    let mut weight = SECOND / 10;
    for i in from..s.len() {
        let b = s[i];
        if !b.is_ascii_digit() {
            return Taken {
                value: nanos,
                end: i,
            };
        }
        // Without the test each digit after the ninth, however many they are, would cost a multiplication and a division.
        if weight > 0 {
            nanos += weight * (b - b'0') as u64;
            weight /= 10;
        }
    }
    Taken {
        value: nanos,
        end: s.len(),
    }
}

// A second's fraction or none, after the second's digits.
fn second_part(s: &[u8], at: usize) -> Result<Taken<u64>, NotGrammar>
    requires { Place s.now at }
    ensures { FractionSays s.now at result }
{
    if at >= s.len() || s[at] != b'.' {
        return Ok(Taken { value: 0, end: at });
    }
    let i = at + 1;
    number::digit_here(s, i)?;
    Ok(nano_digits(s, i))
}

// After a second's digits.
fn after_second(
    s: &[u8],
    q: usize,
    w: Option<Date>,
    hour: u8,
    minute: u8,
    second: u8,
    at: usize,
) -> Scanned
    requires { Place s.now at }
    ensures { Reads s.now at (field q (Numeric.second (when_of w) hour minute) 0 second) result }
{
    let nanos = second_part(s, at)?;
    let c = Clock {
        hour,
        minute,
        second,
        nanos: nanos.value,
    };
    clocked(s, q, w, c, nanos.end)
}

// After an hour and its colon.
pub fn after_hour(s: &[u8], q: usize, w: Option<Date>, hour: u8, i: usize) -> Scanned
    requires { Place s.now i }
    ensures { Reads s.now i (field q (Numeric.minute (when_of w) hour) 2 0) result }
{
    let minute = two_then(s, i, b':')?;
    let second = two(s, minute.end)?;
    after_second(s, q, w, hour, minute.value, second.value, second.end)
}

// A time of day after a date.
fn clock_at(s: &[u8], q: usize, d: Date, i: usize) -> Scanned
    requires { Place s.now i }
    ensures { Reads s.now i (field q (Numeric.hour d) 2 0) result }
{
    let hour = two_then(s, i, b':')?;
    after_hour(s, q, Some(d), hour.value, hour.end)
}

// After a date and one space: the space belongs to the value only when a digit comes next.
fn spaced(s: &[u8], q: usize, d: Date, i: usize) -> Scanned
    requires { Place s.now i }
    ensures { Reads s.now i (Numeric.spaced q d) result }
{
    match number::digit_here(s, i) {
        Ok(_) => clock_at(s, q, d, i),
        Err(_) => date_done(q, d, i),
    }
}

// After a date: it goes on with a time after the letter T, or after one space followed by a digit.
fn dated(s: &[u8], q: usize, d: Date, at: usize) -> Scanned
    requires { Place s.now at }
    ensures { Reads s.now at (field q (Numeric.day d.year d.month) 0 d.day) result }
{
    if at >= s.len() {
        return date_done(q, d, at);
    }
    match s[at] {
        b'T' | b't' => clock_at(s, q, d, at + 1),
        b' ' => spaced(s, q, d, at + 1),
        _ => date_done(q, d, at),
    }
}

// After a year and its minus.
pub fn after_year(s: &[u8], q: usize, year: u16, i: usize) -> Scanned
    requires { Place s.now i }
    ensures { Reads s.now i (field q (Numeric.month year) 2 0) result }
{
    let month = two_then(s, i, b'-')?;
    let day = two(s, month.end)?;
    let d = Date {
        year,
        month: month.value,
        day: day.value,
    };
    dated(s, q, d, day.end)
}
