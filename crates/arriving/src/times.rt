// Time values, a byte at a time. The check of one is made at its end, and gives 5 at its first byte.
ghost use Rattle.std.specs.Prelude.{◌≡◌};
ghost use Rattle.arriving.specs.declared.states.Moment.TheVariants as Moment;
ghost use Rattle.rules.specs.Between.Decided.{is_date};
ghost use Rattle.machine.specs.Numeric.{dg_of, day_of, sec_of};
ghost use Rattle.arriving.specs.Between.Times as Times;
ghost use Rattle.arriving.specs.Between.Times.{goes_on, field_due, tested_out, next_day, next_offset, next_zone, next_second, next_moment};

use crate::states::{Mode, Moment, Out, Slot, Stamp};
use meaning::Refusal;

// The time value goes on.
fn goes(s: Stamp, m: Moment) -> Out
    ensures { result ≡ goes_on s m }
{
    Out::Takes(Mode::Timing(s, m), 0)
}

// The first digit of a field is due.
fn due(s: Stamp, slot: Slot) -> Out
    ensures { result ≡ field_due s slot }
{
    goes(
        s,
        Moment::Field {
            slot,
            left: 2,
            value: 0,
        },
    )
}

// The check at the end.
fn tested(s: Stamp) -> Out
    ensures { result ≡ tested_out s }
{
    if s.good {
        return Out::Stops;
    }
    Out::Breaks(Refusal::BadTime(s.first))
}

// Whether three numbers are a date.
fn is_date(year: u16, month: u8, day: u8) -> bool
    ensures { result ≡ is_date year month day }
{
    rules::date(u64::from(year), u64::from(month), u64::from(day)).is_ok()
}

// The time value with its date, in range or not.
fn judged(s: Stamp, good: bool) -> Stamp
    ensures { result ≡ Times.judged s good }
{
    Stamp {
        first: s.first,
        dated: s.dated,
        good,
    }
}

// The time value with one field more, of the value v.
fn within(s: Stamp, v: u8, most: u8) -> Stamp
    ensures { result ≡ Times.within s v most }
{
    judged(s, s.good && v <= most)
}

// After a date: it goes on with a time after T, or after one space followed by a digit.
fn after_day(s: Stamp, b: u8) -> Out
    ensures { result ≡ next_day s (day_of b) }
{
    match b {
        b'T' | b't' => due(s, Slot::Hour),
        b' ' => goes(s, Moment::Spaced),
        _ => tested(s),
    }
}

// After a date and one space.
fn spaced(s: Stamp, b: u8) -> Out
    ensures { result ≡ Times.next_spaced s b (dg_of b) }
{
    match b {
        b'0'..=b'9' => {
            let value = b - b'0';
            goes(
                s,
                Moment::Field {
                    slot: Slot::Hour,
                    left: 1,
                    value,
                },
            )
        }
        _ => tested(s),
    }
}

// After a date and its time of day.
fn offset(s: Stamp, b: u8) -> Out
    ensures { result ≡ next_offset s (sec_of b) }
{
    match b {
        b'Z' | b'z' => goes(s, Moment::Zulu),
        b'+' | b'-' => due(s, Slot::OffsetHour),
        _ => tested(s),
    }
}

// After a time of day: a local time has no offset.
fn zone(s: Stamp, b: u8) -> Out
    ensures { result ≡ next_zone s (sec_of b) }
{
    if s.dated {
        return offset(s, b);
    }
    tested(s)
}

// After a second.
fn after_second(s: Stamp, b: u8) -> Out
    ensures { result ≡ next_second s (sec_of b) }
{
    if b == b'.' {
        return goes(s, Moment::Point);
    }
    zone(s, b)
}

// After a second and a point.
fn point(s: Stamp, p: usize, b: u8) -> Out
    ensures { result ≡ Times.next_point s p (dg_of b) }
{
    match b {
        b'0'..=b'9' => goes(s, Moment::Fraction),
        _ => Out::Breaks(Refusal::NotGrammar(p)),
    }
}

// After a digit of a second's fraction.
fn fraction(s: Stamp, b: u8) -> Out
    ensures { result ≡ Times.next_fraction s (sec_of b) }
{
    match b {
        b'0'..=b'9' => goes(s, Moment::Fraction),
        _ => zone(s, b),
    }
}

// No byte but this mark, and then the next field.
fn only(s: Stamp, slot: Slot, mark: u8, p: usize, b: u8) -> Out
    ensures { result ≡ Times.only_then s slot mark p b }
{
    if b == mark {
        return due(s, slot);
    }
    Out::Breaks(Refusal::NotGrammar(p))
}

// After a field of the value v.
fn full(s: Stamp, slot: Slot, v: u8, p: usize, b: u8) -> Out
    ensures { result ≡ Times.next_full s slot v p b }
{
    match slot {
        Slot::Month(year) => only(s, Slot::Day { year, month: v }, b'-', p, b),
        Slot::Day { year, month } => after_day(judged(s, is_date(year, month, v)), b),
        Slot::Hour => only(within(s, v, 23), Slot::Minute, b':', p, b),
        Slot::Minute => only(within(s, v, 59), Slot::Second, b':', p, b),
        Slot::Second => after_second(within(s, v, 59), b),
        Slot::OffsetHour => only(within(s, v, 23), Slot::OffsetMinute, b':', p, b),
        Slot::OffsetMinute => tested(within(s, v, 59)),
    }
}

// In a field of the value v so far, of which `left` more digits are due.
#[tactic(auto, unfolding(crate::specs::Between::Times::next_moment))]
fn field(s: Stamp, slot: Slot, left: u8, v: u8, p: usize, b: u8) -> Out
    ensures { result ≡ next_moment s (Moment.Field slot left v) p b }
{
    match b {
        _ if left == 0 => full(s, slot, v, p, b),
        b'0'..=b'9' => {
            let value = 10 * (v % 10) + (b - b'0');
            goes(
                s,
                Moment::Field {
                    slot,
                    left: left - 1,
                    value,
                },
            )
        }
        _ => Out::Breaks(Refusal::NotGrammar(p)),
    }
}

// What the byte b at the place p does to a time value.
#[tactic(auto, unfolding(crate::specs::Between::Times::next_moment))]
pub fn moment_next(s: Stamp, m: Moment, p: usize, b: u8) -> Out
    ensures { result ≡ next_moment s m p b }
{
    match m {
        Moment::Field { slot, left, value } => field(s, slot, left, value, p, b),
        Moment::Spaced => spaced(s, b),
        Moment::Point => point(s, p, b),
        Moment::Fraction => fraction(s, b),
        Moment::Zulu => tested(s),
    }
}
