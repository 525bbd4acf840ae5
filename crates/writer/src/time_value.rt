// The text of dates, clocks, offsets and the four time types.
ghost use Rattle.std.specs.Prelude.{◌≡◌, ◌∷◌, ◌+◌, ◌≤◌, length};
ghost use Rattle.meaning.specs.Canonical.{fixed, date_text, fraction_text, clock_text, minutes_text, offset_text, time_text};
ghost use Rattle.writer.specs.Between.Laid.{Put, PutAt};
ghost use Rattle.writer.specs.Between.Pieces.{FractionDigits};

use crate::{Trimmed, byte_or_digit};
use meaning::{Date, FRACTION_DIGITS, SECOND, Time};

// Minutes and hours, counted as a time of day is.
const MINUTE: u64 = 60 * SECOND;

const HOUR: u64 = 60 * MINUTE;

// Two digits, with a byte between them and what stands before.
fn two_after(out: &mut [u8], at: usize, between: u8, n: u64) -> usize
    requires { at + 3 ≤ length out.old }
    ensures { PutAt (between ∷ fixed 2 n) at out.old out.new result }
{
    let first = byte_or_digit::byte_at(out, at, between);
    byte_or_digit::digits_at(out, first, 2, n)
}

// Year, month and day in four, two and two digits, with `-` between.
fn date_at(out: &mut [u8], at: usize, d: Date) -> usize
    requires { at + length (date_text d) ≤ length out.old }
    ensures { PutAt (date_text d) at out.old out.new result }
{
    let month = byte_or_digit::digits_at(out, at, 4, d.year as u64);
    let day = two_after(out, month, b'-', d.month as u64);
    two_after(out, day, b'-', d.day as u64)
}

// Nine digits without closing zeros.
fn trimmed(n: u64) -> Trimmed
    ensures { FractionDigits n result }
{
    let mut digits = n;
    for count in (1..=FRACTION_DIGITS).rev() {
        if digits % 10 != 0 {
            return Trimmed { count, digits };
        }
        digits /= 10;
    }
    Trimmed { count: 0, digits }
}

// Fraction only if not 0.
fn fraction_at(out: &mut [u8], at: usize, n: u64) -> usize
    requires { at + length (fraction_text n) ≤ length out.old }
    ensures { PutAt (fraction_text n) at out.old out.new result }
{
    if n == 0 {
        return at;
    }
    let t = trimmed(n);
    let first = byte_or_digit::byte_at(out, at, b'.');
    byte_or_digit::digits_at(out, first, t.count, t.digits)
}

// The length of the same, with its point.
fn fraction_len(n: u64) -> usize
    ensures { (result ≡ length (fraction_text n)) × (result ≤ 10) }
{
    if n == 0 {
        return 0;
    }
    let t = trimmed(n);
    1 + t.count
}

// A time of day is ((hour x 60 + minute) x 60 + second) x 10^9 + nanoseconds.
fn clock_at(out: &mut [u8], at: usize, t: u64) -> usize
    requires { at + length (clock_text t) ≤ length out.old }
    ensures { PutAt (clock_text t) at out.old out.new result }
{
    let minute = byte_or_digit::digits_at(out, at, 2, t / HOUR);
    let second = two_after(out, minute, b':', t / MINUTE % 60);
    let fraction = two_after(out, second, b':', t / SECOND % 60);
    fraction_at(out, fraction, t % SECOND)
}

// The length of the same: eight bytes and the fraction.
fn clock_len(t: u64) -> usize
    ensures { (result ≡ length (clock_text t)) × (result ≤ 18) }
{
    8 + fraction_len(t % SECOND)
}

// A number of minutes as hh:mm.
fn minutes_at(out: &mut [u8], at: usize, n: u64) -> usize
    requires { at + length (minutes_text n) ≤ length out.old }
    ensures { PutAt (minutes_text n) at out.old out.new result }
{
    let minute = byte_or_digit::digits_at(out, at, 2, n / 60);
    two_after(out, minute, b':', n % 60)
}

// Offset 0 as `Z`, otherwise sign and hh:mm.
fn offset_at(out: &mut [u8], at: usize, offset: i16) -> usize
    requires { at + length (offset_text offset) ≤ length out.old }
    ensures { PutAt (offset_text offset) at out.old out.new result }
{
    if offset == 0 {
        return byte_or_digit::byte_at(out, at, b'Z');
    }
    let sign = if offset < 0 { b'-' } else { b'+' };
    let first = byte_or_digit::byte_at(out, at, sign);
    minutes_at(out, first, offset.unsigned_abs() as u64)
}

// The length of the same.
fn offset_len(offset: i16) -> usize
    ensures { (result ≡ length (offset_text offset)) × (result ≤ 6) }
{
    if offset == 0 { 1 } else { 6 }
}

// Into the lent part of the output, from its start.
pub fn write_time(out: &mut [u8], t: Time) -> usize
    requires { length (time_text t) ≤ length out.old }
    ensures { Put (time_text t) out.old out.new result }
{
    match t {
        Time::LocalDate(d) => date_at(out, 0, d),
        Time::LocalTime(clock) => clock_at(out, 0, clock),
        Time::LocalDateTime { date: d, clock } => {
            let letter = date_at(out, 0, d);
            let first = byte_or_digit::byte_at(out, letter, b'T');
            clock_at(out, first, clock)
        }
        Time::OffsetDateTime {
            date: d,
            clock,
            offset,
        } => {
            let letter = date_at(out, 0, d);
            let first = byte_or_digit::byte_at(out, letter, b'T');
            let after = clock_at(out, first, clock);
            offset_at(out, after, offset)
        }
    }
}

// The length of a time value's text.
pub fn time_len(t: Time) -> usize
    ensures { result ≡ length (time_text t) }
{
    match t {
        Time::LocalDate(_) => 10,
        Time::LocalTime(clock) => clock_len(clock),
        Time::LocalDateTime { date: _, clock } => 11 + clock_len(clock),
        Time::OffsetDateTime {
            date: _,
            clock,
            offset,
        } => 11 + clock_len(clock) + offset_len(offset),
    }
}
