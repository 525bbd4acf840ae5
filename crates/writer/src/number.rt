// The text of a number.
ghost use Rattle.std.specs.Prelude.{◌≡◌, ◌+◌, ◌≤◌, ◌<◌, length};
ghost use Rattle.meaning.specs.Canonical.{decimal, minus_text, power_text, pointed, finite_text, number_text};
ghost use Rattle.meaning.specs.Limits.{plain_digits};
ghost use Rattle.writer.specs.Between.Laid.{Put, PutAt};
ghost use Rattle.writer.specs.Between.Pieces.{FormOf, PointedLength};

use crate::{Form, byte_or_digit};
use meaning::{Number, PLAIN_DIGITS};

// Minus if set.
fn minus_at(out: &mut [u8], at: usize, minus: bool) -> usize
    requires { at + length (minus_text minus) ≤ length out.old }
    ensures { PutAt (minus_text minus) at out.old out.new result }
{
    if minus {
        return byte_or_digit::byte_at(out, at, b'-');
    }
    at
}

// The length of the same.
fn minus_len(minus: bool) -> usize
    ensures { (result ≡ length (minus_text minus)) × (result ≤ 1) }
{
    usize::from(minus)
}

// `e` and the power where it is not 0.
fn power_at(out: &mut [u8], at: usize, power: i32) -> usize
    requires { at + length (power_text power) ≤ length out.old }
    ensures { PutAt (power_text power) at out.old out.new result }
{
    if power == 0 {
        return at;
    }
    let sign = byte_or_digit::byte_at(out, at, b'e');
    let first = minus_at(out, sign, power < 0);
    byte_or_digit::decimal_at(out, first, power.unsigned_abs() as u64)
}

// The length of the same.
fn power_len(power: i32) -> usize
    ensures { (result ≡ length (power_text power)) × (result ≤ 22) }
{
    if power == 0 {
        return 0;
    }
    1 + minus_len(power < 0) + byte_or_digit::decimal_len(power.unsigned_abs() as u64)
}

// Which form a number of d digits with this power has.
fn form(d: usize, power: i32) -> Form
    requires { d ≤ plain_digits }
    ensures { FormOf d power result }
{
    let size = power.unsigned_abs() as usize;
    if power < 0 {
        if size <= PLAIN_DIGITS {
            return Form::Point(size);
        }
        return Form::Power;
    }
    if d + size <= PLAIN_DIGITS {
        return Form::Zeros(size);
    }
    Form::Power
}

// The d digits of c with the last n of them after a point, with `0.` and zeros in front where they are too few.
fn pointed_at(out: &mut [u8], at: usize, d: usize, n: usize, c: u64) -> usize
    requires { (d ≡ length (decimal c)) × (0 < n) × (d ≤ plain_digits) × (at + length (pointed n c) ≤ length out.old) }
    ensures { PutAt (pointed n c) at out.old out.new result }
{
    if d <= n {
        let first = byte_or_digit::bytes_at(out, at, b"0.");
        return byte_or_digit::digits_at(out, first, n, c);
    }
    let point = byte_or_digit::digits_at(out, at, d - n, c / byte_or_digit::power(n));
    let first = byte_or_digit::byte_at(out, point, b'.');
    byte_or_digit::digits_at(out, first, n, c)
}

// The length of the same.
fn pointed_len(d: usize, n: usize) -> usize
    requires { (d ≤ plain_digits) × (n ≤ plain_digits) }
    ensures { PointedLength d n result }
{
    if d <= n {
        return n + 2;
    }
    d + 1
}

// The coefficient and the power, in the form they have.
fn finite_at(out: &mut [u8], at: usize, c: u64, power: i32) -> usize
    requires { at + length (finite_text c power) ≤ length out.old }
    ensures { PutAt (finite_text c power) at out.old out.new result }
{
    let d = byte_or_digit::decimal_len(c);
    match form(d, power) {
        Form::Zeros(zeros) => {
            let after = byte_or_digit::digits_at(out, at, d, c);
            byte_or_digit::digits_at(out, after, zeros, 0)
        }
        Form::Point(n) => pointed_at(out, at, d, n, c),
        Form::Power => {
            let after = byte_or_digit::digits_at(out, at, d, c);
            power_at(out, after, power)
        }
    }
}

// The length of the same.
fn finite_len(c: u64, power: i32) -> usize
    ensures { (result ≡ length (finite_text c power)) × (result ≤ 42) }
{
    let d = byte_or_digit::decimal_len(c);
    match form(d, power) {
        Form::Zeros(zeros) => d + zeros,
        Form::Point(n) => pointed_len(d, n),
        Form::Power => d + power_len(power),
    }
}

// Into the lent part of the output, from its start.
pub fn write_number(out: &mut [u8], n: Number) -> usize
    requires { length (number_text n) ≤ length out.old }
    ensures { Put (number_text n) out.old out.new result }
{
    match n {
        Number::Finite {
            minus,
            coefficient,
            power,
        } => {
            let first = minus_at(out, 0, minus);
            finite_at(out, first, coefficient, power)
        }
        Number::NotANumber => byte_or_digit::bytes_at(out, 0, b"NaN"),
        Number::Infinite { minus } => {
            let first = minus_at(out, 0, minus);
            byte_or_digit::bytes_at(out, first, b"Infinity")
        }
    }
}

// The length of a number's text.
pub fn number_len(n: Number) -> usize
    ensures { (result ≡ length (number_text n)) × (result < 64) }
{
    match n {
        Number::Finite {
            minus,
            coefficient,
            power,
        } => minus_len(minus) + finite_len(coefficient, power),
        Number::NotANumber => 3,
        Number::Infinite { minus } => minus_len(minus) + 8,
    }
}
