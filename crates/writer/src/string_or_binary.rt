// The text of strings, keys and binary.
ghost use Rattle.std.specs.Prelude.{◌≡◌, [], ◌∷◌, ◌+◌, ◌≤◌, ◌<◌};
ghost use lib.ListN.{length};
ghost use Rattle.meaning.specs.Limits.{store_limit};
ghost use Rattle.meaning.specs.Canonical.{hex_digit, hex_pair, escaped, escapes, quoted, hex_pairs, binary_text};
ghost use Rattle.writer.specs.Between.Laid.{Put, PutAt};
ghost use Rattle.writer.specs.Between.Pieces.{Lettered};

use crate::{byte_or_digit, plain_run};

// A shorter string goes byte by byte: looking for runs would cost more.
const SHORT: usize = 16;

// The digit as a byte of the text, in lower case.
fn hex_digit(d: u8) -> u8
    requires { d < 16 }
    ensures { result ≡ hex_digit d }
{
    if d < 10 { b'0' + d } else { b'a' + (d - 10) }
}

// A byte as two hex digits, the high one first.
fn pair_at(out: &mut [u8], at: usize, b: u8) -> usize
    requires { at + 2 ≤ length out.old }
    ensures { PutAt (hex_pair b) at out.old out.new result }
{
    let second = byte_or_digit::byte_at(out, at, hex_digit(b / 16));
    byte_or_digit::byte_at(out, second, hex_digit(b % 16))
}

// The letter after the backslash of a short escape, if the byte has one.
fn letter_of(b: u8) -> Option<u8>
    ensures { Lettered b result }
{
    match b {
        b'"' | b'\\' => Some(b),
        8 => Some(b'b'),
        12 => Some(b'f'),
        b'\n' => Some(b'n'),
        b'\r' => Some(b'r'),
        b'\t' => Some(b't'),
        _ => None,
    }
}

// A byte of a string: itself, a short escape, or `\u00` with a hex pair. Most stand for themselves: that is asked first.
fn escaped_at(out: &mut [u8], at: usize, b: u8) -> usize
    requires { at + length (escaped b) ≤ length out.old }
    ensures { PutAt (escaped b) at out.old out.new result }
{
    if plain_run::is_plain(b) {
        return byte_or_digit::byte_at(out, at, b);
    }
    if let Some(letter) = letter_of(b) {
        let second = byte_or_digit::byte_at(out, at, b'\\');
        return byte_or_digit::byte_at(out, second, letter);
    }
    let pair = byte_or_digit::bytes_at(out, at, b"\\u00");
    pair_at(out, pair, b)
}

// The length of the same.
fn escaped_len(b: u8) -> usize
    ensures { result ≡ length (escaped b) }
{
    if plain_run::is_plain(b) {
        return 1;
    }
    match letter_of(b) {
        Some(_) => 2,
        None => 6,
    }
}

// Byte by byte.
fn short_at(out: &mut [u8], at: usize, s: &[u8]) -> usize
    requires { at + length (escapes s.now) ≤ length out.old }
    ensures { PutAt (escapes s.now) at out.old out.new result }
{
    let mut end = at;
    for b in s {
        end = escaped_at(out, end, *b);
    }
    end
}

// Run by run: the place goes on by a whole run or by one byte, so it is no range.
fn runs_at(out: &mut [u8], at: usize, s: &[u8]) -> usize
    requires { at + length (escapes s.now) ≤ length out.old }
    ensures { PutAt (escapes s.now) at out.old out.new result }
{
    let mut end = at;
    let mut i: usize = 0;
    while i < s.len() {
        let j = plain_run::plain_run(s, i);
        if i < j {
            end = byte_or_digit::bytes_at(out, end, &s[i..j]);
            i = j;
        } else {
            end = escaped_at(out, end, s[i]);
            i += 1;
        }
    }
    end
}

// The bytes of a string without its quotes, a short one byte by byte.
fn escapes_at(out: &mut [u8], at: usize, s: &[u8]) -> usize
    requires { at + length (escapes s.now) ≤ length out.old }
    ensures { PutAt (escapes s.now) at out.old out.new result }
{
    if s.len() < SHORT {
        return short_at(out, at, s);
    }
    runs_at(out, at, s)
}

// Into the lent part of the output, from its start: quotes around the escaped bytes.
pub fn write_string(out: &mut [u8], s: &[u8]) -> usize
    requires { length (quoted s.now) ≤ length out.old }
    ensures { Put (quoted s.now) out.old out.new result }
{
    let first = byte_or_digit::byte_at(out, 0, b'"');
    let last = escapes_at(out, first, s);
    byte_or_digit::byte_at(out, last, b'"')
}

// The length with both quotes, byte by byte.
fn short_len(s: &[u8]) -> usize
    requires { length s.now ≤ store_limit }
    ensures { result ≡ length (quoted s.now) }
{
    let mut total: usize = 2;
    for b in s {
        total += escaped_len(*b);
    }
    total
}

// The same, run by run: no range here either.
fn runs_len(s: &[u8]) -> usize
    requires { length s.now ≤ store_limit }
    ensures { result ≡ length (quoted s.now) }
{
    let mut total: usize = 2;
    let mut i: usize = 0;
    while i < s.len() {
        let j = plain_run::plain_run(s, i);
        if i < j {
            total += j - i;
            i = j;
        } else {
            total += escaped_len(s[i]);
            i += 1;
        }
    }
    total
}

// The length of a string's text with both quotes.
pub fn string_len(s: &[u8]) -> usize
    requires { length s.now ≤ store_limit }
    ensures { result ≡ length (quoted s.now) }
{
    if s.len() < SHORT {
        return short_len(s);
    }
    runs_len(s)
}

// Each byte as a hex pair, with nothing between them.
fn pairs_at(out: &mut [u8], at: usize, s: &[u8]) -> usize
    requires { at + length (hex_pairs s.now) ≤ length out.old }
    ensures { PutAt (hex_pairs s.now) at out.old out.new result }
{
    let mut end = at;
    for b in s {
        end = pair_at(out, end, *b);
    }
    end
}

// Into the lent part of the output, from its start: `$` and lower-case hex.
pub fn write_binary(out: &mut [u8], s: &[u8]) -> usize
    requires { length (binary_text s.now) ≤ length out.old }
    ensures { Put (binary_text s.now) out.old out.new result }
{
    let first = byte_or_digit::byte_at(out, 0, b'$');
    pairs_at(out, first, s)
}
