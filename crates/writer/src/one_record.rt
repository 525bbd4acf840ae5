// One record of a well-formed tape: which it is, what it prints, and its share of the length.
ghost use Rattle.std.specs.Prelude.{◌≡◌, ◌+◌, ◌≤◌, ◌<◌, length};
ghost use Rattle.meaning.specs.Limits.{record_limit, store_limit};
ghost use Rattle.meaning.specs.Canonical.{quoted};
ghost use Rattle.meaning.specs.Json.{json_form};
ghost use Rattle.tape.specs.Between.Turns.{bytes_end};
ghost use Rattle.writer.specs.Between.Laid.{PutAt};
ghost use Rattle.writer.specs.Between.Walk.{part, printed, comma_text, effect_of, closes, share};

use crate::{Effect, byte_or_digit, number, string_or_binary, time_value};
use meaning::{Number, Record};

// A comma is due after all but a key; a container gives the bracket that closes it and its end.
pub fn effect_of(r: Record) -> Effect
    ensures { result ≡ effect_of r }
{
    match r {
        Record::Array { count: _, end } => Effect::Open { closer: b']', end },
        Record::Object { count: _, end } => Effect::Open { closer: b'}', end },
        Record::Key { .. } => Effect::Pass(false),
        _ => Effect::Pass(true),
    }
}

// A comma if set.
pub fn comma_at(out: &mut [u8], at: usize, comma: bool) -> usize
    requires { at + length (comma_text comma) ≤ length out.old }
    ensures { PutAt (comma_text comma) at out.old out.new result }
{
    if comma {
        return byte_or_digit::byte_at(out, at, b',');
    }
    at
}

// The bytes of a string, a key or a binary.
fn part_of<'a>(store: &'a [u8], size: usize, start: usize) -> &'a [u8]
    requires { start + size ≤ length store.now }
    ensures { result.now ≡ part store.now size start }
{
    &store[start..start + size]
}

// A string or a key in quotes. Both slices are cut in here, so that its two callers hand over no new ones.
fn string_at(out: &mut [u8], at: usize, store: &[u8], size: usize, start: usize) -> usize
    requires { (start + size ≤ length store.now) × (at + length (quoted (part store.now size start)) ≤ length out.old) }
    ensures { PutAt (quoted (part store.now size start)) at out.old out.new result }
{
    let part = part_of(store, size, start);
    at + string_or_binary::write_string(&mut out[at..], part)
}

// The output from `at` on is lent to the number, string, binary and time writers.
pub fn printed_at(out: &mut [u8], at: usize, r: Record, store: &[u8]) -> usize
    requires { (bytes_end r ≤ length store.now) × (at + length (printed r store.now) ≤ length out.old) }
    ensures { PutAt (printed r store.now) at out.old out.new result }
{
    match r {
        Record::Null => byte_or_digit::bytes_at(out, at, b"null"),
        Record::Bool(true) => byte_or_digit::bytes_at(out, at, b"true"),
        Record::Bool(false) => byte_or_digit::bytes_at(out, at, b"false"),
        Record::Number(n) => at + number::write_number(&mut out[at..], n),
        Record::Str { length, start } => string_at(out, at, store, length, start),
        Record::Key { length, start } => {
            let colon = string_at(out, at, store, length, start);
            byte_or_digit::byte_at(out, colon, b':')
        }
        Record::Bin { length, start } => {
            let part = part_of(store, length, start);
            at + string_or_binary::write_binary(&mut out[at..], part)
        }
        Record::Time(t) => at + time_value::write_time(&mut out[at..], t),
        Record::Array { .. } => byte_or_digit::byte_at(out, at, b'['),
        Record::Object { .. } => byte_or_digit::byte_at(out, at, b'{'),
    }
}

// The closing bracket of a container, or a comma in its place, and the comma after it.
fn closes(end: usize, index: usize) -> usize
    requires { index < record_limit }
    ensures { result ≡ closes end index }
{
    1 + usize::from(end == index + 1)
}

// The length of the record's text, with the comma, colon or brackets that go with it.
pub fn share_of(r: Record, index: usize, store: &[u8]) -> usize
    requires { (bytes_end r ≤ length store.now) × (length store.now ≤ store_limit) × (index < record_limit) }
    ensures { result ≡ share r index store.now }
{
    match r {
        Record::Null => 5,
        Record::Bool(true) => 5,
        Record::Bool(false) => 6,
        Record::Number(n) => number::number_len(n) + 1,
        Record::Str { length, start } | Record::Key { length, start } =>
            string_or_binary::string_len(part_of(store, length, start)) + 1,
        Record::Bin { length, .. } => 2 * length + 2,
        Record::Time(t) => time_value::time_len(t) + 1,
        Record::Array { end, .. } | Record::Object { end, .. } => 1 + closes(end, index),
    }
}

// No JSON form: non-finite, binary, time.
pub fn json_form(r: Record) -> bool
    ensures { result ≡ json_form r }
{
    match r {
        Record::Number(n) => matches!(n, Number::Finite { .. }),
        Record::Bin { .. } | Record::Time(_) => false,
        _ => true,
    }
}
