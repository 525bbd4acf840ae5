// How a case is spelled.
ghost use Rattle.std.specs.Prelude.{◌≤◌, ◌<◌, ◌≡◌, length};
ghost use Rattle.std.specs.Counts.{IsPrefixLen};

use items::Taken;

// Where the byte stands first, or the length.
pub(crate) fn find(s: &[u8], b: u8) -> usize
    ensures { IsPrefixLen result s.now }
{
    s.iter().position(|c| *c == b).unwrap_or(s.len())
}

// What stands after the byte at this place.
pub(crate) fn after(s: &[u8], at: usize) -> &[u8]
    requires { at ≤ length s.now }
{
    if at < s.len() { &s[at + 1..] } else { &s[at..] }
}

// A digit, hex or decimal; 0 for any other byte.
fn digit(b: u8) -> u8
    ensures { result < 16 }
{
    match b {
        b'0'..=b'9' => b - b'0',
        b'a'..=b'f' => b - b'a' + 10,
        _ => 0,
    }
}

// A byte stands for itself; in a tape a dot stands for a zero byte.
fn plain(b: u8, dots: bool) -> u8 {
    if dots && b == b'.' { 0 } else { b }
}

// The byte spelled at this place; a percent sign with less than two bytes after it stands for itself.
fn take(s: &[u8], at: usize, dots: bool) -> Taken<u8>
    requires { at < length s.now }
    ensures { (at < result.end) × (result.end ≤ length s.now) }
{
    let b = s[at];
    if b == b'%' && s.len() - at > 2 {
        let value = digit(s[at + 1]) * 16 + digit(s[at + 2]);
        return Taken { value, end: at + 3 };
    }
    let value = plain(b, dots);
    Taken { value, end: at + 1 }
}

// The bytes that are spelled, and how many.
pub(crate) fn decode(s: &[u8], dots: bool, out: &mut [u8]) -> usize
    ensures { IsPrefixLen result out.new }
{
    let mut at: usize = 0;
    for n in 0..out.len() {
        if at >= s.len() {
            return n;
        }
        let u = take(s, at, dots);
        out[n] = u.value;
        at = u.end;
    }
    out.len()
}

// A decimal number; what would be too large is cut short.
pub(crate) fn number(s: &[u8]) -> u64 {
    let mut n: u64 = 0;
    for b in s {
        if n > 1844674407370955160 {
            return n;
        }
        n = n * 10 + u64::from(digit(*b));
    }
    n
}

// So many bytes of a buffer, or all.
pub(crate) fn within(n: u64, buffer: &[u8]) -> usize
    ensures { IsPrefixLen result buffer.now }
{
    buffer.len().min(n as usize)
}

// So many records of a tape, in bytes, or all.
pub(crate) fn filled(records: u64, tape: &[u8]) -> usize
    ensures { IsPrefixLen result tape.now }
{
    let n = records as usize;
    if n < tape.len() / 16 {
        n * 16
    } else {
        tape.len()
    }
}
