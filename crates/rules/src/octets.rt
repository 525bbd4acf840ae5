// Runs of ASCII, and one character.
ghost use Rattle.std.specs.Prelude.{◌≡◌, ℕ, ◌+◌, ◌≤◌, ◌<◌, length, MatchOption};
ghost use Rattle.rules.specs.Between.Posts.{AtMost, Ascii, Lead, CharAt, low_of, high_of};

// The greatest of the 32 bytes at `at`. There is no early exit, so that it is compiled to vector instructions.
pub(crate) fn greatest(s: &[u8], at: usize) -> u8
    requires { at + 32 ≤ length s.now }
    ensures { AtMost s.now at 32 result }
{
    let mut most: u8 = 0;
    for b in &s[at..at + 32] {
        most = most.max(*b);
    }
    most
}

// The place after the ASCII bytes from `from` on, one at a time.
pub(crate) fn ascii_bytes(s: &[u8], from: usize) -> usize
    requires { from ≤ length s.now }
    ensures { Ascii s.now from result }
{
    for i in from..s.len() {
        if s[i] >= 0x80 {
            return i;
        }
    }
    s.len()
}

// The place after the blocks of 32 bytes from `from` on that are ASCII, no byte alone.
pub(crate) fn ascii_blocks(s: &[u8], from: usize) -> usize
    requires { from ≤ length s.now }
    ensures { Ascii s.now from result }
{
    let mut i = from;
    while s.len() - i >= 32 {
        if greatest(s, i) >= 0x80 {
            return i;
        }
        i += 32;
    }
    i
}

// The least second byte after the first byte a: no overlong form of three or four bytes.
#[tactic(auto, unfolding(crate::specs::Between::Posts::low_of))]
fn low(a: u8) -> u8
    ensures { result ≡ low_of a }
{
    match a {
        0xE0 => 0xA0,
        0xF0 => 0x90,
        _ => 0x80,
    }
}

// The greatest second byte after the first byte a: no surrogate, and nothing above 10FFFF.
#[tactic(auto, unfolding(crate::specs::Between::Posts::high_of))]
fn high(a: u8) -> u8
    ensures { result ≡ high_of a }
{
    match a {
        0xED => 0x9F,
        0xF4 => 0x8F,
        _ => 0xBF,
    }
}

// How many bytes a character has that begins with the byte a, or none where none begins so.
#[tactic(auto, using(crate::proofs::Places::leads))]
fn lead(a: u8) -> Option<usize>
    ensures { MatchOption result ((n : ℕ) → Lead a n → ⊥) (λ n. Lead a n) }
{
    match a {
        0x00..=0x7F => Some(1),
        0xC2..=0xDF => Some(2),
        0xE0..=0xEF => Some(3),
        0xF0..=0xF4 => Some(4),
        _ => None,
    }
}

// The length of the character at `at`, or none where none stands there.
pub(crate) fn char_at(s: &[u8], at: usize) -> Option<usize>
    requires { at < length s.now }
    ensures { CharAt s.now at result }
{
    let a = s[at];
    let n = lead(a)?;
    if n == 1 {
        return Some(n);
    }
    if s.len() - at < n || !(low(a)..=high(a)).contains(&s[at + 1]) {
        return None;
    }
    let tails = s[at + 2..at + n].iter().all(|b| (0x80..=0xBF).contains(b));
    tails.then_some(n)
}
