// UTF-8 in blocks of 32 bytes, also where a text is not ASCII. A place `at` stands three bytes before the block, since what a
// byte may be depends on the three before it. The loops have no early exit and take greater and lesser bytes only, so that
// they are compiled to vector instructions; for that a test of bytes is a byte itself, 0 or 255. They say only that all is
// well; `crate::utf8` finds the place of a fault.
ghost use Rattle.std.specs.Prelude.{◌≡◌, ◌+◌, ◌-◌, ◌≤◌, ◌<◌, length, MatchResult};
ghost use Rattle.rules.specs.Between.Posts.{Passed};
ghost use Rattle.rules.specs.Between.Beside.{IsTail, Wanted, Barred, Beside, Clean, Open, BlockIs};
ghost use Rattle.rules.specs.Rfc3629.{Fault};

use crate::{IllFormed, octets};

// What a block is beside the three bytes before it.
#[derive(Clone, Copy)]
enum Block {
    Plain,
    Wide,
    Faulty,
}

// 255 where b is a tail, 80 to BF, else 0.
fn tail(b: u8) -> u8
    ensures { IsTail b result }
{
    if (0x80..=0xBF).contains(&b) { 255 } else { 0 }
}

// 255 where the bytes o, q, p end in the midst of a character, else 0.
fn wanted(o: u8, q: u8, p: u8) -> u8
    ensures { Wanted o q p result }
{
    let most = p
        .saturating_sub(0xBF)
        .max(q.saturating_sub(0xDF).max(o.saturating_sub(0xEF)));
    if most == 0 { 0 } else { 255 }
}

// 0 where two bytes are one, else 255.
fn differ(a: u8, b: u8) -> u8
    ensures { result ≡ 0 → a ≡ b }
{
    if a == b { 0 } else { 255 }
}

// 255 where two bytes are one, else 0.
fn equal(a: u8, b: u8) -> u8
    ensures { result ≡ 0 → a ≡ b → ⊥ }
{
    if a == b { 255 } else { 0 }
}

// The first byte that b must not follow: below the bound one that begins an overlong form, from there on one whose characters end before b.
fn barred(bound: u8, overlong: u8, above: u8, b: u8) -> u8
    ensures { Barred bound overlong above b result }
{
    if b < bound { overlong } else { above }
}

// 0 where the byte b may follow o, q, p. Of three bytes E0 begins overlong forms and ED surrogates; of four F0 begins overlong forms, and F4 what is
// above 10FFFF.
fn fault(o: u8, q: u8, p: u8, b: u8) -> u8
    ensures { result ≡ 0 → Beside o q p b }
{
    let number = differ(wanted(o, q, p), tail(b));
    let second = equal(p, barred(0xA0, 0xE0, 0xED, b)).max(equal(p, barred(0x90, 0xF0, 0xF4, b)));
    let first = equal(b, 0xC0).max(equal(b, 0xC1));
    number.max(second.max(first))
}

// 0 where each of the 32 bytes may follow the three before it.
fn faults(s: &[u8], at: usize) -> u8
    requires { at + 35 ≤ length s.now }
    ensures { result ≡ 0 → Clean s.now at 32 }
{
    let mut most: u8 = 0;
    for k in 0..32 {
        let here = at + k;
        most = most.max(fault(s[here], s[here + 1], s[here + 2], s[here + 3]));
    }
    most
}

// What the 32 bytes after the three at `at` are.
#[tactic(auto, using(crate::specs::Between::Beside::faulty))]
fn block_at(s: &[u8], at: usize) -> Block
    requires { at + 35 ≤ length s.now }
    ensures { BlockIs s.now at result }
{
    match octets::greatest(s, at + 3) {
        0x00..=0x7F if wanted(s[at], s[at + 1], s[at + 2]) == 0 => Block::Plain,
        0x80..=0xF4 if faults(s, at) == 0 => Block::Wide,
        _ => Block::Faulty,
    }
}

// The place after the three bytes at `at`, or the first byte of a character that has not ended there.
fn back(s: &[u8], at: usize) -> usize
    requires { Open s.now at }
    ensures { Passed s.now result }
{
    if s[at + 2] >= 0xC0 {
        return at + 2;
    }
    if s[at + 1] >= 0xE0 {
        return at + 1;
    }
    if s[at] >= 0xF0 {
        return at;
    }
    at + 3
}

// A place before which all is UTF-8: the text's end, or the character before or in a block with a fault. The last block ends
// with the text, and may overlap the one before it.
fn wide_run(s: &[u8], from: usize) -> usize
    requires { (35 ≤ length s.now) × Open s.now from }
    ensures { Passed s.now result }
{
    let end = s.len() - 35;
    let mut at = from;
    while at + 3 < s.len() {
        let here = at.min(end);
        match block_at(s, here) {
            Block::Plain => {
                at = octets::ascii_blocks(s, here + 35) - 3;
            }
            Block::Wide => {
                at = here + 32;
            }
            Block::Faulty => {
                return back(s, at);
            }
        }
    }
    back(s, at)
}

// The first place after a character that has three bytes or more before it, or the first fault before that.
fn begun(s: &[u8]) -> Result<usize, IllFormed>
    requires { 35 ≤ length s.now }
    ensures { MatchResult result (λ i. Passed s.now i × (3 ≤ i) × Open s.now (i - 3)) (λ e. Fault s.now e.place) }
{
    let mut i = 0;
    while i < 3 {
        i += octets::char_at(s, i).ok_or(IllFormed { place: i })?;
    }
    Ok(i)
}

// A place before which all is UTF-8, found in blocks where there is room for one, or the fault in what is before the first block.
pub(crate) fn passed(s: &[u8]) -> Result<usize, IllFormed>
    ensures { MatchResult result (λ i. Passed s.now i) (λ e. Fault s.now e.place) }
{
    if s.len() < 35 {
        return Ok(0);
    }
    let i = begun(s)?;
    Ok(wide_run(s, i - 3))
}
