// A string part, judged on its own from its opening quote: every place here counts from that quote.
ghost use Rattle.std.specs.Prelude.{◌≡◌, ℕ, ◌+◌, ◌≤◌, ◌<◌, ◌^◌, length, get_or};
ghost use Rattle.meaning.specs.Letters.{ch};
ghost use Rattle.machine.specs.Strings.{line_byte};
ghost use Rattle.items.specs.Between.StringPart.{EscapeSays, Halved, Grown, grown_to, CharSays, gap, BlockSays, Passed};
ghost use Rattle.items.specs.declared.string_part.Broken.TheVariants as Breaks;
ghost use Rattle.items.specs.Between.StringPart.{InnerSays, OneSays, ThreeSays, PartSays, Begun, LinesSays};

use crate::hex_digit::hex_at;
use crate::{NotGrammar, Taken, hex_digit, store};

// What breaks a part: the backslash of its first bad escape, or a byte that no rule allows.
#[derive(Clone, Copy)]
pub enum Broken {
    BadEscape(usize),
    NotGrammar(usize),
}

impl From<NotGrammar> for Broken {
    ghost from_gives = { λ e r. r ≡ Breaks.NotGrammar e.place };

    // At the same place.
    fn from(e: NotGrammar) -> Broken {
        Broken::NotGrammar(e.place)
    }
}

// What one escape means: half of a pair or a unit of its own; a character; or nothing, where it is a bad one.
#[derive(Clone, Copy)]
enum Escape {
    Half(u32),
    Code(u32),
    Bad,
}

// The four digits of the escape at `at`.
fn four(s: &[u8], at: usize) -> Result<Taken<Escape>, NotGrammar>
    requires { (at + 2 < length s.now) × (get_or s.now at 0 ≡ ch "\\") × (get_or s.now (at + 1) 0 ≡ ch "u") × (get_or s.now (at + 2) 0 ≡ ch "{" → ⊥) }
    ensures { EscapeSays s.now at result }
{
    let a = hex_at(s, at + 2)? as u32;
    let b = hex_at(s, at + 3)? as u32;
    let c = hex_at(s, at + 4)? as u32;
    let d = hex_at(s, at + 5)? as u32;
    Ok(Taken {
        value: Escape::Half(16 * (16 * (16 * a + b) + c) + d),
        end: at + 6,
    })
}

// 16 v + d, or a number past the last character where it is past it.
#[tactic(auto, using(std::proofs::lemmas::Bool::Decides::nat_tests), unfolding(crate::specs::Between::StringPart::grown_to))]
pub fn grown(v: u32, d: u32) -> u32
    requires { d < 16 }
    ensures grown { Grown v d result }
    ensures told { result ≡ grown_to v d }
{
    if v < 0x110000 { 16 * v + d } else { 0x110000 }
}

// The digits in braces of the escape at `at`. A `while` and no `for`: a value and a place step in it, and the brace is looked at after it.
fn braces(s: &[u8], at: usize) -> Result<Taken<Escape>, NotGrammar>
    requires { (at + 2 < length s.now) × (get_or s.now at 0 ≡ ch "\\") × (get_or s.now (at + 1) 0 ≡ ch "u") × (get_or s.now (at + 2) 0 ≡ ch "{") }
    ensures { EscapeSays s.now at result }
{
    let mut v = hex_at(s, at + 3)? as u32;
    let mut p = at + 4;
    while p < s.len() && s[p] != b'}' {
        v = grown(v, hex_at(s, p)? as u32);
        p += 1;
    }
    if p >= s.len() {
        return Err(NotGrammar { place: p });
    }
    let value = match v {
        0..=0xD7FF | 0xE000..=0x10FFFF => Escape::Code(v),
        _ => Escape::Bad,
    };
    Ok(Taken { value, end: p + 1 })
}

// One escape, from its backslash.
fn escape_at(s: &[u8], at: usize) -> Result<Taken<Escape>, NotGrammar>
    requires { (at < length s.now) × (get_or s.now at 0 ≡ ch "\\") }
    ensures { EscapeSays s.now at result }
{
    let p = at + 1;
    if s.len() <= p {
        return Err(NotGrammar { place: p });
    }
    if s[p] != b'u' {
        return match hex_digit::short(s[p]) {
            Some(c) => Ok(Taken {
                value: Escape::Code(c as u32),
                end: p + 1,
            }),
            None => Err(NotGrammar { place: p }),
        };
    }
    let u = at + 2;
    if s.len() <= u {
        return Err(NotGrammar { place: u });
    }
    if s[u] == b'{' {
        return braces(s, at);
    }
    four(s, at)
}

// After the first half of a pair, w: the second is the escape at `next`, or w is alone.
fn second_half(s: &[u8], next: usize, w: u32) -> Result<Taken<Option<u32>>, NotGrammar>
    requires { (0xD800 ≤ w) × (w < 0xDC00) }
    ensures { (at : ℕ) → Halved s.now at next w → CharSays s.now at result }
{
    if s.len() <= next {
        return Err(NotGrammar { place: next });
    }
    let alone = Taken {
        value: None,
        end: next,
    };
    if s[next] != b'\\' {
        return Ok(alone);
    }
    let second = escape_at(s, next)?;
    let Escape::Half(l) = second.value else {
        return Ok(alone);
    };
    if l < 0xDC00 || 0xE000 <= l {
        return Ok(alone);
    }
    Ok(Taken {
        value: Some(0x10000 + (w - 0xD800) * 1024 + (l - 0xDC00)),
        end: second.end,
    })
}

// After the unit w of an escape: a character by itself, half of a pair, or neither.
fn unit(s: &[u8], next: usize, w: u32) -> Result<Taken<Option<u32>>, NotGrammar>
    ensures { (at : ℕ) → Halved s.now at next w → CharSays s.now at result }
{
    match w {
        0xD800..=0xDBFF => second_half(s, next, w),
        0xDC00..=0xDFFF => Ok(Taken {
            value: None,
            end: next,
        }),
        _ => Ok(Taken {
            value: Some(w),
            end: next,
        }),
    }
}

// The character of one escape, or of two that make one; none where it is a bad one.
pub fn character(s: &[u8], at: usize) -> Result<Taken<Option<u32>>, NotGrammar>
    requires { (at < length s.now) × (get_or s.now at 0 ≡ ch "\\") }
    ensures { CharSays s.now at result }
{
    // No `?`, as in `inner`.
    let first = match escape_at(s, at) {
        Ok(first) => first,
        Err(e) => return Err(e),
    };
    match first.value {
        Escape::Half(w) => unit(s, first.end, w),
        Escape::Code(c) => Ok(Taken {
            value: Some(c),
            end: first.end,
        }),
        Escape::Bad => Ok(Taken {
            value: None,
            end: first.end,
        }),
    }
}

// Whether each of the 16 bytes at `at` is plain. There is no early exit, so that it is compiled to vector instructions.
fn plain_block(s: &[u8], at: usize, q: u8) -> bool
    requires { at + 16 ≤ length s.now }
    ensures { BlockSays s.now q at result }
{
    let mut least: u8 = 255;
    let mut slash: u8 = 255;
    let mut quote: u8 = 255;
    for k in 0..16 {
        let b = s[at + k];
        least = least.min(b);
        slash = slash.min(b.abs_diff(b'\\'));
        quote = quote.min(b.abs_diff(q));
    }
    0x20 <= least && slash != 0 && quote != 0
}

// The first place from `from` on that is no plain byte, one at a time.
fn plain_bytes(s: &[u8], from: usize, q: u8) -> usize
    requires { from ≤ length s.now }
    ensures { Passed s.now q from result }
{
    for at in from..s.len() {
        let b = s[at];
        if b == b'\\' || b == q || b < 0x20 {
            return at;
        }
    }
    s.len()
}

// The same, in blocks of 16 as long as all of a block is plain. Tried with the block's test in the loop's head, and one call of `plain_bytes`: a string
// takes 1 % more instructions.
pub fn plain_end(s: &[u8], from: usize, q: u8) -> usize
    requires { from ≤ length s.now }
    ensures { Passed s.now q from result }
{
    let mut at = from;
    while s.len() - at >= 16 {
        if plain_block(s, at, q) {
            at += 16;
        } else {
            return plain_bytes(s, at, q);
        }
    }
    plain_bytes(s, at, q)
}

// After one opening quote. The step is a run's or an escape's length, so no range counts it.
fn inner(s: &[u8], q: u8, store: &mut [u8], at: usize) -> Result<Taken<usize>, Broken>
    requires { (at + length s.now < 2 ^ 64) × (0 < length s.now) }
    ensures { InnerSays s.now q at store.old store.new result }
{
    let mut i: usize = 1;
    let mut out = at;
    let mut bad: Option<usize> = None;
    loop {
        let e = plain_end(s, i, q);
        store::copy(s, i, e, store, out);
        out += e - i;
        if s.len() <= e {
            return Err(Broken::NotGrammar(e));
        }
        let b = s[e];
        if b != b'\\' {
            if b != q {
                return Err(Broken::NotGrammar(e));
            }
            return match bad {
                Some(first) => Err(Broken::BadEscape(first)),
                None => Ok(Taken {
                    value: out - at,
                    end: e + 1,
                }),
            };
        }
        // No `?`: it hands a character on in one word with its mark, for 12 instructions more.
        let escape = match character(s, e) {
            Ok(escape) => escape,
            Err(at) => return Err(Broken::from(at)),
        };
        match escape.value {
            Some(c) => out = store::encode(c, store, out),
            None => bad = bad.or(Some(e)),
        }
        i = escape.end;
    }
}

// Past one LF, or one CR LF, right after the opening.
pub fn lines_start(s: &[u8]) -> usize
    requires { 2 < length s.now }
    ensures { Begun s.now result }
{
    match s {
        [_, _, _, b'\n', ..] => 4,
        [_, _, _, b'\r', b'\n', ..] => 5,
        _ => 3,
    }
}

// Whether a byte may stand in a multiline part. Most are tested first: all in one `matches!` took four instructions a byte more.
#[tactic(auto, using(std::proofs::lemmas::Bool::Decides::nat_tests), unfolding(machine::specs::Strings::line_byte))]
pub fn line_byte(b: u8) -> bool
    ensures { result ≡ line_byte b }
{
    0x20 <= b || matches!(b, b'\t' | b'\n' | b'\r')
}

// The next three quotes from `from` on: the last three of them.
fn lines_end(s: &[u8], from: usize, q: u8) -> Result<usize, NotGrammar>
    requires { from ≤ length s.now }
    ensures { LinesSays s.now q from result }
{
    let mut n: usize = 0;
    for i in from..s.len() {
        if s[i] == q {
            if n == 2 {
                return Ok(i - 2);
            }
            n += 1;
        } else if line_byte(s[i]) {
            n = 0;
        } else {
            return Err(NotGrammar { place: i });
        }
    }
    Err(NotGrammar { place: s.len() })
}

// After three quotes.
fn multiline(s: &[u8], q: u8, store: &mut [u8], at: usize) -> Result<Taken<usize>, Broken>
    requires { (2 < length s.now) × (0x20 < q) }
    ensures { ThreeSays s.now q at store.old store.new result }
{
    let from = lines_start(s);
    let end = lines_end(s, from, q)?;
    store::copy(s, from, end, store, at);
    Ok(Taken {
        value: end - from,
        end: end + 3,
    })
}

// From the opening quote q.
fn quoted(s: &[u8], q: u8, store: &mut [u8], at: usize) -> Result<Taken<usize>, Broken>
    requires { (at + length s.now < 2 ^ 64) × (0 < length s.now) × (0x20 < q) }
    ensures { OneSays s.now q at store.old store.new result }
{
    if s.len() < 2 {
        return Err(Broken::NotGrammar(1));
    }
    if s[1] != q {
        return inner(s, q, store, at);
    }
    if s.len() < 3 || s[2] != q {
        return Ok(Taken { value: 0, end: 2 });
    }
    multiline(s, q, store, at)
}

// A string part, from its opening quote: how many bytes it means. They are put from `at` on, as far as there is room.
pub fn read_part(s: &[u8], store: &mut [u8], at: usize) -> Result<Taken<usize>, Broken>
    requires { at + length s.now < 2 ^ 64 }
    ensures { PartSays s.now at store.old store.new result }
{
    if s.is_empty() {
        return Err(Broken::NotGrammar(0));
    }
    match s[0] {
        b'"' => quoted(s, b'"', store, at),
        b'\'' => quoted(s, b'\'', store, at),
        _ => Err(Broken::NotGrammar(0)),
    }
}
