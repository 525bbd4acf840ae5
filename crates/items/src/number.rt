// Decimal and hexadecimal numbers. The digits are streamed: a coefficient that does not end in 0, and a count of zeros after it.
ghost use Rattle.std.specs.Prelude.{◌≡◌, ℕ, ◌+◌, ◌*◌, ◌^◌, ◌≤◌, ◌<◌, Ok, length};
ghost use Rattle.meaning.specs.Limits.{text_limit, power_limit};
ghost use Rattle.meaning.specs.declared.Number.TheVariants as Number;
ghost use Rattle.grammar.specs.Times.{signed};
ghost use Rattle.machine.specs.Numeric as Numeric;
ghost use Rattle.machine.specs.Numeric.{dig};
ghost use Rattle.items.specs.declared.Item.TheVariants as Item;
ghost use Rattle.items.specs.Between.NumberOrTime.{DecimalSays, Reads, IsDigit, Place, Edge, Holds, Shifted, Digited, Capped};
ghost use Rattle.items.specs.Between.NumberOrTime.{pushed, raised_by, Powered, Ready, From, Settles, PlainSays, EndsSays, Hexed, HexKept, taken};

use crate::{Item, NotGrammar, Scanned, Taken, hex_digit};
use meaning::{COEFFICIENT_MOST, Number, POWER_LIMIT, Refusal};

// After a number up to this, any digit fits.
const SURE: u64 = COEFFICIENT_MOST / 10 - 1;

// An exponent below this is exact.
const EXACT: usize = 1000000000;

// A coefficient that does not end in 0 (or is 0), or is too large to keep, and how many zeros follow it.
#[derive(Clone, Copy)]
pub struct Acc {
    pub c: u64,
    pub over: bool,
    pub z: usize,
}

// The place of a number's first byte, and its sign.
#[derive(Clone, Copy)]
pub struct Numeral {
    pub first: usize,
    pub minus: bool,
}

// No digit so far, or noughts alone.
pub const NONE: Acc = Acc {
    c: 0,
    over: false,
    z: 0,
};

// Too large to keep.
const OVER: Acc = Acc {
    c: 0,
    over: true,
    z: 0,
};

// The digit that must stand at a place.
pub fn digit_here(s: &[u8], i: usize) -> Result<u8, NotGrammar>
    ensures { DecimalSays s.now i result }
{
    if i >= s.len() || !s[i].is_ascii_digit() {
        return Err(NotGrammar { place: i });
    }
    Ok(s[i] - b'0')
}

// c * 10 ^ k, where it fits.
fn shift(c: u64, k: usize) -> Option<u64>
    ensures { Shifted (c * 10 ^ k) result }
{
    if c == 0 {
        return Some(0);
    }
    let mut v = c;
    for _ in 0..k {
        v = v.checked_mul(10)?;
    }
    Some(v)
}

// One more digit.
pub fn push(a: Acc, b: u8) -> Acc
    requires { IsDigit b × (a.z ≤ text_limit) }
    ensures within { result.z ≤ a.z + 1 }
    ensures holds { (m : ℕ) → Holds m a → Holds (dig m b) result }
    ensures told { result ≡ pushed a b }
{
    if b == b'0' {
        return Acc {
            c: a.c,
            over: a.over,
            z: a.z + 1,
        };
    }
    if a.over {
        return OVER;
    }
    let d = (b - b'0') as u64;
    match shift(a.c, a.z + 1) {
        Some(v) if v <= COEFFICIENT_MOST - d => Acc {
            c: v + d,
            over: false,
            z: 0,
        },
        _ => OVER,
    }
}

// The digits from a place on.
fn digits(s: &[u8], from: usize, a: Acc) -> Taken<Acc>
    requires { Ready s.now a 0 from }
    ensures { Digited s.now from a result }
{
    let mut x = a;
    for i in from..s.len() {
        let b = s[i];
        if !b.is_ascii_digit() {
            return Taken { value: x, end: i };
        }
        x = push(x, b);
    }
    Taken {
        value: x,
        end: s.len(),
    }
}

// One more digit of an exponent, exact below a thousand million.
pub fn raise(e: usize, b: u8) -> usize
    requires { IsDigit b × (e < 10000000000) }
    ensures small { result < 10000000000 }
    ensures capped { (w : ℕ) → Capped w e → Capped (dig w b) result }
    ensures told { result ≡ raised_by e b }
{
    if e < EXACT {
        return e * 10 + (b - b'0') as usize;
    }
    e
}

// The digits of an exponent from a place on.
fn exp_digits(s: &[u8], from: usize) -> Taken<usize>
    requires { Place s.now from }
    ensures { Powered s.now from result }
{
    let mut e: usize = 0;
    for i in from..s.len() {
        let b = s[i];
        if !b.is_ascii_digit() {
            return Taken { value: e, end: i };
        }
        e = raise(e, b);
    }
    Taken {
        value: e,
        end: s.len(),
    }
}

// A magnitude with its sign.
pub fn with_sign(minus: bool, m: usize) -> i32
    requires { m < 2 ^ 31 }
    ensures { result ≡ signed minus m }
{
    let x = m as i32;
    if minus { -x } else { x }
}

// The finite number c * 10 ^ power, with its sign, before the place `at`.
fn finite(minus: bool, c: u64, power: i32, at: usize) -> Scanned
    ensures { result ≡ Ok (taken (Item.Number (Number.Finite minus c power)) at) }
{
    let n = Number::Finite {
        minus,
        coefficient: c,
        power,
    };
    Ok(Taken {
        value: Item::Number(n),
        end: at,
    })
}

// A number with its last digit before `at`: the digits times 10^up / 10^dn.
fn settle(num: Numeral, a: Acc, up: usize, dn: usize, at: usize) -> Scanned
    requires { (a.z ≤ text_limit) × (up < 2 ^ 40) × (dn < 2 ^ 40) }
    ensures { Settles num.first num.minus a up dn at result }
{
    if a.over {
        return Err(Refusal::BadNumber(num.first));
    }
    if a.c == 0 {
        return finite(num.minus, 0, 0, at);
    }
    let u = a.z + up;
    if dn <= u {
        let n = u - dn;
        if n > POWER_LIMIT {
            return Err(Refusal::BadNumber(num.first));
        }
        return finite(num.minus, a.c, with_sign(false, n), at);
    }
    let n = dn - u;
    if n > POWER_LIMIT {
        return Err(Refusal::BadNumber(num.first));
    }
    finite(num.minus, a.c, with_sign(true, n), at)
}

// An exponent's digits, after its sign.
fn raised(s: &[u8], num: Numeral, a: Acc, f: usize, minus: bool, k: usize) -> Scanned
    requires { Ready s.now a f k }
    ensures { From s.now a k (λ m. Numeric.exp_sign num.first num.minus m f minus) result }
{
    digit_here(s, k)?;
    let e = exp_digits(s, k);
    if minus {
        return settle(num, a, 0, f + e.value, e.end);
    }
    settle(num, a, e.value, f, e.end)
}

// An exponent, after its e.
fn power(s: &[u8], num: Numeral, a: Acc, f: usize, k: usize) -> Scanned
    requires { Ready s.now a f k }
    ensures { From s.now a k (λ m. Numeric.exp num.first num.minus m f) result }
{
    if k >= s.len() {
        return Err(Refusal::NotGrammar(k));
    }
    match s[k] {
        b'+' => raised(s, num, a, f, false, k + 1),
        b'-' => raised(s, num, a, f, true, k + 1),
        _ => raised(s, num, a, f, false, k),
    }
}

// An exponent or none, after the digits of a number of which f are a fraction's.
fn exponent(s: &[u8], num: Numeral, a: Acc, f: usize, at: usize) -> Scanned
    requires { Ready s.now a f at × Edge s.now at }
    ensures { From s.now a at (λ m. Numeric.frac num.first num.minus m f) result }
{
    if at >= s.len() || !matches!(s[at], b'e' | b'E') {
        return settle(num, a, 0, f, at);
    }
    power(s, num, a, f, at + 1)
}

// A fraction's digits, after its point, and what follows.
fn fraction(s: &[u8], num: Numeral, a: Acc, from: usize) -> Scanned
    requires { Ready s.now a 0 from }
    ensures { From s.now a from (λ m. Numeric.frac num.first num.minus m 0) result }
{
    let w = digits(s, from, a);
    exponent(s, num, w.value, w.end - from, w.end)
}

// After the digits of the whole part.
fn pointed(s: &[u8], num: Numeral, a: Acc, at: usize) -> Scanned
    requires { Ready s.now a 0 at × Edge s.now at }
    ensures { From s.now a at (λ m. Numeric.int num.first num.minus m) result }
{
    if at >= s.len() || s[at] != b'.' {
        return exponent(s, num, a, 0, at);
    }
    fraction(s, num, a, at + 1)
}

// The rest of a decimal number, from among the digits of its whole part on.
pub fn decimal(s: &[u8], num: Numeral, a: Acc, from: usize) -> Scanned
    requires { Ready s.now a 0 from }
    ensures { From s.now a from (λ m. Numeric.int num.first num.minus m) result }
{
    let w = digits(s, from, a);
    pointed(s, num, w.value, w.end)
}

// A number that begins with its point, after it.
pub fn point(s: &[u8], num: Numeral, i: usize) -> Scanned
    requires { Place s.now i }
    ensures { Reads s.now i (Numeric.point num.first num.minus) result }
{
    digit_here(s, i)?;
    fraction(s, num, NONE, i)
}

// A number that is not 0, without the zeros at its end.
fn stripped(v: u64) -> Acc
    requires { 0 < v }
    ensures small { result.z < 20 }
    ensures holds { Holds v result }
{
    let mut c = v;
    let mut z: usize = 0;
    while c % 10 == 0 {
        c = c / 10;
        z += 1;
    }
    Acc { c, over: false, z }
}

// Any number without the zeros at its end.
fn held(v: u64) -> Acc
    ensures small { (k : ℕ) → v < 10 ^ k → result.z ≤ k }
    ensures holds { Holds v result }
{
    if v == 0 {
        return NONE;
    }
    stripped(v)
}

// The digits from a place on, after others with the value `had`, as long as one more is sure to fit.
pub fn plain_digits(s: &[u8], from: usize, had: u64) -> Taken<u64>
    requires { from ≤ length s.now }
    ensures { PlainSays s.now from had result }
{
    let mut v = had;
    for i in from..s.len() {
        let b = s[i];
        if !b.is_ascii_digit() || v > SURE {
            return Taken { value: v, end: i };
        }
        v = v * 10 + (b - b'0') as u64;
    }
    Taken {
        value: v,
        end: s.len(),
    }
}

// Whether a number that has digits before this place ends here: no digit, no point and no exponent follows.
fn ends(s: &[u8], at: usize) -> bool
    ensures { EndsSays s.now at result }
{
    at >= s.len() || !matches!(s[at], b'0'..=b'9' | b'.' | b'e' | b'E')
}

// The rest of a decimal number, after digits of its whole part with the value v. Most are short, with no exponent.
pub fn rest(s: &[u8], num: Numeral, v: u64, at: usize) -> Scanned
    requires { Place s.now at × (v < 10 ^ at) }
    ensures { Reads s.now at (Numeric.int num.first num.minus v) result }
{
    if ends(s, at) {
        return settle(num, held(v), 0, 0, at);
    }
    if s[at] != b'.' {
        // In a place of its own, as below.
        let r = decimal(s, num, held(v), at);
        return r;
    }
    let w = plain_digits(s, at + 1, v);
    if ends(s, w.end) {
        return settle(num, held(w.value), 0, w.end - (at + 1), w.end);
    }
    // In a place of its own, so that a short number's answer is not copied: measured.
    let r = decimal(s, num, held(v), at);
    r
}

// One more hexadecimal digit, while the number fits.
fn hex_more(v: Option<u64>, d: u8) -> Option<u64>
    ensures { (w : ℕ) → HexKept w v → HexKept (16 * w + d) result }
{
    v?.checked_mul(16)?.checked_add(d as u64)
}

// The hexadecimal digits from a place on: their number where it is below 2^64, and the place after them.
fn hex_digits(s: &[u8], from: usize) -> Taken<Option<u64>>
    requires { Place s.now from }
    ensures { Hexed s.now from result }
{
    let mut v = Some(0);
    for i in from..s.len() {
        let Some(d) = hex_digit::hex(s[i]) else {
            return Taken { value: v, end: i };
        };
        v = hex_more(v, d);
    }
    Taken {
        value: v,
        end: s.len(),
    }
}

// A hexadecimal number, after its mark. It must itself be below 2^64.
pub fn hexadecimal(s: &[u8], num: Numeral, from: usize) -> Scanned
    requires { Place s.now from }
    ensures { Reads s.now from (Numeric.hex_mark num.first num.minus) result }
{
    let w = hex_digits(s, from);
    if w.end == from {
        return Err(Refusal::NotGrammar(from));
    }
    let Some(v) = w.value else {
        return Err(Refusal::BadNumber(num.first));
    };
    settle(num, held(v), 0, 0, w.end)
}

// After a first 0 under a sign.
pub fn nought(s: &[u8], num: Numeral, at: usize) -> Scanned
    requires { Place s.now at }
    ensures { Reads s.now at (Numeric.nought num.first num.minus) result }
{
    if at >= s.len() {
        return finite(num.minus, 0, 0, at);
    }
    match s[at] {
        b'x' | b'X' => hexadecimal(s, num, at + 1),
        b'.' => fraction(s, num, NONE, at + 1),
        b'e' | b'E' => exponent(s, num, NONE, 0, at),
        _ => finite(num.minus, 0, 0, at),
    }
}
