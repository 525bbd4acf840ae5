// A number or a time value. Digits with no sign stay open as both while both are possible.
ghost use Rattle.std.specs.Prelude.{◌≤◌, ◌<◌, length};
ghost use Rattle.meaning.specs.Limits.{text_limit};
ghost use Rattle.machine.specs.Numeric as Numeric;
ghost use Rattle.items.specs.Between.NumberOrTime.{NumericSays, Reads, Place, Edge, AtDigit, FewSays, LeadSays, Marks, Plainly, TimelySays};

use crate::number::{Acc, NONE, Numeral};
use crate::{Item, NotGrammar, Scanned, Taken, number, time_value, word};
use meaning::{Number, Refusal, Time};

// Up to four digits with no sign: how many, their value twice, and the place after them.
#[derive(Clone, Copy)]
struct Few {
    n: usize,
    v: u16,
    acc: Acc,
    at: usize,
}

// What digits with no sign begin: a number; a hexadecimal one; an hour or a year, and the place after its mark.
#[derive(Clone, Copy)]
enum Lead {
    Number(Taken<Acc>),
    Hex(usize),
    Hour(Taken<u8>),
    Year(Taken<u16>),
}

// What a byte makes of the digits before it.
#[derive(Clone, Copy)]
enum Mark {
    Colon,
    Dash,
    X,
    Other,
}

// Up to four digits from the first on, as a number and as a time's.
fn first_digits(s: &[u8], q: usize) -> Few
    requires { AtDigit s.now q }
    ensures { FewSays s.now q result }
{
    let d = s[q];
    let mut acc = number::push(NONE, d);
    let mut v = (d - b'0') as u16;
    let mut n: usize = 1;
    for at in q + 1..s.len() {
        let b = s[at];
        if n >= 4 || !b.is_ascii_digit() {
            return Few { n, v, acc, at };
        }
        acc = number::push(acc, b);
        v = 10 * v + (b - b'0') as u16;
        n += 1;
    }
    Few {
        n,
        v,
        acc,
        at: s.len(),
    }
}

// What the byte b after n digits, the first of which is d, makes of them.
fn mark_of(n: usize, d: u8, b: u8) -> Mark
    ensures { Marks n d b result }
{
    match (n, b) {
        (2, b':') => Mark::Colon,
        (4, b'-') => Mark::Dash,
        (1, b'x' | b'X') if d == b'0' => Mark::X,
        _ => Mark::Other,
    }
}

// Digits that are no time: a number, unless a 0 goes before others.
fn plain(d: u8, n: usize, x: Acc, at: usize) -> Result<Lead, NotGrammar>
    ensures { Plainly d n x at result }
{
    if d == b'0' && n > 1 {
        return Err(NotGrammar { place: at });
    }
    Ok(Lead::Number(Taken { value: x, end: at }))
}

// The digits with no sign, the first at q.
fn leading(s: &[u8], q: usize) -> Result<Lead, NotGrammar>
    requires { AtDigit s.now q }
    ensures { LeadSays s.now q result }
{
    let w = first_digits(s, q);
    let d = s[q];
    if w.at >= s.len() {
        return plain(d, w.n, w.acc, w.at);
    }
    let end = w.at + 1;
    match mark_of(w.n, d, s[w.at]) {
        Mark::Colon => Ok(Lead::Hour(Taken {
            value: w.v as u8,
            end,
        })),
        Mark::Dash => Ok(Lead::Year(Taken { value: w.v, end })),
        Mark::X => Ok(Lead::Hex(end)),
        Mark::Other => plain(d, w.n, w.acc, w.at),
    }
}

// Digits with no sign, whatever they begin.
fn any_unsigned(s: &[u8], q: usize) -> Scanned
    requires { AtDigit s.now q }
    ensures { Reads s.now q Numeric.begin result }
{
    let lead = leading(s, q)?;
    let num = Numeral {
        first: q,
        minus: false,
    };
    match lead {
        Lead::Number(x) => number::decimal(s, num, x.value, x.end),
        Lead::Hex(at) => number::hexadecimal(s, num, at),
        Lead::Hour(hour) => time_value::after_hour(s, q, None, hour.value, hour.end),
        Lead::Year(year) => time_value::after_year(s, q, year.value, year.end),
    }
}

// Whether the digits before a place may be a time's.
fn timely(s: &[u8], at: usize) -> bool
    ensures { TimelySays s.now at result }
{
    at < s.len() && matches!(s[at], b':' | b'-')
}

// Digits with no sign. Most are of a short number that does not begin with 0.
fn unsigned(s: &[u8], q: usize) -> Scanned
    requires { AtDigit s.now q }
    ensures { Reads s.now q Numeric.begin result }
{
    if s[q] != b'0' {
        let w = number::plain_digits(s, q, 0);
        if !timely(s, w.end) {
            let num = Numeral {
                first: q,
                minus: false,
            };
            return number::rest(s, num, w.value, w.end);
        }
    }
    // In a place of its own, so that a short number's answer is not copied: measured.
    let r = any_unsigned(s, q);
    r
}

// A number that is a word, after its first letter.
fn named(s: &[u8], from: usize, spelt: &[u8], n: Number) -> Scanned
    requires { Place s.now from }
    ensures { Reads s.now from (Numeric.word spelt.now n) result }
{
    let at = word::spell(s, from, spelt)?;
    Ok(Taken {
        value: Item::Number(n),
        end: at,
    })
}

// A number at i that begins with no digit: a point or a word.
fn undigited(s: &[u8], num: Numeral, i: usize) -> Scanned
    requires { (i < length s.now) × (length s.now ≤ text_limit) × Edge s.now i }
    ensures { Reads s.now i (Numeric.sign num.first num.minus) result }
{
    match s[i] {
        b'.' => number::point(s, num, i + 1),
        b'N' => named(s, i + 1, b"aN", Number::NotANumber),
        b'I' => named(s, i + 1, b"nfinity", Number::Infinite { minus: num.minus }),
        _ => Err(Refusal::NotGrammar(i)),
    }
}

// After a sign.
fn signed(s: &[u8], num: Numeral, i: usize) -> Scanned
    requires { Place s.now i }
    ensures { Reads s.now i (Numeric.sign num.first num.minus) result }
{
    if i >= s.len() {
        return Err(Refusal::NotGrammar(i));
    }
    match s[i] {
        b'0' => number::nought(s, num, i + 1),
        b'1'..=b'9' => number::decimal(s, num, NONE, i),
        _ => undigited(s, num, i),
    }
}

// A number or a time value, where its first byte is at q.
pub fn numeric(s: &[u8], q: usize) -> Scanned
    requires { (q < length s.now) × (length s.now ≤ text_limit) }
    ensures { NumericSays s.now q result }
{
    let plus = Numeral {
        first: q,
        minus: false,
    };
    let minus = Numeral {
        first: q,
        minus: true,
    };
    match s[q] {
        b'+' => signed(s, plus, q + 1),
        b'-' => signed(s, minus, q + 1),
        b'0'..=b'9' => unsigned(s, q),
        _ => undigited(s, plus, q),
    }
}
