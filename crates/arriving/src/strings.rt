// String parts, a byte at a time: a store byte is counted when the byte comes that makes it sure. Places that are kept are one more
// than they are, 0 for none.
ghost use Rattle.std.specs.Prelude.{◌≡◌, ◌≤◌, length};
ghost use Rattle.rules.specs.Rfc3629.{encode};
ghost use Rattle.meaning.specs.Limits.{text_limit};
ghost use Rattle.machine.specs.Strings.{hex_of, short_of};
ghost use Rattle.arriving.specs.Between.Strings as Strings;
ghost use Rattle.arriving.specs.Between.Strings.{open_quote, quotes, next_quoted};
ghost use Rattle.arriving.specs.declared.states.Inner.TheVariants as Inners;

use crate::states::{Inner, Mode, Out, Quoted};
use items::{hex_digit, string_part};
use meaning::Refusal;

// After the opening quote b.
pub fn opening(b: u8) -> Mode
    ensures { result ≡ open_quote b }
{
    let k = Quoted {
        quote: b,
        bad: 0,
        half: 0,
    };
    Mode::Quoting(k, Inner::One)
}

// The byte is taken, and n store bytes come.
fn goes(k: Quoted, s: Inner, n: usize) -> Out
    ensures { result ≡ quotes k s n }
{
    Out::Takes(Mode::Quoting(k, s), n)
}

// No rule allows the byte at this place.
fn odd(p: usize) -> Out
    ensures { result ≡ Strings.odd p }
{
    Out::Breaks(Refusal::NotGrammar(p))
}

// The earlier of two places.
#[tactic(auto, unfolding(crate::specs::Between::Strings::first_of))]
fn first_of(bad: usize, at: usize) -> usize
    ensures { result ≡ Strings.first_of bad at }
{
    if bad == 0 {
        return at;
    }
    bad
}

// A high surrogate that waits no longer is a bad escape.
#[tactic(auto, unfolding(crate::specs::Between::Strings::bad_now))]
fn bad_now(k: Quoted) -> usize
    ensures { result ≡ Strings.bad_now k }
{
    if k.half == 0 {
        return k.bad;
    }
    first_of(k.bad, k.half)
}

// Between two characters: n store bytes have come.
fn between(quote: u8, bad: usize, half: usize, n: usize) -> Out
    ensures { result ≡ quotes (Strings.quoted quote bad half) Inners.Body n }
{
    goes(Quoted { quote, bad, half }, Inner::Body, n)
}

// The n bytes of a character come.
fn give(k: Quoted, n: usize) -> Out
    ensures { result ≡ Strings.give k n }
{
    between(k.quote, bad_now(k), 0, n)
}

// The escape at this backslash is bad.
fn blame(k: Quoted, at: usize) -> Out
    ensures { result ≡ Strings.blame k at }
{
    between(k.quote, first_of(bad_now(k), at), 0, 0)
}

// The escape at this backslash is a high surrogate.
fn wait(k: Quoted, at: usize) -> Out
    ensures { result ≡ Strings.wait k at }
{
    between(k.quote, bad_now(k), at, 0)
}

// How many bytes the UTF-8 form of a character has.
fn utf8_size(w: u32) -> usize
    ensures { result ≡ length (encode w) }
{
    match w {
        0..=0x7F => 1,
        0x80..=0x7FF => 2,
        0x800..=0xFFFF => 3,
        _ => 4,
    }
}

// A unit of its own.
#[tactic(auto, unfolding(crate::specs::Between::Strings::alone))]
fn alone(k: Quoted, at: usize, w: u32) -> Out
    ensures { result ≡ Strings.alone k at w }
{
    match w {
        0xD800..=0xDBFF => wait(k, at),
        0xDC00..=0xDFFF => blame(k, at),
        _ => give(k, utf8_size(w)),
    }
}

// The low half of a pair, or a unit of its own.
#[tactic(auto, unfolding(crate::specs::Between::Strings::unit))]
fn unit(k: Quoted, at: usize, w: u32) -> Out
    ensures { result ≡ Strings.unit k at w }
{
    match w {
        0xDC00..=0xDFFF if k.half != 0 => between(k.quote, k.bad, 0, 4),
        _ => alone(k, at, w),
    }
}

// A character in braces.
#[tactic(auto, unfolding(crate::specs::Between::Strings::in_braces))]
fn in_braces(k: Quoted, at: usize, w: u32) -> Out
    ensures { result ≡ Strings.in_braces k at w }
{
    match w {
        0..=0xD7FF | 0xE000..=0x10FFFF => give(k, utf8_size(w)),
        _ => blame(k, at),
    }
}

// The digits so far are w, and n more come.
#[tactic(auto, unfolding(crate::specs::Between::Strings::hexed))]
fn hexed(k: Quoted, at: usize, n: u8, w: u32) -> Out
    ensures { result ≡ Strings.hexed k at n w }
{
    if n == 0 {
        return unit(k, at, w);
    }
    let s = Inner::Hex {
        value: w,
        left: n - 1,
        at,
    };
    goes(k, s, 0)
}

// A digit of four, after which n more come.
#[tactic(auto, unfolding(crate::specs::Between::Strings::on_hex))]
fn hex(k: Quoted, at: usize, n: u8, v: u32, p: usize, b: u8) -> Out
    ensures { result ≡ Strings.on_hex k at n v p (hex_of b) }
{
    match hex_digit::hex(b) {
        Some(x) => hexed(k, at, n, 16 * (v % 4096) + u32::from(x)),
        None => odd(p),
    }
}

// A digit in braces.
#[tactic(auto, unfolding(crate::specs::Between::Strings::on_brace))]
fn brace(k: Quoted, at: usize, v: u32, p: usize, b: u8) -> Out
    ensures { result ≡ Strings.on_brace k at v p (hex_of b) }
{
    match hex_digit::hex(b) {
        Some(x) => {
            let value = string_part::grown(v, u32::from(x));
            goes(k, Inner::Brace { value, at }, 0)
        }
        None => odd(p),
    }
}

// After the first digit in braces.
#[tactic(auto, unfolding(crate::specs::Between::Strings::next_quoted))]
fn braced(k: Quoted, at: usize, v: u32, p: usize, b: u8) -> Out
    ensures { result ≡ next_quoted k (Inners.Brace v at) p b }
{
    if b == b'}' {
        return in_braces(k, at, v);
    }
    brace(k, at, v, p, b)
}

// After `\u`.
#[tactic(auto, unfolding(crate::specs::Between::Strings::next_quoted))]
fn unicode(k: Quoted, at: usize, p: usize, b: u8) -> Out
    ensures { result ≡ next_quoted k (Inners.Unicode at) p b }
{
    if b == b'{' {
        return goes(k, Inner::BraceOpen(at), 0);
    }
    hex(k, at, 3, 0, p, b)
}

// After a backslash.
#[tactic(auto, unfolding(crate::specs::Between::Strings::next_quoted, crate::specs::Between::Strings::on_short))]
fn escape(k: Quoted, at: usize, p: usize, b: u8) -> Out
    ensures { result ≡ next_quoted k (Inners.Escape at) p b }
{
    if b == b'u' {
        return goes(k, Inner::Unicode(at), 0);
    }
    match hex_digit::short(b) {
        Some(_) => give(k, 1),
        None => odd(p),
    }
}

// Between two characters.
#[tactic(auto, unfolding(crate::specs::Between::Strings::on_body, machine::specs::Strings::plain_byte))]
fn body(k: Quoted, p: usize, b: u8) -> Out
    requires { p ≤ text_limit }
    ensures { result ≡ Strings.on_body k p b }
{
    match b {
        b'\\' => goes(k, Inner::Escape(p + 1), 0),
        _ if b == k.quote => goes(k, Inner::Done, 0),
        0..=0x1F => odd(p),
        _ => give(k, 1),
    }
}

// After one quote.
#[tactic(auto, unfolding(crate::specs::Between::Strings::next_quoted))]
fn one(k: Quoted, p: usize, b: u8) -> Out
    requires { p ≤ text_limit }
    ensures { result ≡ next_quoted k Inners.One p b }
{
    if b == k.quote {
        return goes(k, Inner::Two, 0);
    }
    body(k, p, b)
}

// After two quotes.
#[tactic(auto, unfolding(crate::specs::Between::Strings::next_quoted))]
fn two(k: Quoted, p: usize, b: u8) -> Out
    ensures { result ≡ next_quoted k Inners.Two p b }
{
    if b == k.quote {
        return goes(k, Inner::Opened, 0);
    }
    Out::Stops
}

// In a multiline part after n quotes, with so many store bytes held back before them; no more than two quotes ever wait.
#[tactic(auto, unfolding(crate::specs::Between::Strings::on_lines))]
fn lines(k: Quoted, n: u8, held: usize, p: usize, b: u8) -> Out
    requires { held ≤ 1 }
    ensures { result ≡ Strings.on_lines k n held p b }
{
    if b == k.quote {
        if 2 <= n {
            return goes(k, Inner::Done, held);
        }
        return goes(k, Inner::Lines(n + 1), held);
    }
    if string_part::line_byte(b) {
        return goes(k, Inner::Lines(0), held + (n % 4) as usize + 1);
    }
    odd(p)
}

// After three quotes.
#[tactic(auto, unfolding(crate::specs::Between::Strings::on_opened))]
fn opened(k: Quoted, p: usize, b: u8) -> Out
    ensures { result ≡ Strings.on_opened k p b }
{
    match b {
        b'\n' => goes(k, Inner::Lines(0), 0),
        b'\r' => goes(k, Inner::OpenedCr, 0),
        _ => lines(k, 0, 0, p, b),
    }
}

// After three quotes and a CR, which is lost with an LF behind it, and kept otherwise.
#[tactic(auto, unfolding(crate::specs::Between::Strings::next_quoted))]
fn opened_cr(k: Quoted, p: usize, b: u8) -> Out
    ensures { result ≡ next_quoted k Inners.OpenedCr p b }
{
    if b == b'\n' {
        return goes(k, Inner::Lines(0), 0);
    }
    lines(k, 0, 1, p, b)
}

// Once the part has closed.
#[tactic(auto, unfolding(crate::specs::Between::Strings::closed))]
fn closed(k: Quoted) -> Out
    ensures { result ≡ Strings.closed k }
{
    let bad = bad_now(k);
    if bad == 0 {
        return Out::Stops;
    }
    Out::Breaks(Refusal::BadEscape(bad - 1))
}

// What the byte b at the place p does to a string part.
#[tactic(auto, unfolding(crate::specs::Between::Strings::next_quoted))]
pub fn quoted_next(k: Quoted, s: Inner, p: usize, b: u8) -> Out
    requires { p ≤ text_limit }
    ensures { result ≡ next_quoted k s p b }
{
    match s {
        Inner::One => one(k, p, b),
        Inner::Two => two(k, p, b),
        Inner::Opened => opened(k, p, b),
        Inner::OpenedCr => opened_cr(k, p, b),
        Inner::Lines(n) => lines(k, n, 0, p, b),
        Inner::Body => body(k, p, b),
        Inner::Escape(at) => escape(k, at, p, b),
        Inner::Unicode(at) => unicode(k, at, p, b),
        Inner::Hex { value, left, at } => hex(k, at, left, value, p, b),
        Inner::BraceOpen(at) => brace(k, at, 0, p, b),
        Inner::Brace { value, at } => braced(k, at, value, p, b),
        Inner::Done => closed(k),
    }
}
