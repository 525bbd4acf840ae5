// The bytes that a key means, one at a time.
ghost use Rattle.std.specs.Prelude.{◌≡◌, List, [], ℕ, ◌≤◌, ◌<◌, ◌*◌, ◌-◌, length, get_or};
ghost use Rattle.meaning.specs.Letters.{ch};
ghost use Rattle.rules.specs.Rfc3629.{encode};
ghost use Rattle.reader.specs.declared.spelling.Spelling.TheVariants as Spellings;
ghost use Rattle.reader.specs.Between.Repeat.{KeyIs};
ghost use Rattle.reader.specs.Between.Spelling.{OctetSays, InText, Spells, StepFromSays, StepSays, LetterSays};
ghost use Rattle.reader.specs.Between.Spelling.{NamesNext, got_parts, ThreeSays};

use crate::joined;
use crate::joined::Join;
use items::identifier::Sort;
use items::{identifier, string_part};

// Where a key is being spelled: among an identifier's letters; where a string part begins; in a part, or in one of many
// lines; in a character of which so many bytes are left, before the place where the part goes on.
#[derive(Clone, Copy)]
pub enum Spelling {
    Name(usize),
    Opening(usize),
    Quoted {
        at: usize,
        quote: u8,
    },
    Lines {
        at: usize,
        quote: u8,
    },
    Due {
        character: u32,
        left: usize,
        at: usize,
        quote: u8,
    },
}

// What comes next: a byte; none yet; or the key's end. Three ways, and `next` goes on with the second: no Option of an Option says it plainer.
#[derive(Clone, Copy)]
enum Spelt {
    Byte(u8, Spelling),
    On(Spelling),
    Over,
}

// The byte of a character's UTF-8 form with so many bytes left, itself included.
fn octet(c: u32, left: usize) -> u8
    requires { c ≤ 0x10FFFF }
    ensures { OctetSays c left result }
{
    match left {
        1 if c < 0x80 => c as u8,
        1 => (0x80 + c % 64) as u8,
        2 if c < 0x800 => (0xC0 + c / 64) as u8,
        2 => (0x80 + c / 64 % 64) as u8,
        3 if c < 0x10000 => (0xE0 + c / 4096) as u8,
        3 => (0x80 + c / 4096 % 64) as u8,
        _ => (0xF0 + c / 262144) as u8,
    }
}

// How many bytes a character's UTF-8 form has.
fn octets(c: u32) -> usize
    ensures { result ≡ length (encode c) }
{
    match c {
        0..=0x7F => 1,
        0x80..=0x7FF => 2,
        0x800..=0xFFFF => 3,
        _ => 4,
    }
}

// A character of which so many bytes are left.
fn due(character: u32, left: usize, at: usize, quote: u8) -> Spelt
    requires { (character ≤ 0x10FFFF) × (0 < left) × (left ≤ 4) }
    ensures { (text : List ℕ) → at ≤ length text → StepSays text (Spellings.Due character left at quote) result }
{
    let b = octet(character, left);
    if left <= 1 {
        return Spelt::Byte(b, Spelling::Quoted { at, quote });
    }
    Spelt::Byte(
        b,
        Spelling::Due {
            character,
            left: left - 1,
            at,
            quote,
        },
    )
}

// After a part.
fn after(text: &[u8], end: usize) -> Spelt
    requires { end ≤ length text.now }
    ensures { StepFromSays text.now (8 * (length text.now - end))
        (λ e u. NamesNext text.now (got_parts e) end u) result }
{
    match joined::after_part(text, end) {
        Ok(Join::Next(at)) => Spelt::On(Spelling::Opening(at)),
        Ok(Join::Last(_)) => Spelt::Over,
        Err(_) => Spelt::Over,
    }
}

// Where a part begins.
fn opening(text: &[u8], at: usize) -> Spelt
    ensures { StepSays text.now (Spellings.Opening at) result }
{
    if at >= text.len() {
        return Spelt::Over;
    }
    let quote = text[at];
    if at + 1 >= text.len() {
        return Spelt::Over;
    }
    if text[at + 1] != quote {
        return Spelt::On(Spelling::Quoted { at: at + 1, quote });
    }
    if at + 2 >= text.len() {
        return Spelt::Over;
    }
    if text[at + 2] != quote {
        return after(text, at + 2);
    }
    Spelt::On(Spelling::Lines {
        at: at + string_part::lines_start(&text[at..]),
        quote,
    })
}

// At the backslash of an escape.
fn escaped(text: &[u8], at: usize, quote: u8) -> Spelt
    requires { (at < length text.now) × (get_or text.now at 0 ≡ ch "\\") }
    ensures { StepSays text.now (Spellings.Quoted at quote) result }
{
    let Ok(escape) = string_part::character(text, at) else {
        return Spelt::Over;
    };
    let next = escape.end;
    match escape.value {
        None => Spelt::On(Spelling::Quoted { at: next, quote }),
        Some(character) => due(character, octets(character), next, quote),
    }
}

// In a part.
fn quoted(text: &[u8], at: usize, quote: u8) -> Spelt
    ensures { StepSays text.now (Spellings.Quoted at quote) result }
{
    if at >= text.len() {
        return Spelt::Over;
    }
    let b = text[at];
    if b == b'\\' {
        return escaped(text, at, quote);
    }
    if b == quote {
        return after(text, at + 1);
    }
    Spelt::Byte(b, Spelling::Quoted { at: at + 1, quote })
}

// Whether three quotes stand at a place. Place by place, as the machine's laws go: what `starts_with` promises goes by a list's front.
fn three(text: &[u8], at: usize, quote: u8) -> bool
    requires { at ≤ length text.now }
    ensures { ThreeSays text.now at quote result }
{
    if text.len() - at < 3 {
        return false;
    }
    if text[at] != quote {
        return false;
    }
    if text[at + 1] != quote {
        return false;
    }
    text[at + 2] == quote
}

// In a part of many lines.
fn lines(text: &[u8], at: usize, quote: u8) -> Spelt
    ensures { StepSays text.now (Spellings.Lines at quote) result }
{
    if at >= text.len() {
        return Spelt::Over;
    }
    if three(text, at, quote) {
        return after(text, at + 3);
    }
    Spelt::Byte(text[at], Spelling::Lines { at: at + 1, quote })
}

// In an identifier.
fn name(text: &[u8], at: usize) -> Spelt
    ensures { StepSays text.now (Spellings.Name at) result }
{
    if at >= text.len() {
        return Spelt::Over;
    }
    let b = text[at];
    match identifier::sort_of(b) {
        Sort::Neither => Spelt::Over,
        Sort::Letter | Sort::Figure => Spelt::Byte(b, Spelling::Name(at + 1)),
    }
}

// One step on.
fn step(text: &[u8], s: Spelling) -> Spelt
    requires { InText text.now s }
    ensures { StepSays text.now s result }
{
    match s {
        Spelling::Name(at) => name(text, at),
        Spelling::Opening(at) => opening(text, at),
        Spelling::Quoted { at, quote } => quoted(text, at, quote),
        Spelling::Lines { at, quote } => lines(text, at, quote),
        Spelling::Due {
            character,
            left,
            at,
            quote,
        } => due(character, left, at, quote),
    }
}

// The key at a place, of which no byte is spelled yet.
pub fn begun(text: &[u8], at: usize) -> Spelling
    requires { at < length text.now }
    ensures { InText text.now result
        × ((u : List ℕ) → KeyIs text.now at u → Spells text.now result [] u) }
{
    match text[at] {
        b'"' | b'\'' => Spelling::Opening(at),
        _ => Spelling::Name(at),
    }
}

// The next byte, and where the key is being spelled after it; none at the key's end.
pub fn next(text: &[u8], from: Spelling) -> Option<(u8, Spelling)>
    requires { InText text.now from }
    ensures { LetterSays text.now from result }
{
    let mut s = from;
    loop {
        match step(text, s) {
            Spelt::Over => return None,
            Spelt::Byte(b, t) => return Some((b, t)),
            Spelt::On(t) => s = t,
        }
    }
}
