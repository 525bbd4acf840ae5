// The tag of a key: a number that the bytes it means and a salt determine.
ghost use Rattle.std.specs.Prelude.{◌≡◌, ◌⊎◌, ◌<◌, length, get_or, IfSome};
ghost use Rattle.meaning.specs.Letters.{ch};
ghost use Rattle.reader.specs.Between.Repeat.{TagSays, ColonAtSays};

use crate::spelling;
use items::identifier;
use items::identifier::Sort;

// Of a key that is spelled a byte at a time.
fn spelled_tag(text: &[u8], at: usize, salt: u32) -> u32
    requires { at < length text.now }
    ensures { TagSays text.now at salt result }
{
    let mut h = once::seeded(salt);
    let mut s = spelling::begun(text, at);
    while let Some((b, t)) = spelling::next(text, s) {
        h = once::mixed(h, b);
        s = t;
    }
    once::finished(h)
}

// Whether a colon stands at a place.
fn colon_at(text: &[u8], at: usize) -> bool
    ensures { ColonAtSays text.now at result }
{
    at < text.len() && text[at] == b':'
}

// Of a key that is one part with no escape, and a colon right behind it: its bytes are those of the text. None for any other
// that begins with a quote.
fn plain_tag(text: &[u8], at: usize, salt: u32) -> Option<u32>
    requires { (at < length text.now) × ((get_or text.now at 0 ≡ ch "\"") ⊎ (get_or text.now at 0 ≡ ch "'")) }
    ensures { IfSome result (λ tag. TagSays text.now at salt tag) }
{
    let quote = text[at];
    let begin = at + 1;
    if begin >= text.len() || text[begin] == quote {
        return None;
    }
    let mut h = once::seeded(salt);
    for i in begin..text.len() {
        let b = text[i];
        if b == b'\\' {
            return None;
        }
        if b == quote {
            return colon_at(text, i + 1).then_some(once::finished(h));
        }
        h = once::mixed(h, b);
    }
    None
}

// Of a key that is an identifier.
fn name_tag(text: &[u8], at: usize, salt: u32) -> u32
    requires { (at < length text.now) × (get_or text.now at 0 ≡ ch "\"" → ⊥) × (get_or text.now at 0 ≡ ch "'" → ⊥) }
    ensures { TagSays text.now at salt result }
{
    let mut h = once::seeded(salt);
    for i in at..text.len() {
        let b = text[i];
        match identifier::sort_of(b) {
            Sort::Neither => return once::finished(h),
            Sort::Letter | Sort::Figure => h = once::mixed(h, b),
        }
    }
    once::finished(h)
}

// Of the key at a place.
pub fn key_tag(text: &[u8], at: usize, salt: u32) -> u32
    requires { at < length text.now }
    ensures { TagSays text.now at salt result }
{
    match text[at] {
        b'"' | b'\'' => match plain_tag(text, at, salt) {
            Some(tag) => tag,
            None => spelled_tag(text, at, salt),
        },
        _ => name_tag(text, at, salt),
    }
}
