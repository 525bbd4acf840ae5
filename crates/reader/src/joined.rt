// Parts joined by a plus, with layout allowed on both sides.
ghost use Rattle.std.specs.Prelude.{◌≡◌, ◌≤◌, length};
ghost use Rattle.reader.specs.Between.Joined.{JoinSays, PlacedSays, BytesSays};
ghost use Rattle.reader.specs.Between.Joined.{PartKind, string_parts, binary_parts, Uses, part_of, whole_of, item_of};

use crate::layout;
use items::string_part::Broken;
use items::{Item, NotGrammar, Taken, binary_part, string_part};
use meaning::Refusal;

// What follows a part: the next one's place, after a plus; or none, and where the layout ends.
#[derive(Clone, Copy)]
pub enum Join {
    Next(usize),
    Last(usize),
}

// After a part.
pub fn after_part(text: &[u8], from: usize) -> Result<Join, NotGrammar>
    requires { from ≤ length text.now }
    ensures { JoinSays text.now from result }
{
    let at = layout::pass(text, from)?;
    if at >= text.len() {
        return Ok(Join::Last(at));
    }
    if text[at] != b'+' {
        return Ok(Join::Last(at));
    }
    let next = layout::pass(text, at + 1)?;
    Ok(Join::Next(next))
}

// A kind of part that a plus joins.
pub trait Part {
    // which it is
    ghost kind: { PartKind };

    // The part at a place of the text: how many bytes it means, and the place after it.
    fn read(text: &[u8], at: usize, store: &mut [u8], start: usize) -> Result<Taken<usize>, Refusal>
        requires { (at ≤ length text.now) × (start ≤ at) }
        ensures { PlacedSays kind text.now at start store.old store.new result };

    // The item that parts are which mean so many bytes.
    fn item(bytes: usize) -> Item
        ensures { result ≡ item_of kind bytes };
}

// The parts of a string.
pub struct OfString;

impl Part for OfString {
    ghost kind = { string_parts };

    // The string part at a place of the text.
    fn read(
        text: &[u8],
        at: usize,
        store: &mut [u8],
        start: usize,
    ) -> Result<Taken<usize>, Refusal> {
        match string_part::read_part(&text[at..], store, start) {
            Err(Broken::NotGrammar(p)) => Err(Refusal::NotGrammar(at + p)),
            Err(Broken::BadEscape(p)) => Err(Refusal::BadEscape(at + p)),
            Ok(part) => Ok(Taken {
                value: part.value,
                end: at + part.end,
            }),
        }
    }

    // A string of so many bytes.
    fn item(bytes: usize) -> Item {
        Item::Str(bytes)
    }
}

// The parts of binary.
pub struct OfBinary;

impl Part for OfBinary {
    ghost kind = { binary_parts };

    // The binary part at a place of the text.
    fn read(
        text: &[u8],
        at: usize,
        store: &mut [u8],
        start: usize,
    ) -> Result<Taken<usize>, Refusal> {
        Ok(binary_part::read_part(text, at, store, start)?)
    }

    // Binary of so many bytes.
    fn item(bytes: usize) -> Item {
        Item::Bin(bytes)
    }
}

// A string or binary, from its first part on: how many bytes it means, and the place after it and the layout that follows.
pub fn parts<P: Part>(
    text: &[u8],
    from: usize,
    store: &mut [u8],
    start: usize,
) -> Result<Taken<usize>, Refusal>
    requires { (from ≤ length text.now) × (start ≤ from) }
    ensures { BytesSays (Uses P.kind) (part_of P.kind) (whole_of P.kind) text.now
        from start store.old store.new result }
{
    let mut at = from;
    let mut out = start;
    loop {
        let part = P::read(text, at, store, out)?;
        out += part.value;
        match after_part(text, part.end)? {
            Join::Next(next) => at = next,
            Join::Last(end) => {
                return Ok(Taken {
                    value: out - start,
                    end,
                });
            }
        }
    }
}
