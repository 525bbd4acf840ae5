// Keys: an identifier, or a string.
ghost use Rattle.std.specs.Prelude.{◌≤◌, length};
ghost use Rattle.reader.specs.Between.Scanning.{Bare};
ghost use Rattle.reader.specs.Between.Joined.{KeySays};

use crate::joined;
use crate::joined::OfString;
use items::identifier::Sort;
use items::{Taken, identifier, store};
use meaning::Refusal;

// A key at a place where no layout stands: how many bytes it means, and the place after it.
pub fn key(text: &[u8], at: usize, store: &mut [u8], start: usize) -> Result<Taken<usize>, Refusal>
    requires { (at ≤ length text.now) × (start ≤ at) × Bare text.now at }
    ensures { KeySays text.now at start store.old store.new result }
{
    if at >= text.len() {
        return Err(Refusal::NotGrammar(at));
    }
    let b = text[at];
    if b == b'"' || b == b'\'' {
        return joined::parts::<OfString>(text, at, store, start);
    }
    match identifier::sort_of(b) {
        Sort::Neither | Sort::Figure => Err(Refusal::NotGrammar(at)),
        Sort::Letter => {
            let end = identifier::name_end(text, at + 1);
            store::copy(text, at, end, store, start);
            Ok(Taken {
                value: end - at,
                end,
            })
        }
    }
}
