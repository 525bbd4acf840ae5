// A binary part: a dollar with nothing, a quoted form, or hex pairs with dots between.
ghost use Rattle.std.specs.Prelude.{◌≡◌, ◌+◌, ◌≤◌, ◌<◌, length, get_or};
ghost use Rattle.meaning.specs.Letters.{ch};
ghost use Rattle.machine.specs.Strings.{no_digit};
ghost use Rattle.items.specs.Between.Places.{digit_at};
ghost use Rattle.items.specs.Between.BinaryPart.{PairSays, EscapeSays, OneByteSays, PairsSays, TextSays, PieceSays};

use crate::hex_digit::hex_at;
use crate::{NotGrammar, Taken, hex_digit, store};

// The place of the next pair, where one follows the pair before `at`: a dot must have a digit after it.
fn after_pair(text: &[u8], at: usize) -> Result<Option<usize>, NotGrammar>
    requires { at ≤ length text.now }
    ensures { PairSays text.now at result }
{
    if at < text.len() && text[at] == b'.' {
        hex_at(text, at + 1)?;
        return Ok(Some(at + 1));
    }
    match hex_digit::digit(text, at) {
        Some(_) => Ok(Some(at)),
        None => Ok(None),
    }
}

// Hex pairs, from the first digit on. The step is a pair with its dot or without, so no range counts it.
fn pairs(
    text: &[u8],
    from: usize,
    store: &mut [u8],
    start: usize,
) -> Result<Taken<usize>, NotGrammar>
    requires { (from < length text.now) × (start ≤ from) × (digit_at text.now from < no_digit) }
    ensures { PairsSays text.now from start store.old store.new result }
{
    let mut i = from;
    let mut out = start;
    loop {
        let h = hex_at(text, i)?;
        let l = hex_at(text, i + 1)?;
        store::put_byte(store, out, 16 * h + l);
        out += 1;
        match after_pair(text, i + 2)? {
            Some(next) => i = next,
            None => {
                return Ok(Taken {
                    value: out - start,
                    end: i + 2,
                });
            }
        }
    }
}

// An escape of the quoted form, after its backslash.
fn escaped(text: &[u8], at: usize) -> Result<Taken<u8>, NotGrammar>
    requires { at ≤ length text.now }
    ensures { EscapeSays text.now at result }
{
    if at >= text.len() {
        return Err(NotGrammar { place: at });
    }
    if text[at] == b'x' {
        let h = hex_at(text, at + 1)?;
        let l = hex_at(text, at + 2)?;
        return Ok(Taken {
            value: 16 * h + l,
            end: at + 3,
        });
    }
    match hex_digit::short(text[at]) {
        Some(value) => Ok(Taken { value, end: at + 1 }),
        None => Err(NotGrammar { place: at }),
    }
}

// One byte of the quoted form, plain or an escape, where no quote closes it.
fn one_byte(text: &[u8], at: usize) -> Result<Taken<u8>, NotGrammar>
    requires { at < length text.now }
    ensures { OneByteSays text.now at result }
{
    match text[at] {
        b'\\' => escaped(text, at + 1),
        value @ b' '..=b'~' => Ok(Taken { value, end: at + 1 }),
        _ => Err(NotGrammar { place: at }),
    }
}

// The quoted form, after its opening quote q. The step is an escape's length or one byte, so no range counts it.
fn quoted(
    text: &[u8],
    from: usize,
    q: u8,
    store: &mut [u8],
    start: usize,
) -> Result<Taken<usize>, NotGrammar>
    requires { (from ≤ length text.now) × (start ≤ from) × (q ≡ ch "\\" → ⊥) }
    ensures { TextSays text.now q from start store.old store.new result }
{
    let mut i = from;
    let mut out = start;
    while i < text.len() {
        if text[i] == q {
            return Ok(Taken {
                value: out - start,
                end: i + 1,
            });
        }
        let byte = one_byte(text, i)?;
        store::put_byte(store, out, byte.value);
        out += 1;
        i = byte.end;
    }
    Err(NotGrammar { place: i })
}

// A binary part: how many bytes it means. They are put from `start` on, as far as there is room.
pub fn read_part(
    text: &[u8],
    at: usize,
    store: &mut [u8],
    start: usize,
) -> Result<Taken<usize>, NotGrammar>
    requires { (at ≤ length text.now) × (start ≤ at) }
    ensures { PieceSays text.now at start store.old store.new result }
{
    if at >= text.len() {
        return Err(NotGrammar { place: at });
    }
    if text[at] != b'$' {
        return Err(NotGrammar { place: at });
    }
    let i = at + 1;
    if i >= text.len() {
        return Ok(Taken { value: 0, end: i });
    }
    match text[i] {
        b'"' => quoted(text, i + 1, b'"', store, start),
        b'\'' => quoted(text, i + 1, b'\'', store, start),
        b => match hex_digit::hex(b) {
            Some(_) => pairs(text, i, store, start),
            None => Ok(Taken { value: 0, end: i }),
        },
    }
}
