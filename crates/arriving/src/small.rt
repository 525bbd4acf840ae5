// Words, identifiers and binary parts, a byte at a time.
ghost use Rattle.std.specs.Prelude.{◌≡◌, get_or};
ghost use Rattle.machine.specs.Strings.{hex_of};
ghost use Rattle.meaning.specs.declared.Refusal.TheVariants.{NotGrammar};
ghost use Rattle.arriving.specs.declared.states.Octets.TheVariants.{Low};
ghost use Rattle.arriving.specs.declared.states.Out.TheVariants.{Stops, Breaks};
ghost use Rattle.arriving.specs.Between.Small.{LetterIs, next_word, next_name, packs, on_digit, on_text, on_dollar, on_escape, on_pair, next_octets};

use crate::states::{Mode, Octets, Out};
use items::identifier::Sort;
use items::{hex_digit, identifier};
use meaning::Refusal;

// The byte at a place of a list, 0 past its end.
fn byte_at(list: &[u8], n: usize) -> u8
    ensures { result ≡ get_or list.now n 0 }
{
    *list.get(n).unwrap_or(&0)
}

// The letter at a place of the list of words, where no word ends there.
#[tactic(auto, unfolding(crate::specs::Between::Small::letter_at))]
fn letter_at(n: usize) -> Option<u8>
    ensures { LetterIs n result }
{
    match byte_at(b"null\0true\0false\0NaN\0Infinity\0", n) {
        0 => None,
        letter => Some(letter),
    }
}

// A byte in a word, before the letter at a place of the list of words.
#[tactic(auto, unfolding(crate::specs::Between::Small::next_word))]
pub fn word_next(n: usize, p: usize, b: u8) -> Out
    ensures { result ≡ next_word n p b }
{
    match letter_at(n) {
        None => Out::Stops,
        Some(due) if b == due => Out::Takes(Mode::Spelling(n + 1), 0),
        Some(_) => Out::Breaks(Refusal::NotGrammar(p)),
    }
}

// A byte in an identifier.
#[tactic(auto, unfolding(crate::specs::Between::Small::next_name))]
pub fn name_next(b: u8) -> Out
    ensures { result ≡ next_name b }
{
    match identifier::sort_of(b) {
        Sort::Neither => Out::Stops,
        Sort::Letter | Sort::Figure => Out::Takes(Mode::Naming, 1),
    }
}

// A digit takes the part on, and so many store bytes come; without one it breaks.
#[tactic(auto, unfolding(crate::specs::Between::Small::on_digit))]
fn on_digit(b: u8, next: Octets, stored: usize, p: usize) -> Out
    ensures { result ≡ on_digit (hex_of b) (packs next stored) (Breaks (NotGrammar p)) }
{
    match hex_digit::hex(b) {
        Some(_) => Out::Takes(Mode::Packing(next), stored),
        None => Out::Breaks(Refusal::NotGrammar(p)),
    }
}

// A digit begins a pair; without one the part stops.
#[tactic(auto, unfolding(crate::specs::Between::Small::on_digit))]
fn pair_or_end(b: u8) -> Out
    ensures { result ≡ on_digit (hex_of b) (packs Low 0) Stops }
{
    match hex_digit::hex(b) {
        Some(_) => Out::Takes(Mode::Packing(Octets::Low), 0),
        None => Out::Stops,
    }
}

// After the dollar.
#[tactic(auto, unfolding(crate::specs::Between::Small::on_dollar))]
fn dollar(b: u8) -> Out
    ensures { result ≡ on_dollar b }
{
    match b {
        b'"' | b'\'' => Out::Takes(Mode::Packing(Octets::Text(b)), 0),
        _ => pair_or_end(b),
    }
}

// In the quoted form: from U+0020 to U+007E.
#[tactic(auto, unfolding(crate::specs::Between::Small::on_text))]
fn quoted(p: usize, quote: u8, b: u8) -> Out
    ensures { result ≡ on_text p quote b }
{
    match b {
        b'\\' => Out::Takes(Mode::Packing(Octets::Escape(quote)), 0),
        _ if b == quote => Out::Takes(Mode::Packing(Octets::Done), 0),
        0x20..=0x7E => Out::Takes(Mode::Packing(Octets::Text(quote)), 1),
        _ => Out::Breaks(Refusal::NotGrammar(p)),
    }
}

// After a backslash.
#[tactic(auto, unfolding(crate::specs::Between::Small::on_escape, crate::specs::Between::Small::on_short))]
fn escaped(p: usize, quote: u8, b: u8) -> Out
    ensures { result ≡ on_escape p quote b }
{
    if b == b'x' {
        return Out::Takes(Mode::Packing(Octets::Hex(quote)), 0);
    }
    match hex_digit::short(b) {
        Some(_) => Out::Takes(Mode::Packing(Octets::Text(quote)), 1),
        None => Out::Breaks(Refusal::NotGrammar(p)),
    }
}

// After a pair.
#[tactic(auto, unfolding(crate::specs::Between::Small::on_pair))]
fn after_pair(b: u8) -> Out
    ensures { result ≡ on_pair b }
{
    if b == b'.' {
        return Out::Takes(Mode::Packing(Octets::Dot), 0);
    }
    pair_or_end(b)
}

// A byte in a binary part.
#[tactic(auto, unfolding(crate::specs::Between::Small::next_octets))]
pub fn octets_next(o: Octets, p: usize, b: u8) -> Out
    ensures { result ≡ next_octets o p b }
{
    match o {
        Octets::Dollar => dollar(b),
        Octets::Text(q) => quoted(p, q, b),
        Octets::Escape(q) => escaped(p, q, b),
        Octets::Hex(q) => on_digit(b, Octets::HexLow(q), 0, p),
        Octets::HexLow(q) => on_digit(b, Octets::Text(q), 1, p),
        Octets::Low => on_digit(b, Octets::Pair, 1, p),
        Octets::Pair => after_pair(b),
        Octets::Dot => on_digit(b, Octets::Low, 0, p),
        Octets::Done => Out::Stops,
    }
}
