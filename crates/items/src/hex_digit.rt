// Hexadecimal digits and short escapes, as strings, binary and numbers share them.
ghost use Rattle.machine.specs.Strings.{hex_of, no_digit, short_of, no_short};
ghost use Rattle.items.specs.Between.HexDigit.{Below, DigitSays};
ghost use Rattle.items.specs.Between.Places.{digit_at};

use crate::NotGrammar;

// The value of a hexadecimal digit.
#[tactic(auto, using(std::proofs::lemmas::Bool::Decides::nat_tests), unfolding(machine::specs::Strings::hex_of))]
pub fn hex(b: u8) -> Option<u8>
    ensures { Below no_digit (hex_of b) result }
{
    match b {
        b'0'..=b'9' => Some(b - b'0'),
        b'A'..=b'F' => Some(b - b'A' + 10),
        b'a'..=b'f' => Some(b - b'a' + 10),
        _ => None,
    }
}

// The digit at a place, where there is one.
pub fn digit(text: &[u8], at: usize) -> Option<u8>
    ensures { Below no_digit (digit_at text.now at) result }
{
    if at < text.len() { hex(text[at]) } else { None }
}

// The digit that must stand at a place.
pub fn hex_at(text: &[u8], at: usize) -> Result<u8, NotGrammar>
    ensures { DigitSays text.now at result }
{
    digit(text, at).ok_or(NotGrammar { place: at })
}

// The character of a short escape.
#[tactic(auto, using(std::proofs::lemmas::Bool::Decides::nat_tests), unfolding(machine::specs::Strings::short_of))]
pub fn short(b: u8) -> Option<u8>
    ensures { Below no_short (short_of b) result }
{
    match b {
        b'"' => Some(0x22),
        b'\'' => Some(0x27),
        b'\\' => Some(0x5C),
        b'/' => Some(0x2F),
        b'0' => Some(0x00),
        b'b' => Some(0x08),
        b'f' => Some(0x0C),
        b'n' => Some(0x0A),
        b'r' => Some(0x0D),
        b't' => Some(0x09),
        b'v' => Some(0x0B),
        _ => None,
    }
}
