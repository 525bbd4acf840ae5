// Words: each letter comes, or the first that does not is the place of a refusal.
ghost use Rattle.std.specs.Prelude.{◌≤◌, length};
ghost use Rattle.items.specs.Between.Spelling.{WordSays};

use crate::NotGrammar;

// The place after the letters `spelt`, from a place on.
pub fn spell(text: &[u8], from: usize, spelt: &[u8]) -> Result<usize, NotGrammar>
    requires { from ≤ length text.now }
    ensures { WordSays text.now from spelt.now result }
{
    for (i, letter) in spelt.iter().enumerate() {
        let at = from + i;
        if at >= text.len() || text[at] != *letter {
            return Err(NotGrammar { place: at });
        }
    }
    Ok(from + spelt.len())
}
