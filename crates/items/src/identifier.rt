// Identifiers: the sort of a byte in one, and where it ends.
ghost use Rattle.std.specs.Prelude.{◌≡◌, ◌≤◌, length};
ghost use Rattle.machine.specs.Names.{class_of};
ghost use Rattle.items.specs.Between.Identifier.{sort_is, NameEnds};

// A byte in an identifier: of three sorts, so an enum of its own and no Option.
#[derive(Clone, Copy)]
pub enum Sort {
    Letter,
    Figure,
    Neither,
}

// The sort of a byte; `$` and `_` count as letters.
#[tactic(auto, using(std::proofs::lemmas::Bool::Decides::nat_tests), unfolding(machine::specs::Names::class_of))]
pub fn sort_of(b: u8) -> Sort
    ensures { class_of b ≡ sort_is result }
{
    match b {
        b'$' | b'A'..=b'Z' | b'_' | b'a'..=b'z' => Sort::Letter,
        b'0'..=b'9' => Sort::Figure,
        _ => Sort::Neither,
    }
}

// The end of an identifier, from among its letters on.
pub fn name_end(text: &[u8], from: usize) -> usize
    requires { from ≤ length text.now }
    ensures { NameEnds text.now from result }
{
    for at in from..text.len() {
        if let Sort::Neither = sort_of(text[at]) {
            return at;
        }
    }
    text.len()
}
