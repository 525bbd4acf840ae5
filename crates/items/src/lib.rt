// The items of a text, each by itself: words, identifiers, parts of strings and of binary, numbers and times.
#![tactic(auto)]

pub mod binary_part;
mod clock;
pub mod hex_digit;
pub mod identifier;
pub mod number;
pub mod number_or_time;
pub mod store;
pub mod string_part;
pub mod time_value;
pub mod word;

ghost use Rattle.std.specs.Prelude.{◌≡◌};
ghost use Rattle.meaning.specs.declared.Refusal.TheVariants as Refused;

use meaning::{Number, Refusal, Time};

// A value that has been read, and the place after it.
#[derive(Clone, Copy)]
pub struct Taken<T> {
    pub value: T,
    pub end: usize,
}

// The place of a byte that no rule allows there, or the text's length.
#[derive(Clone, Copy)]
pub struct NotGrammar {
    pub place: usize,
}

impl From<NotGrammar> for Refusal {
    ghost from_gives = { λ e r. r ≡ Refused.NotGrammar e.place };

    // At the same place.
    fn from(e: NotGrammar) -> Refusal {
        Refusal::NotGrammar(e.place)
    }
}

// One value that is no array and no object; a string or binary with how many store bytes it has.
#[derive(Clone, Copy)]
pub enum Item {
    Null,
    Bool(bool),
    Number(Number),
    Time(Time),
    Str(usize),
    Bin(usize),
}

// An item and the place after it, or a refusal.
pub type Scanned = Result<Taken<Item>, Refusal>;
