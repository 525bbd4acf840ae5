// The public calls under one roof, with the types of their answers. Each call stands, with its promise, in the crate that is named
// here. A refusal's number and place in the table of docs/FORMAT.md, 10, are `number` and `place`; the same calls for C are in `exports`.
#![tactic(auto)]

ghost use Rattle.std.specs.Prelude.{◌≡◌};
ghost use Rattle.meaning.specs.Paper.{number_of, place_of};

pub mod exports;

pub use arriving::{Check, check_feed, check_finish, check_start};
pub use meaning::{Date, Number, Record, Refusal, Time};
pub use reader::{Counts, measure, read};
pub use rules::{IllFormed, NoDate, date, utf8};
pub use tape::look;
pub use writer::{write_jaxn, write_json};

// The longest text: the place of its refusal.
const LONGEST: u64 = meaning::TEXT_LIMIT as u64;

// A refusal's number in the table.
pub fn number(why: Refusal) -> u32
    ensures { result ≡ number_of why }
{
    match why {
        Refusal::TextTooLong => 1,
        Refusal::NotUtf8(_) => 2,
        Refusal::NotGrammar(_) => 3,
        Refusal::BadEscape(_) => 4,
        Refusal::BadTime(_) => 5,
        Refusal::BadNumber(_) => 6,
        Refusal::TooDeep(_) => 7,
        Refusal::TapeTooShort(_) => 8,
        Refusal::StoreTooShort(_) => 9,
        Refusal::NotWellFormed(_) => 10,
        Refusal::NoJsonForm(_) => 11,
        Refusal::OutputTooShort(_) => 12,
        Refusal::WrittenTooLong(_) => 13,
        Refusal::NoSuchRecord(_) => 14,
        Refusal::RepeatedKey(_) => 15,
    }
}

// A refusal's place, alike.
pub fn place(why: Refusal) -> u64
    ensures { result ≡ place_of why }
{
    match why {
        Refusal::TextTooLong => LONGEST,
        Refusal::NotUtf8(place)
        | Refusal::NotGrammar(place)
        | Refusal::BadEscape(place)
        | Refusal::BadTime(place)
        | Refusal::BadNumber(place)
        | Refusal::TooDeep(place)
        | Refusal::TapeTooShort(place)
        | Refusal::StoreTooShort(place)
        | Refusal::NotWellFormed(place)
        | Refusal::NoJsonForm(place)
        | Refusal::OutputTooShort(place)
        | Refusal::WrittenTooLong(place)
        | Refusal::NoSuchRecord(place)
        | Refusal::RepeatedKey(place) => place as u64,
    }
}
