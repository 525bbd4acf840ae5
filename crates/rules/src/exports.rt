// The two calls for C and Rust (include/lanternrung_rules.h), which crate `rules_c` exports under these names.
ghost use Rattle.std.specs.Prelude.{◌≡◌};
ghost use Rattle.rules.specs.Paper.{utf8_said, date_said, number_said, place_said};
ghost use Rattle.rules.specs.Told.{Utf8Told, DateTold};

use crate::{IllFormed, NoDate};

// A refusal's number (docs/FORMAT.md, 10.1), 0 where there is none, and its place.
#[repr(C)]
#[derive(Clone, Copy)]
pub struct Status {
    pub refused: u32,
    pub place: u64,
}

// No refusal.
const DONE: Status = Status {
    refused: 0,
    place: 0,
};

impl From<Result<(), IllFormed>> for Status {
    ghost from_gives = { λ a r. (r.refused ≡ number_said (utf8_said a)) × (r.place ≡ place_said (utf8_said a)) };

    // Refusal 2 and the place of the first fault, or none.
    fn from(a: Result<(), IllFormed>) -> Status {
        match a {
            Ok(()) => DONE,
            Err(e) => Status {
                refused: 2,
                place: e.place as u64,
            },
        }
    }
}

impl From<Result<(), NoDate>> for Status {
    ghost from_gives = { λ a r. (r.refused ≡ number_said (date_said a)) × (r.place ≡ place_said (date_said a)) };

    // Refusal 5 at 0, or none.
    fn from(a: Result<(), NoDate>) -> Status {
        match a {
            Ok(()) => DONE,
            Err(NoDate) => Status {
                refused: 5,
                place: 0,
            },
        }
    }
}

// `crate::utf8`; the place is that of the first fault.
pub fn lr_rules_utf8(s: &[u8]) -> Status
    ensures { Utf8Told s.now result.refused result.place }
{
    Status::from(crate::utf8(s))
}

// `crate::date`; a refusal has the place 0.
pub fn lr_rules_date(year: u64, month: u64, day: u64) -> Status
    ensures { DateTold year month day result.refused result.place }
{
    Status::from(crate::date(year, month, day))
}
