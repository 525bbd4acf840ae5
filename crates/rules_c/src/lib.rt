// The two calls for C and Rust (include/lanternrung_rules.h): each is the call of the same name in `rules::exports`, with its promise.
#![tactic(auto)]

ghost use Rattle.rules.specs.Told.{Utf8Told, DateTold};

use rules::exports::{self, Status};

// `rules::utf8`; the place is that of the first fault.
#[unsafe(no_mangle)]
pub extern "C" fn lr_rules_utf8(s: &[u8]) -> Status
    ensures { Utf8Told s.now result.refused result.place }
{
    exports::lr_rules_utf8(s)
}

// `rules::date`; a refusal has the place 0.
#[unsafe(no_mangle)]
pub extern "C" fn lr_rules_date(year: u64, month: u64, day: u64) -> Status
    ensures { DateTold year month day result.refused result.place }
{
    exports::lr_rules_date(year, month, day)
}
