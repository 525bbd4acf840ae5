// Leap years and the days of a month.
ghost use Rattle.rules.specs.Between.Posts.{Lasts};
ghost use Rattle.rules.specs.Between.Tests.{Decides};
ghost use Rattle.rules.specs.Rfc3339.{Leap};

// Whether a year is a leap year: a multiple of 4, and of 400 where it is one of 100.
fn is_leap(year: u64) -> bool
    ensures { Decides (Leap year) result }
{
    year % 4 == 0 && (year % 100 != 0 || year % 400 == 0)
}

// The days of a month, or none where the number is no month. February has its own rule; of the others, up to July the odd ones have 31 days and
// from August on the even ones, and the rest have 30: `month / 8` is 0 up to July and 1 from August on. One arm for both is faster than one for each.
#[tactic(auto, using(crate::proofs::Months::arms))]
pub(crate) fn days(year: u64, month: u64) -> Option<u64>
    ensures { Lasts year month result }
{
    match month {
        0 | 13.. => None,
        2 if is_leap(year) => Some(29),
        2 => Some(28),
        _ => Some(30 + (month + month / 8) % 2),
    }
}
