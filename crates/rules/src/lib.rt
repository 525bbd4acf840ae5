// UTF-8 and the calendar, by themselves: the metrology group links these alone, as the archive of crate `rules_c`.
#![tactic(auto)]

mod blocks;
mod calendar;
pub mod exports;
mod octets;

ghost use Rattle.rules.specs.Rfc3339.{Dated};
ghost use Rattle.rules.specs.Rfc3629.{Judged};

// The bytes are not UTF-8: the place of the first ill-formed sequence (refusal 2).
#[derive(Clone, Copy)]
pub struct IllFormed {
    pub place: usize,
}

// The numbers are no date in years 0000 to 9999 (refusal 5 at 0).
#[derive(Clone, Copy)]
pub struct NoDate;

// Whether the bytes are UTF-8; any length, empty too. Blocks are passed first; what is left, and the place of a fault, character by character.
pub fn utf8(s: &[u8]) -> Result<(), IllFormed>
    ensures { Judged s.now result }
{
    let mut i = blocks::passed(s)?;
    while i < s.len() {
        if s[i] < 0x80 {
            i = octets::ascii_bytes(s, i + 1);
        } else {
            i += octets::char_at(s, i).ok_or(IllFormed { place: i })?;
        }
    }
    Ok(())
}

// Whether the three numbers are a date.
pub fn date(year: u64, month: u64, day: u64) -> Result<(), NoDate>
    ensures { Dated year month day result }
{
    // A year or a day that no month has is refused before the month is looked at.
    if year > 9999 || day < 1 {
        return Err(NoDate);
    }
    match calendar::days(year, month) {
        Some(days) if day <= days => Ok(()),
        _ => Err(NoDate),
    }
}
