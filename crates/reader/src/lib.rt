// Reads a text into a tape and a store: `measure` says what it needs, `read` fills.
#![tactic(auto)]

mod cursor;
mod joined;
mod key;
mod layout;
mod repeat;
mod spelling;
mod tag;

ghost use Rattle.std.specs.Prelude.{◌≤◌, length};
ghost use Rattle.meaning.specs.Limits.{text_limit};
ghost use Rattle.reader.specs.Answers.{Measures, Reads};
ghost use Rattle.reader.specs.Between.Cursor.{Seen};
ghost use Rattle.reader.specs.Between.Walk.{EndedSays, WalkSays, Searching, AtWindow, WindowSays, SearchSays, AnsweredSays};

use cursor::Cursor;
use meaning::{DEPTH_LIMIT, RECORD_SIZE, Refusal, TEXT_LIMIT};

// How many records and store bytes a text needs.
#[derive(Clone, Copy)]
pub struct Counts {
    pub records: usize,
    pub bytes: usize,
}

// After the value: layout, and the text's end.
fn ended(text: &[u8], next: Cursor) -> Result<Counts, Refusal>
    requires { next.at ≤ length text.now }
    ensures { EndedSays text.now next result }
{
    let end = layout::pass(text, next.at)?;
    if end < text.len() {
        return Err(Refusal::NotGrammar(end));
    }
    Ok(Counts {
        records: next.records,
        bytes: next.stored,
    })
}

// The text is layout, one value, layout.
fn walk(text: &[u8], tape: &mut [u8], store: &mut [u8], seen: &mut [u32]) -> Result<Counts, Refusal>
    requires { (length text.now ≤ text_limit) × Seen text.now seen.old 0 }
    ensures { WalkSays text.now tape.old tape.new
        store.old store.new seen.old seen.new result }
{
    let first = Cursor {
        at: layout::pass(text, 0)?,
        records: 0,
        stored: 0,
    };
    let next = first.value(text, DEPTH_LIMIT, tape, store, seen)?;
    ended(text, next)
}

// 15 where a key repeats one, else the counts.
fn answered(twice: Option<usize>, counts: Counts) -> Result<Counts, Refusal>
    ensures { AnsweredSays twice counts result }
{
    match twice {
        Some(place) => Err(Refusal::RepeatedKey(place)),
        None => Ok(counts),
    }
}

// After a window: the first key so far that repeats one, and where the next window begins.
#[derive(Clone, Copy)]
struct Found {
    best: Option<usize>,
    from: Option<usize>,
}

// One window: the keys from `from` on that the table takes in.
fn window(text: &[u8], seen: &mut [u32], best: Option<usize>, from: usize) -> Result<Found, Refusal>
    requires { AtWindow text.now seen.old best from }
    ensures { WindowSays text.now from result }
{
    let mut tape: [u8; 0] = [0; 0];
    let mut store: [u8; 0] = [0; 0];
    once::begin(seen, from as u32);
    walk(text, &mut tape, &mut store, seen)?;
    let best = once::least(best, once::first_twice(seen));
    let from = once::further(best, once::stopped(seen));
    Ok(Found { best, from })
}

// The further windows, by a table of 1 MiB: the first key that repeats one.
fn widest(text: &[u8], first: Found) -> Result<Option<usize>, Refusal>
    requires { Searching text.now first.best first.from }
    ensures { SearchSays text.now result }
{
    let mut seen: [u32; 262152] = [0; 262152];
    let mut found = first;
    while let Some(from) = found.from {
        found = window(text, &mut seen, found.best, from)?;
    }
    Ok(found.best)
}

// The further windows: so many by a table of 64 KiB, then the wider ones. It calls itself where a loop would do:
// the compiler lays no such function into its caller, so the table takes no room on the stack of a text that needs none.
fn searched(text: &[u8], found: Found, rounds: usize) -> Result<Option<usize>, Refusal>
    requires { Searching text.now found.best found.from }
    ensures { SearchSays text.now result }
{
    let Some(from) = found.from else {
        return Ok(found.best);
    };
    if rounds == 0 {
        return widest(text, found);
    }
    let mut seen: [u32; 16392] = [0; 16392];
    let next = window(text, &mut seen, found.best, from)?;
    searched(text, next, rounds - 1)
}

// How many records and store bytes the text needs: 1, then 2 over the whole text, then 3 to 7 from left to right, then 15.
pub fn measure(text: &[u8]) -> Result<Counts, Refusal>
    ensures { Measures text.now result }
{
    if text.len() > TEXT_LIMIT {
        return Err(Refusal::TextTooLong);
    }
    if let Err(e) = rules::utf8(text) {
        return Err(Refusal::NotUtf8(e.place));
    }
    let mut tape: [u8; 0] = [0; 0];
    let mut store: [u8; 0] = [0; 0];
    let mut seen: [u32; 520] = [0; 520];
    let counts = walk(text, &mut tape, &mut store, &mut seen)?;
    let twice = once::first_twice(&seen);
    let from = once::further(twice, once::stopped(&seen));
    // most texts need no further window, and then no call with a table
    if from.is_none() {
        return answered(twice, counts);
    }
    let first = Found { best: twice, from };
    let best = searched(text, first, 1)?;
    answered(best, counts)
}

// Fills the tape and the store from their start: nothing is written before all the room is known; 8, then 9.
pub fn read(text: &[u8], tape: &mut [u8], store: &mut [u8]) -> Result<Counts, Refusal>
    ensures { Reads text.now tape.old store.old result
        tape.new store.new }
{
    let need = measure(text)?;
    if tape.len() < need.records * RECORD_SIZE {
        return Err(Refusal::TapeTooShort(need.records * RECORD_SIZE));
    }
    if store.len() < need.bytes {
        return Err(Refusal::StoreTooShort(need.bytes));
    }
    let mut seen: [u32; 0] = [0; 0];
    walk(text, tape, store, &mut seen)
}
