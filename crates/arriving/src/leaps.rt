// Runs of bytes and whole items at once, by the readers of the items: byte by byte comes to the same.
ghost use Rattle.std.specs.Prelude.{ℕ, ◌+◌, ◌-◌, ◌≤◌, ◌<◌, ◌≡◌, true, List, ◌⊎◌, length, get_or};
ghost use Rattle.meaning.specs.Letters.{ch};
ghost use Rattle.meaning.specs.Limits.{text_limit};
ghost use Rattle.machine.specs.Names as Names;
ghost use Rattle.machine.specs.Machine.{Bracket, class_of};
ghost use Rattle.arriving.specs.declared.leaps.Run.TheVariants as RunIs;
ghost use Rattle.arriving.specs.declared.states.Due.TheVariants as Dues;
ghost use Rattle.arriving.specs.declared.states.Mode.TheVariants as Modes;
ghost use Rattle.arriving.specs.Between.Steps as Steps;
ghost use Rattle.arriving.specs.Between.Steps.{kind_of, due_in, on_after, after_value, after_key, here_of};
ghost use Rattle.arriving.specs.Between.Leaps.{Leaps, Skips, Bytes, Room, Placed, Stands, stays_in, RanTo, Stepped, WordPassed};
ghost use Rattle.arriving.specs.Between.Leaps.{spot_of, spot_at, due_number, due_of, due_at, Plainly};

use crate::states::{Due, Here, Inner, Mode, Quoted};
use crate::steps;
use items::identifier::Sort;
use items::{binary_part, identifier, number_or_time, string_part, word};
use meaning::DEPTH_LIMIT;

// Bytes that leave the check where it stands: between items, in a line comment, in a block comment, between the quotes of a part
// with one, and with three; the last two hold the part's quote.
#[derive(Clone, Copy)]
enum Run {
    Blank,
    Line,
    Block,
    Plain(u8),
    Lines(u8),
}

// A place of the part where no item stands, and what is due there, by number: a byte in a struct of words would be copied in pieces.
#[derive(Clone, Copy)]
pub struct Spot {
    pub at: usize,
    pub due: usize,
    pub depth: usize,
    pub records: usize,
    pub stored: usize,
}

// The state at a place of the part.
#[derive(Clone, Copy)]
pub struct Reached {
    pub here: Here,
    pub at: usize,
}

// Whether a byte leaves the check where it stands.
#[tactic(auto, unfolding(crate::specs::Between::Leaps::stays_in, machine::specs::Strings::plain_byte))]
fn stays(run: Run, b: u8) -> bool
    ensures { result ≡ stays_in run b }
{
    match run {
        Run::Blank => matches!(b, b' ' | b'\n' | b'\r' | b'\t'),
        Run::Line => b >= b' ' || b == b'\t',
        Run::Block => b != b'*' && string_part::line_byte(b),
        Run::Plain(quote) => b != b'\\' && b != quote && b >= b' ',
        Run::Lines(quote) => b != quote && string_part::line_byte(b),
    }
}

// The first place from `from` on whose byte does not.
fn run_end(part: &[u8], from: usize, run: Run) -> usize
    requires { from ≤ length part.now }
    ensures { RanTo part.now from run result }
{
    for i in from..part.len() {
        if !stays(run, part[i]) {
            return i;
        }
    }
    part.len()
}

// The number of what is due.
fn due_number(d: Due) -> usize
    ensures { result ≡ due_number d }
{
    usize::from(u8::from(d))
}

// At another place, with all else as it was.
fn passed(x: Spot, at: usize) -> Spot
    ensures { result ≡ spot_at x at }
{
    Spot { at, ..x }
}

// At another place, with so many records and store bytes more.
fn moved(x: Spot, at: usize, due: Due, records: usize, stored: usize) -> Spot
    requires { Room x × (records ≤ 1) × (stored ≤ text_limit) }
    ensures { result ≡ spot_of at due x.depth (x.records + records) (x.stored + stored) }
{
    Spot {
        at,
        due: due_number(due),
        records: x.records + records,
        stored: x.stored + stored,
        ..x
    }
}

// Past an opening bracket.
fn opened(x: Spot, kind: u8, due: Due, kinds: &mut [u8; DEPTH_LIMIT]) -> Spot
    requires { Room x }
    ensures { (c : Bracket) → kind ≡ kind_of c → due ≡ due_in c
        → Stepped (λ s p. Steps.opened s p c) x kinds.old result kinds.new }
{
    let depth = x.depth;
    if depth >= DEPTH_LIMIT {
        return x;
    }
    kinds[depth] = kind;
    Spot {
        at: x.at + 1,
        due: due_number(due),
        depth: depth + 1,
        records: x.records + 1,
        ..x
    }
}

// Past a closing bracket of this kind.
fn closed(x: Spot, kind: u8, kinds: &[u8; DEPTH_LIMIT]) -> Spot
    requires { Room x × (1 ≤ kind) }
    ensures { (c : Bracket) → kind ≡ kind_of c
        → Stepped (λ s p. Steps.closed s p c) x kinds.now result kinds.now }
{
    match steps::top(kinds, x.depth) {
        Some(last) if last == kind => Spot {
            at: x.at + 1,
            due: due_number(Due::AfterValue),
            depth: x.depth - 1,
            ..x
        },
        _ => x,
    }
}

// Past a comma.
fn comma(x: Spot, kinds: &[u8; DEPTH_LIMIT]) -> Spot
    requires { Room x }
    ensures { Stepped Steps.comma x kinds.now result kinds.now }
{
    match steps::top(kinds, x.depth) {
        Some(steps::ARRAY) => moved(x, x.at + 1, Due::Value, 0, 0),
        Some(steps::OBJECT) => moved(x, x.at + 1, Due::Key, 0, 0),
        _ => x,
    }
}

// Past what may follow a value.
fn after_value(x: Spot, b: u8, kinds: &[u8; DEPTH_LIMIT]) -> Spot
    requires { Room x × (after_value (due_at x) ≡ true) }
    ensures { Stepped (λ s p. on_after s p (class_of b)) x kinds.now result kinds.now }
{
    match b {
        b',' => comma(x, kinds),
        b']' => closed(x, steps::ARRAY, kinds),
        b'}' => closed(x, steps::OBJECT, kinds),
        _ => x,
    }
}

// Past a colon after a key.
fn after_key(x: Spot, b: u8) -> Spot
    requires { Room x × (after_key (due_at x) ≡ true) }
    ensures { (ks : List ℕ) → Stepped (λ s p. on_after s p (class_of b)) x ks result ks }
{
    if b == b':' {
        return moved(x, x.at + 1, Due::Value, 0, 0);
    }
    x
}

// Past a string part, where one may stand.
fn quoted(part: &[u8], x: Spot) -> Spot
    requires { Placed part.now x × Bytes part.now
        × ((get_or part.now x.at 0 ≡ ch "\"") ⊎ (get_or part.now x.at 0 ≡ ch "'")) }
    ensures { (ks : List ℕ) → Skips part.now x ks result ks }
{
    let from = x.at;
    let mut store: [u8; 0] = [0; 0];
    let Ok(read) = string_part::read_part(&part[from..], &mut store, 0) else {
        return x;
    };
    let end = from + read.end;
    if end >= part.len() {
        return x;
    }
    match Due::from(x.due) {
        Due::Value => moved(x, end, Due::AfterString, 1, read.value),
        Due::Key => moved(x, end, Due::AfterKeyString, 1, read.value),
        Due::StringPart => moved(x, end, Due::AfterString, 0, read.value),
        Due::KeyPart => moved(x, end, Due::AfterKeyString, 0, read.value),
        _ => x,
    }
}

// Past a binary part, where a value may stand.
fn binary(part: &[u8], x: Spot) -> Spot
    requires { Placed part.now x × Bytes part.now × (due_at x ≡ Dues.Value) × (get_or part.now x.at 0 ≡ ch "$") }
    ensures { (ks : List ℕ) → Skips part.now x ks result ks }
{
    let mut store: [u8; 0] = [0; 0];
    match binary_part::read_part(part, x.at, &mut store, 0) {
        Ok(read) if read.end < part.len() => moved(x, read.end, Due::AfterBinary, 1, read.value),
        _ => x,
    }
}

// Past a word of these letters.
fn spelt(part: &[u8], x: Spot, letters: &[u8]) -> Spot
    requires { Placed part.now x }
    ensures { WordPassed part.now x letters.now result }
{
    match word::spell(part, x.at, letters) {
        Ok(end) if end < part.len() => moved(x, end, Due::AfterValue, 1, 0),
        _ => x,
    }
}

// Past a number or a time value.
fn numeric(part: &[u8], x: Spot) -> Spot
    requires { Placed part.now x × Bytes part.now × (due_at x ≡ Dues.Value) × Plainly (get_or part.now x.at 0) }
    ensures { (ks : List ℕ) → Skips part.now x ks result ks }
{
    match number_or_time::numeric(part, x.at) {
        Ok(read) if read.end < part.len() => moved(x, read.end, Due::AfterValue, 1, 0),
        _ => x,
    }
}

// Past an identifier, from its first letter.
fn named(part: &[u8], x: Spot) -> Spot
    requires { Placed part.now x × Bytes part.now × (due_at x ≡ Dues.Key) × (Names.class_of (get_or part.now x.at 0) ≡ Names.letter) }
    ensures { (ks : List ℕ) → Skips part.now x ks result ks }
{
    let end = identifier::name_end(part, x.at);
    if end >= part.len() {
        return x;
    }
    moved(x, end, Due::AfterKey, 1, end - x.at)
}

// Past a byte or an item where a value may stand.
fn value(part: &[u8], x: Spot, b: u8, kinds: &mut [u8; DEPTH_LIMIT]) -> Spot
    requires { Placed part.now x × Bytes part.now × (due_at x ≡ Dues.Value) × (b ≡ get_or part.now x.at 0) × Plainly b }
    ensures { Skips part.now x kinds.old result kinds.new }
{
    match b {
        b'[' => opened(x, steps::ARRAY, Due::Value, kinds),
        b'{' => opened(x, steps::OBJECT, Due::Key, kinds),
        b']' => closed(x, steps::ARRAY, kinds),
        b'n' => spelt(part, x, b"null"),
        b't' => spelt(part, x, b"true"),
        b'f' => spelt(part, x, b"false"),
        b'$' => binary(part, x),
        _ => numeric(part, x),
    }
}

// Past a byte or an item where a key may stand.
fn key(part: &[u8], x: Spot, b: u8, kinds: &[u8; DEPTH_LIMIT]) -> Spot
    requires { Placed part.now x × Bytes part.now × (due_at x ≡ Dues.Key) × (b ≡ get_or part.now x.at 0) }
    ensures { Skips part.now x kinds.now result kinds.now }
{
    if b == b'}' {
        return closed(x, steps::OBJECT, kinds);
    }
    match identifier::sort_of(b) {
        Sort::Letter => named(part, x),
        Sort::Figure | Sort::Neither => x,
    }
}

// Past a byte that is no layout and no quote, or an item.
fn on_due(part: &[u8], x: Spot, b: u8, kinds: &mut [u8; DEPTH_LIMIT]) -> Spot
    requires { Placed part.now x × Bytes part.now × (b ≡ get_or part.now x.at 0) × Plainly b }
    ensures { Skips part.now x kinds.old result kinds.new }
{
    match Due::from(x.due) {
        Due::Value => value(part, x, b, kinds),
        Due::Key => key(part, x, b, kinds),
        Due::AfterValue | Due::AfterString | Due::AfterBinary => after_value(x, b, kinds),
        Due::AfterKey | Due::AfterKeyString => after_key(x, b),
        _ => x,
    }
}

// Past a line comment that ends in the part.
fn line_comment(part: &[u8], x: Spot) -> Spot
    requires { Placed part.now x × (get_or part.now x.at 0 ≡ ch "#") }
    ensures { (ks : List ℕ) → Skips part.now x ks result ks }
{
    let end = run_end(part, x.at + 1, Run::Line);
    if end >= part.len() {
        return x;
    }
    match part[end] {
        b'\n' | b'\r' => passed(x, end + 1),
        _ => x,
    }
}

// From a spot in the part to the next: past blanks, a line comment, a sign of punctuation or a whole item. The same spot where the
// part has no whole one.
fn turn(part: &[u8], x: Spot, kinds: &mut [u8; DEPTH_LIMIT]) -> Spot
    requires { Placed part.now x }
    ensures { Skips part.now x kinds.old result kinds.new }
{
    let j = x.at;
    let b = part[j];
    if b <= b' ' {
        return passed(x, run_end(part, j, Run::Blank));
    }
    match b {
        b'"' | b'\'' => quoted(part, x),
        b'#' => line_comment(part, x),
        _ => on_due(part, x, b, kinds),
    }
}

// As far as items are whole. No `for`: a turn goes over a whole item.
fn skim(part: &[u8], from: Spot, kinds: &mut [u8; DEPTH_LIMIT]) -> Spot
    requires { Stands part.now from.at (here_of Modes.At (due_at from) from.depth from.records from.stored) }
    ensures { Skips part.now from kinds.old result kinds.new }
{
    let mut x = from;
    while x.at < part.len() {
        let y = turn(part, x, kinds);
        if y.at <= x.at {
            return y;
        }
        x = y;
    }
    x
}

// The same, from a state between items.
fn skimmed(here: Here, part: &[u8], at: usize, kinds: &mut [u8; DEPTH_LIMIT]) -> Reached
    requires { Stands part.now at here × (here.mode ≡ Modes.At) }
    ensures { Leaps part.now (here, kinds.old) at (result.here, kinds.new) result.at }
{
    let from = Spot {
        at,
        due: due_number(here.due),
        depth: here.depth,
        records: here.records,
        stored: here.stored,
    };
    let x = skim(part, from, kinds);
    let last = Due::from(x.due);
    Reached {
        here: Here {
            mode: Mode::At,
            due: last,
            depth: x.depth,
            records: x.records,
            stored: x.stored,
        },
        at: x.at,
    }
}

// The same state, where these bytes have run out.
fn ran(here: Here, part: &[u8], at: usize, run: Run) -> Reached
    requires { at ≤ length part.now }
    ensures { (result.here ≡ here) × RanTo part.now at run result.at }
{
    Reached {
        here,
        at: run_end(part, at, run),
    }
}

// The same state, with a store byte more for each of these bytes.
fn stored(here: Here, part: &[u8], at: usize, run: Run) -> Reached
    requires { Stands part.now at here }
    ensures { (result.here ≡ here_of here.mode here.due here.depth here.records (here.stored + (result.at - at)))
        × RanTo part.now at run result.at }
{
    let end = run_end(part, at, run);
    Reached {
        here: Here {
            stored: here.stored + (end - at),
            ..here
        },
        at: end,
    }
}

// Past the bytes of a string part that stand for themselves.
fn quoting(here: Here, k: Quoted, s: Inner, part: &[u8], at: usize) -> Reached
    requires { Stands part.now at here × (here.mode ≡ Modes.Quoting k s) }
    ensures { (ks : List ℕ) → Leaps part.now (here, ks) at (result.here, ks) result.at }
{
    match s {
        Inner::Body if k.half == 0 => stored(here, part, at, Run::Plain(k.quote)),
        Inner::Lines(0) => stored(here, part, at, Run::Lines(k.quote)),
        _ => Reached { here, at },
    }
}

// As far from `at` as whole items and runs go.
pub fn leap(here: Here, part: &[u8], at: usize, kinds: &mut [u8; DEPTH_LIMIT]) -> Reached
    requires { Stands part.now at here }
    ensures { Leaps part.now (here, kinds.old) at (result.here, kinds.new) result.at }
{
    match here.mode {
        Mode::At => skimmed(here, part, at, kinds),
        Mode::Line => ran(here, part, at, Run::Line),
        Mode::Block => ran(here, part, at, Run::Block),
        Mode::Quoting(k, s) => quoting(here, k, s, part, at),
        Mode::Failed(_) => Reached {
            here,
            at: part.len(),
        },
        _ => Reached { here, at },
    }
}
