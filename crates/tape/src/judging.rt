// Judge a whole tape: its sizes, then record by record what each does where it stands. What is still to come in each open
// container is counted down, and is none where it ends. Keys, strings, numbers and containers, which fill most tapes, are
// tested by their four numbers, with no record in between.
ghost use Rattle.std.specs.Prelude.{◌≡◌, ◌+◌, ◌≤◌, ◌<◌, ◌^◌, length};
ghost use Rattle.std.specs.Int.{w32};
ghost use Rattle.std.proofs.Common.{to_z};
ghost use Rattle.rules.specs.Between.Tests.{Decides};
ghost use Rattle.meaning.specs.Limits.{store_limit};
ghost use Rattle.meaning.specs.Good.{GoodFinite};
ghost use Rattle.meaning.specs.Look.{whole_records, Utf8Inside, Ends};
ghost use Rattle.tape.specs.declared.judging.Turn.{Turn};
ghost use Rattle.tape.specs.Between.Judging.{Formed, Sized, ended_of, Judges};
ghost use Rattle.tape.specs.Between.Shapes.{Loaded};
ghost use Rattle.tape.specs.Between.Turns.{value_due, key_due, counted, pass_of, open_of, leaf_of, bytes_end, Tested, LeafIs, TurnIs};

use crate::{Words, fields, four_words, key};
use meaning::{DEPTH_LIMIT, RECORD_LIMIT, RECORD_SIZE, Record, Refusal, STORE_LIMIT};

// What is still to come in what is open is one number, `rest`: twice the records that are still to stand in it, not counting
// those inside others, and one more in an object. In a container it is counted from NONE up, so that it can fall below where more
// stands than is stated; the root's is 2 before its value and 0 after.
const NONE: usize = 1099511627776;

// What a record does to the judge, where it is good: a value or a key is passed, with the next store place; a container opens,
// with its end and what is to come in it.
#[derive(Clone, Copy)]
enum Turn {
    Pass(usize),
    Open { end: usize, rest: usize },
}

// A value is due: at the root, in an array, in an object after a key.
fn value_due(rest: usize) -> bool
    ensures { result ≡ value_due rest }
{
    rest != 0 && (rest % 2 == 0 || rest % 4 == 3)
}

// A key is due: in an object, where no value is.
fn key_due(rest: usize) -> bool
    ensures { result ≡ key_due rest }
{
    rest % 4 == 1
}

// A container has as many elements or members as it states.
fn counted(rest: usize) -> bool
    ensures { result ≡ counted rest }
{
    rest == NONE || rest == NONE + 1
}

// Bytes start where those before ended.
fn pass(length: usize, start: usize, at: usize) -> Option<Turn>
    requires { start + length < 2 ^ 64 }
    ensures { result ≡ pass_of length start at }
{
    if start == at {
        Some(Turn::Pass(at + length))
    } else {
        None
    }
}

// A record that is no key and no container, where a value is due.
fn leaf(r: Record, at: usize) -> Option<Turn>
    requires { bytes_end r < 2 ^ 64 }
    ensures { result ≡ leaf_of r at }
{
    match r {
        Record::Null | Record::Bool(_) | Record::Number(_) | Record::Time(_) => Some(Turn::Pass(
            at,
        )),
        Record::Str { length, start } | Record::Bin { length, start } => pass(length, start, at),
        Record::Key { .. } | Record::Array { .. } | Record::Object { .. } => None,
    }
}

// The same, by its index.
fn any_leaf(tape: &[u8], store: &[u8], index: usize, at: usize) -> Option<Turn>
    requires { length store.now ≤ store_limit }
    ensures { LeafIs tape.now store.now index at result }
{
    match crate::look(tape, store, index) {
        Ok(r) => leaf(r, at),
        Err(_) => None,
    }
}

// A string or a key, where it may stand.
fn text(w: Words, store: &[u8], at: usize) -> Option<Turn>
    requires { Loaded w × (length store.now ≤ store_limit) }
    ensures { Tested ((w.low ≡ 0) × Utf8Inside w.mid w.high store.now) (pass_of w.mid w.high at) result }
{
    let length = w.mid as usize;
    let start = w.high as usize;
    if w.low == 0 && start == at && fields::utf8_inside(length, start, store) {
        return Some(Turn::Pass(at + length));
    }
    None
}

// A finite number, where a value is due.
fn number(w: Words, at: usize) -> Option<Turn>
    requires { Loaded w }
    ensures { Tested ((w.low ≤ 1) × GoodFinite w.high (to_z w32 w.mid)) (Some (Turn.Pass at)) result }
{
    if w.low <= 1 && fields::good_finite(w.high, (w.mid as u32).cast_signed()) {
        return Some(Turn::Pass(at));
    }
    None
}

// An array or an object, where a value is due; so much is to come in it.
fn container(w: Words, index: usize, whole: usize, depth: usize, rest: usize) -> Option<Turn>
    ensures { Tested ((w.low ≡ 0) × Ends w.high index whole) (open_of w.high rest depth) result }
{
    let end = w.high as usize;
    if w.low == 0 && depth < DEPTH_LIMIT && fields::ends(end, index, whole) {
        return Some(Turn::Open { end, rest });
    }
    None
}

// What the record at an index does, where so much is still to come in what is open so deep. The last answer has a local of its
// own, so that the others need no place in memory.
fn turn_at(
    tape: &[u8],
    store: &[u8],
    index: usize,
    rest: usize,
    at: usize,
    depth: usize,
) -> Option<Turn>
    requires { length store.now ≤ store_limit }
    ensures { TurnIs tape.now store.now index rest at depth result }
{
    let whole = tape.len() / RECORD_SIZE;
    if index >= whole {
        return None;
    }
    let w = four_words::words_at(tape, index * RECORD_SIZE);
    if w.mark == four_words::KY {
        return if key_due(rest) {
            text(w, store, at)
        } else {
            None
        };
    }
    if !value_due(rest) {
        return None;
    }
    match w.mark {
        four_words::ST => text(w, store, at),
        four_words::NB => number(w, at),
        four_words::AR => container(w, index, whole, depth, NONE + 2 * w.mid as usize),
        four_words::OB => container(w, index, whole, depth, NONE + 4 * w.mid as usize + 1),
        _ => {
            let t = any_leaf(tape, store, index, at);
            t
        }
    }
}

// Whole records, and no more records and store bytes than the limits allow.
fn sized(tape: &[u8], store: &[u8]) -> bool
    ensures { Decides (Sized tape.now store.now) result }
{
    let n = tape.len() / RECORD_SIZE;
    tape.len() == n * RECORD_SIZE && n <= RECORD_LIMIT && store.len() <= STORE_LIMIT
}

// After the last record: the root is there, and no byte of the store is left over.
fn ended(rest: usize, at: usize, room: usize) -> bool
    ensures { result ≡ ended_of rest at room }
{
    rest == 0 && at == room
}

// One loop over the records, with the ends of the open containers and what is to come in them after the value at hand; those of
// the innermost in `end` and `rest`, at first the end of all. It stops at the first fault, so each byte of the store is passed at
// most twice. A container closes without going on to a record, so the rounds are no range. Kept: one array of a struct of both took
// 9 to 22 percent more instructions in the judge on nested texts.
fn records(tape: &[u8], store: &[u8], mut end: usize) -> bool
    requires { Sized tape.now store.now × (end ≡ whole_records tape.now) }
    ensures { Decides (Formed tape.now store.now) result }
{
    let mut ends: [usize; DEPTH_LIMIT] = [0; DEPTH_LIMIT];
    let mut rests: [usize; DEPTH_LIMIT] = [0; DEPTH_LIMIT];
    let mut depth: usize = 0;
    let mut rest: usize = 2;
    let mut at: usize = 0;
    let mut i: usize = 0;
    loop {
        if i != end {
            match turn_at(tape, store, i, rest, at, depth) {
                None => return false,
                Some(Turn::Pass(a)) => {
                    at = a;
                    rest -= 2;
                    i += 1;
                }
                Some(Turn::Open { end: e, rest: r }) => {
                    ends[depth] = end;
                    rests[depth] = rest - 2;
                    depth += 1;
                    end = e;
                    rest = r;
                    i += 1;
                }
            }
        } else if depth == 0 {
            return ended(rest, at, store.len());
        } else if counted(rest) {
            depth -= 1;
            end = ends[depth];
            rest = rests[depth];
        } else {
            return false;
        }
    }
}

// Whether a tape and its store are well formed but for keys that repeat an earlier one.
fn formed(tape: &[u8], store: &[u8]) -> bool
    ensures { Decides (Formed tape.now store.now) result }
{
    sized(tape, store) && records(tape, store, tape.len() / RECORD_SIZE)
}

// Whether a tape and its store are well formed; else refusal 10 at 0.
pub fn judge(tape: &[u8], store: &[u8]) -> Result<(), Refusal>
    ensures { Judges tape.now store.now result }
{
    if formed(tape, store) && key::first_repeat(tape, store, tape.len() / RECORD_SIZE).is_none() {
        return Ok(());
    }
    Err(Refusal::NotWellFormed(0))
}
