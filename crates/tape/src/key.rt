// The first key of a tape that repeats an earlier one of its object. A pass over the records keeps the keys of the open objects
// in a table. Where it has no slot left, the next pass takes in the keys from there on: each pass is a window.
ghost use Rattle.std.specs.Prelude.{◌≡◌, ◌≤◌, ◌<◌, ◌^◌, length};
ghost use Rattle.once.specs.Hash.{hash_of};
ghost use Rattle.tape.specs.Between.Key.{first_of, Standing, SomeKey, SameKey, SlotHolds, SlotIs, Seeks, Repeats, Coming, Notes};
ghost use Rattle.tape.specs.Between.Key.{Innermost, Walking, Closes, Readied, Steps, Passed, Empty, Windowed, Later};

use crate::four_words;
use meaning::{DEPTH_LIMIT, RECORD_SIZE};

// What a window leaves to do: the first repeated key so far, and where the next window begins.
#[derive(Clone, Copy)]
struct Window {
    best: Option<usize>,
    from: Option<usize>,
}

// The tag of a key.
fn tag(key: &[u8], salt: u32) -> u32
    ensures { result ≡ hash_of salt key.now }
{
    let mut h = once::seeded(salt);
    for b in key {
        h = once::mixed(h, *b);
    }
    once::finished(h)
}

// Whether the key at an index is this one.
fn key_is(tape: &[u8], store: &[u8], index: usize, key: &[u8]) -> bool
    requires { SomeKey tape.now store.now index }
    ensures { SameKey tape.now store.now index key.now result }
{
    let w = four_words::words_at(tape, index * RECORD_SIZE);
    let start = w.high as usize;
    let end = start + w.mid as usize;
    key == &store[start..end]
}

// Whether the key of a slot is this one.
fn slot_is(tape: &[u8], store: &[u8], key: &[u8], tag: u32, seen: &[u32], at: u32) -> bool
    requires { SlotHolds tape.now store.now seen.now at }
    ensures { SlotIs tape.now store.now key.now tag seen.now at result }
{
    once::tag_of(seen, at) == tag && key_is(tape, store, once::place_of(seen, at) as usize, key)
}

// Whether the present object has this key already, of those taken in.
fn repeats(tape: &[u8], store: &[u8], key: &[u8], tag: u32, seen: &[u32]) -> bool
    requires { Seeks tape.now store.now key.now tag seen.now }
    ensures { Repeats tape.now store.now key.now tag seen.now result }
{
    let mut at = once::newest(seen, tag);
    while let Some(i) = at {
        if slot_is(tape, store, key, tag, seen, i) {
            return true;
        }
        at = once::earlier(seen, i);
    }
    false
}

// A key comes: it is noticed where it repeats one, and taken in. Those before the window are passed over.
fn note(tape: &[u8], store: &[u8], index: usize, from: usize, key: &[u8], seen: &mut [u32])
    requires { Coming tape.now store.now index from key.now seen.old }
    ensures { Notes tape.now store.now index from key.now seen.old seen.new }
{
    if index < from {
        return;
    }
    let t = tag(key, from as u32);
    let again = repeats(tape, store, key, t, seen);
    once::named(seen, t, index as u32, again);
}

// Whether the innermost open container is an object. Each has a number: twice its end, and one more for an object.
fn in_object(ends: &[usize], depth: usize) -> bool
    requires { depth ≤ length ends.now }
    ensures { Innermost ends.now depth result }
{
    depth > 0 && ends[depth - 1] % 2 == 1
}

// Before the record at an index what ends there or before closes, the innermost first. So many are left: it counts down to where
// it stops.
fn closed(seen: &mut [u32], ends: &[usize], count: usize, index: usize) -> usize
    requires { Walking seen.old ends.now count index }
    ensures { Closes seen.old ends.now count index seen.new result }
{
    let mut depth = count;
    while depth > 0 {
        let end = ends[depth - 1];
        if end / 2 > index {
            return depth;
        }
        if end % 2 == 1 {
            once::closed(seen);
        }
        depth -= 1;
    }
    0
}

// What one record does: so many are open after it.
fn step(
    tape: &[u8],
    store: &[u8],
    index: usize,
    from: usize,
    ends: &mut [usize],
    depth: usize,
    seen: &mut [u32],
) -> usize
    requires { Readied tape.now store.now from seen.old ends.old depth index }
    ensures { Steps tape.now store.now from seen.old ends.old depth index
        seen.new ends.new result }
{
    let w = four_words::words_at(tape, index * RECORD_SIZE);
    let high = w.high as usize;
    match w.mark {
        four_words::KY if in_object(ends, depth) => {
            let end = high + w.mid as usize;
            note(tape, store, index, from, &store[high..end], seen);
            depth
        }
        four_words::OB => {
            once::opened(seen);
            ends[depth] = 2 * high + 1;
            depth + 1
        }
        four_words::AR => {
            ends[depth] = 2 * high;
            depth + 1
        }
        _ => depth,
    }
}

// One pass over the records below the bound. What ends at the bound is closed too: a `for` over the records would close it behind
// the loop, and the call of `closed` would no longer be the only one.
fn pass(tape: &[u8], store: &[u8], bound: usize, from: usize, seen: &mut [u32])
    requires { Standing tape.now store.now bound × Empty tape.now store.now from seen.old }
    ensures { Passed tape.now store.now bound from seen.new }
{
    let mut ends: [usize; DEPTH_LIMIT] = [0; DEPTH_LIMIT];
    let mut depth: usize = 0;
    let mut i: usize = 0;
    loop {
        depth = closed(seen, &ends, depth, i);
        if i == bound {
            return;
        }
        depth = step(tape, store, i, from, &mut ends, depth, seen);
        i += 1;
    }
}

// One window more.
fn next_window(
    tape: &[u8],
    store: &[u8],
    bound: usize,
    best: Option<usize>,
    from: usize,
    seen: &mut [u32],
) -> Window
    requires { Standing tape.now store.now bound × Windowed tape.now store.now bound best (Some from)
        × (16 ≤ length seen.old) × (length seen.old < 2 ^ 32) }
    ensures { Later tape.now store.now bound from result }
{
    once::begin(seen, from as u32);
    pass(tape, store, bound, from, seen);
    let best = once::least(best, once::first_twice(seen));
    let from = once::further(best, once::stopped(seen));
    Window { best, from }
}

// Windows of 65,536 slots, until none is left.
fn widest(tape: &[u8], store: &[u8], bound: usize, first: Window) -> Option<usize>
    requires { Standing tape.now store.now bound × Windowed tape.now store.now bound first.best first.from }
    ensures { result ≡ first_of tape.now store.now bound }
{
    let mut seen: [u32; 262152] = [0; 262152];
    let mut w = first;
    while let Some(from) = w.from {
        w = next_window(tape, store, bound, w.best, from, &mut seen);
    }
    w.best
}

// So many windows of 4,096 slots, then the widest. It calls itself, so that its table lies on no other function's stack.
fn searched(tape: &[u8], store: &[u8], bound: usize, w: Window, rounds: usize) -> Option<usize>
    requires { Standing tape.now store.now bound × Windowed tape.now store.now bound w.best w.from }
    ensures { result ≡ first_of tape.now store.now bound }
{
    let Some(from) = w.from else {
        return w.best;
    };
    if rounds == 0 {
        return widest(tape, store, bound, w);
    }
    let mut seen: [u32; 16392] = [0; 16392];
    let next = next_window(tape, store, bound, w.best, from, &mut seen);
    searched(tape, store, bound, next, rounds - 1)
}

// The least index below the bound of a key that repeats an earlier one of its object. Most tapes need one window, of 128 slots.
pub fn first_repeat(tape: &[u8], store: &[u8], bound: usize) -> Option<usize>
    requires { Standing tape.now store.now bound }
    ensures { result ≡ first_of tape.now store.now bound }
{
    let mut seen: [u32; 520] = [0; 520];
    pass(tape, store, bound, 0, &mut seen);
    let best = once::first_twice(&seen);
    let from = once::further(best, once::stopped(&seen));
    if from.is_none() {
        return best;
    }
    searched(tape, store, bound, Window { best, from }, 1)
}
