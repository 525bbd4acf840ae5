// The keys of the open objects, in a lent table of numbers: a stack of slots, each a place and a tag, with a chain for each
// bucket of tags. An object that has a key in it is a group of slots, under a mark. A list of fewer than 12 numbers is no
// table: nothing is kept in it, and nothing found.
// The first eight numbers are a header. Four numbers follow for each slot: its place, its tag, the next slot of its chain, and
// the first slot of the chain whose number is the slot's. Memory is lent, so 0 stands for none in the table.
#![tactic(auto)]

ghost use Rattle.std.specs.Prelude.{◌≡◌, ◌+◌, ◌*◌, ◌-◌, ◌/◌, ◌%◌, ◌^◌, ◌<◌, ◌≤◌, length, get_or};
ghost use Rattle.once.specs.Table.{room, unless_zero, Roomy, Pushes, Filled, Pops, Above, Drops};
ghost use Rattle.once.specs.Groups.{Sane, Set, Does, without, Begun, Opens, deeper, shallower, taken, noticed, Owns};
ghost use Rattle.once.specs.Groups.{AboveMark, Newest, Stands, Earlier, Placed, Tagged, marked, Crowds, Names, FromIs, TwiceIs, StopIs};
ghost use Rattle.once.specs.Hash.{stirred, seed, mix, finish};
ghost use Rattle.once.specs.Windows.{least as lesser, onward};

// In the header: how many slots are taken.
const TAKEN: usize = 0;

// One more than how many slots are below the innermost mark; 0 for no mark.
const BASE: usize = 1;

// How many objects are open.
const DEPTH: usize = 2;

// From which place keys are taken in.
const FROM: usize = 3;

// The first key that repeats one; 0 for none.
const TWICE: usize = 4;

// The first key that was not taken in; 0 for none.
const STOP: usize = 5;

// How many keys of one object may stand in a chain, in a window from the first place on; one more for each so many places
// before the window: keys made to stand in one chain of every window then end few of them.
const CHAIN_LIMIT: u32 = 128;

const CHAIN_GROWTH: u32 = 2048;

// How many slots there are.
fn slots(len: usize) -> usize
    requires { 12 ≤ len }
    ensures { (result ≡ (len - 8) / 4) × (0 < result) }
{
    (len - 8) / 4
}

// Where the head of the tag's bucket stands.
fn bucket(tag: u32, n: usize) -> usize
    requires { (0 < n) × (n < 2 ^ 32) }
    ensures { (result ≡ 11 + 4 * (tag % n)) × (result < 8 + 4 * n) }
{
    11 + 4 * (tag as usize % n)
}

// Where a slot begins.
fn slot(index: u32) -> usize
    ensures { result ≡ 8 + 4 * index }
{
    8 + 4 * (index as usize)
}

// One slot more.
fn push(seen: &mut [u32], place: u32, tag: u32)
    requires { Roomy seen.old }
    ensures { Pushes seen.old seen.new place tag }
{
    let n = slots(seen.len());
    let top = seen[TAKEN];
    let head = bucket(tag, n);
    let link = seen[head];
    let at = slot(top);
    seen[at] = place;
    seen[at + 1] = tag;
    seen[at + 2] = link;
    seen[head] = top + 1;
    seen[TAKEN] = top + 1;
}

// The newest slot less.
fn pop(seen: &mut [u32])
    requires { Filled seen.old }
    ensures { Pops seen.old seen.new }
{
    let n = slots(seen.len());
    let top = seen[TAKEN] - 1;
    let at = slot(top);
    let tag = seen[at + 1];
    let link = seen[at + 2];
    let head = bucket(tag, n);
    seen[head] = link;
    seen[TAKEN] = top;
}

// The newest slots less, down to so many.
fn drop(seen: &mut [u32], to: u32)
    requires { Above seen.old to }
    ensures { Drops seen.old seen.new to }
{
    while seen[TAKEN] > to {
        pop(seen);
    }
}

// An empty table; keys before `from` are left out.
pub fn begin(seen: &mut [u32], from: u32)
    requires { length seen.old < 2 ^ 32 }
    ensures { Begun from seen.old seen.new }
{
    if seen.len() < 12 {
        return;
    }
    seen.fill(0);
    seen[FROM] = from;
}

// An object opens.
pub fn opened(seen: &mut [u32])
    requires { Opens seen.old }
    ensures { Does deeper seen.old seen.new }
{
    if seen.len() < 12 {
        return;
    }
    seen[DEPTH] += 1;
}

// Whether the present object has a group: a key in the table.
fn owned(seen: &[u32]) -> bool
    requires { Set seen.now }
    ensures { Owns seen.now result }
{
    let base = seen[BASE];
    if base == 0 {
        return false;
    }
    let mark = slot(base - 1);
    seen[mark + 1] == seen[DEPTH]
}

// The present object's group goes.
fn leave(seen: &mut [u32])
    requires { Set seen.old }
    ensures { Does without seen.old seen.new }
{
    if !owned(seen) {
        return;
    }
    let to = seen[BASE] - 1;
    let mark = slot(to);
    let outer = seen[mark];
    drop(seen, to);
    seen[BASE] = outer;
}

// An object closes.
pub fn closed(seen: &mut [u32])
    requires { Sane seen.old }
    ensures { Does shallower seen.old seen.new }
{
    if seen.len() < 12 {
        return;
    }
    leave(seen);
    seen[DEPTH] = seen[DEPTH].saturating_sub(1);
}

// Where a link leads, if to a slot of the present object.
fn above_mark(seen: &[u32], link: u32) -> Option<u32>
    requires { 12 ≤ length seen.now }
    ensures { AboveMark (get_or seen.now 1 0) link result }
{
    if link > seen[BASE] {
        return Some(link);
    }
    None
}

// The newest slot of the present object in the tag's bucket.
pub fn newest(seen: &[u32], tag: u32) -> Option<u32>
    requires { Sane seen.now }
    ensures { Newest seen.now tag result }
{
    let len = seen.len();
    if len < 12 {
        return None;
    }
    if !owned(seen) {
        return None;
    }
    let head = bucket(tag, slots(len));
    above_mark(seen, seen[head])
}

// The next of them.
pub fn earlier(seen: &[u32], at: u32) -> Option<u32>
    requires { Stands seen.now at }
    ensures { Earlier seen.now at result }
{
    let here = slot(at - 1);
    above_mark(seen, seen[here + 2])
}

// Where the key of a slot stands.
pub fn place_of(seen: &[u32], at: u32) -> u32
    requires { Stands seen.now at }
    ensures { Placed seen.now at result }
{
    let here = slot(at - 1);
    seen[here]
}

// The tag of a slot.
pub fn tag_of(seen: &[u32], at: u32) -> u32
    requires { Stands seen.now at }
    ensures { Tagged seen.now at result }
{
    let here = slot(at - 1);
    seen[here + 1]
}

// A further key of the present object is taken in; where there is no slot, the table stops there.
pub fn take_in(seen: &mut [u32], tag: u32, place: u32)
    requires { Sane seen.old }
    ensures { Does (taken (room seen.old) (place, tag)) seen.old seen.new }
{
    let len = seen.len();
    if len < 12 {
        return;
    }
    if seen[STOP] != 0 {
        return;
    }
    let n = slots(len);
    let top = seen[TAKEN];
    if owned(seen) {
        if (top as usize) < n {
            push(seen, place, tag);
            return;
        }
        seen[STOP] = place;
        return;
    }
    if (top as usize) + 1 < n {
        let base = seen[BASE];
        let depth = seen[DEPTH];
        push(seen, base, depth);
        seen[BASE] = top + 1;
        push(seen, place, tag);
        return;
    }
    seen[STOP] = place;
}

// A key that repeats an earlier one: the first stays.
pub fn notice(seen: &mut [u32], place: u32)
    requires { Sane seen.old }
    ensures { Does (noticed place) seen.old seen.new }
{
    if seen.len() < 12 {
        return;
    }
    if seen[TWICE] == 0 {
        seen[TWICE] = place;
    }
}

// The same where it repeats one, and nothing where it does not.
fn mark(seen: &mut [u32], place: u32, again: bool)
    requires { Sane seen.old }
    ensures { Does (marked again place) seen.old seen.new }
{
    if again {
        notice(seen, place);
    }
}

// Whether the tag's chain has as many keys of the present object as it may.
fn crowded(seen: &[u32], tag: u32) -> bool
    requires { Sane seen.now }
    ensures { Crowds seen.now result }
{
    if seen.len() < 12 {
        return false;
    }
    if seen[STOP] != 0 {
        return false;
    }
    let mut left = CHAIN_LIMIT + seen[FROM] / CHAIN_GROWTH;
    if seen[TAKEN] <= left {
        return false;
    }
    let mut at = newest(seen, tag);
    // A count by hand: a `for` over it was tried, and takes a tenth longer where an object has many keys.
    while let Some(i) = at {
        left -= 1;
        if left == 0 {
            return true;
        }
        at = earlier(seen, i);
    }
    false
}

// A further key of the present object: where it repeats one it is noticed, and it is taken in. Where its chain is full the table
// stops there, as where there is no slot: of keys made to stand in one chain, each is compared with so many in a window.
pub fn named(seen: &mut [u32], tag: u32, place: u32, again: bool)
    requires { Sane seen.old }
    ensures { Names again (place, tag) seen.old seen.new }
{
    mark(seen, place, again);
    if crowded(seen, tag) {
        seen[STOP] = place;
        return;
    }
    take_in(seen, tag, place);
}

// A number of the header: 0 stands for none.
fn unless_zero(n: u32) -> Option<usize>
    ensures { result ≡ unless_zero n }
{
    if n == 0 {
        return None;
    }
    Some(n as usize)
}

// The first key that repeats an earlier one.
pub fn first_twice(seen: &[u32]) -> Option<usize>
    ensures { TwiceIs seen.now result }
{
    if seen.len() < 12 {
        return None;
    }
    unless_zero(seen[TWICE])
}

// The first key that was not taken in.
pub fn stopped(seen: &[u32]) -> Option<usize>
    ensures { StopIs seen.now result }
{
    if seen.len() < 12 {
        return None;
    }
    unless_zero(seen[STOP])
}

// The lesser of two places.
pub fn least(a: Option<usize>, b: Option<usize>) -> Option<usize>
    ensures { result ≡ lesser a b }
{
    match (a, b) {
        (Some(p), Some(q)) => Some(p.min(q)),
        _ => a.or(b),
    }
}

// Where the next window begins, after one that stopped there: a key that repeats one of the keys from there on comes after
// them, so none is needed where a repeated key stands before.
pub fn further(best: Option<usize>, stop: Option<usize>) -> Option<usize>
    ensures { result ≡ onward best stop }
{
    match (best, stop) {
        (Some(first), Some(p)) if first <= p => None,
        _ => stop,
    }
}

// From where keys are taken in. It salts their tags too.
pub fn from(seen: &[u32]) -> u32
    ensures { FromIs seen.now result }
{
    if seen.len() < 12 {
        return 0;
    }
    seen[FROM]
}

// The low half of a number, with its high bits in its low ones.
fn stir(p: u64) -> u32
    ensures { result ≡ stirred p }
{
    let low = (p & 0xFFFF_FFFF) as u32;
    low ^ (low >> 15)
}

// A tag before its first byte.
pub fn seeded(salt: u32) -> u32
    ensures { result ≡ seed salt }
{
    stir(salt as u64 * 3266489909 + 668265263)
}

// A tag with one byte more.
pub fn mixed(h: u32, b: u8) -> u32
    ensures { result ≡ mix h b }
{
    stir(h as u64 * 2654435761 + b as u64)
}

// A tag after its last byte: its low bits, by which buckets go, come from all of it.
pub fn finished(h: u32) -> u32
    ensures { result ≡ finish h }
{
    stir(h as u64 * 2246822507)
}
