// Keys of the open objects: each is compared with the earlier ones of its object.
ghost use Rattle.std.specs.Prelude.{◌<◌, length};
ghost use Rattle.reader.specs.Between.Spelling.{InText};
ghost use Rattle.reader.specs.Between.Repeat.{AtKey, Tabled, OverSays, SameSays, Seeks, RepeatSays, NoteSays};

use crate::spelling::Spelling;
use crate::{spelling, tag};

// Whether a key has no byte left.
fn over(text: &[u8], from: Spelling) -> bool
    requires { InText text.now from }
    ensures { OverSays text.now from result }
{
    spelling::next(text, from).is_none()
}

// Whether the keys at two places mean the same bytes. They are spelled as far as they are alike.
fn same_key(text: &[u8], a: usize, b: usize) -> bool
    requires { (a < length text.now) × (b < length text.now) }
    ensures { SameSays text.now a b result }
{
    let mut s = spelling::begun(text, a);
    let mut t = spelling::begun(text, b);
    while let Some((x, s1)) = spelling::next(text, s) {
        let Some((y, t1)) = spelling::next(text, t) else {
            return false;
        };
        if x != y {
            return false;
        }
        s = s1;
        t = t1;
    }
    over(text, t)
}

// Whether a key of the present object that is taken in is the one at this place.
fn repeated(text: &[u8], at: usize, tag: u32, seen: &[u32]) -> bool
    requires { Seeks text.now seen.now at tag }
    ensures { RepeatSays text.now seen.now at result }
{
    let mut slot = once::newest(seen, tag);
    while let Some(i) = slot {
        if once::tag_of(seen, i) == tag && same_key(text, at, once::place_of(seen, i) as usize) {
            return true;
        }
        slot = once::earlier(seen, i);
    }
    false
}

// The key at a place comes: where it repeats one it is noticed, and it is taken in.
pub fn note(text: &[u8], at: usize, seen: &mut [u32])
    requires { AtKey text.now at × Tabled text.now seen.old at }
    ensures { NoteSays text.now seen.old seen.new at }
{
    if seen.len() < 12 {
        return;
    }
    let salt = once::from(seen);
    if at < salt as usize {
        return;
    }
    let tag = tag::key_tag(text, at, salt);
    let again = repeated(text, at, tag, seen);
    once::named(seen, tag, at as u32, again);
}
