// A check of a text that arrives in parts, cut anywhere: `check_finish` answers what `measure` answers for the parts joined, with 15 left out.
#![tactic(auto)]

mod classes;
mod ends;
mod figures;
mod leaps;
pub mod octets;
pub mod packing;
mod small;
pub mod states;
mod steps;
mod strings;
mod times;

ghost use Rattle.std.specs.Prelude.{◌+◌, ◌≤◌, ◌≡◌, true, length};
ghost use Rattle.meaning.specs.Limits.{text_limit};
ghost use Rattle.arriving.specs.Between.Steps as Steps;
ghost use Rattle.arriving.specs.Between.Arriving as Arriving;
ghost use Rattle.arriving.specs.Between.Arriving.{started, sane_mode, sane_here, fed, ended_core};

use meaning::{DEPTH_LIMIT, Refusal, TEXT_LIMIT};
use octets::Utf;
use reader::Counts;
use states::{Due, Here, Mode};

// All but the kinds of the open brackets: how many bytes have come, one more than the longest text where they are too many.
#[derive(Clone, Copy)]
pub struct Core {
    pub length: usize,
    pub utf: Utf,
    pub here: Here,
}

// A check: its state, and the kinds of the open brackets.
#[derive(Clone, Copy)]
pub struct Check {
    pub core: Core,
    pub kinds: [u8; DEPTH_LIMIT],
}

// A check with no bracket open, between two characters.
#[tactic(auto, unfolding(meaning::specs::Limits::depth_limit))]
fn fresh(length: usize, mode: Mode) -> Check
    ensures { result ≡ Arriving.fresh length mode }
{
    let here = Here {
        mode,
        due: Due::Value,
        depth: 0,
        records: 0,
        stored: 0,
    };
    Check {
        core: Core {
            length,
            utf: octets::whole(),
            here,
        },
        kinds: [0; DEPTH_LIMIT],
    }
}

// Whether the numbers of an item lie where sums need them, after n bytes.
#[tactic(auto, unfolding(crate::specs::Between::Arriving::sane_mode))]
fn sane_mode(mode: Mode, n: usize) -> bool
    ensures { result ≡ sane_mode n mode }
{
    match mode {
        Mode::Counting(f) => figures::sane_figure(f, n),
        _ => true,
    }
}

// The same where the check stands.
#[tactic(auto, unfolding(crate::specs::Between::Arriving::sane_here, meaning::specs::Limits::depth_limit))]
fn sane_here(here: Here, n: usize) -> bool
    requires { n ≤ text_limit }
    ensures { result ≡ sane_here n here }
{
    here.depth <= DEPTH_LIMIT
        && here.records <= n
        && here.stored <= 300 * n
        && sane_mode(here.mode, n)
}

// Whether the numbers lie where those of a state that came from a start lie, as far as sums and indexes need it.
#[tactic(auto, unfolding(crate::specs::Between::Arriving::sane))]
fn sane(c: Core) -> bool
    ensures { result ≡ Arriving.sane c }
{
    c.length <= TEXT_LIMIT && sane_here(c.here, c.length)
}

// The bytes of a part, the first at the place `base`: whole items and runs at once, and a byte at a time between them. No `for`: a leap goes over many.
fn walked(had: Here, part: &[u8], base: usize, kinds: &mut [u8; DEPTH_LIMIT]) -> Here
    requires { (sane_here base had ≡ true) × (base + length part.now ≤ text_limit) }
    ensures { (result, kinds.new) ≡ Steps.walked (had, kinds.old) base part.now }
{
    let mut here = had;
    let mut i: usize = 0;
    while i < part.len() {
        let r = leaps::leap(here, part, i, kinds);
        let reached = r.here;
        let at = r.at;
        if at >= part.len() {
            return reached;
        }
        here = steps::next(reached, base + at, part[at], kinds);
        i = at + 1;
    }
    here
}

// The state where nothing has come.
pub fn check_start() -> Check
    ensures { result ≡ started }
{
    fresh(0, Mode::At)
}

// The state where too many bytes have come, or where it never came from a start.
fn spent() -> Check
    ensures { result ≡ Arriving.spent }
{
    fresh(TEXT_LIMIT + 1, Mode::Failed(Refusal::TextTooLong))
}

// The state after a part, which may be of no length.
pub fn check_feed(c: Check, part: &[u8]) -> Check
    ensures { result ≡ fed c part.now }
{
    let had = c.core;
    let base = had.length;
    if !sane(had) {
        return spent();
    }
    if part.len() > TEXT_LIMIT - base {
        return spent();
    }
    let mut kinds = c.kinds;
    let here = walked(had.here, part, base, &mut kinds);
    let utf = octets::utf_feed(had.utf, part, base);
    let core = Core {
        length: base + part.len(),
        utf,
        here,
    };
    Check { core, kinds }
}

// The answer where all but the kinds is this.
#[tactic(auto, unfolding(crate::specs::Between::Arriving::ended_core, crate::specs::Between::Arriving::sane, crate::specs::Between::Arriving::sane_here))]
fn ended(c: Core) -> Result<Counts, Refusal>
    ensures { result ≡ ended_core c }
{
    if !sane(c) {
        return Err(Refusal::TextTooLong);
    }
    if c.utf.broken || c.utf.left != 0 {
        return Err(Refusal::NotUtf8(c.utf.first));
    }
    ends::finished(c.here, c.length)
}

// The answer where the text ends: what `measure` answers for all that has come, with 15 left out.
pub fn check_finish(c: Check) -> Result<Counts, Refusal>
    ensures { result ≡ Arriving.ended c }
{
    ended(c.core)
}
