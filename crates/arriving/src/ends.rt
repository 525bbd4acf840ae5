// The text's end.
ghost use Rattle.std.specs.Prelude.{◌≤◌, ◌≡◌, true};
ghost use Rattle.meaning.specs.Limits.{text_limit};
ghost use Rattle.arriving.specs.Between.Arriving as Arriving;
ghost use Rattle.arriving.specs.Between.Arriving.{end_out, end_mode, sane_mode};

use crate::states::{Here, Mode, Out};
use crate::{figures, small, steps, strings, times};
use meaning::Refusal;
use reader::Counts;

// The text may end after a value that stands in no bracket.
#[tactic(auto, unfolding(crate::specs::Between::Arriving::complete))]
fn complete(here: Here, p: usize) -> Result<Counts, Refusal>
    ensures { result ≡ Arriving.complete here p }
{
    if steps::after_value(here.due) && here.depth == 0 {
        return Ok(Counts {
            records: here.records,
            bytes: here.stored,
        });
    }
    Err(Refusal::NotGrammar(p))
}

// What the text's end did to an item.
#[tactic(auto, unfolding(crate::specs::Between::Arriving::end_out))]
fn ended_item(here: Here, out: Out, p: usize) -> Result<Counts, Refusal>
    ensures { result ≡ end_out here p out }
{
    match out {
        Out::Takes(_, _) => Err(Refusal::NotGrammar(p)),
        Out::Stops => complete(here, p),
        Out::Breaks(why) => Err(why),
    }
}

// The answer where the text ends at the place p: to an item its end is what a zero byte is.
#[tactic(auto, unfolding(crate::specs::Between::Arriving::end_mode, crate::specs::Between::Arriving::sane_mode))]
pub fn finished(here: Here, p: usize) -> Result<Counts, Refusal>
    requires { (sane_mode p here.mode ≡ true) × (p ≤ text_limit) }
    ensures { result ≡ end_mode here p here.mode }
{
    match here.mode {
        Mode::At | Mode::Line => complete(here, p),
        Mode::Slash | Mode::Block | Mode::Star => Err(Refusal::NotGrammar(p)),
        Mode::Spelling(n) => ended_item(here, small::word_next(n, p, 0), p),
        Mode::Counting(f) => ended_item(here, figures::figure_next(f, p, 0), p),
        Mode::Timing(s, m) => ended_item(here, times::moment_next(s, m, p, 0), p),
        Mode::Quoting(k, s) => ended_item(here, strings::quoted_next(k, s, p, 0), p),
        Mode::Packing(o) => ended_item(here, small::octets_next(o, p, 0), p),
        Mode::Naming => ended_item(here, small::name_next(0), p),
        Mode::Failed(why) => Err(why),
    }
}
