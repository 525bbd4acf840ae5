// The walk over the records of a well-formed tape: the length of its text, then the text.
ghost use Rattle.std.specs.Prelude.{length};
ghost use Rattle.meaning.specs.Tape.{WellFormed};
ghost use Rattle.writer.specs.Between.Walk.{TextFits, TextLength, TextPut, FirstFormless};

use crate::{Effect, byte_or_digit, one_record};
use meaning::{DEPTH_LIMIT, RECORD_SIZE};

// The shares of all records are the text's length and one more.
pub fn text_len(tape: &[u8], store: &[u8]) -> usize
    requires { WellFormed tape.now store.now }
    ensures { TextLength tape.now store.now result }
{
    let mut total: usize = 0;
    for i in 0..tape.len() / RECORD_SIZE {
        total += one_record::share_of(tape::record_at(tape, i), i, store);
    }
    total - 1
}

// The ends of the open containers and the brackets that close them stand in two arrays; those of the innermost in `until`
// and `bracket`. A record is read after its comma and counted before it is printed: so a round is shortest.
// A round takes a record or closes a container, so no range counts them. Kept: one array of a struct of both took 6 to 8 percent
// more instructions in this walk on nested texts.
pub fn write_records(out: &mut [u8], tape: &[u8], store: &[u8]) -> usize
    requires { TextFits tape.now store.now (length out.old) }
    ensures { TextPut tape.now store.now out.old out.new result }
{
    let mut ends: [usize; DEPTH_LIMIT] = [0; DEPTH_LIMIT];
    let mut closers: [u8; DEPTH_LIMIT] = [0; DEPTH_LIMIT];
    let mut depth: usize = 0;
    let mut until = tape.len() / RECORD_SIZE;
    let mut bracket: u8 = 0;
    let mut comma = false;
    let mut at: usize = 0;
    let mut i: usize = 0;
    loop {
        if i != until {
            let piece = one_record::comma_at(out, at, comma);
            let r = tape::record_at(tape, i);
            i += 1;
            at = one_record::printed_at(out, piece, r, store);
            match one_record::effect_of(r) {
                Effect::Pass(due) => comma = due,
                Effect::Open { closer, end } => {
                    ends[depth] = until;
                    closers[depth] = bracket;
                    depth += 1;
                    until = end;
                    bracket = closer;
                    comma = false;
                }
            }
        } else if depth == 0 {
            return at;
        } else {
            at = byte_or_digit::byte_at(out, at, bracket);
            depth -= 1;
            until = ends[depth];
            bracket = closers[depth];
            comma = true;
        }
    }
}

// The index of the first record that has no JSON form, if there is one.
pub fn first_formless(tape: &[u8], store: &[u8]) -> Option<usize>
    ensures { FirstFormless tape.now store.now result }
{
    for i in 0..tape.len() / RECORD_SIZE {
        if !one_record::json_form(tape::record_at(tape, i)) {
            return Some(i);
        }
    }
    None
}
