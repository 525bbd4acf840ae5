// Write JAXN and write JSON: the canonical text of a tape and its store into a lent output.
#![tactic(auto)]

ghost use Rattle.meaning.specs.Tape.{WellFormed};
ghost use Rattle.writer.specs.Between.Walk.{WritesText};
ghost use Rattle.writer.specs.Written.{WritesJaxn, WritesJson};

pub mod byte_or_digit;
mod number;
mod one_record;
mod plain_run;
mod string_or_binary;
mod time_value;
mod walk;

use meaning::{Refusal, TEXT_LIMIT};

// How a finite number is written: its digits and so many zeros; so many of its digits after a point; or with its power.
#[derive(Clone, Copy)]
enum Form {
    Zeros(usize),
    Point(usize),
    Power,
}

// The digits of a fraction without closing zeros: so many digits of this number.
#[derive(Clone, Copy)]
struct Trimmed {
    count: usize,
    digits: u64,
}

// What a record does to the walk: it is passed, and a comma comes next or not; or a container opens, with the bracket
// that closes it and its end.
#[derive(Clone, Copy)]
enum Effect {
    Pass(bool),
    Open { closer: u8, end: usize },
}

// 13 with the length, then 12 with the bytes needed; else the text.
fn write_text(tape: &[u8], store: &[u8], out: &mut [u8]) -> Result<usize, Refusal>
    requires { WellFormed tape.now store.now }
    ensures { WritesText tape.now store.now out.old result out.new }
{
    let needed = walk::text_len(tape, store);
    if needed > TEXT_LIMIT {
        return Err(Refusal::WrittenTooLong(needed));
    }
    if out.len() < needed {
        return Err(Refusal::OutputTooShort(needed));
    }
    Ok(walk::write_records(out, tape, store))
}

// The canonical text of a tape and its store, each exactly as long as used. The answer is so many bytes from the start of the output, or a
// refusal that leaves it as it was.
pub fn write_jaxn(tape: &[u8], store: &[u8], out: &mut [u8]) -> Result<usize, Refusal>
    ensures { WritesJaxn tape.now store.now out.old result out.new }
{
    tape::judge(tape, store)?;
    write_text(tape, store, out)
}

// The same text, where every record has a JSON form.
pub fn write_json(tape: &[u8], store: &[u8], out: &mut [u8]) -> Result<usize, Refusal>
    ensures { WritesJson tape.now store.now out.old result out.new }
{
    tape::judge(tape, store)?;
    if let Some(index) = walk::first_formless(tape, store) {
        return Err(Refusal::NoJsonForm(index));
    }
    write_text(tape, store, out)
}
