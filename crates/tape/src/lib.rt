// Records as bytes: put one, look at one, judge a whole tape.
#![tactic(auto)]

mod fields;
mod four_words;
mod judging;
mod key;
pub mod little_endian;

ghost use Rattle.std.specs.Prelude.{◌≡◌, ◌<◌};
ghost use Rattle.tape.specs.Between.Putting.{put_record};
ghost use Rattle.meaning.specs.Look.{whole_records};
ghost use Rattle.tape.specs.Looking.{Looks};
ghost use Rattle.tape.specs.Between.Standing.{RecordIs};

pub use judging::judge;
use meaning::{RECORD_SIZE, Record, Refusal};

// A record's sixteen bytes as four numbers of 2, 2, 4 and 8 bytes.
#[derive(Clone, Copy, PartialEq, Eq)]
struct Words {
    mark: u64,
    low: u64,
    mid: u64,
    high: u64,
}

// Put the record at this index, where the tape has sixteen bytes for it; else nothing is written, so that measuring is the
// same walk over empty buffers.
pub fn put_record(tape: &mut [u8], index: usize, r: Record)
    ensures { tape.new ≡ put_record tape.old index r }
{
    let whole = tape.len() / RECORD_SIZE;
    if index < whole {
        let at = index * RECORD_SIZE;
        let end = at + RECORD_SIZE;
        four_words::put_words(&mut tape[at..end], Words::from(r));
    }
}

// Look at one record: 14, then 10 at the index. Any index, any bytes, any lengths.
pub fn look(tape: &[u8], store: &[u8], index: usize) -> Result<Record, Refusal>
    ensures { Looks tape.now store.now index result }
{
    let whole = tape.len() / RECORD_SIZE;
    if index >= whole {
        return Err(Refusal::NoSuchRecord(index));
    }
    match four_words::shape_at(tape, index * RECORD_SIZE) {
        Some(r) if fields::own_fields(r, index, whole, store) => Ok(r),
        _ => Err(Refusal::NotWellFormed(index)),
    }
}

// The record at this index of a well-formed tape. Nothing is tested: it is for callers that know so from `judge`.
pub fn record_at(tape: &[u8], index: usize) -> Record
    requires { index < whole_records tape.now }
    ensures { RecordIs tape.now index result }
{
    four_words::only_at(tape, index * RECORD_SIZE)
}
