// The ten calls for C and Rust (include/lanternrung.h): each is the call of the same name in `lanternrung::exports`, with its promise.
#![tactic(auto)]

ghost use Rattle.lanternrung.specs.Told.{Utf8Told, DateTold, MeasureTold, ReadTold, LookTold, JaxnTold, JsonTold};
ghost use Rattle.lanternrung.specs.Told.{CheckStartTold, CheckFeedTold, CheckFinishTold};

use lanternrung::exports::{self, Fields, Sizes, Status, Text};

// Whether the bytes are UTF-8: refusal 2, with its place, where they are not.
#[unsafe(no_mangle)]
pub extern "C" fn lanternrung_utf8(bytes: &[u8]) -> Status
    ensures { Utf8Told bytes.now result }
{
    exports::lanternrung_utf8(bytes)
}

// Whether there is such a date: refusal 5, at place 0, where there is none.
#[unsafe(no_mangle)]
pub extern "C" fn lanternrung_date(year: u64, month: u64, day: u64) -> Status
    ensures { DateTold year month day result }
{
    exports::lanternrung_date(year, month, day)
}

// How many records and store bytes the text needs, or the refusal.
#[unsafe(no_mangle)]
pub extern "C" fn lanternrung_measure(text: &[u8]) -> Sizes
    ensures { MeasureTold text.now result }
{
    exports::lanternrung_measure(text)
}

// How many records and store bytes the text has filled, or the refusal.
#[unsafe(no_mangle)]
pub extern "C" fn lanternrung_read(text: &[u8], tape: &mut [u8], store: &mut [u8]) -> Sizes
    ensures { ReadTold text.now tape.old store.old result tape.new store.new }
{
    exports::lanternrung_read(text, tape, store)
}

// The record at this index, or the refusal.
#[unsafe(no_mangle)]
pub extern "C" fn lanternrung_look(tape: &[u8], store: &[u8], index: u64) -> Fields
    ensures { LookTold tape.now store.now index result }
{
    exports::lanternrung_look(tape, store, index)
}

// The length of the canonical text in the output, or the refusal.
#[unsafe(no_mangle)]
pub extern "C" fn lanternrung_write_jaxn(tape: &[u8], store: &[u8], out: &mut [u8]) -> Text
    ensures { JaxnTold tape.now store.now out.old result out.new }
{
    exports::lanternrung_write_jaxn(tape, store, out)
}

// The length of the JSON text in the output, or the refusal.
#[unsafe(no_mangle)]
pub extern "C" fn lanternrung_write_json(tape: &[u8], store: &[u8], out: &mut [u8]) -> Text
    ensures { JsonTold tape.now store.now out.old result out.new }
{
    exports::lanternrung_write_json(tape, store, out)
}

// A check of a text in parts begins: its state is put into the first bytes lent, whatever they held.
#[unsafe(no_mangle)]
pub extern "C" fn lanternrung_check_start(state: &mut [u8])
    ensures { CheckStartTold state.old state.new }
{
    exports::lanternrung_check_start(state);
}

// The next part of the text.
#[unsafe(no_mangle)]
pub extern "C" fn lanternrung_check_feed(state: &mut [u8], part: &[u8])
    ensures { CheckFeedTold state.old part.now state.new }
{
    exports::lanternrung_check_feed(state, part);
}

// What `lanternrung_measure` hands over for the parts joined, with 15 left out. The state stays as it is.
#[unsafe(no_mangle)]
pub extern "C" fn lanternrung_check_finish(state: &[u8]) -> Sizes
    ensures { CheckFinishTold state.now result }
{
    exports::lanternrung_check_finish(state)
}
