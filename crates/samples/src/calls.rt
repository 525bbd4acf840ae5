// Each call on the arguments of a case.
use crate::{showing, spelling};
use lanternrung::exports::{
    Sizes, Text, lanternrung_check_feed, lanternrung_check_finish, lanternrung_check_start,
    lanternrung_date, lanternrung_look, lanternrung_measure, lanternrung_read, lanternrung_utf8,
    lanternrung_write_jaxn, lanternrung_write_json,
};
use std::io;

// What is lent for a tape or an output.
const TAPE: usize = 8192;

// What is lent for a text or a store, and for what is spelled.
const BUFFER: usize = 4096;

// The state of a check.
const STATE: usize = 640;

// What stands in a buffer before a call.
const MARK: u8 = 170;

// Whether all of it is as it was.
fn kept(s: &[u8]) -> bool {
    s.iter().all(|b| *b == MARK)
}

// All from this place on is as it was.
fn kept_from(rt: &impl Print, s: &[u8], at: u64) -> io::Result<()> {
    if at > s.len() as u64 {
        return showing::fault(rt, b"within what was lent");
    }
    let from = at as usize;
    if !kept(&s[from..]) {
        showing::fault(rt, b"as it was")?;
    }
    Ok(())
}

// Prints whether the bytes are UTF-8. Like each call here it gives true: there is such a call.
pub(crate) fn utf8(rt: &impl Print, rest: &[u8]) -> io::Result<bool> {
    let mut bytes = [0u8; BUFFER];
    let n = spelling::decode(rest, false, &mut bytes);
    showing::status(rt, lanternrung_utf8(&bytes[..n]))?;
    Ok(true)
}

// Prints whether the three numbers are a date.
pub(crate) fn date(rt: &impl Print, rest: &[u8]) -> io::Result<bool> {
    let year = spelling::find(rest, b' ');
    let tail = spelling::after(rest, year);
    let month = spelling::find(tail, b' ');
    let day = spelling::after(tail, month);
    showing::status(
        rt,
        lanternrung_date(
            spelling::number(&rest[..year]),
            spelling::number(&tail[..month]),
            spelling::number(day),
        ),
    )?;
    Ok(true)
}

// Prints how many records and store bytes a text needs.
pub(crate) fn measure(rt: &impl Print, rest: &[u8]) -> io::Result<bool> {
    let mut text = [0u8; BUFFER];
    let n = spelling::decode(rest, false, &mut text);
    showing::sizes(rt, lanternrung_measure(&text[..n]))?;
    Ok(true)
}

// What a check answers for a text in these two parts.
fn in_two(first: &[u8], second: &[u8]) -> Sizes {
    let mut state = [MARK; STATE];
    lanternrung_check_start(&mut state);
    lanternrung_check_feed(&mut state, first);
    lanternrung_check_feed(&mut state, second);
    lanternrung_check_finish(&state)
}

// Whether two answers are the same.
fn alike(a: Sizes, b: Sizes) -> bool {
    a.refused == b.refused && a.place == b.place && a.records == b.records && a.bytes == b.bytes
}

// Whether a check answers what `measure` does, with 15 left out: counts in its place.
fn left_out(answer: Sizes, measured: Sizes) -> bool {
    if measured.refused == 15 {
        answer.refused == 0
    } else {
        alike(answer, measured)
    }
}

// Whether a check answers this for a text, wherever it is cut.
fn cut_anywhere(text: &[u8], answer: Sizes) -> bool {
    (0..text.len()).all(|cut| alike(in_two(&text[..cut], &text[cut..]), answer))
}

// What a check answers for a text, and a fault where it is not what `measure` answers, 15 left out, for some place where the text is cut.
fn check_all(rt: &impl Print, text: &[u8]) -> io::Result<()> {
    let answer = in_two(text, b"");
    showing::sizes(rt, answer)?;
    if !left_out(answer, lanternrung_measure(text)) {
        return showing::fault(rt, b"what measure answers");
    }
    if !cut_anywhere(text, answer) {
        showing::fault(rt, b"the same for every cut")?;
    }
    Ok(())
}

// Prints what a check answers for a text in two parts, cut at each place.
pub(crate) fn checked(rt: &impl Print, rest: &[u8]) -> io::Result<bool> {
    let mut text = [0u8; BUFFER];
    let n = spelling::decode(rest, false, &mut text);
    check_all(rt, &text[..n])?;
    Ok(true)
}

// `read` with a tape and a store: what is not filled is as it was.
fn read_into(rt: &impl Print, text: &[u8], tape: &mut [u8], store: &mut [u8]) -> io::Result<()> {
    let s = lanternrung_read(text, tape, store);
    showing::sizes(rt, s)?;
    kept_from(rt, tape, spelling::filled(s.records, tape) as u64)?;
    kept_from(rt, store, s.bytes)
}

// Prints the same of a text that is read into a tape and a store of the lengths before it.
pub(crate) fn read(rt: &impl Print, rest: &[u8]) -> io::Result<bool> {
    let first = spelling::find(rest, b' ');
    let tail = spelling::after(rest, first);
    let second = spelling::find(tail, b' ');
    let mut text = [0u8; BUFFER];
    let n = spelling::decode(spelling::after(tail, second), false, &mut text);
    let mut tape = [MARK; TAPE];
    let mut store = [MARK; TAPE];
    let t = spelling::within(spelling::number(&rest[..first]), &tape);
    let s = spelling::within(spelling::number(&tail[..second]), &store);
    read_into(rt, &text[..n], &mut tape[..t], &mut store[..s])?;
    Ok(true)
}

// What a text is read into, in the dotted spelling.
pub(crate) fn tape(rt: &impl Print, rest: &[u8]) -> io::Result<bool> {
    let mut text = [0u8; BUFFER];
    let n = spelling::decode(rest, false, &mut text);
    let mut tape = [0u8; TAPE];
    let mut store = [0u8; BUFFER];
    let s = lanternrung_read(&text[..n], &mut tape, &mut store);
    if s.refused > 0 {
        showing::refused(rt, s.refused, s.place)?;
        return Ok(true);
    }
    let used = spelling::filled(s.records, &tape);
    let bytes = spelling::within(s.bytes, &store);
    showing::both(rt, &tape[..used], &store[..bytes])?;
    Ok(true)
}

// Reading the text gives this tape and this store.
fn gives(text: &[u8], tape: &[u8], store: &[u8]) -> bool {
    let mut tape2 = [0u8; TAPE];
    let mut store2 = [0u8; BUFFER];
    let s = lanternrung_read(text, &mut tape2, &mut store2);
    let used = spelling::filled(s.records, &tape2);
    let bytes = spelling::within(s.bytes, &store2);
    &tape2[..used] == tape && &store2[..bytes] == store
}

// The canonical text of this tape and this store gives them again.
fn comes_back(tape: &[u8], store: &[u8]) -> bool {
    let mut out = [0u8; TAPE];
    let w = lanternrung_write_jaxn(tape, store, &mut out);
    let n = spelling::within(w.length, &out);
    gives(&out[..n], tape, store)
}

// A text is taken, and what is written of it gives the same tape and store.
pub(crate) fn goes_round(text: &[u8]) -> bool {
    let mut tape = [0u8; TAPE];
    let mut store = [0u8; BUFFER];
    let s = lanternrung_read(text, &mut tape, &mut store);
    if s.refused > 0 {
        return false;
    }
    let used = spelling::filled(s.records, &tape);
    let bytes = spelling::within(s.bytes, &store);
    comes_back(&tape[..used], &store[..bytes])
}

// The answer of the JSON call or of the JAXN call.
fn write(json: bool, tape: &[u8], store: &[u8], out: &mut [u8]) -> Text {
    if json {
        lanternrung_write_json(tape, store, out)
    } else {
        lanternrung_write_jaxn(tape, store, out)
    }
}

// The text or the refusal; what is not written is as it was.
fn written(
    rt: &impl Print,
    json: bool,
    tape: &[u8],
    store: &[u8],
    out: &mut [u8],
) -> io::Result<()> {
    let w = write(json, tape, store, out);
    if w.refused > 0 {
        showing::refused(rt, w.refused, w.place)?;
    } else {
        let n = spelling::within(w.length, out);
        showing::say(rt, &out[..n])?;
    }
    kept_from(rt, out, w.length)
}

// Prints what is written of a text that is read, and a fault where it does not go round.
fn rewritten(rt: &impl Print, json: bool, rest: &[u8]) -> io::Result<bool> {
    let mut text = [0u8; BUFFER];
    let n = spelling::decode(rest, false, &mut text);
    let mut tape = [0u8; TAPE];
    let mut store = [0u8; BUFFER];
    let s = lanternrung_read(&text[..n], &mut tape, &mut store);
    if s.refused > 0 {
        showing::refused(rt, s.refused, s.place)?;
        return Ok(true);
    }
    let used = spelling::filled(s.records, &tape);
    let bytes = spelling::within(s.bytes, &store);
    let mut out = [MARK; TAPE];
    written(rt, json, &tape[..used], &store[..bytes], &mut out)?;
    if !goes_round(&text[..n]) {
        showing::fault(rt, b"read again")?;
    }
    Ok(true)
}

// Prints the canonical text of what is read, or the refusal.
pub(crate) fn jaxn(rt: &impl Print, rest: &[u8]) -> io::Result<bool> {
    rewritten(rt, false, rest)
}

// Prints the JSON text of what is read, or the refusal.
pub(crate) fn json(rt: &impl Print, rest: &[u8]) -> io::Result<bool> {
    rewritten(rt, true, rest)
}

// Prints the record at an index of a spelled tape, beside a spelled store.
pub(crate) fn look(rt: &impl Print, rest: &[u8]) -> io::Result<bool> {
    let first = spelling::find(rest, b' ');
    let tail = spelling::after(rest, first);
    let bar = spelling::find(tail, b'|');
    let mut tape = [0u8; BUFFER];
    let mut store = [0u8; BUFFER];
    let t = spelling::decode(&tail[..bar], true, &mut tape);
    let s = spelling::decode(spelling::after(tail, bar), false, &mut store);
    showing::fields(
        rt,
        lanternrung_look(&tape[..t], &store[..s], spelling::number(&rest[..first])),
    )?;
    Ok(true)
}

// Prints what is written of a spelled tape and store, into an output of the length before them.
fn write_case(rt: &impl Print, json: bool, rest: &[u8]) -> io::Result<bool> {
    let first = spelling::find(rest, b' ');
    let tail = spelling::after(rest, first);
    let bar = spelling::find(tail, b'|');
    let mut tape = [0u8; BUFFER];
    let mut store = [0u8; BUFFER];
    let mut out = [MARK; TAPE];
    let t = spelling::decode(&tail[..bar], true, &mut tape);
    let s = spelling::decode(spelling::after(tail, bar), false, &mut store);
    let n = spelling::within(spelling::number(&rest[..first]), &out);
    written(rt, json, &tape[..t], &store[..s], &mut out[..n])?;
    Ok(true)
}

// A spelled tape and store, as canonical text.
pub(crate) fn write_jaxn(rt: &impl Print, rest: &[u8]) -> io::Result<bool> {
    write_case(rt, false, rest)
}

// A spelled tape and store, as JSON text.
pub(crate) fn write_json(rt: &impl Print, rest: &[u8]) -> io::Result<bool> {
    write_case(rt, true, rest)
}
