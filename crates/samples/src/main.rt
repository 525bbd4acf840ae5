// The cases on standard input, one to a line: each is printed with an arrow and its outcome. A line that begins with `#` is a
// heading.
//
//   utf8 BYTES                     whether they are UTF-8
//   date YEAR MONTH DAY            whether it is a date
//   measure TEXT                   the records and store bytes that it needs
//   check TEXT                     the same of the text in two parts, cut at each place, with 15 left out
//   read LENGTH LENGTH TEXT        the same, into a tape and a store of these lengths
//   tape TEXT                      the tape and the store that it fills
//   jaxn TEXT, json TEXT           its canonical text, which is read again
//   look INDEX TAPE|STORE          one record
//   write_jaxn LENGTH TAPE|STORE   the text in an output of this length; write_json alike
//   generated COUNT                records that are written and read again
//
// A percent sign and two hex digits spell a byte; in a tape a dot spells a zero byte. What a call must leave as it was is looked
// at too, and told only where it is not so.
#![tactic(auto)]

mod calls;
mod generated;
mod showing;
mod spelling;

ghost use Rattle.std.specs.Prelude.{IfOk};
ghost use Rattle.std.specs.Counts.{IsPrefixLen};

use std::io;
use std::io::Read;

// The call of this name on its arguments, by what it is given; false where there is none.
fn on_rules(rt: &impl Print, name: &[u8], rest: &[u8]) -> io::Result<bool> {
    match name {
        b"utf8" => calls::utf8(rt, rest),
        b"date" => calls::date(rt, rest),
        _ => Ok(false),
    }
}

// The same for the calls that are given a text.
fn on_text(rt: &impl Print, name: &[u8], rest: &[u8]) -> io::Result<bool> {
    match name {
        b"measure" => calls::measure(rt, rest),
        b"check" => calls::checked(rt, rest),
        b"read" => calls::read(rt, rest),
        b"tape" => calls::tape(rt, rest),
        b"jaxn" => calls::jaxn(rt, rest),
        b"json" => calls::json(rt, rest),
        _ => Ok(false),
    }
}

// The same for the calls that are given a tape, and for the generated records.
fn on_tape(rt: &impl Print, name: &[u8], rest: &[u8]) -> io::Result<bool> {
    match name {
        b"look" => calls::look(rt, rest),
        b"write_jaxn" => calls::write_jaxn(rt, rest),
        b"write_json" => calls::write_json(rt, rest),
        b"generated" => generated::sweep(rt, rest),
        _ => Ok(false),
    }
}

// The call of this name, if any; an empty line and a heading call nothing, and are no fault.
fn call(rt: &impl Print, name: &[u8], rest: &[u8]) -> io::Result<bool> {
    if name.len() == 0 || name == b"#".as_slice() {
        return Ok(true);
    }
    Ok(on_rules(rt, name, rest)? || on_text(rt, name, rest)? || on_tape(rt, name, rest)?)
}

// Prints a case with its outcome, and a fault where there is no such call.
fn line(rt: &impl Print, s: &[u8]) -> io::Result<()> {
    rt.write_all(s)?;
    let end = spelling::find(s, b' ');
    if !call(rt, &s[..end], spelling::after(s, end))? {
        showing::fault(rt, b"a call")?;
    }
    rt.write_all(b"\n")
}

// Each line of the cases.
fn each(rt: &impl Print, cases: &[u8]) -> io::Result<()> {
    for s in cases.split_inclusive(|b| *b == b'\n') {
        line(rt, s.strip_suffix(b"\n").unwrap_or(s))?;
    }
    Ok(())
}

// Reads until the room is full or the input ends, and says how many bytes it read.
fn read_full<R: Read>(from: &mut R, room: &mut [u8]) -> io::Result<usize>
    ensures { IfOk result (λ n. IsPrefixLen n room.new) }
{
    let mut at: usize = 0;
    while at < room.len() {
        let more = from.read(&mut room[at..])?;
        if more == 0 {
            break;
        }
        at += more;
    }
    Ok(at)
}

// All the cases are read before the first is tried.
fn main(rt: HostRuntime) -> io::Result<()> {
    let mut cases = [0u8; 65536];
    let n = read_full(&mut rt.stdin(), &mut cases)?;
    each(&rt, &cases[..n])
}
