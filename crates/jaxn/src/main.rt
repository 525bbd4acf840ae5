// The program: a JAXN text from standard input; its canonical text, or its refusal, and a line feed to standard output. What
// cannot be read or written is told on standard error: no part of an input is passed off as the whole.
#![tactic(auto)]

ghost use Rattle.std.specs.Prelude.{◌≤◌, ◌≡◌, length, IfOk};
ghost use Rattle.std.specs.Counts.{IsPrefixLen};
ghost use Rattle.writer.specs.Between.Laid.{Put};
ghost use Rattle.jaxn.specs.Line.{refused_line, Tells};
ghost use Rattle.jaxn.specs.Between.Steps.{Rewrites};

use lanternrung::{Counts, Refusal};
use std::io;
use std::io::{Read, Write};
use writer::byte_or_digit;

// The longest input, and what is lent for the tape, the store and the output.
const ROOM: usize = 65536;

// One byte more tells a longer input.
const MORE: usize = ROOM + 1;

// Reads until the room is full or the input ends, and says how many bytes it read; a read that brings little, as from a pipe, is no end.
fn fill<R: Read>(from: &mut R, room: &mut [u8]) -> io::Result<usize>
    ensures { IfOk result (λ n. IsPrefixLen n room.new) }
{
    let mut at: usize = 0;
    while at < room.len() {
        let more = from.read(&mut room[at..])?;
        if more == 0 {
            break;
        }
        at += more;
    }
    Ok(at)
}

// The canonical text of what the text means, by way of a tape and a store; or the refusal of the first that refuses.
fn rewrite(text: &[u8], out: &mut [u8]) -> Result<usize, Refusal>
    requires { (length text.now ≤ 65536) × (length out.old ≡ 65536) }
    ensures { Rewrites text.now out.old result out.new }
{
    let mut tape = [0u8; ROOM];
    let mut store = [0u8; ROOM];
    let Counts { records, bytes } = lanternrung::read(text, &mut tape, &mut store)?;
    lanternrung::write_jaxn(&tape[..records * 16], &store[..bytes], out)
}

// `refused N at P` and a line feed.
fn refused_line(out: &mut [u8], number: u64, place: u64) -> usize
    requires { 53 ≤ length out.old }
    ensures { Put (refused_line number place) out.old out.new result }
{
    let a = byte_or_digit::bytes_at(out, 0, b"refused ");
    let b = byte_or_digit::decimal_at(out, a, number);
    let c = byte_or_digit::bytes_at(out, b, b" at ");
    let d = byte_or_digit::decimal_at(out, c, place);
    byte_or_digit::byte_at(out, d, b'\n')
}

// All that is printed for an input, from the start of the output.
fn line(input: &[u8], out: &mut [u8]) -> usize
    requires { 65537 ≤ length out.old }
    ensures { Tells input.now out.old result out.new }
{
    if input.len() > ROOM {
        return refused_line(out, 1, ROOM as u64);
    }
    match rewrite(input, &mut out[..ROOM]) {
        Ok(size) => byte_or_digit::byte_at(out, size, b'\n'),
        Err(why) => {
            let number = u64::from(lanternrung::number(why));
            let place = lanternrung::place(why);
            refused_line(out, number, place)
        }
    }
}

// The reason alone: after it an error's text has its number.
fn reason(text: &str) -> &str {
    text.split_once(" (os error ")
        .map_or(text, |(words, _)| words)
}

// Tells on standard error what could not be read or written, and the reason.
fn tell(rt: &impl Eprint, what: &str, why: io::Error) {
    let mut text = [0u8; 256];
    let mut rest = &mut text[..];
    let _ = write!(rest, "{why}");
    let left = rest.len();
    let size = text.len().saturating_sub(left);
    let _ = match str::from_utf8(&text[..size]) {
        Ok(words) => eprintln!(rt; "jaxn: {what}: {}", reason(words)),
        Err(_) => eprintln!(rt; "jaxn: {what}"),
    };
}

// Standard input whole, or so much that it is known to be too long; then its line.
fn main(rt: HostRuntime) {
    let mut input = [0u8; MORE];
    let mut out = [0u8; MORE];
    match fill(&mut rt.stdin(), &mut input) {
        Err(why) => tell(&rt, "standard input", why),
        Ok(n) => {
            let size = line(&input[..n], &mut out);
            if let Err(why) = rt.write_all(&out[..size]) {
                tell(&rt, "standard output", why);
            }
        }
    }
}
