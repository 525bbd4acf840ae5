// Outcomes, as they are printed.
use lanternrung::exports::{Fields, Sizes, Status};
use std::fmt::Display;
use std::io;

// Prints the bytes as they are.
fn word(rt: &impl Print, s: &[u8]) -> io::Result<()> {
    rt.write_all(s)
}

// An answer follows.
fn arrow(rt: &impl Print) -> io::Result<()> {
    word(rt, b" -> ")
}

// An answer in words, after its arrow.
pub(crate) fn say(rt: &impl Print, s: &[u8]) -> io::Result<()> {
    arrow(rt)?;
    word(rt, s)
}

// Something is not as promised.
pub(crate) fn fault(rt: &impl Print, s: &[u8]) -> io::Result<()> {
    word(rt, b" NOT ")?;
    word(rt, s)
}

// A refusal, by its number and its place.
pub(crate) fn refused(rt: &impl Print, number: u32, place: u64) -> io::Result<()> {
    say(rt, b"refused ")?;
    rt.print(number)?;
    word(rt, b" at ")?;
    rt.print(place)
}

// The refusal, or `done`.
pub(crate) fn status(rt: &impl Print, s: Status) -> io::Result<()> {
    if s.refused > 0 {
        refused(rt, s.refused, s.place)
    } else {
        say(rt, b"done")
    }
}

// The refusal, or how many records and bytes.
pub(crate) fn sizes(rt: &impl Print, s: Sizes) -> io::Result<()> {
    if s.refused > 0 {
        refused(rt, s.refused, s.place)
    } else {
        arrow(rt)?;
        rt.print(s.records)?;
        word(rt, b" records, ")?;
        rt.print(s.bytes)?;
        word(rt, b" bytes")
    }
}

// A number and what it counts, after an arrow.
pub(crate) fn count(rt: &impl Print, n: u64, of: &[u8]) -> io::Result<()> {
    arrow(rt)?;
    rt.print(n)?;
    word(rt, of)
}

// A field that is not 0.
fn field<N: Display + Default + PartialEq + Copy>(
    rt: &impl Print,
    name: &[u8],
    n: N,
) -> io::Result<()> {
    if n != N::default() {
        word(rt, name)?;
        rt.print(n)?;
    }
    Ok(())
}

// The fields of numbers, and of strings, keys and binary.
fn number_fields(rt: &impl Print, f: Fields) -> io::Result<()> {
    field(rt, b" power ", f.power)?;
    field(rt, b" coefficient ", f.coefficient)?;
    field(rt, b" length ", f.length)?;
    field(rt, b" start ", f.start)
}

// The fields of the time types.
fn time_fields(rt: &impl Print, f: Fields) -> io::Result<()> {
    field(rt, b" year ", f.year)?;
    field(rt, b" month ", f.month)?;
    field(rt, b" day ", f.day)?;
    field(rt, b" offset ", f.offset)?;
    field(rt, b" time ", f.time)
}

// The refusal, or the record's kind and those of its fields that are not 0.
pub(crate) fn fields(rt: &impl Print, f: Fields) -> io::Result<()> {
    if f.refused > 0 {
        refused(rt, f.refused, f.place)
    } else {
        say(rt, b"kind")?;
        field(rt, b" ", f.kind)?;
        field(rt, b" flag ", f.flag)?;
        number_fields(rt, f)?;
        time_fields(rt, f)?;
        field(rt, b" count ", f.count)?;
        field(rt, b" end ", f.end)
    }
}

// A byte as a case spells it, in a tape with dots.
fn spell(rt: &impl Print, b: u8, dots: bool) -> io::Result<()> {
    match b {
        0 if dots => word(rt, b"."),
        b'.' if dots => print!(rt; "%{b:02x}"),
        0..=32 | b'%' | b'|' | 127..=255 => print!(rt; "%{b:02x}"),
        _ => word(rt, &[b]),
    }
}

// All the bytes, as a case spells them.
fn spelled(rt: &impl Print, s: &[u8], dots: bool) -> io::Result<()> {
    for b in s {
        spell(rt, *b, dots)?;
    }
    Ok(())
}

// A tape and a store, as a case spells them.
pub(crate) fn both(rt: &impl Print, tape: &[u8], store: &[u8]) -> io::Result<()> {
    arrow(rt)?;
    spelled(rt, tape, true)?;
    word(rt, b"|")?;
    spelled(rt, store, false)
}
