// Generated records: pieces of every kind, chosen by the bits of a number.
use crate::{calls, showing, spelling};
use std::io;

// The bytes from a place on, and the place after them.
fn put(out: &mut [u8; 4096], at: usize, s: &[u8]) -> usize {
    if at > 1024 || s.len() > 64 {
        return at;
    }
    let end = at + s.len();
    out[at..end].copy_from_slice(s);
    end
}

// One of sixteen values, by the last hex digit of the number.
fn piece(kind: u64) -> &'static [u8] {
    match kind % 16 {
        0 => b"null",
        1 => b"{a:true,'b' : [] , }",
        2 => b"-12.3400e-7",
        3 => b"0x7fffffffffffffff",
        4 => b"-Infinity",
        5 => b"'it\\u00e9' + \"\\t\\v\"",
        6 => b"$00ff80 + $'\\x7f~'",
        7 => b"2024-02-29",
        8 => b"23:59:59.120",
        9 => b"1999-12-31T00:00:00",
        10 => b"0001-01-01 12:30:45.000000001-23:59",
        11 => b"[false,[NaN,[18446744073709551615]]]",
        12 => b"/* note */ 1e300 # end\n",
        13 => b"\"\"\"\nlines\n\"\"\"",
        14 => b"{\"\":{k:'',$_9:-0}}",
        _ => b"\"\xc3\xa9\xf0\x9d\x84\x9e\"",
    }
}

// Eight values by the digits of the seed in base 16, each with a comma and a line feed after it.
fn values(out: &mut [u8; 4096], seed: u64) -> usize {
    let mut at: usize = 1;
    let mut rest = seed;
    for _ in 0..8 {
        at = put(out, at, piece(rest));
        at = put(out, at, b",\n");
        rest /= 16;
    }
    at
}

// What stands before `end` goes round.
fn goes_round(out: &[u8; 4096], end: usize) -> bool {
    let all: &[u8] = out;
    let size = spelling::within(end as u64, all);
    calls::goes_round(&all[..size])
}

// An array of eight values comes back.
fn generated(seed: u64) -> bool {
    let mut out = [0u8; 4096];
    put(&mut out, 0, b"[");
    let at = values(&mut out, seed);
    let end = put(&mut out, at, b"]");
    goes_round(&out, end)
}

// The next seed, by three shifts.
fn mixed(seed: u64) -> u64 {
    let a = seed ^ (seed << 13);
    let b = a ^ (a >> 7);
    b ^ (b << 17)
}

// How many generated records come back before one does not, of so many.
fn come_back(count: u64) -> u64 {
    let mut seed: u64 = 88172645463325252;
    for i in 0..count {
        seed = mixed(seed);
        if !generated(seed) {
            return i;
        }
    }
    count
}

// Prints how many of so many generated records come back.
pub(crate) fn sweep(rt: &impl Print, rest: &[u8]) -> io::Result<bool> {
    showing::count(rt, come_back(spelling::number(rest)), b" read again")?;
    Ok(true)
}
