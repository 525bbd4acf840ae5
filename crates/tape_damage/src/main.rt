// The tape of the sample record (docs/FORMAT.md, 14), with each of its bytes set to each value: `look` and a decoder written from the table alone
// agree on which records stand, and what `look` takes gives its bytes back. Prints how often they differ, how
// many of the tapes are well formed, how many of the records stand, and how many were tried.
#![tactic(auto)]

ghost use Rattle.std.specs.Prelude.{◌≤◌, ◌<◌, ◌^◌, length};

use meaning::{Date, Number, Record, Time};
use std::io;

// How many records the sample has, and how many bytes its tape.
const WHOLE: usize = 11;

const TAPE: usize = WHOLE * 16;

// ---- the decoder, of a record's sixteen bytes

// The number in these bytes, the lowest first.
fn number(bytes: &[u8]) -> u64
    ensures { result < 256 ^ length bytes.now }
{
    bytes.iter().rev().fold(
        0,
        |n: u64, b| n.wrapping_mul(256).wrapping_add(u64::from(*b)),
    )
}

// Whether these bytes are 0, as unnamed ones are.
fn unnamed(bytes: &[u8]) -> bool {
    bytes.iter().all(|b| *b == 0)
}

// Whether February has 29 days in this year. The calendars of the tests have forms of their own: they are there to differ.
fn leap(year: u64) -> bool {
    if year % 100 == 0 {
        year % 400 == 0
    } else {
        year % 4 == 0
    }
}

// How many days the month has in this year.
fn month_days(year: u64, month: u8) -> u8 {
    match month {
        2 if leap(year) => 29,
        2 => 28,
        4 | 6 | 9 | 11 => 30,
        _ => 31,
    }
}

// Whether year, month and day, in bytes 2-5, are a date.
fn date(r: &[u8; 16]) -> bool {
    let year = number(&r[2..4]);
    let month = r[4];
    let day = r[5];
    year <= 9999 && 1 <= month && month <= 12 && 1 <= day && day <= month_days(year, month)
}

// Whether the time of day, in bytes 8-15, is less than a whole day.
fn clock(r: &[u8; 16]) -> bool {
    number(&r[8..16]) < 86400000000000
}

// Whether the offset, in bytes 6-7, lies from -1,439 to 1,439.
fn offset(r: &[u8; 16]) -> bool {
    let bits = number(&r[6..8]);
    bits <= 1439 || bits >= 64097
}

// Whether sign, power and coefficient are those of a finite number.
fn finite(r: &[u8; 16]) -> bool {
    let power = number(&r[4..8]);
    let coefficient = number(&r[8..16]);
    if coefficient == 0 {
        return r[2] <= 1 && r[3] == 0 && power == 0;
    }
    r[2] <= 1 && r[3] == 0 && coefficient % 10 != 0 && (power <= 9999 || power >= 4294957297)
}

// Whether byte 4 is at most so much, and all others after the mark are 0.
fn small(r: &[u8; 16], most: u8) -> bool {
    unnamed(&r[2..4]) && r[4] <= most && unnamed(&r[5..16])
}

// Whether the bytes lie inside a store of this length.
fn bytes(r: &[u8; 16], room: u64) -> bool {
    let start = number(&r[8..16]);
    unnamed(&r[2..4]) && start <= room && number(&r[4..8]) <= room - start
}

// Whether the end is past the record's own index and not above the number of whole records; the count, in bytes 4-7, may be any.
fn container(r: &[u8; 16], index: u64) -> bool {
    let end = number(&r[8..16]);
    unnamed(&r[2..4]) && index < end && end <= WHOLE as u64
}

// Whether the record at this index stands, by the table; the store is ASCII.
fn stands(r: &[u8; 16], index: u64, room: u64) -> bool {
    match (r[0], r[1]) {
        (b'n', b'u') => unnamed(&r[2..16]),
        (b'b', b'o') => small(r, 1),
        (b'n', b'b') => finite(r),
        (b'n', b'x') => small(r, 2),
        (b's', b't') | (b'k', b'y') | (b'b', b'y') => bytes(r, room),
        (b'l', b'd') => date(r) && unnamed(&r[6..16]),
        (b'l', b't') => unnamed(&r[2..8]) && clock(r),
        (b'd', b't') => date(r) && unnamed(&r[6..8]) && clock(r),
        (b'o', b'd') => date(r) && offset(r) && clock(r),
        (b'a', b'r') | (b'o', b'b') => container(r, index),
        _ => false,
    }
}

// ---- the sample

// A key, by its length and start in the store.
fn key(length: usize, start: usize) -> Record {
    Record::Key { length, start }
}

// A finite number.
fn finite_number(minus: bool, coefficient: u64, power: i32) -> Record {
    Record::Number(Number::Finite {
        minus,
        coefficient,
        power,
    })
}

// The time of the sample.
fn time() -> Record {
    let date = Date {
        year: 2021,
        month: 3,
        day: 4,
    };
    Record::Time(Time::OffsetDateTime {
        date,
        clock: 18367500000000,
        offset: -60,
    })
}

// The object with `run` and 31, `eta` and NaN, `at` and its time, `t` and the array of 0.5 and -1250.5.
fn fill(t: &mut [u8]) {
    let sample = [
        Record::Object { count: 4, end: 11 },
        key(3, 0),
        finite_number(false, 31, 0),
        key(3, 3),
        Record::Number(Number::NotANumber),
        key(2, 6),
        time(),
        key(1, 8),
        Record::Array { count: 2, end: 11 },
        finite_number(false, 5, -1),
        finite_number(true, 12505, -1),
    ];
    for (i, r) in sample.iter().enumerate() {
        tape::put_record(t, i, *r);
    }
}

// ---- the comparison

// The record at this index, as its bytes.
fn record(t: &[u8; TAPE], index: usize) -> [u8; 16]
    requires { index < 11 }
{
    let at = index * 16;
    let mut r = [0; 16];
    r.copy_from_slice(&t[at..at + 16]);
    r
}

// Whether a record that was taken has these bytes.
fn comes_back(r: Record, bytes: &[u8; 16]) -> bool {
    let mut again = [0; 16];
    tape::put_record(&mut again, 0, r);
    again == *bytes
}

// Whether `look` goes by the decoder, and gives back the bytes of what it takes.
fn agrees(t: &[u8; TAPE], s: &[u8], index: usize, stands: bool) -> bool
    requires { index < 11 }
{
    match tape::look(t, s, index) {
        Ok(r) => stands && comes_back(r, &record(t, index)),
        Err(_) => !stands,
    }
}

// How often the two differ, and how many of the tapes and of the records were good.
#[derive(Clone, Copy)]
struct Tally {
    faults: u64,
    well: u64,
    good: u64,
}

// 1 if set: what std makes of it is not known to be at most 1.
fn count(b: bool) -> u64
    ensures { result ≤ 1 }
{
    if b { 1 } else { 0 }
}

// Byte k set to each value.
fn sweep(t: &mut [u8; TAPE], s: &[u8], k: usize) -> Tally
    requires { k < 176 }
    ensures { (result.faults ≤ 256) × (result.well ≤ 256) × (result.good ≤ 256) }
{
    let was = t[k];
    let index = k / 16;
    let mut sum = Tally {
        faults: 0,
        well: 0,
        good: 0,
    };
    for v in 0u64..256 {
        t[k] = v as u8;
        let stands = stands(&record(t, index), index as u64, s.len() as u64);
        sum.faults += count(!agrees(t, s, index, stands));
        sum.well += count(tape::judge(t, s).is_ok());
        sum.good += count(stands);
    }
    t[k] = was;
    sum
}

// Sweeps each byte of the sample, and prints the four sums.
fn main(rt: HostRuntime) -> io::Result<()> {
    let mut t = [0; TAPE];
    let s = *b"runetaatt";
    fill(&mut t);
    let mut sum = Tally {
        faults: 0,
        well: 0,
        good: 0,
    };
    for k in 0..TAPE {
        let x = sweep(&mut t, &s, k);
        sum.faults += x.faults;
        sum.well += x.well;
        sum.good += x.good;
    }
    println!(rt;
        "{:05} {:05} {:05} {:05}",
        sum.faults,
        sum.well,
        sum.good,
        TAPE * 256
    )
}
