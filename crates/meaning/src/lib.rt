// The types and the limits that the tape, the reader and the writers share. No function stands here.
#![tactic(auto)]

// The limits of specs/Limits.antt, each named once. The bytes of a text, read or written.
pub const TEXT_LIMIT: usize = 16777216;

// How many arrays and objects may be open.
pub const DEPTH_LIMIT: usize = 64;

// The greatest coefficient: the limit, 2^64, is one more.
pub const COEFFICIENT_MOST: u64 = 18446744073709551615;

// The power lies from -9,999 to 9,999.
pub const POWER_LIMIT: usize = 9999;

// A number is written without a power up to so many digits, or so many behind the point.
pub const PLAIN_DIGITS: usize = 20;

// An offset in minutes lies from -1,439 to 1,439.
pub const OFFSET_LIMIT: i16 = 1439;

// Fraction digits after the ninth are cut off: a second has 10^9 parts.
pub const FRACTION_DIGITS: usize = 9;

pub const SECOND: u64 = 1000000000;

// A time of day is below this.
pub const DAY: u64 = 24 * 60 * 60 * SECOND;

// The records of a well-formed tape, and the bytes of its store.
pub const RECORD_LIMIT: usize = 16777216;

pub const STORE_LIMIT: usize = 16777216;

// The bytes of a record on the tape.
pub const RECORD_SIZE: usize = 16;

// A number: finite with its sign, coefficient and power of ten; not a number; or infinite with its sign.
#[derive(Clone, Copy)]
pub enum Number {
    Finite {
        minus: bool,
        coefficient: u64,
        power: i32,
    },
    NotANumber,
    Infinite {
        minus: bool,
    },
}

// A date: that there is such a day is tested where it is read.
#[derive(Clone, Copy)]
pub struct Date {
    pub year: u16,
    pub month: u8,
    pub day: u8,
}

// The four time types. A time of day counts nanoseconds, an offset minutes.
#[derive(Clone, Copy)]
pub enum Time {
    LocalDate(Date),
    LocalTime(u64),
    LocalDateTime { date: Date, clock: u64 },
    OffsetDateTime { date: Date, clock: u64, offset: i16 },
}

// The refusals (docs/FORMAT.md, 10.1), each with what its place is made of.
#[derive(Clone, Copy)]
pub enum Refusal {
    TextTooLong,
    NotUtf8(usize),
    NotGrammar(usize),
    BadEscape(usize),
    BadTime(usize),
    BadNumber(usize),
    TooDeep(usize),
    TapeTooShort(usize),
    StoreTooShort(usize),
    NotWellFormed(usize),
    NoJsonForm(usize),
    OutputTooShort(usize),
    WrittenTooLong(usize),
    NoSuchRecord(usize),
    RepeatedKey(usize),
}

// One record of the tape. A string's start is its place in the store, a count how many elements or members are directly inside,
// an end the index just after the last record inside.
#[derive(Clone, Copy)]
pub enum Record {
    Null,
    Bool(bool),
    Number(Number),
    Str { length: usize, start: usize },
    Key { length: usize, start: usize },
    Bin { length: usize, start: usize },
    Time(Time),
    Array { count: usize, end: usize },
    Object { count: usize, end: usize },
}
