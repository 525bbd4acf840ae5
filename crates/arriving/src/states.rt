// Where a check stands: what is due, or inside which item, with no more of it than its checks need.
use items::number::Acc;
use meaning::Refusal;

// What may come where no item stands: a value or a closing bracket; a key or a closing brace; the next part after a plus; or what
// follows a value, a key, or a part of either that a plus may still join.
#[derive(Clone, Copy)]
pub enum Due {
    Value,
    Key,
    StringPart,
    KeyPart,
    BinaryPart,
    AfterValue,
    AfterKey,
    AfterString,
    AfterKeyString,
    AfterBinary,
}

// A decimal number: its first place, its digits, how many of them are a fraction's.
#[derive(Clone, Copy)]
pub struct Decimal {
    pub first: usize,
    pub acc: Acc,
    pub fraction: usize,
}

// Digits with no sign, four at most, which may yet be a time: their first place, how many, whether the first is 0, their value, and as a number's.
#[derive(Clone, Copy)]
pub struct Open {
    pub first: usize,
    pub count: u8,
    pub nought: bool,
    pub value: u16,
    pub acc: Acc,
}

// A number, or digits that may yet be a time. Each holds the number's first place. A hexadecimal value keeps its digits beside the mark that they are
// too many: both lie in the bytes that a caller keeps.
#[derive(Clone, Copy)]
pub enum Figure {
    Sign(usize),
    Nought(usize),
    Point(usize),
    HexMark(usize),
    Hex {
        first: usize,
        value: u64,
        over: bool,
    },
    Open(Open),
    Whole(Decimal),
    Fraction(Decimal),
    Exponent(Decimal),
    ExponentSign(Decimal, bool),
    ExponentDigits {
        decimal: Decimal,
        down: bool,
        power: usize,
    },
}

// A time value so far: its first place, whether a date stands in it, and whether all fields that are whole are in range.
#[derive(Clone, Copy)]
pub struct Stamp {
    pub first: usize,
    pub dated: bool,
    pub good: bool,
}

// A field of two digits; that of the month with the year, that of the day with both.
#[derive(Clone, Copy)]
pub enum Slot {
    Month(u16),
    Day { year: u16, month: u8 },
    Hour,
    Minute,
    Second,
    OffsetHour,
    OffsetMinute,
}

// Inside a field: how many digits are left, and its value; or between fields.
#[derive(Clone, Copy)]
pub enum Moment {
    Field { slot: Slot, left: u8, value: u8 },
    Spaced,
    Point,
    Fraction,
    Zulu,
}

// A string part: its quote; the backslash of its first bad escape, and of a high surrogate that waits, each one more than its place, 0 for none: so they
// lie in the bytes that a caller keeps, where every value of the eight bytes must come back as it was.
#[derive(Clone, Copy)]
pub struct Quoted {
    pub quote: u8,
    pub bad: usize,
    pub half: usize,
}

// Where in a string part; an escape holds one more than the place of its backslash.
#[derive(Clone, Copy)]
pub enum Inner {
    One,
    Two,
    Opened,
    OpenedCr,
    Lines(u8),
    Body,
    Escape(usize),
    Unicode(usize),
    Hex { value: u32, left: u8, at: usize },
    BraceOpen(usize),
    Brace { value: u32, at: usize },
    Done,
}

// Where in a binary part.
#[derive(Clone, Copy)]
pub enum Octets {
    Dollar,
    Text(u8),
    Escape(u8),
    Hex(u8),
    HexLow(u8),
    Low,
    Pair,
    Dot,
    Done,
}

// Between items, in a comment between items, in an item; or refused. A word is known by the place of its next letter in the list of words.
#[derive(Clone, Copy)]
pub enum Mode {
    At,
    Slash,
    Line,
    Block,
    Star,
    Spelling(usize),
    Counting(Figure),
    Timing(Stamp, Moment),
    Quoting(Quoted, Inner),
    Packing(Octets),
    Naming,
    Failed(Refusal),
}

// What a byte does to an item: it is taken, and so many store bytes come; the item stops before it; or the item breaks. Three ways with three names, as
// the machine's scanners have them: a Result of an Option would name none of them.
#[derive(Clone, Copy)]
pub enum Out {
    Takes(Mode, usize),
    Stops,
    Breaks(Refusal),
}

// Where the grammar stands, but for the kinds of the open brackets: what is due here, or after the comment or item.
#[derive(Clone, Copy)]
pub struct Here {
    pub mode: Mode,
    pub due: Due,
    pub depth: usize,
    pub records: usize,
    pub stored: usize,
}
