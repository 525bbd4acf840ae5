// UTF-8 while it arrives: a character that a cut has left open, and the first fault.
ghost use Rattle.std.specs.Prelude.{◌≡◌, ◌+◌, ◌≤◌, ◌<◌, length, drop};
ghost use Rattle.meaning.specs.Limits.{text_limit};
ghost use Rattle.arriving.specs.Between.Octets.{between, fault_at, opens, lead_of_three, lead_of_four, leads, follow, Rests, next_utf, fed_utf};

// How many bytes of a character are still to come, between which bounds the next one lies, and the character's first place; the place
// of the first fault, where there is one. Each field lies in the bytes that a caller keeps, and comes back as it was whatever the others are.
#[derive(Clone, Copy)]
pub struct Utf {
    pub left: u8,
    pub low: u8,
    pub high: u8,
    pub first: usize,
    pub broken: bool,
}

// Between two characters.
pub fn whole() -> Utf
    ensures { result ≡ between }
{
    Utf {
        left: 0,
        low: 0,
        high: 0,
        first: 0,
        broken: false,
    }
}

// The first fault, at this place.
fn fault(at: usize) -> Utf
    ensures { result ≡ fault_at at }
{
    Utf {
        left: 0,
        low: 0,
        high: 0,
        first: at,
        broken: true,
    }
}

// A character with so many bytes to come, the next one between two bounds.
fn awaits(left: u8, low: u8, high: u8, first: usize) -> Utf
    ensures { result ≡ opens left low high first }
{
    Utf {
        left: left,
        low: low,
        high: high,
        first: first,
        broken: false,
    }
}

// The first byte of three: no overlong form, and no surrogate.
#[tactic(auto, unfolding(crate::specs::Between::Octets::lead_of_three))]
fn lead_of_three(p: usize, b: u8) -> Utf
    ensures { result ≡ lead_of_three p b }
{
    match b {
        0xE0 => awaits(2, 0xA0, 0xBF, p),
        0xED => awaits(2, 0x80, 0x9F, p),
        _ => awaits(2, 0x80, 0xBF, p),
    }
}

// The first byte of four: no overlong form, and nothing above 10FFFF.
#[tactic(auto, unfolding(crate::specs::Between::Octets::lead_of_four))]
fn lead_of_four(p: usize, b: u8) -> Utf
    ensures { result ≡ lead_of_four p b }
{
    match b {
        0xF0 => awaits(3, 0x90, 0xBF, p),
        0..=0xF3 => awaits(3, 0x80, 0xBF, p),
        0xF4 => awaits(3, 0x80, 0x8F, p),
        _ => fault(p),
    }
}

// The first byte of a character.
#[tactic(auto, unfolding(crate::specs::Between::Octets::leads))]
fn lead(p: usize, b: u8) -> Utf
    ensures { result ≡ leads p b }
{
    match b {
        0..=0x7F => whole(),
        0x80..=0xC1 => fault(p),
        0xC2..=0xDF => awaits(1, 0x80, 0xBF, p),
        0xE0..=0xEF => lead_of_three(p, b),
        _ => lead_of_four(p, b),
    }
}

// A byte after the first.
#[tactic(auto, unfolding(crate::specs::Between::Octets::follow))]
fn tail(u: Utf, b: u8) -> Utf
    ensures { result ≡ follow u b }
{
    if b < u.low || u.high < b {
        return fault(u.first);
    }
    if u.left <= 1 {
        return whole();
    }
    awaits(u.left - 1, 0x80, 0xBF, u.first)
}

// What a byte does; `p` is its place.
#[tactic(auto, unfolding(crate::specs::Between::Octets::next_utf))]
pub fn utf_next(u: Utf, p: usize, b: u8) -> Utf
    ensures { result ≡ next_utf u p b }
{
    if u.broken {
        return u;
    }
    if u.left == 0 {
        return lead(p, b);
    }
    tail(u, b)
}

// The bytes of a part, one at a time, up to a fault; `base` is the part's place.
fn bytes(had: Utf, part: &[u8], base: usize) -> Utf
    requires { base + length part.now ≤ text_limit }
    ensures { result ≡ fed_utf had base part.now }
{
    let mut u = had;
    for (i, b) in part.iter().enumerate() {
        if u.broken {
            return u;
        }
        u = utf_next(u, base + i, *b);
    }
    u
}

// How many bytes of a part an open character may still take.
fn rest_of(u: Utf, part: &[u8]) -> usize
    ensures { Rests u (length part.now) result }
{
    part.len().min(u.left as usize)
}

// The bytes of a part: the rest of an open character, whole characters, and the beginning of one; `base` is the part's place.
pub fn utf_feed(had: Utf, part: &[u8], base: usize) -> Utf
    requires { base + length part.now ≤ text_limit }
    ensures { result ≡ fed_utf had base part.now }
{
    let (first, rest) = part.split_at(rest_of(had, part));
    let u = bytes(had, first, base);
    if u.broken || rest.is_empty() {
        return u;
    }
    let from = base + first.len();
    match rules::utf8(rest) {
        Ok(()) => whole(),
        Err(fault) => bytes(whole(), &rest[fault.place..], from + fault.place),
    }
}
