// Runs of bytes that stand for themselves in a string, which fill most strings.
ghost use Rattle.std.specs.Prelude.{◌≡◌, ◌+◌, ◌≤◌, ◌<◌, length};
ghost use Rattle.writer.specs.Between.Pieces.{IsPlain, Ease, EaseAll, PlainRun, PlainLast};

// How far a byte is from those that are escaped. There is no jump, so that sixteen bytes are tested at once.
fn ease(b: u8) -> u8
    ensures { Ease b result }
{
    b.saturating_sub(31)
        .min(b.abs_diff(b'"'))
        .min(b.abs_diff(b'\\'))
}

// The least of sixteen bytes.
fn block(s: &[u8], at: usize) -> u8
    requires { at + 16 ≤ length s.now }
    ensures { EaseAll s.now at 16 result }
{
    let mut least: u8 = 255;
    for k in 0..16 {
        least = least.min(ease(s[at + k]));
    }
    least
}

// Whether a byte stands for itself.
pub fn is_plain(b: u8) -> bool
    ensures { IsPlain b result }
{
    match b {
        b'"' | b'\\' => false,
        _ => b >= b' ',
    }
}

// The place after the plain bytes from `from` on, one at a time.
fn plain_bytes(s: &[u8], from: usize) -> usize
    requires { from ≤ length s.now }
    ensures { PlainRun s.now from result }
{
    for i in from..s.len() {
        if !is_plain(s[i]) {
            return i;
        }
    }
    s.len()
}

// Whether the last sixteen bytes are plain.
fn plain_last(s: &[u8]) -> bool
    ensures { PlainLast s.now result }
{
    s.len() >= 16 && block(s, s.len() - 16) != 0
}

// The same place, in blocks of sixteen as long as all of a block is plain; the last block is taken from the end. The place is wanted after the
// loop, so it is no range.
pub fn plain_run(s: &[u8], from: usize) -> usize
    requires { from ≤ length s.now }
    ensures { PlainRun s.now from result }
{
    let mut i = from;
    while s.len() - i >= 16 {
        if block(s, i) == 0 {
            return plain_bytes(s, i);
        }
        i += 16;
    }
    if plain_last(s) {
        return s.len();
    }
    plain_bytes(s, i)
}
