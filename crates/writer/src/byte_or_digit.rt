// Bytes and decimal digits, at a place of the output.
ghost use Rattle.std.specs.Prelude.{◌≡◌, [], ◌∷◌, ◌+◌, ◌≤◌, ◌<◌, length};
ghost use Rattle.meaning.specs.Canonical.{decimal, fixed};
ghost use Rattle.writer.specs.Between.Laid.{Put, PutAt};
ghost use Rattle.writer.specs.Between.Pieces.{Power, Reaches};

// Puts the byte, and gives the place after it.
pub fn byte_at(out: &mut [u8], at: usize, b: u8) -> usize
    requires { at < length out.old }
    ensures { PutAt (b ∷ []) at out.old out.new result }
{
    out[at] = b;
    at + 1
}

// Into the lent part of the output, from its start. It is a loop, since a copy of any length would be a call of `memmove`, which whoever links the
// archive would have to bring.
fn write_bytes(out: &mut [u8], s: &[u8]) -> usize
    requires { length s.now ≤ length out.old }
    ensures { Put s.now out.old out.new result }
{
    for i in 0..s.len() {
        out[i] = s[i];
    }
    s.len()
}

// The output from `at` on is lent: a part of its own, of which no store can change the place, is copied many bytes at once.
pub fn bytes_at(out: &mut [u8], at: usize, s: &[u8]) -> usize
    requires { at + length s.now ≤ length out.old }
    ensures { PutAt s.now at out.old out.new result }
{
    at + write_bytes(&mut out[at..], s)
}

// The last decimal digit of n, where w is 1, at the start of the output.
fn one_digit(out: &mut [u8], w: usize, n: u64) -> usize
    requires { (w < 2) × (w ≤ length out.old) }
    ensures { PutAt (fixed w n) 0 out.old out.new result }
{
    if w == 0 {
        return 0;
    }
    out[0] = b'0' + (n % 10) as u8;
    1
}

// The last w decimal digits of n, at most three, with the zeros in front; two of them at once.
fn few_digits(out: &mut [u8], w: usize, n: u64) -> usize
    requires { (w < 4) × (w ≤ length out.old) }
    ensures { PutAt (fixed w n) 0 out.old out.new result }
{
    if w < 2 {
        return one_digit(out, w, n);
    }
    let two = n % 100;
    out[w - 1] = b'0' + (two % 10) as u8;
    out[w - 2] = b'0' + (two / 10) as u8;
    one_digit(out, w - 2, n / 100);
    w
}

// The same of any w, four by one division as long as there are four: from the end, with what is left of n beside the place, so it is no range.
fn write_digits(out: &mut [u8], w: usize, n: u64) -> usize
    requires { w ≤ length out.old }
    ensures { Put (fixed w n) out.old out.new result }
{
    let mut i = w;
    let mut rest = n;
    while i >= 4 {
        let four = rest % 10000;
        i -= 4;
        out[i + 3] = b'0' + (four % 10) as u8;
        out[i + 2] = b'0' + (four / 10 % 10) as u8;
        out[i + 1] = b'0' + (four / 100 % 10) as u8;
        out[i] = b'0' + (four / 1000) as u8;
        rest = rest / 10000;
    }
    few_digits(out, i, rest);
    w
}

// The output from `at` on is lent.
pub fn digits_at(out: &mut [u8], at: usize, w: usize, n: u64) -> usize
    requires { at + w ≤ length out.old }
    ensures { PutAt (fixed w n) at out.old out.new result }
{
    at + write_digits(&mut out[at..], w, n)
}

// 1 where n is at least p.
fn reaches(n: u64, p: u64) -> usize
    ensures { Reaches n p result }
{
    usize::from(n >= p)
}

// 10 to the power t, and 0 where t is 0. A match of one number, with an arm for each of its values, is compiled to a table.
pub(crate) fn power(t: usize) -> u64
    requires { t < 20 }
    ensures { Power t result }
{
    match t {
        0 => 0,
        1 => 10,
        2 => 100,
        3 => 1000,
        4 => 10000,
        5 => 100000,
        6 => 1000000,
        7 => 10000000,
        8 => 100000000,
        9 => 1000000000,
        10 => 10000000000,
        11 => 100000000000,
        12 => 1000000000000,
        13 => 10000000000000,
        14 => 100000000000000,
        15 => 1000000000000000,
        16 => 10000000000000000,
        17 => 100000000000000000,
        18 => 1000000000000000000,
        19 => 10000000000000000000,
        _ => 0,
    }
}

// How many decimal digits a number has: with so many bits they are t or t + 1, since the factor is just below the
// logarithm of 2. There is no jump.
pub fn decimal_len(n: u64) -> usize
    ensures { (result ≡ length (decimal n)) × (result ≤ 20) }
{
    let bits = 64 - u64::leading_zeros(n) as usize;
    let t = bits * 1233 / 4096;
    t + reaches(n, power(t))
}

// All the decimal digits of n, with no zeros in front.
pub fn decimal_at(out: &mut [u8], at: usize, n: u64) -> usize
    requires { at + length (decimal n) ≤ length out.old }
    ensures { PutAt (decimal n) at out.old out.new result }
{
    digits_at(out, at, decimal_len(n), n)
}
