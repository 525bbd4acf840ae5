// Bytes into a lent store, as far as there is room.
ghost use Rattle.std.specs.Prelude.{◌≡◌, ◌+◌, ◌-◌, ◌≤◌, ◌<◌, ◌^◌, length, take, drop, set};
ghost use Rattle.std.proofs.lemmas.List.Edits.{sets};
ghost use Rattle.rules.specs.Rfc3629.{encode};

// One byte.
pub fn put_byte(store: &mut [u8], at: usize, b: u8)
    ensures { store.new ≡ set store.old at b }
{
    if at < store.len() {
        store[at] = b;
    }
}

// The bytes of s from `from` to `to`, put at `at`.
pub fn copy(s: &[u8], from: usize, to: usize, store: &mut [u8], at: usize)
    requires { (from ≤ to) × (to ≤ length s.now) }
    ensures { store.new ≡ sets store.old at (take (to - from) (drop from s.now)) }
{
    if at < store.len() {
        let n = (store.len() - at).min(to - from);
        // A loop: to copy a slice of any length at once is a call of `memmove`, which whoever links the archive would have to bring.
        for i in 0..n {
            store[at + i] = s[from + i];
        }
    }
}

// The UTF-8 form of c, put at `at`; the place after it.
#[tactic(auto, using(crate::proofs::StoreLaws::size1, crate::proofs::StoreLaws::size2, crate::proofs::StoreLaws::size3, crate::proofs::StoreLaws::size4))]
pub fn encode(c: u32, store: &mut [u8], at: usize) -> usize
    requires { (c ≤ 0x10FFFF) × (at + length (encode c) < 2 ^ 64) }
    ensures { (result ≡ at + length (encode c)) × (store.new ≡ sets store.old at (encode c)) }
{
    match c {
        0..=0x7F => {
            put_byte(store, at, c as u8);
            at + 1
        }
        0x80..=0x7FF => {
            put_byte(store, at, (0xC0 + c / 64) as u8);
            put_byte(store, at + 1, (0x80 + c % 64) as u8);
            at + 2
        }
        0x800..=0xFFFF => {
            put_byte(store, at, (0xE0 + c / 4096) as u8);
            put_byte(store, at + 1, (0x80 + c / 64 % 64) as u8);
            put_byte(store, at + 2, (0x80 + c % 64) as u8);
            at + 3
        }
        _ => {
            put_byte(store, at, (0xF0 + c / 262144) as u8);
            put_byte(store, at + 1, (0x80 + c / 4096 % 64) as u8);
            put_byte(store, at + 2, (0x80 + c / 64 % 64) as u8);
            put_byte(store, at + 3, (0x80 + c % 64) as u8);
            at + 4
        }
    }
}
