// Numbers of 64 bits in eight bytes, the lowest first: one store and one load each.
ghost use Rattle.std.specs.Prelude.{◌≡◌, ◌+◌, ◌≤◌, length};
ghost use Rattle.std.proofs.lemmas.List.Edits.{sets};
ghost use Rattle.meaning.specs.Bytes.{le};
ghost use Rattle.meaning.specs.Between.Words.{get};

// v in the eight bytes from the place `at`.
pub fn store8(bytes: &mut [u8], at: usize, v: u64)
    requires { at + 8 ≤ length bytes.old }
    ensures { bytes.new ≡ sets bytes.old at (le 8 v) }
{
    bytes[at..at + 8].copy_from_slice(&v.to_le_bytes());
}

// The number in the eight bytes from the place `at`.
pub fn load8(bytes: &[u8], at: usize) -> u64
    requires { at + 8 ≤ length bytes.now }
    ensures { result ≡ get 8 bytes.now at }
{
    u64::from_le_bytes([
        bytes[at],
        bytes[at + 1],
        bytes[at + 2],
        bytes[at + 3],
        bytes[at + 4],
        bytes[at + 5],
        bytes[at + 6],
        bytes[at + 7],
    ])
}
