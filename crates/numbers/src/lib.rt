//! Numbers as CSMI lays them out, little-endian, read and written. Every contract is an equation with a definition of specs/.
#![tactic(auto)]

ghost use Rattle.std.specs.Prelude.{◌≡◌, ◌+◌, ◌*◌, ◌≤◌, length};
ghost use Rattle.laws.specs.Splice.{part, splice};
ghost use Rattle.numbers.specs.Number.{number, bytes};

/// The `N` bytes that stand at an index, as an array.
#[tactic(auto, using(laws::specs::Lent::lent_part))]
pub fn array<const N: usize>(s: &[u8], at: usize) -> [u8; N]
    requires { at + N ≤ length s.now }
    ensures { result ≡ part s.now at N }
{
    s[at..at + N].try_into().unwrap()
}

// A width has a name of its own: std has no trait over `from_le_bytes`, and one of ours would hold
// these bodies in an impl for each width.

/// The 16-bit number that stands at an index.
#[tactic(auto, using(crate::proofs::NumberLaws::read_two))]
pub fn read16(s: &[u8], at: usize) -> u16
    requires { at + 2 ≤ length s.now }
    ensures { result ≡ number (part s.now at 2) }
{
    u16::from_le_bytes(array(s, at))
}

/// The 32-bit number that stands at an index.
#[tactic(auto, using(crate::proofs::NumberLaws::read_four))]
pub fn read32(s: &[u8], at: usize) -> u32
    requires { at + 4 ≤ length s.now }
    ensures { result ≡ number (part s.now at 4) }
{
    u32::from_le_bytes(array(s, at))
}

/// Writes a 16-bit number at an index.
#[tactic(auto, using(crate::proofs::NumberLaws::put_two))]
pub fn write16(d: &mut [u8], at: usize, word: u16)
    requires { at + 2 ≤ length d.old }
    ensures { d.new ≡ splice d.old at (bytes 2 word) }
{
    d[at..at + 2].copy_from_slice(&word.to_le_bytes());
}

/// Writes a 32-bit number at an index.
#[tactic(auto, using(crate::proofs::NumberLaws::put_four))]
pub fn write32(d: &mut [u8], at: usize, dword: u32)
    requires { at + 4 ≤ length d.old }
    ensures { d.new ≡ splice d.old at (bytes 4 dword) }
{
    d[at..at + 4].copy_from_slice(&dword.to_le_bytes());
}
