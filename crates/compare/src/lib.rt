//! Bytes compared. Every contract is an equation with a definition of specs/.
#![tactic(auto)]

ghost use Rattle.std.specs.Prelude.{◌≡◌, ◌+◌, ◌≤◌, length};
ghost use Rattle.laws.specs.Splice.{part};
ghost use Rattle.compare.specs.Same.{same_bytes};

use numbers::read32;

/// The bytes of `text` stand in `s` from index `at` on.
#[tactic(auto, using(crate::proofs::SameLaws::same_front, crate::proofs::SameLaws::same_past))]
pub fn same_at(s: &[u8], at: usize, text: &[u8]) -> bool
    ensures { result ≡ same_bytes (part s.now at (length text.now)) text.now }
{
    match s.get(at..) {
        Some(rest) => rest.starts_with(text),
        None => text.is_empty(),
    }
}

/// The two are the same bytes.
#[tactic(auto, using(crate::proofs::SameLaws::same_pointwise))]
pub fn same(a: &[u8], b: &[u8]) -> bool
    ensures { result ≡ same_bytes a.now b.now }
{
    a == b
}

/// The four bytes of `s` and of `t` at two indices are the same.
#[tactic(auto, using(crate::proofs::WordsLaws::words_same))]
pub fn same4(s: &[u8], at: usize, t: &[u8], from: usize) -> bool
    requires { (at + 4 ≤ length s.now) × (from + 4 ≤ length t.now) }
    ensures { result ≡ same_bytes (part s.now at 4) (part t.now from 4) }
{
    read32(s, at) == read32(t, from)
}

/// The 16 bytes.
// By words and with `&`: `==` of two arrays is a test of each byte.
#[tactic(auto, using(crate::proofs::WordsLaws::sixteen_same))]
pub fn same16(s: &[u8], at: usize, t: &[u8], from: usize) -> bool
    requires { (at + 16 ≤ length s.now) × (from + 16 ≤ length t.now) }
    ensures { result ≡ same_bytes (part s.now at 16) (part t.now from 16) }
{
    same4(s, at, t, from)
        & same4(s, at + 4, t, from + 4)
        & same4(s, at + 8, t, from + 8)
        & same4(s, at + 12, t, from + 12)
}
