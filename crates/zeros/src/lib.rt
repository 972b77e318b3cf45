//! Bytes that are 0. Every contract is an equation with a definition of `compare`.
#![tactic(auto)]

ghost use Rattle.std.specs.Prelude.{◌≡◌, ◌+◌, ◌*◌, ◌≤◌, length};
ghost use Rattle.laws.specs.Splice.{part};
ghost use Rattle.compare.specs.Same.{all_zero};

use numbers::read32;

// The loops have no early exit: so that over bytes takes 16 or more at a time, and `all` would take
// twenty times as many instructions for 2,048 bytes.

// The n words of four bytes of s from index at on are 0.
#[tactic(auto, using(crate::proofs::ZeroLaws::words_loop))]
fn words_zero(s: &[u8], at: usize, n: usize) -> bool
    requires { at + 4 * n ≤ length s.now }
    ensures { result ≡ all_zero (part s.now at (4 * n)) }
{
    let mut bits = 0;
    for i in 0..n {
        bits |= read32(s, at + 4 * i);
    }
    bits == 0
}

// The n bytes.
#[tactic(auto, using(crate::proofs::ZeroLaws::zero_loop))]
fn bytes_zero(s: &[u8], at: usize, n: usize) -> bool
    requires { at + n ≤ length s.now }
    ensures { result ≡ all_zero (part s.now at n) }
{
    let mut any = 0;
    for byte in &s[at..at + n] {
        any |= *byte;
    }
    any == 0
}

// Few bytes, by their words and the bytes that are left. In many the loop over words does not take 16
// bytes at a time.
#[tactic(auto, using(crate::proofs::ZeroLaws::zero_by_words))]
fn few_zero(s: &[u8], at: usize, n: usize) -> bool
    requires { at + n ≤ length s.now }
    ensures { result ≡ all_zero (part s.now at n) }
{
    let words = n / 4;
    words_zero(s, at, words) & bytes_zero(s, at + 4 * words, n % 4)
}

/// The `n` bytes of `s` from index `at` on are 0.
pub fn zero_at(s: &[u8], at: usize, n: usize) -> bool
    requires { at + n ≤ length s.now }
    ensures { result ≡ all_zero (part s.now at n) }
{
    if n <= 64 {
        return few_zero(s, at, n);
    }
    bytes_zero(s, at, n)
}
