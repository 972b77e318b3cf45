//! Bytes copied and cleared. Every contract is an equation with a definition of `laws`.
#![tactic(auto)]

ghost use Rattle.std.specs.Prelude.{◌≡◌, ◌+◌, ◌*◌, ◌≤◌, length};
ghost use Rattle.laws.specs.Splice.{part, splice};
ghost use Rattle.laws.specs.Clear.{zeros};

// Copies 16 bytes, by way of an array: so many are read before any is written, and the compiler moves
// them at once.
#[tactic(auto, using(crate::proofs::SixteensLaws::sixteen_moved))]
fn copy16(d: &mut [u8], at: usize, s: &[u8], from: usize)
    requires { (at + 16 ≤ length d.old) × (from + 16 ≤ length s.now) }
    ensures { d.new ≡ splice d.old at (part s.now from 16) }
{
    let mut bytes = [0u8; 16];
    copy_each(&mut bytes, 0, s, from, 16);
    copy_each(d, at, &bytes, 0, 16);
}

#[tactic(auto, using(laws::specs::Copy::copy_loop))]
fn copy_each(d: &mut [u8], at: usize, s: &[u8], from: usize, n: usize)
    requires { (at + n ≤ length d.old) × (from + n ≤ length s.now) }
    ensures { d.new ≡ splice d.old at (part s.now from n) }
{
    let mut j = 0;
    while j < n {
        d[at + j] = s[from + j];
        j += 1;
    }
}

#[tactic(auto, using(crate::proofs::SixteensLaws::sixteens_loop))]
fn copy_sixteens(d: &mut [u8], at: usize, s: &[u8], from: usize, n: usize)
    requires { (at + 16 * n ≤ length d.old) × (from + 16 * n ≤ length s.now) }
    ensures { d.new ≡ splice d.old at (part s.now from (16 * n)) }
{
    let mut j = 0;
    while j < n {
        copy16(d, at + 16 * j, s, from + 16 * j);
        j += 1;
    }
}

/// Copies the `n` bytes of `s` from index `from` on over those of `d` from index `at` on.
// By loops of our own: a copy of any length by `copy_from_slice` needs `memmove` of the C library, and
// one of 16 bytes by it in a `for` is not unrolled, which makes a code 20 three times as long.
#[tactic(auto, using(crate::proofs::SixteensLaws::parted_copy))]
pub fn copy_part(d: &mut [u8], at: usize, s: &[u8], from: usize, n: usize)
    requires { (at + n ≤ length d.old) × (from + n ≤ length s.now) }
    ensures { d.new ≡ splice d.old at (part s.now from n) }
{
    let sixteens = n / 16;
    let done = 16 * sixteens;
    copy_sixteens(d, at, s, from, sixteens);
    copy_each(d, at + done, s, from + done, n % 16);
}

/// Sets the `n` bytes of `d` from index `at` on to 0.
#[tactic(auto, using(laws::specs::Clear::cleared))]
pub fn clear(d: &mut [u8], at: usize, n: usize)
    requires { at + n ≤ length d.old }
    ensures { d.new ≡ splice d.old at (zeros n) }
{
    // `fill(0)` takes 15 instructions more: it writes the last byte by itself.
    for byte in &mut d[at..at + n] {
        *byte = 0;
    }
}

/// Copies all of `s` over the bytes of `d` from index `at` on.
#[tactic(auto, using(laws::specs::Lent::lent_put))]
pub fn copy_at(d: &mut [u8], at: usize, s: &[u8])
    requires { at + length s.now ≤ length d.old }
    ensures { d.new ≡ splice d.old at s.now }
{
    d[at..at + s.len()].copy_from_slice(s);
}
