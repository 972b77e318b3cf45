//! The blocks of an adapter file and the check at the end of each (document 01, "Adapter file").
#![tactic(auto)]

ghost use Rattle.std.specs.Prelude.{◌≡◌, ◌+◌, ◌*◌, ◌<◌, ◌≤◌, length};
ghost use Rattle.laws.specs.Sum.{sum_to};
ghost use Rattle.block.specs.Check.{word, check_of, sound, block_at, sound_to};

/// How many bytes a block has.
pub const SIZE: usize = 512;

// The sum of the 127 words before a block's check.
#[tactic(auto, using(laws::specs::Sum::sum_loop), unfolding(crate::specs::Check::word))]
fn words(block: &[u8; SIZE]) -> u64
    ensures { (result ≡ sum_to (word block.now) 127) × (result ≤ 127 * 4294967295) }
{
    let mut sum = 0;
    for i in 0..127 {
        sum += u64::from(wire::read32(block, 4 * i));
    }
    sum
}

/// The check of block k: its 512 bytes and its number alone give it. The bound on k says that the block has a place in a
/// slice, so that the sum fits.
#[tactic(auto, unfolding(crate::specs::Check::check_of))]
pub fn check(block: &[u8; SIZE], k: usize) -> u32
    requires { 512 * k < 18446744073709551616 }
    ensures { result ≡ check_of block.now k }
{
    ((words(block) + k as u64 + 1) % 4294967296) as u32
}

/// The last four bytes of block k are its check.
#[tactic(auto, unfolding(crate::specs::Check::sound))]
pub fn sound(block: &[u8; SIZE], k: usize) -> bool
    requires { 512 * k < 18446744073709551616 }
    ensures { result ≡ sound block.now k }
{
    wire::read32(block, 508) == check(block, k)
}

/// The same of the block that stands in a file as its k-th.
#[tactic(auto, unfolding(crate::specs::Check::block_at, laws::specs::Splice::part))]
pub fn sound_at(file: &[u8], k: usize) -> bool
    requires { 512 * k + 512 ≤ length file.now }
    ensures { result ≡ sound (block_at file.now k) k }
{
    sound(file[512 * k..512 * k + 512].try_into().unwrap(), k)
}

/// Each of a file's first n blocks has its check, lowest block first.
#[tactic(auto, using(laws::specs::All::all_loop), unfolding(crate::specs::Check::sound_to))]
pub fn all_sound(file: &[u8], n: usize) -> bool
    requires { 512 * n ≤ length file.now }
    ensures { result ≡ sound_to file.now n }
{
    (0..n).all(|k| sound_at(file, k))
}
