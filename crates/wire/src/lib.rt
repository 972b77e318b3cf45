//! Bytes as CSMI lays them out: little-endian numbers, copies, comparisons. It has no function of its own and passes on those of four crates, with their
//! definitions and laws.
#![tactic(auto)]

pub use compare::{same, same_at, same4, same16};
pub use copies::{clear, copy_at, copy_part};
pub use numbers::{array, read16, read32, write16, write32};
pub use zeros::zero_at;
