// The state of the simulator as bytes that the caller lends, the rules that it has to keep, and the call that opens an adapter (document 01,
// "Adapter file" and "From the state"). Byte 0 is the level, and behind it stand the tables.
#![tactic(auto)]

mod hold;
mod opening;

pub use hold::{medium_size, state_holds};
pub use opening::open;

// How many bytes a state has.
pub const SIZE: usize = 6190;
