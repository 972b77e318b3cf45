//! What the lines of a test program's input leave in a state, and the digests that are printed of slices and states. `request_cases` is the program.
#![tactic(auto)]

mod alter;
mod digests;

pub use alter::damage;
pub use digests::{digest, state_digest};

// Where the phys, the rows, the connectors and what is staged start in a state. Before the phys stand the level, the two counts and the driver info, and between
// rows and connectors the controller's configuration and status.
const PHYS: usize = 177;

const ROWS: usize = 3537;

const CONNECTORS: usize = 5029;

const STAGED: usize = 6181;

// The bytes of a phy.
const PHY_SIZE: usize = 105;
