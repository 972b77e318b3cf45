//! The passthrough of ATA commands (document 01, "Request", code 25): whether the phy that a
//! request selects is connected, and the command on its disk.
#![tactic(auto)]

mod pass;

pub use pass::pass_through;
