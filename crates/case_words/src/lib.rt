//! A line of a test program's input: its words, their numbers, and the bytes that they put into a slice. `request_cases` is the program.
#![tactic(auto)]

mod numerals;
mod patches;
mod pieces;

pub use numerals::field;
pub use patches::patch;
pub use pieces::{Pieces, cut, word};
