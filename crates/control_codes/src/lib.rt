//! What each control code asks of a request: whether it is known, the size of its structure, its data, its signature and its need (document 01, "Level" and
//! "Request"; W-202, W-204, W-207). Nothing here sees a header.
#![tactic(auto)]

mod reset;
mod table;

pub use table::{data_size, is_known, need, signed_all, structure_size};
