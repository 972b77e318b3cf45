// The opening's file part (document 01, "Adapter file"): the checks of a file in order up to the fields, and what it holds left in the tables
// that the caller lends.
#![tactic(auto)]

mod read;

pub use read::read_file;
