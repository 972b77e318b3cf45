//! The header of a request, of either kind, and the checks on it, up to the level (document 01, "Request"; W-201).
#![tactic(auto)]

mod length;
mod linux;
mod sent;
mod srb;

pub use sent::{access_code, control_code, place, size};

/// Which header a request has. The first, SRB_IO_CONTROL, has the control code in it; that of a request under the Linux header is handed in beside
/// the buffer.
#[derive(Clone, Copy, Debug, PartialEq, Eq, Hash)]
pub enum Kind {
    Srb,
    Linux(u32),
}
