//! The requests that look one thing up (document 01, "Request", codes 26, 27 and 28): the body names a
//! phy, a SAS address and LUN, or an OS address. Each fills the body of its request, the buffer after
//! its header, with what the lent tables have of it, or refuses it, and changes nothing else.
#![tactic(auto)]

mod device_address;
mod scsi_address;
mod signature;

pub use device_address::get_device_address;
pub use scsi_address::get_scsi_address;
pub use signature::get_signature;
