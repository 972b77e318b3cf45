// Where the fields of a code 4's body stand (6.4), each said once. The body is what stands behind the header.
#![tactic(auto)]

pub const BUFFER_LENGTH: usize = 0;

pub const FLAGS: usize = 4;

// Status and severity, two bytes each.
pub const STATUS: usize = 40;

// bDataBuffer: the image.
pub const DATA: usize = 44;

// The structure without bDataBuffer.
pub const SIZE: u32 = 44;
