// Where the fields of a code 25's body stand (6.12), each said once. The body is what stands behind the header; its command FIS starts at 16.
#![tactic(auto)]

pub const PHY: usize = 0;

pub const PORT: usize = 1;

pub const CONNECTION_RATE: usize = 2;

// Eight bytes, up to DESTINATION_END.
pub const DESTINATION: usize = 4;

pub const DESTINATION_END: usize = 12;

pub const FIS_TYPE: usize = 16;

pub const COMMAND: usize = 18;

// The LBA's lower bytes; the FIS byte that holds its last four bits and bit 6; and the count byte.
pub const LBA_LOW: usize = 20;

pub const LBA_MIDDLE: usize = 21;

pub const LBA_HIGH: usize = 22;

pub const DEVICE: usize = 23;

pub const COUNT: usize = 28;

pub const DATA_LENGTH: usize = 40;

// The Status structure, and bDataBuffer behind it.
pub const STATUS: usize = 44;

pub const DATA: usize = 136;

// The structure without bDataBuffer.
pub const SIZE: u32 = 136;
