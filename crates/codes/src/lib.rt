// The numbers of CSMI's section 10, each said once: control codes, link rates, device types, connection status, directions, return codes, and the reset of link errors with its place. The call's own numbers are document 01's. The enums take theirs from here, so that what is proved of an enum's number holds the constant too.
#![tactic(auto)]

mod call_error;
mod control_code;
mod return_code;

pub use call_error::{CallError, call_number};
pub use control_code::{ControlCode, UnknownControlCode};
pub use return_code::{ReturnCode, answer_code};

// Control codes.
pub const GET_DRIVER_INFO: u32 = 1;

pub const GET_CNTLR_CONFIG: u32 = 2;

pub const GET_CNTLR_STATUS: u32 = 3;

pub const FIRMWARE_DOWNLOAD: u32 = 4;

pub const GET_PHY_INFO: u32 = 20;

pub const SET_PHY_INFO: u32 = 21;

pub const GET_LINK_ERRORS: u32 = 22;

pub const STP_PASSTHRU: u32 = 25;

pub const GET_SATA_SIGNATURE: u32 = 26;

pub const GET_SCSI_ADDRESS: u32 = 27;

pub const GET_DEVICE_ADDRESS: u32 = 28;

pub const GET_CONNECTOR_INFO: u32 = 30;

// Link rates.
pub const PHY_DISABLED: u8 = 1;

pub const LINK_RATE_FAILED: u8 = 2;

pub const SATA_SPINUP_HOLD: u8 = 3;

pub const LINK_RATE_1_5: u8 = 8;

pub const LINK_RATE_3_0: u8 = 9;

// Attached device types.
pub const NO_DEVICE_ATTACHED: u8 = 0x00;

pub const END_DEVICE: u8 = 0x10;

pub const EDGE_EXPANDER: u8 = 0x20;

pub const FANOUT_EXPANDER: u8 = 0x30;

// Connection status.
pub const OPEN_ACCEPT: u8 = 0;

// Directions of the Linux header.
pub const DATA_READ: u16 = 0;

pub const DATA_WRITE: u16 = 1;

// Link error reset: the place of bResetCounts in the body of a code 22, and the value that clears.
pub const RESET_PLACE: usize = 1;

pub const LINK_ERROR_RESET_COUNTS: u8 = 1;

// Return codes.
pub const SUCCESS: u32 = 0;

pub const FAILED: u32 = 1;

pub const BAD_CONTROL_CODE: u32 = 2;

pub const INVALID_PARAMETER: u32 = 3;

pub const WRITE_ATTEMPTED: u32 = 4;

pub const PHY_INFO_CHANGED: u32 = SUCCESS;

const _: () = prove!(PHY_INFO_CHANGED == SUCCESS);

pub const PHY_INFO_NOT_CHANGEABLE: u32 = 2000;

pub const LINK_RATE_OUT_OF_RANGE: u32 = 2001;

pub const PHY_DOES_NOT_EXIST: u32 = 2002;

pub const PHY_DOES_NOT_MATCH_PORT: u32 = 2003;

pub const SELECT_PHY_OR_PORT: u32 = 2005;

pub const PORT_DOES_NOT_EXIST: u32 = 2006;

pub const CONNECTION_FAILED: u32 = 2008;

pub const NO_SATA_DEVICE: u32 = 2009;

pub const NO_SATA_SIGNATURE: u32 = 2010;

pub const NO_SCSI_ADDRESS: u32 = 2013;

pub const NO_DEVICE_ADDRESS: u32 = 2014;

// The call's numbers.
pub const SHORT_BUFFER: u32 = 100;

pub const BAD_TEXT: u32 = 101;

pub const BAD_FILE_LENGTH: u32 = 102;

pub const BLOCK_CHECK: u32 = 103;

pub const BAD_FIELD: u32 = 104;

pub const SHARED_ROW: u32 = 105;

// Of a medium, and of a stage.
pub const BAD_MEDIUM_LENGTH: u32 = 106;

pub const BAD_STATE: u32 = 107;
