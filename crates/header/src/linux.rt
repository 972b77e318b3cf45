// The checks on the Linux header, in their order. The control code is handed in beside the buffer.
ghost use Rattle.std.specs.Prelude.{◌≡◌, ◌≤◌, length, IfOk};
ghost use Rattle.codes.specs.Numbers.{code_of, control_number};
ghost use Rattle.header.specs.Form.{linux};
ghost use Rattle.header.specs.Linux.{direction_holds, linux_length_holds, linux_code};

use crate::length::length_holds;
use codes::{ControlCode, ReturnCode};

// The bytes of the header, and the place of its return code.
pub const SIZE: usize = 20;

pub const RETURN_CODE: usize = 8;

// What Length counts before the body.
const HEADER_LENGTH: u32 = 20;

#[tactic(auto, unfolding(crate::specs::Linux::direction_holds))]
fn direction_holds(buffer: &[u8]) -> bool
    requires { linux.size ≤ length buffer.now }
    ensures { result ≡ direction_holds buffer.now }
{
    matches!(
        wire::read16(buffer, 16),
        codes::DATA_READ | codes::DATA_WRITE
    )
}

#[tactic(auto, using(crate::proofs::LengthLaws::short_header, crate::proofs::LengthLaws::linux_length_by))]
fn all_length_holds(control: u32, buffer: &[u8]) -> bool
    requires { linux.size ≤ length buffer.now }
    ensures { result ≡ linux_length_holds control buffer.now }
{
    let n = wire::read32(buffer, 4);
    if n < HEADER_LENGTH {
        return false;
    }
    length_holds(control, n - HEADER_LENGTH, &buffer[SIZE..])
}

// The control code of a request that passes them. There is no level to pass: no need is above Full.
#[tactic(auto, using(control_codes::proofs::KnownLaws::conversion), unfolding(crate::specs::Linux::linux_code))]
pub fn checked_code(control: u32, buffer: &[u8]) -> Result<ControlCode, ReturnCode>
    requires { linux.size ≤ length buffer.now }
    ensures code { code_of result ≡ linux_code control buffer.now }
    ensures number { IfOk result (λ code. control_number code ≡ control) }
{
    if !direction_holds(buffer) {
        return Err(ReturnCode::InvalidParameter);
    }
    let code = ControlCode::try_from(control)?;
    if !all_length_holds(control, buffer) {
        return Err(ReturnCode::InvalidParameter);
    }
    Ok(code)
}
