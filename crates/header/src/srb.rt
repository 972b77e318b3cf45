// The checks on the first header, in document 01's order.
ghost use Rattle.std.specs.Prelude.{◌≡◌, ◌≤◌, length, IfOk};
ghost use Rattle.codes.specs.Numbers.{code_of, control_number};
ghost use Rattle.header.specs.declared.Kind.TheVariants.{Srb};
ghost use Rattle.header.specs.Form.{srb};
ghost use Rattle.header.specs.Srb.{control_code, signature_holds, srb_code};
ghost use Rattle.header.specs.Sent.{sent, checks_code};

use crate::length::length_holds;
use codes::{ControlCode, ReturnCode};
use control_codes::{need, signed_all};
use level::Level;

// The bytes of the header, and the place of its return code.
pub const SIZE: usize = 28;

pub const RETURN_CODE: usize = 20;

// What its HeaderLength says.
const HEADER_LENGTH: u32 = 28;

// The control code, which the header has in it.
pub fn control_code(buffer: &[u8]) -> u32
    requires { srb.size ≤ length buffer.now }
    ensures { result ≡ control_code buffer.now }
{
    wire::read32(buffer, 16)
}

#[tactic(auto, using(laws::specs::Choice::picks), unfolding(crate::specs::Srb::signature_holds, laws::specs::Ascii::ascii))]
fn signature_holds(control: u32, buffer: &[u8]) -> bool
    ensures { result ≡ signature_holds control buffer.now }
{
    if signed_all(control) {
        return wire::same_at(buffer, 4, b"CSMIALL\0");
    }
    wire::same_at(buffer, 4, b"CSMISAS\0")
}

// The control code of a request that passes those before the level.
#[tactic(auto, using(control_codes::proofs::KnownLaws::conversion), unfolding(crate::specs::Srb::srb_code, crate::specs::Srb::code_checked))]
pub fn checked_code(buffer: &[u8]) -> Result<ControlCode, ReturnCode>
    requires { srb.size ≤ length buffer.now }
    ensures code { code_of result ≡ srb_code buffer.now }
    ensures number { IfOk result (λ code. control_number code ≡ control_code buffer.now) }
{
    if wire::read32(buffer, 0) != HEADER_LENGTH {
        return Err(ReturnCode::InvalidParameter);
    }
    let control = control_code(buffer);
    let code = ControlCode::try_from(control)?;
    if !signature_holds(control, buffer) {
        return Err(ReturnCode::BadControlCode);
    }
    let (_, body) = buffer.split_at(SIZE);
    if !length_holds(control, wire::read32(buffer, 24), body) {
        return Err(ReturnCode::InvalidParameter);
    }
    Ok(code)
}

// The control code of a request that passes those up to the level.
pub fn access_code(level: Level, buffer: &[u8]) -> Result<ControlCode, ReturnCode>
    requires { srb.size ≤ length buffer.now }
    ensures code { code_of result ≡ checks_code level (sent Srb buffer.now) }
    ensures number { IfOk result (λ code. control_number code ≡ control_code buffer.now) }
{
    let code = checked_code(buffer)?;
    let (_, body) = buffer.split_at(SIZE);
    if level < need(control_code(buffer), body) {
        return Err(ReturnCode::WriteAttempted);
    }
    Ok(code)
}
