// What goes by the kind of a request's header.
ghost use Rattle.std.specs.Prelude.{◌≡◌, ◌≤◌, length, IfOk};
ghost use Rattle.codes.specs.Numbers.{code_of, control_number};
ghost use Rattle.header.specs.Sent.{sent, form_by, control_by, checks_code};

use crate::{Kind, linux, srb};
use codes::{ControlCode, ReturnCode};
use level::Level;

/// The bytes of the header.
pub fn size(kind: Kind) -> usize
    ensures { result ≡ (form_by kind).size }
{
    match kind {
        Kind::Srb => srb::SIZE,
        Kind::Linux(_) => linux::SIZE,
    }
}

/// The place of its return code.
pub fn place(kind: Kind) -> usize
    ensures { result ≡ (form_by kind).place }
{
    match kind {
        Kind::Srb => srb::RETURN_CODE,
        Kind::Linux(_) => linux::RETURN_CODE,
    }
}

/// The number that stands for the control code, whether or not that is served.
pub fn control_code(kind: Kind, buffer: &[u8]) -> u32
    requires { (form_by kind).size ≤ length buffer.now }
    ensures { result ≡ control_by kind buffer.now }
{
    match kind {
        Kind::Srb => srb::control_code(buffer),
        Kind::Linux(control) => control,
    }
}

/// The control code of a request that passes the checks up to the level, or the refusal of the
/// first that fails. A request under the Linux header runs as Full (document 01, "Request"; W-201).
#[tactic(auto, using(crate::proofs::SentLaws::srb_size, crate::proofs::SentLaws::linux_size, crate::proofs::SentLaws::srb_access, crate::proofs::SentLaws::linux_access))]
pub fn access_code(kind: Kind, level: Level, buffer: &[u8]) -> Result<ControlCode, ReturnCode>
    requires { (form_by kind).size ≤ length buffer.now }
    ensures code { code_of result ≡ checks_code level (sent kind buffer.now) }
    ensures number { IfOk result (λ code. control_number code ≡ control_by kind buffer.now) }
{
    match kind {
        Kind::Srb => srb::access_code(level, buffer),
        Kind::Linux(control) => linux::checked_code(control, buffer),
    }
}
