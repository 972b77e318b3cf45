// What a request that was not done writes in its header.
ghost use Rattle.std.specs.Prelude.{◌≡◌};
ghost use Rattle.codes.specs.declared.return_code.ReturnCode.TheVariants.{BadControlCode};
ghost use Rattle.codes.specs.Numbers.{return_number, code_of};

use crate::UnknownControlCode;

/// A refusal, under the name and the number of section 10. A request that is done writes `SUCCESS`, which is no refusal.
#[derive(Clone, Copy, Debug, PartialEq, Eq, Hash)]
pub enum ReturnCode {
    Failed = crate::FAILED as isize,
    BadControlCode = crate::BAD_CONTROL_CODE as isize,
    InvalidParameter = crate::INVALID_PARAMETER as isize,
    WriteAttempted = crate::WRITE_ATTEMPTED as isize,
    PhyInfoNotChangeable = crate::PHY_INFO_NOT_CHANGEABLE as isize,
    LinkRateOutOfRange = crate::LINK_RATE_OUT_OF_RANGE as isize,
    PhyDoesNotExist = crate::PHY_DOES_NOT_EXIST as isize,
    PhyDoesNotMatchPort = crate::PHY_DOES_NOT_MATCH_PORT as isize,
    SelectPhyOrPort = crate::SELECT_PHY_OR_PORT as isize,
    PortDoesNotExist = crate::PORT_DOES_NOT_EXIST as isize,
    ConnectionFailed = crate::CONNECTION_FAILED as isize,
    NoSataDevice = crate::NO_SATA_DEVICE as isize,
    NoSataSignature = crate::NO_SATA_SIGNATURE as isize,
    NoScsiAddress = crate::NO_SCSI_ADDRESS as isize,
    NoDeviceAddress = crate::NO_DEVICE_ADDRESS as isize,
}

impl From<ReturnCode> for u32 {
    ghost from_gives = { λ code number. number ≡ return_number code };

    fn from(code: ReturnCode) -> u32 {
        code as u32
    }
}

impl From<UnknownControlCode> for ReturnCode {
    ghost from_gives = { λ unknown code. code ≡ BadControlCode };

    fn from(_unknown: UnknownControlCode) -> ReturnCode {
        ReturnCode::BadControlCode
    }
}

/// The number that is written for what a request came to: `SUCCESS`, or the refusal's.
pub fn answer_code(answer: Result<(), ReturnCode>) -> u32
    ensures { result ≡ code_of answer }
{
    match answer {
        Ok(()) => crate::SUCCESS,
        Err(code) => u32::from(code),
    }
}
