// The control codes that are served.
ghost use Rattle.std.specs.Prelude.{◌≡◌};
ghost use Rattle.codes.specs.Numbers.{control_number, control_code_of};

/// A control code that is served, under the name and the number of section 10.
#[derive(Clone, Copy, Debug, PartialEq, Eq, Hash)]
pub enum ControlCode {
    GetDriverInfo = crate::GET_DRIVER_INFO as isize,
    GetCntlrConfig = crate::GET_CNTLR_CONFIG as isize,
    GetCntlrStatus = crate::GET_CNTLR_STATUS as isize,
    FirmwareDownload = crate::FIRMWARE_DOWNLOAD as isize,
    GetPhyInfo = crate::GET_PHY_INFO as isize,
    SetPhyInfo = crate::SET_PHY_INFO as isize,
    GetLinkErrors = crate::GET_LINK_ERRORS as isize,
    StpPassthru = crate::STP_PASSTHRU as isize,
    GetSataSignature = crate::GET_SATA_SIGNATURE as isize,
    GetScsiAddress = crate::GET_SCSI_ADDRESS as isize,
    GetDeviceAddress = crate::GET_DEVICE_ADDRESS as isize,
    GetConnectorInfo = crate::GET_CONNECTOR_INFO as isize,
}

/// A number that is no control code served here.
#[derive(Clone, Copy, Debug, PartialEq, Eq, Hash)]
pub struct UnknownControlCode;

impl From<ControlCode> for u32 {
    ghost from_gives = { λ code number. number ≡ control_number code };

    fn from(code: ControlCode) -> u32 {
        code as u32
    }
}

impl TryFrom<u32> for ControlCode {
    type Error = UnknownControlCode;

    ghost try_from_gives = { λ number code. code ≡ control_code_of number };

    fn try_from(number: u32) -> Result<ControlCode, UnknownControlCode> {
        match number {
            crate::GET_DRIVER_INFO => Ok(ControlCode::GetDriverInfo),
            crate::GET_CNTLR_CONFIG => Ok(ControlCode::GetCntlrConfig),
            crate::GET_CNTLR_STATUS => Ok(ControlCode::GetCntlrStatus),
            crate::FIRMWARE_DOWNLOAD => Ok(ControlCode::FirmwareDownload),
            crate::GET_PHY_INFO => Ok(ControlCode::GetPhyInfo),
            crate::SET_PHY_INFO => Ok(ControlCode::SetPhyInfo),
            crate::GET_LINK_ERRORS => Ok(ControlCode::GetLinkErrors),
            crate::STP_PASSTHRU => Ok(ControlCode::StpPassthru),
            crate::GET_SATA_SIGNATURE => Ok(ControlCode::GetSataSignature),
            crate::GET_SCSI_ADDRESS => Ok(ControlCode::GetScsiAddress),
            crate::GET_DEVICE_ADDRESS => Ok(ControlCode::GetDeviceAddress),
            crate::GET_CONNECTOR_INFO => Ok(ControlCode::GetConnectorInfo),
            _ => Err(UnknownControlCode),
        }
    }
}
