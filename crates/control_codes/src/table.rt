// What each control code asks of a request.
ghost use Rattle.std.specs.Prelude.{◌≡◌, ◌≤◌, length};
ghost use Rattle.control_codes.specs.Table.{known, structure_size, data_size, signed_all, need};

use crate::reset::link_errors_need;
use codes::ControlCode;
use level::Level;

/// Whether the control code is served.
#[tactic(auto, unfolding(crate::specs::Table::known, level::specs::Need::among))]
pub fn is_known(control: u32) -> bool
    ensures { result ≡ known control }
{
    ControlCode::try_from(control).is_ok()
}

/// The bytes of a code's structure without the header, and 0 of a code that is not served.
#[tactic(auto, unfolding(crate::specs::Table::structure_size))]
pub fn structure_size(control: u32) -> u32
    ensures { result ≡ structure_size control }
{
    match ControlCode::try_from(control) {
        Ok(ControlCode::GetDriverInfo) => 174,
        Ok(ControlCode::GetCntlrConfig) => 176,
        Ok(ControlCode::GetCntlrStatus) => 36,
        Ok(ControlCode::FirmwareDownload) => download::SIZE,
        Ok(ControlCode::GetPhyInfo) => 2052,
        Ok(ControlCode::SetPhyInfo) => 8,
        Ok(ControlCode::GetLinkErrors) => 20,
        Ok(ControlCode::StpPassthru) => stp::SIZE,
        Ok(ControlCode::GetSataSignature) => 24,
        Ok(ControlCode::GetScsiAddress) => 20,
        Ok(ControlCode::GetDeviceAddress) => 20,
        Ok(ControlCode::GetConnectorInfo) => 1152,
        Err(_) => 0,
    }
}

/// The bytes behind a code's structure that its body says it has.
#[tactic(auto, unfolding(crate::specs::Table::data_size))]
pub fn data_size(control: u32, body: &[u8]) -> u32
    requires { structure_size control ≤ length body.now }
    ensures { result ≡ data_size control body.now }
{
    match ControlCode::try_from(control) {
        Ok(ControlCode::StpPassthru) => wire::read32(body, stp::DATA_LENGTH),
        Ok(ControlCode::FirmwareDownload) => wire::read32(body, download::BUFFER_LENGTH),
        _ => 0,
    }
}

/// Whether the signature is `CSMIALL`, and not `CSMISAS`.
#[tactic(auto, unfolding(crate::specs::Table::signed_all))]
pub fn signed_all(control: u32) -> bool
    ensures { result ≡ signed_all control }
{
    matches!(
        ControlCode::try_from(control),
        Ok(
            ControlCode::GetDriverInfo
                | ControlCode::GetCntlrConfig
                | ControlCode::GetCntlrStatus
                | ControlCode::FirmwareDownload
        )
    )
}

/// The lowest level that may send this. A code that no line names needs Full; clearing counters is
/// a write (W-202).
#[tactic(auto, unfolding(crate::specs::Table::need))]
pub fn need(control: u32, body: &[u8]) -> Level
    requires { structure_size control ≤ length body.now }
    ensures { result ≡ need control body.now }
{
    match ControlCode::try_from(control) {
        Ok(ControlCode::GetDriverInfo) => Level::RESTRICTED,
        Ok(ControlCode::GetCntlrConfig) => Level::RESTRICTED,
        Ok(ControlCode::GetCntlrStatus) => Level::RESTRICTED,
        Ok(ControlCode::FirmwareDownload) => Level::LIMITED,
        Ok(ControlCode::GetPhyInfo) => Level::RESTRICTED,
        Ok(ControlCode::SetPhyInfo) => Level::FULL,
        Ok(ControlCode::GetLinkErrors) => link_errors_need(body[codes::RESET_PLACE]),
        Ok(ControlCode::StpPassthru) => Level::from_need(body[stp::COMMAND]),
        Ok(ControlCode::GetSataSignature) => Level::RESTRICTED,
        Ok(ControlCode::GetScsiAddress) => Level::RESTRICTED,
        Ok(ControlCode::GetDeviceAddress) => Level::RESTRICTED,
        Ok(ControlCode::GetConnectorInfo) => Level::RESTRICTED,
        Err(_) => Level::FULL,
    }
}
