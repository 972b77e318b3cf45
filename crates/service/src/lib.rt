// The code's own checks and its effect, for each control code (document 01, "Request"; W-204, W-207). Nothing here sees a level or a header.
#![tactic(auto)]

ghost use Rattle.std.specs.Prelude.{◌≡◌, ◌+◌, ◌≤◌, length};
ghost use Rattle.adapter.specs.Adapter.{FewPhys, FewRows, medium_size};
ghost use Rattle.tables.specs.Tables.{tables_of};
ghost use Rattle.codes.specs.Numbers.{code_of};
ghost use Rattle.control_codes.specs.Table.{structure_size, data_size};
ghost use Rattle.service.specs.Serve.{store_of, serves, served};

use codes::{ControlCode, ReturnCode};

/// Serves a request whose header and level passed: the code's own checks, and then its effect on the
/// tables, the medium, the stage and the body. A number that is no code served is `BadControlCode`.
#[tactic(auto, using(control_codes::proofs::KnownLaws::conversion, crate::proofs::Laws::room_and_data, crate::proofs::Laws::changed_by, crate::proofs::Laws::reported_by_lem, crate::proofs::Laws::passed_by, crate::proofs::Laws::passthrough_lent, crate::proofs::Laws::downloaded_by, crate::proofs::Laws::download_lent), unfolding(crate::specs::Serve::served, crate::specs::Serve::report_of, control_codes::specs::Table::structure_size))]
pub fn serve(
    tables: &mut [u8; tables::SIZE],
    medium: &mut [u8],
    stage: &mut [u8; firmware::STAGE_SIZE],
    control: u32,
    body: &mut [u8],
) -> Result<(), ReturnCode>
    requires few_phys { FewPhys (tables_of tables.old) × FewRows (tables_of tables.old) }
    requires medium_len { length medium.old ≡ medium_size (tables_of tables.old) }
    requires body_in_bounds { structure_size control + data_size control body.old ≤ length body.old }
    ensures { serves (code_of result) (tables_of tables.new) (store_of medium.new stage.new) body.new
        ≡ served (tables_of tables.old) (store_of medium.old stage.old) control body.old }
{
    match ControlCode::try_from(control)? {
        ControlCode::GetDriverInfo => reports::get_driver_info(tables, body),
        ControlCode::GetCntlrConfig => reports::get_controller_config(tables, body),
        ControlCode::GetCntlrStatus => reports::get_controller_status(tables, body),
        ControlCode::FirmwareDownload => firmware::firmware_download(tables, stage, body),
        ControlCode::GetPhyInfo => reports::get_phy_info(tables, body),
        ControlCode::SetPhyInfo => set_phy_info::set_info(tables, body),
        ControlCode::GetLinkErrors => link_errors::get_link_errors(tables, body),
        ControlCode::StpPassthru => passthrough::pass_through(tables, medium, body),
        ControlCode::GetSataSignature => lookups::get_signature(tables, body),
        ControlCode::GetScsiAddress => lookups::get_scsi_address(tables, body),
        ControlCode::GetDeviceAddress => lookups::get_device_address(tables, body),
        ControlCode::GetConnectorInfo => reports::get_connector_info(tables, body),
    }
}
