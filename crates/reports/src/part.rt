//! Codes 1, 2 and 3, which report a part of the tables as it stands there: the driver info, and the
//! controller's configuration and status (W-204).
ghost use Rattle.std.specs.Prelude.{◌≡◌, ◌+◌, ◌≤◌, length};
ghost use Rattle.laws.specs.Splice.{part, splice};
ghost use Rattle.codes.specs.Numbers.{code_of};
ghost use Rattle.tables.specs.Tables.{tables_size, tables_of};
ghost use Rattle.reports.specs.Report.{report};
ghost use Rattle.reports.specs.DriverInfo.{driver_info};
ghost use Rattle.reports.specs.Controller.{controller_config, controller_status};

use codes::ReturnCode;

// Copies the N bytes of the tables from AT on to the start of the body.
fn report_part<const AT: usize, const N: usize>(tables: &[u8; tables::SIZE], body: &mut [u8])
    requires in_tables { AT + N ≤ tables_size }
    requires in_body { N ≤ length body.old }
    ensures { body.new ≡ splice body.old 0 (part tables.now AT N) }
{
    wire::copy_part(body, 0, tables, AT, N);
}

/// Code 1, get driver info.
#[tactic(auto, unfolding(tables::specs::Tables::tables_of, crate::specs::DriverInfo::driver_info))]
pub fn get_driver_info(tables: &[u8; tables::SIZE], body: &mut [u8]) -> Result<(), ReturnCode>
    requires { 174 ≤ length body.old }
    ensures { report (code_of result) body.new ≡ driver_info (tables_of tables.now).info body.old }
{
    report_part::<{ tables::INFO }, 174>(tables, body);
    Ok(())
}

/// Code 2, get controller configuration.
#[tactic(auto, unfolding(tables::specs::Tables::tables_of, crate::specs::Controller::controller_config))]
pub fn get_controller_config(tables: &[u8; tables::SIZE], body: &mut [u8]) -> Result<(), ReturnCode>
    requires { 176 ≤ length body.old }
    ensures { report (code_of result) body.new ≡ controller_config (tables_of tables.now).controller body.old }
{
    report_part::<{ tables::CONTROLLER }, 176>(tables, body);
    Ok(())
}

/// Code 3, get controller status.
#[tactic(auto, unfolding(tables::specs::Tables::tables_of, crate::specs::Controller::controller_status))]
pub fn get_controller_status(tables: &[u8; tables::SIZE], body: &mut [u8]) -> Result<(), ReturnCode>
    requires { 36 ≤ length body.old }
    ensures { report (code_of result) body.new ≡ controller_status (tables_of tables.now).status body.old }
{
    report_part::<{ tables::STATUS }, 36>(tables, body);
    Ok(())
}
