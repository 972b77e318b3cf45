//! Code 28, get device address.
ghost use Rattle.std.specs.Prelude.{◌≡◌, ◌≤◌, length};
ghost use Rattle.codes.specs.Numbers.{code_of};
ghost use Rattle.adapter.specs.Adapter.{FewRows};
ghost use Rattle.tables.specs.Tables.{tables_of};
ghost use Rattle.reports.specs.Report.{report};
ghost use Rattle.lookups.specs.DeviceAddress.{device_address};

use codes::ReturnCode;

// Code 27 the other way. One function for both would take the lookup, the part, two places and the
// refusal, which is no plainer.
/// Fills in the SAS address and LUN of the row with the four OS bytes that the body names.
pub fn get_device_address(tables: &[u8; tables::SIZE], body: &mut [u8]) -> Result<(), ReturnCode>
    requires few_rows { FewRows (tables_of tables.now) }
    requires in_bounds { 20 ≤ length body.old }
    ensures { report (code_of result) body.new
        ≡ device_address (tables_of tables.now).rows (tables_of tables.now).row_count body.old }
{
    let rows = tables::rows(tables);
    let a = usize::from(tables::row_count(tables));
    let os = body.first_chunk().unwrap();
    let Some(i) = conversions::find_os(rows, a, os) else {
        return Err(ReturnCode::NoDeviceAddress);
    };
    conversions::put_sas(rows, i, body, 4);
    Ok(())
}
