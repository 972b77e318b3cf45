//! Code 27, get SCSI address.
ghost use Rattle.std.specs.Prelude.{◌≡◌, ◌≤◌, length};
ghost use Rattle.codes.specs.Numbers.{code_of};
ghost use Rattle.adapter.specs.Adapter.{FewRows};
ghost use Rattle.tables.specs.Tables.{tables_of};
ghost use Rattle.reports.specs.Report.{report};
ghost use Rattle.lookups.specs.ScsiAddress.{scsi_address};

use codes::ReturnCode;

/// Fills in the four OS bytes of the row with the SAS address and LUN that the body names.
pub fn get_scsi_address(tables: &[u8; tables::SIZE], body: &mut [u8]) -> Result<(), ReturnCode>
    requires few_rows { FewRows (tables_of tables.now) }
    requires in_bounds { 20 ≤ length body.old }
    ensures { report (code_of result) body.new
        ≡ scsi_address (tables_of tables.now).rows (tables_of tables.now).row_count body.old }
{
    let rows = tables::rows(tables);
    let a = usize::from(tables::row_count(tables));
    let sas = body.first_chunk().unwrap();
    let Some(i) = conversions::find_sas(rows, a, sas) else {
        return Err(ReturnCode::NoScsiAddress);
    };
    conversions::put_os(rows, i, body, 16);
    Ok(())
}
