//! Code 30, get connector info (W-204).
ghost use Rattle.std.specs.Prelude.{◌≡◌, ◌≤◌, length};
ghost use Rattle.codes.specs.Numbers.{code_of};
ghost use Rattle.adapter.specs.Adapter.{FewPhys};
ghost use Rattle.tables.specs.Tables.{tables_of};
ghost use Rattle.reports.specs.Report.{report};
ghost use Rattle.reports.specs.ConnectorInfo.{connector_info};

use codes::ReturnCode;

/// Fills in the 32 references, which are zero from p on.
#[tactic(auto, using(crate::proofs::ConnectorLaws::references_put), unfolding(crate::specs::ConnectorInfo::connector_info))]
pub fn get_connector_info(tables: &[u8; tables::SIZE], body: &mut [u8]) -> Result<(), ReturnCode>
    requires few_phys { FewPhys (tables_of tables.now) }
    requires in_bounds { 1152 ≤ length body.old }
    ensures { report (code_of result) body.new
        ≡ connector_info (tables_of tables.now).connectors (tables_of tables.now).phy_count body.old }
{
    let p = usize::from(tables::phy_count(tables));
    wire::copy_part(body, 0, tables, tables::CONNECTORS, 36 * p);
    wire::clear(body, 36 * p, 36 * (32 - p));
    Ok(())
}
