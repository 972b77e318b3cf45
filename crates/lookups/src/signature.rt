//! Code 26, get SATA signature.
ghost use Rattle.std.specs.Prelude.{◌≡◌, ◌≤◌, length};
ghost use Rattle.codes.specs.Numbers.{code_of};
ghost use Rattle.adapter.specs.Adapter.{FewPhys};
ghost use Rattle.tables.specs.Tables.{tables_of};
ghost use Rattle.reports.specs.Report.{report};
ghost use Rattle.lookups.specs.Signature.{signature_of, sata_signature};

use codes::ReturnCode;
use phy::PhyIdentifier;

/// Fills in the signature that the phy named by the body holds of its SATA device.
#[tactic(auto, using(laws::specs::Choice::picks), unfolding(crate::specs::Signature::sata_signature, crate::specs::Signature::signature_of))]
pub fn get_signature(tables: &[u8; tables::SIZE], body: &mut [u8]) -> Result<(), ReturnCode>
    requires few_phys { FewPhys (tables_of tables.now) }
    requires in_bounds { 24 ≤ length body.old }
    ensures { report (code_of result) body.new ≡ sata_signature (tables_of tables.now) body.old }
{
    let Some(phy) = tables::phy(tables, PhyIdentifier(body[0])) else {
        return Err(ReturnCode::PhyDoesNotExist);
    };
    if !phy.is_sata() {
        return Err(ReturnCode::NoSataDevice);
    }
    if phy.held != 1 {
        return Err(ReturnCode::NoSataSignature);
    }
    wire::copy_at(body, 4, &phy.signature);
    Ok(())
}
