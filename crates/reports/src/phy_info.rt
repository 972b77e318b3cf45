//! Code 20, get phy info.
ghost use Rattle.std.specs.Prelude.{◌≡◌, ◌*◌, ◌≤◌, length};
ghost use Rattle.laws.specs.Flat.{flat_to};
ghost use Rattle.laws.specs.Splice.{splice};
ghost use Rattle.codes.specs.Numbers.{code_of};
ghost use Rattle.adapter.specs.Adapter.{FewPhys};
ghost use Rattle.tables.specs.Tables.{tables_of};
ghost use Rattle.reports.specs.Report.{report};
ghost use Rattle.reports.specs.PhyInfo.{entity_at, entities, phy_info};

use codes::ReturnCode;
use phy::PhyIdentifier;

// The entities below p, from the start on.
fn put_below(tables: &[u8; tables::SIZE], p: u8, all: &mut [u8])
    requires p_bound { p ≤ 32 }
    requires all_len { length all.old ≡ 2048 }
    ensures all_after { all.new ≡ splice all.old 0 (flat_to (entity_at (tables_of tables.now).phys) p) }
    ensures p_len { length (flat_to (entity_at (tables_of tables.now).phys) p) ≡ 64 * p }
{
    for i in 0..p {
        tables::put_entity(tables, PhyIdentifier(i), all, 64 * usize::from(i));
    }
}

// The 32 entities, zero from p on.
fn put_entities(tables: &[u8; tables::SIZE], p: u8, all: &mut [u8])
    requires p_bound { p ≤ 32 }
    requires all_len { length all.old ≡ 2048 }
    ensures all_after { all.new ≡ entities (tables_of tables.now).phys p }
    ensures all_len_2 { length all.new ≡ 2048 }
{
    let n = usize::from(p);
    put_below(tables, p, all);
    wire::clear(all, 64 * n, 64 * (32 - n));
}

// The same in a body.
fn fill_entities(tables: &[u8; tables::SIZE], p: u8, body: &mut [u8])
    requires p_bound { p ≤ 32 }
    requires in_bounds { 2052 ≤ length body.old }
    ensures { body.new ≡ splice body.old 4 (entities (tables_of tables.now).phys p) }
{
    put_entities(tables, p, &mut body[4..2052]);
}

/// Fills in the phy count and the 32 entities, which are zero from p on.
#[tactic(auto, unfolding(crate::specs::PhyInfo::phy_info))]
pub fn get_phy_info(tables: &[u8; tables::SIZE], body: &mut [u8]) -> Result<(), ReturnCode>
    requires few_phys { FewPhys (tables_of tables.now) }
    requires in_bounds { 2052 ≤ length body.old }
    ensures { report (code_of result) body.new
        ≡ phy_info (tables_of tables.now).phys (tables_of tables.now).phy_count body.old }
{
    let p = tables::phy_count(tables);
    wire::copy_at(body, 0, &[p, 0, 0, 0]);
    fill_entities(tables, p, body);
    Ok(())
}
