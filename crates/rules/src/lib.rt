//! The field rules of all phys and connectors, and "zero past p and a", over the tables that the
//! caller lends (document 01, "Adapter file" and "From the state"; W-204).
#![tactic(auto)]

ghost use Rattle.std.specs.Prelude.{◌≡◌, ◌≤◌};
ghost use Rattle.adapter.specs.Adapter.{FewPhys, FewRows, fields_all, zero_past};
ghost use Rattle.tables.specs.Tables.{tables_of};
ghost use Rattle.rules.specs.Past.{phys_past};
ghost use Rattle.rules.specs.Fields.{fields_to};

use fields::fields_hold;
use phy::PhyIdentifier;

// Each of the first p phys passes the field rules of a phy among p.
fn phys_hold(tables: &[u8; tables::SIZE], p: u8) -> bool
    requires { p ≤ 32 }
    ensures { result ≡ fields_to (tables_of tables.now) p }
{
    (0..p).all(|k| {
        let phy = tables::phy_at(tables, PhyIdentifier(k));
        fields_hold(phy, PhyIdentifier(k), p)
    })
}

/// Each phy below p passes the field rules, and its connector. It is `&`, here and below: the tests
/// are one equation, which a lemma gives.
#[tactic(auto, using(crate::proofs::FieldsLaws::fields_by))]
pub fn all_fields_hold(tables: &[u8; tables::SIZE]) -> bool
    requires few_phys { FewPhys (tables_of tables.now) }
    ensures { result ≡ fields_all (tables_of tables.now) }
{
    let p = tables::phy_count(tables);
    phys_hold(tables, p) & connectors::pinouts_hold(tables::connectors(tables), usize::from(p))
}

// The phys from p on are zero: one test of their bytes.
#[tactic(auto, using(crate::proofs::PastLaws::phys_past_lem))]
fn phys_zero_from(tables: &[u8; tables::SIZE], p: usize) -> bool
    requires { p ≤ 32 }
    ensures { result ≡ phys_past (tables_of tables.now).phys p }
{
    wire::zero_at(tables, tables::PHYS + phy::SIZE * p, phy::SIZE * (32 - p))
}

/// Every phy and connector from p on and every row from a on is zero.
#[tactic(auto, using(crate::proofs::PastLaws::past_by))]
pub fn zero_past(tables: &[u8; tables::SIZE]) -> bool
    requires few_phys { FewPhys (tables_of tables.now) × FewRows (tables_of tables.now) }
    ensures { result ≡ zero_past (tables_of tables.now) }
{
    let p = usize::from(tables::phy_count(tables));
    let a = usize::from(tables::row_count(tables));
    phys_zero_from(tables, p)
        & rows::zero_from(tables::rows(tables), a)
        & connectors::zero_from(tables::connectors(tables), p)
}
