//! The rule on the negotiated rate (document 01, "Field rules"), of every phy of the tables that the
//! caller lends.
#![tactic(auto)]

ghost use Rattle.std.specs.Prelude.{◌≡◌};
ghost use Rattle.adapter.specs.Adapter.{FewPhys};
ghost use Rattle.tables.specs.Tables.{tables_of};
ghost use Rattle.link.specs.All.{negotiated_all};

use link::negotiated_holds;
use phy::PhyIdentifier;

/// The negotiated rate of each phy is 1 or what the link rule gives.
#[tactic(auto, unfolding(link::specs::All::negotiated_all))]
pub fn all_negotiated(tables: &[u8; tables::SIZE]) -> bool
    requires few_phys { FewPhys (tables_of tables.now) }
    ensures { result ≡ negotiated_all (tables_of tables.now) }
{
    (0..tables::phy_count(tables)).all(|n| {
        let phy = tables::phy_at(tables, PhyIdentifier(n));
        negotiated_holds(phy)
    })
}
