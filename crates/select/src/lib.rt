//! The phy that a code 25 selects (document 01, "Request"), by a phy identifier, a port identifier,
//! or both.
#![tactic(auto)]

ghost use Rattle.std.specs.Prelude.{◌≡◌};
ghost use Rattle.adapter.specs.Adapter.{FewPhys};
ghost use Rattle.tables.specs.Tables.{tables_of};
ghost use Rattle.select.specs.Chosen.{existing, chosen};
ghost use Rattle.select.specs.Select.{lowest_of, port_in, select_in};

use codes::ReturnCode;
use phy::{PhyIdentifier, PortIdentifier};

// USE_PORT_IDENTIFIER: no phy is given.
const NO_PHY: u8 = 0xff;

// IGNORE_PORT: no port is given.
const NO_PORT: u8 = 0xff;

/// The phy for a phy identifier and a port identifier, each of which may stand for none.
#[tactic(auto, using(laws::specs::Choice::picks), unfolding(crate::specs::Select::select_by, crate::specs::Select::selection, crate::specs::Select::phy_given, crate::specs::Select::port_given))]
pub fn select_phy(
    tables: &[u8; tables::SIZE],
    phy: PhyIdentifier,
    port: PortIdentifier,
) -> Result<PhyIdentifier, ReturnCode>
    requires { FewPhys (tables_of tables.now) }
    ensures { chosen result ≡ select_in (tables_of tables.now) phy port }
{
    if phy.0 == NO_PHY && port.0 == NO_PORT {
        return Err(ReturnCode::SelectPhyOrPort);
    }
    if phy.0 == NO_PHY {
        return lowest(tables, port).ok_or(ReturnCode::PortDoesNotExist);
    }
    if !tables::phy_exists(tables, phy) {
        return Err(ReturnCode::PhyDoesNotExist);
    }
    if port.0 == NO_PORT {
        return Ok(phy);
    }
    if lowest(tables, port).is_none() {
        return Err(ReturnCode::PortDoesNotExist);
    }
    if tables::port_at(tables, phy) != port {
        return Err(ReturnCode::PhyDoesNotMatchPort);
    }
    Ok(phy)
}

// The lowest phy of a port.
#[tactic(auto, using(laws::specs::First::first_loop), unfolding(crate::specs::Select::lowest_of))]
fn lowest(tables: &[u8; tables::SIZE], port: PortIdentifier) -> Option<PhyIdentifier>
    requires { FewPhys (tables_of tables.now) }
    ensures { result ≡ existing (tables_of tables.now).phy_count
        (lowest_of (port_in (tables_of tables.now)) (tables_of tables.now).phy_count port) }
{
    let p = tables::phy_count(tables);
    for n in 0..p {
        if tables::port_at(tables, PhyIdentifier(n)) == port {
            return Some(PhyIdentifier(n));
        }
    }
    None
}
