//! The tables and counters of an adapter as bytes that the caller lends (specs/Tables.antt names
//! each of them). A phy is read by value and stored in its place; nothing else is copied. The level
//! stands apart, before these bytes, and is never lent with them.
#![tactic(auto)]

mod phys;

ghost use Rattle.std.specs.Prelude.{◌≡◌};
ghost use Rattle.laws.specs.Splice.{part};
ghost use Rattle.rows.specs.Row.{rows_size};
ghost use Rattle.connectors.specs.Connector.{connectors_size};
ghost use Rattle.tables.specs.Tables.{rows_start, connectors_start, tables_of};

pub use phys::{phy, phy_at, phy_exists, port_at, put_entity, store_phy};

/// How many bytes the tables have. Behind p and a stand the driver info, the phys, the rows, the
/// controller's configuration and status, the connectors and what is staged.
pub const SIZE: usize = 6189;

/// Where the driver info starts.
pub const INFO: usize = 2;

/// Where the phys start.
pub const PHYS: usize = 176;

/// How many bytes all 32 phys have.
pub const PHYS_SIZE: usize = 3360;

/// Where the rows start.
pub const ROWS: usize = 3536;

/// Where the controller's configuration starts.
pub const CONTROLLER: usize = 4816;

/// Where its status starts.
pub const STATUS: usize = 4992;

/// Where the connectors start.
pub const CONNECTORS: usize = 5028;

/// The byte that says whether firmware is staged; its revisions stand behind it.
pub const STAGED: usize = 6180;

/// p, how many phys there are.
#[tactic(auto, unfolding(crate::specs::Tables::tables_of))]
pub fn phy_count(tables: &[u8; SIZE]) -> u8
    ensures { result ≡ (tables_of tables.now).phy_count }
{
    tables[0]
}

/// a, how many rows there are.
#[tactic(auto, unfolding(crate::specs::Tables::tables_of))]
pub fn row_count(tables: &[u8; SIZE]) -> u8
    ensures { result ≡ (tables_of tables.now).row_count }
{
    tables[1]
}

/// The bytes of all 64 address rows.
#[tactic(auto, unfolding(laws::specs::Splice::part))]
pub fn rows(tables: &[u8; SIZE]) -> &[u8; rows::SIZE]
    ensures { result.now ≡ part tables.now rows_start rows_size }
{
    tables[ROWS..ROWS + rows::SIZE].try_into().unwrap()
}

/// The bytes of all 32 connectors.
#[tactic(auto, unfolding(laws::specs::Splice::part))]
pub fn connectors(tables: &[u8; SIZE]) -> &[u8; connectors::SIZE]
    ensures { result.now ≡ part tables.now connectors_start connectors_size }
{
    tables[CONNECTORS..CONNECTORS + connectors::SIZE]
        .try_into()
        .unwrap()
}
