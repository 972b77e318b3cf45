//! One phy of the tables, read and stored.
ghost use Rattle.std.specs.Prelude.{◌≡◌, ◌+◌, ◌<◌, ◌≤◌, ltb, length, OnSome};
ghost use Rattle.laws.specs.Splice.{splice};
ghost use Rattle.phy.specs.Block.{phy_size};
ghost use Rattle.phy.specs.Entity.{port_of};
ghost use Rattle.adapter.specs.Adapter.{FewPhys, phy_in, with_phy};
ghost use Rattle.tables.specs.PhyBytes.{counter_bytes, phy_bytes};
ghost use Rattle.tables.specs.Tables.{phy_start, existing_phy, tables_of};

use crate::{PHYS, SIZE};
use phy::{PORT, Phy, PhyIdentifier, PortIdentifier};

// Where a phy's bytes start.
fn phy_start(n: PhyIdentifier) -> usize
    ensures { result ≡ phy_start n.0 }
{
    PHYS + phy::SIZE * usize::from(n.0)
}

/// There is a phy with that number.
#[tactic(auto, unfolding(crate::specs::Tables::tables_of))]
pub fn phy_exists(tables: &[u8; SIZE], n: PhyIdentifier) -> bool
    ensures { result ≡ ltb n.0 (tables_of tables.now).phy_count }
{
    n.0 < tables[0]
}

/// The phy with that number, if there is one.
pub fn phy(tables: &[u8; SIZE], n: PhyIdentifier) -> Option<Phy>
    requires { FewPhys (tables_of tables.now) }
    ensures phy { result ≡ existing_phy (tables_of tables.now) n.0 }
    ensures below { OnSome result (n.0 < 32) }
{
    if phy_exists(tables, n) {
        Some(phy_at(tables, n))
    } else {
        None
    }
}

/// The phy with that identifier.
#[tactic(auto, using(crate::proofs::Laws::phy_lent))]
pub fn phy_at(tables: &[u8; SIZE], n: PhyIdentifier) -> Phy
    requires { n.0 < 32 }
    ensures { result ≡ phy_in (tables_of tables.now) n.0 }
{
    let from = phy_start(n);
    Phy::from_block(&tables[from..from + phy::SIZE])
}

/// Its port: one byte.
#[tactic(auto, using(crate::proofs::Laws::port_read))]
pub fn port_at(tables: &[u8; SIZE], n: PhyIdentifier) -> PortIdentifier
    requires { n.0 < 32 }
    ensures { result ≡ port_of (phy_in (tables_of tables.now) n.0) }
{
    let from = phy_start(n);
    PortIdentifier(tables[from + PORT])
}

/// Its PHY_ENTITY, put at an index.
#[tactic(auto, using(crate::proofs::Laws::entity_put, crate::proofs::Laws::tables_entity))]
pub fn put_entity(tables: &[u8; SIZE], n: PhyIdentifier, d: &mut [u8], at: usize)
    requires n_bound { n.0 < 32 }
    requires at_in_bounds { at + 64 ≤ length d.old }
    ensures d_after { d.new ≡ splice d.old at (phy_in (tables_of tables.now) n.0).entity }
    ensures n_len { length (phy_in (tables_of tables.now) n.0).entity ≡ 64 }
{
    wire::copy_part(d, at, tables, phy_start(n), 64);
}

// The four counters, one behind the other.
#[tactic(auto, using(crate::proofs::StoredLaws::counters_stored))]
fn write_counters(place: &mut [u8], counters: [u32; 4])
    requires { length place.old ≡ 16 }
    ensures { place.new ≡ counter_bytes counters }
{
    wire::write32(place, 0, counters[0]);
    wire::write32(place, 4, counters[1]);
    wire::write32(place, 8, counters[2]);
    wire::write32(place, 12, counters[3]);
}

// Writes a phy's bytes over those of another.
#[tactic(auto, unfolding(crate::specs::PhyBytes::phy_bytes))]
fn write_phy(block: &mut [u8], phy: Phy)
    requires { length block.old ≡ phy_size }
    ensures { block.new ≡ phy_bytes phy }
{
    let (entity, rest) = block.split_at_mut(64);
    let (counters, rest) = rest.split_at_mut(16);
    let (signature, last) = rest.split_at_mut(20);
    entity.copy_from_slice(&phy.entity);
    write_counters(counters, phy.counters);
    signature.copy_from_slice(&phy.signature);
    last.copy_from_slice(&[
        phy.held,
        phy.fixed,
        phy.lowest,
        phy.highest,
        phy.spinup_hold,
    ]);
}

/// Stores a phy in the place of the one with that identifier.
#[tactic(auto, using(crate::proofs::StoredLaws::phy_put))]
pub fn store_phy(tables: &mut [u8; SIZE], n: PhyIdentifier, phy: Phy)
    requires { n.0 < 32 }
    ensures { tables_of tables.new ≡ with_phy (tables_of tables.old) n.0 phy }
{
    let from = phy_start(n);
    write_phy(&mut tables[from..from + phy::SIZE], phy)
}
