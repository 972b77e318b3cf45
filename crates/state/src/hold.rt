//! The rules of a state, and the size of its medium.
ghost use Rattle.std.specs.Prelude.{◌≡◌};
ghost use Rattle.rows.specs.Row.{rows_hold};
ghost use Rattle.adapter.specs.Adapter.{FewPhys, FewRows, medium_size};
ghost use Rattle.tables.specs.Tables.{tables_of};
ghost use Rattle.state.specs.State.{state_of, tables_hold, adapter_holds, state_holds};

use crate::SIZE;

/// The bytes of all the disks.
pub fn disks_size(tables: &[u8; tables::SIZE]) -> usize
    ensures { result ≡ medium_size (tables_of tables.now) }
{
    8192 * usize::from(tables::phy_count(tables))
}

/// The tables of a state, which stand behind its level.
#[tactic(auto, using(crate::proofs::Laws::tables_behind), unfolding(laws::specs::Splice::part))]
fn tables_in(state: &[u8; SIZE]) -> &[u8; tables::SIZE]
    ensures { tables_of result.now ≡ (state_of state.now).adapter }
{
    state[1..SIZE].try_into().unwrap()
}

/// The bytes of all the disks of a state.
pub fn medium_size(state: &[u8; SIZE]) -> usize
    ensures { result ≡ medium_size (state_of state.now).adapter }
{
    disks_size(tables_in(state))
}

/// No two rows share.
#[tactic(auto, using(tables::proofs::Laws::rows_in))]
pub fn rows_apart(tables: &[u8; tables::SIZE]) -> bool
    requires { FewRows (tables_of tables.now) }
    ensures { result ≡ rows_hold (tables_of tables.now).rows (tables_of tables.now).row_count }
{
    let a = usize::from(tables::row_count(tables));
    rows::rows_hold(tables::rows(tables), a)
}

#[tactic(auto, unfolding(crate::specs::State::tables_hold))]
fn tables_hold(tables: &[u8; tables::SIZE]) -> bool
    requires { FewPhys (tables_of tables.now) × FewRows (tables_of tables.now) }
    ensures { result ≡ tables_hold (tables_of tables.now) }
{
    rules::all_fields_hold(tables)
        && negotiated::all_negotiated(tables)
        && rows_apart(tables)
        && rules::zero_past(tables)
        && staged::staged_holds(tables)
}

#[tactic(auto, using(adapter::proofs::StoreLaws::phys_bound, adapter::proofs::StoreLaws::rows_bound), unfolding(crate::specs::State::adapter_holds))]
fn adapter_holds(tables: &[u8; tables::SIZE]) -> bool
    ensures { result ≡ adapter_holds (tables_of tables.now) }
{
    adapter::counts_hold(tables::phy_count(tables), tables::row_count(tables))
        && tables_hold(tables)
}

/// The state is one that a request may be given.
#[tactic(auto, unfolding(crate::specs::State::state_holds, crate::specs::State::state_of))]
pub fn state_holds(state: &[u8; SIZE]) -> bool
    ensures { result ≡ state_holds (state_of state.now) }
{
    state[0] <= 3 && adapter_holds(tables_in(state))
}
