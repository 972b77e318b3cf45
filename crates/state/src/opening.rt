//! The call that opens an adapter.
ghost use Rattle.std.specs.Prelude.{◌≡◌, length, OnOk, IfErr};
ghost use Rattle.codes.specs.Numbers.{error_number, call_of};
ghost use Rattle.adapter.specs.Adapter.{FewPhys, FewRows};
ghost use Rattle.tables.specs.Tables.{tables_of};
ghost use Rattle.level.specs.Text.{text_level};
ghost use Rattle.file.specs.File.{file_read};
ghost use Rattle.state.specs.State.{state_with, state_size, state_of, zero_state};
ghost use Rattle.state.specs.Open.{opens, refused_opening, tables_number, open_number, opened_text, OpenCall};

use crate::SIZE;
use crate::hold::{disks_size, rows_apart};
use codes::CallError;
use level::Level;

/// The negotiated rates, the rows and the medium's length.
#[tactic(auto, using(laws::specs::Choice::picks), unfolding(crate::specs::Open::tables_number))]
fn check_tables(tables: &[u8; tables::SIZE], size: usize) -> Result<(), CallError>
    requires { FewPhys (tables_of tables.now) × FewRows (tables_of tables.now) }
    ensures { call_of result ≡ tables_number (tables_of tables.now) size }
{
    if !negotiated::all_negotiated(tables) {
        return Err(CallError::BadField);
    }
    if !rows_apart(tables) {
        return Err(CallError::SharedRow);
    }
    if disks_size(tables) != size {
        return Err(CallError::BadMediumLength);
    }
    Ok(())
}

/// What the file holds, in the tables, and every check of it.
#[tactic(auto, using(crate::proofs::Laws::load_judged, crate::proofs::Laws::tables_read))]
fn load(tables: &mut [u8; tables::SIZE], file: &[u8], size: usize) -> Result<(), CallError>
    ensures number { call_of result ≡ open_number (file_read file.now) size }
    ensures tables { tables_of tables.new ≡ (file_read file.now).adapter }
{
    file::read_file(tables, file)?;
    check_tables(tables, size)
}

/// The same in the tables of a state, which stand behind its level.
#[tactic(auto, using(crate::proofs::Laws::loaded))]
fn load_state(state: &mut [u8; SIZE], file: &[u8], size: usize) -> Result<(), CallError>
    ensures number { call_of result ≡ open_number (file_read file.now) size }
    ensures adapter { (state_of state.new).adapter ≡ (file_read file.now).adapter }
{
    let (_, tables) = state.split_at_mut(1);
    let Some(tables) = tables.first_chunk_mut::<{ tables::SIZE }>() else {
        unreachable!();
    };
    load(tables, file, size)
}

#[tactic(auto, using(crate::proofs::Laws::level_set))]
fn set_level(state: &mut [u8; SIZE], level: Level)
    ensures { state_of state.new ≡ state_with level (state_of state.old).adapter }
{
    state[0] = level.0;
}

/// The checks in their order; one that fails leaves anything in the state.
#[tactic(auto, using(crate::proofs::Laws::text_refused))]
fn open_checked(
    text: &[u8],
    file: &[u8],
    size: usize,
    state: &mut [u8; SIZE],
) -> Result<(), CallError>
    ensures ok { OnOk result (opens 0 (state_of state.new) ≡ opened_text (text_level text.now) file.now size) }
    ensures err { IfErr result (λ error. refused_opening (error_number error) ≡ opened_text (text_level text.now) file.now size) }
{
    let level = level_text::of_text(text)?;
    load_state(state, file, size)?;
    set_level(state, level);
    Ok(())
}

#[tactic(auto, using(crate::proofs::Laws::cleared_state))]
fn clear(state: &mut [u8; SIZE])
    ensures { state_of state.new ≡ zero_state }
{
    state.fill(0);
}

/// A refused opening leaves the zero state.
fn open_state(
    text: &[u8],
    file: &[u8],
    size: usize,
    state: &mut [u8; SIZE],
) -> Result<(), CallError>
    ensures opens { opens (call_of result) (state_of state.new) ≡ opened_text (text_level text.now) file.now size }
    ensures state_len { length state.new ≡ state_size }
{
    match open_checked(text, file, size, state) {
        Ok(()) => Ok(()),
        Err(error) => {
            clear(state);
            Err(error)
        }
    }
}

/// Opens the adapter of a file, at the level of a text, with the disks of a medium, and leaves its state. A refused opening leaves the zero
/// state; a state of another length is not touched.
#[tactic(auto, using(crate::proofs::Laws::open_other))]
pub fn open(text: &[u8], file: &[u8], medium: &[u8], state: &mut [u8]) -> Result<(), CallError>
    ensures { OpenCall text.now file.now medium.now state.old (call_of result) state.new }
{
    if state.len() != SIZE {
        return Err(CallError::BadState);
    }
    let Some(state) = state.first_chunk_mut::<SIZE>() else {
        unreachable!();
    };
    open_state(text, file, medium.len(), state)
}
