//! The opening's file part, its checks in document 01's order up to the fields. A refused opening leaves the tables zero.
ghost use Rattle.std.specs.Prelude.{◌≡◌, ℕ, length, IfOk, OnOk};
ghost use Rattle.codes.specs.Numbers.{call_of};
ghost use Rattle.layout.specs.Layout.{phy_count, row_count, file_length};
ghost use Rattle.adapter.specs.Adapter.{zero_adapter};
ghost use Rattle.tables.specs.Tables.{tables_of};
ghost use Rattle.contents.specs.Contents.{adapter_of};
ghost use Rattle.file.specs.File.{reads, file_read};
ghost use Rattle.file.specs.Steps.{call_then, sized_then, fields_number, file_number, file_adapter};

use codes::CallError;
use layout::{Counts, SizedFile};

/// The counts of a file that passes the checks before the fields, or the first of these that it fails.
#[tactic(auto, using(adapter::proofs::StoreLaws::phys_bound, adapter::proofs::StoreLaws::rows_bound, laws::specs::Choice::picks), unfolding(crate::specs::Steps::sized_then))]
fn counts_of(file: &[u8]) -> Result<Counts, CallError>
    ensures number { (next : ℕ) → call_then result next ≡ sized_then file.now next }
    ensures counts { IfOk result (λ counts. (counts.phys ≡ phy_count file.now) × (counts.rows ≡ row_count file.now)) }
    ensures sized { IfOk result (λ counts. length file.now ≡ file_length counts.phys counts.rows) }
{
    if file.len() < 512 {
        return Err(CallError::BadFileLength);
    }
    if !block::sound_at(file, 0) {
        return Err(CallError::BlockCheck);
    }
    if !adapter::counts_hold(file[0], file[1]) {
        return Err(CallError::BadField);
    }
    let counts = Counts {
        phys: file[0],
        rows: file[1],
    };
    if counts.file_length() != file.len() {
        return Err(CallError::BadFileLength);
    }
    if !block::all_sound(file, counts.block_count()) {
        return Err(CallError::BlockCheck);
    }
    Ok(counts)
}

/// What a sized file holds, left in the tables; the unnamed bytes and the fields are checked.
#[tactic(auto, using(crate::proofs::Laws::count_read, laws::specs::Choice::picks), unfolding(crate::specs::Steps::fields_number))]
fn read_sized(tables: &mut [u8; tables::SIZE], file: &SizedFile<'_>) -> Result<(), CallError>
    ensures number { call_of result ≡ fields_number file.now.bytes.now file.now.counts.phys file.now.counts.rows }
    ensures tables { tables_of tables.new ≡ adapter_of file.now.bytes.now file.now.counts.phys file.now.counts.rows }
{
    contents::parse(tables, file);
    if unnamed::unnamed_zero(file) && rules::all_fields_hold(tables) {
        Ok(())
    } else {
        Err(CallError::BadField)
    }
}

/// Every check, in order; a file that fails one leaves anything in the tables.
fn read_checked(tables: &mut [u8; tables::SIZE], file: &[u8]) -> Result<(), CallError>
    ensures number { call_of result ≡ file_number file.now }
    ensures tables { OnOk result (tables_of tables.new ≡ file_adapter file.now) }
{
    let counts = counts_of(file)?;
    read_sized(
        tables,
        &SizedFile {
            bytes: file,
            counts,
        },
    )
}

#[tactic(auto, using(crate::proofs::Laws::cleared))]
fn clear(tables: &mut [u8; tables::SIZE])
    ensures { tables_of tables.new ≡ zero_adapter }
{
    tables.fill(0);
}

/// What a file holds, left in the tables; or the first check that it fails, with the tables zero.
#[tactic(auto, using(crate::proofs::StepsLaws::file_passed, crate::proofs::StepsLaws::file_refused))]
pub fn read_file(tables: &mut [u8; tables::SIZE], file: &[u8]) -> Result<(), CallError>
    ensures { reads (call_of result) (tables_of tables.new) ≡ file_read file.now }
{
    match read_checked(tables, file) {
        Ok(()) => Ok(()),
        Err(error) => {
            clear(tables);
            Err(error)
        }
    }
}
