//! The row for a SAS address and LUN, and the row for four OS bytes: what codes 27 and 28 look up, and
//! what they answer (document 01, "Adapter file", and codes 27 and 28).
#![tactic(auto)]

ghost use Rattle.std.specs.Prelude.{◌≡◌, ◌+◌, ◌<◌, ◌≤◌, length};
ghost use Rattle.laws.specs.Splice.{splice};
ghost use Rattle.wire.specs.Same.{same_bytes};
ghost use Rattle.rows.specs.Row.{row_of, rows_of, row_at, sas_index, os_index};
ghost use Rattle.rows.specs.Read.{row_held};
ghost use Rattle.conversions.specs.Found.{found};

use rows::{ROW_SIZE, Row, as_rows};

// A row of 20 bytes has this SAS address and LUN, told where it stands. The last byte of the address,
// which seldom is the same, is compared first.
#[tactic(auto, using(crate::proofs::FindLaws::sas_told, crate::proofs::FindLaws::sas_unlike))]
fn has_sas(row: &[u8; ROW_SIZE], sas: &[u8; 16]) -> bool
    ensures { result ≡ same_bytes (row_of row.now 0).sas sas.now }
{
    row[7] == sas[7] && wire::same16(row, 0, sas, 0)
}

// It has these four OS bytes. The target is compared first.
#[tactic(auto, using(crate::proofs::FindLaws::os_told, crate::proofs::FindLaws::os_unlike))]
fn has_os(row: &[u8; ROW_SIZE], os: &[u8; 4]) -> bool
    ensures { result ≡ same_bytes (row_of row.now 0).os os.now }
{
    row[18] == os[2] && wire::same4(row, 16, os, 0)
}

// The two differ in the test alone, which std's `position` takes: a function over that test, with a
// contract over any closure, is no plainer.

/// The index of the first of `a` rows that has this SAS address and LUN.
pub fn find_sas(rows: &[u8; rows::SIZE], a: usize, sas: &[u8; 16]) -> Option<usize>
    requires { a ≤ 64 }
    ensures { result ≡ found a (sas_index (rows_of rows.now) a sas.now) }
{
    as_rows(rows)
        .iter()
        .take(a)
        .position(|row| has_sas(row, sas))
}

/// The index of the first of `a` rows that has these four OS bytes.
pub fn find_os(rows: &[u8; rows::SIZE], a: usize, os: &[u8; 4]) -> Option<usize>
    requires { a ≤ 64 }
    ensures { result ≡ found a (os_index (rows_of rows.now) a os.now) }
{
    as_rows(rows).iter().take(a).position(|row| has_os(row, os))
}

// Row i.
fn row(rows: &[u8; rows::SIZE], i: usize) -> Row
    requires { i < 64 }
    ensures { row_held result ≡ row_at (rows_of rows.now) i }
{
    Row::from_bytes(&as_rows(rows)[i])
}

/// Row i's SAS address and LUN, put at an index.
#[tactic(auto, using(crate::proofs::FindLaws::sas_put))]
pub fn put_sas(rows: &[u8; rows::SIZE], i: usize, d: &mut [u8], at: usize)
    requires i_bound { i < 64 }
    requires at_in_bounds { at + 16 ≤ length d.old }
    ensures { d.new ≡ splice d.old at (row_at (rows_of rows.now) i).sas }
{
    wire::copy_at(d, at, &row(rows, i).sas);
}

/// Row i's four OS bytes, put at an index.
#[tactic(auto, using(crate::proofs::FindLaws::os_put))]
pub fn put_os(rows: &[u8; rows::SIZE], i: usize, d: &mut [u8], at: usize)
    requires i_bound { i < 64 }
    requires at_in_bounds { at + 4 ≤ length d.old }
    ensures { d.new ≡ splice d.old at (row_at (rows_of rows.now) i).os }
{
    wire::copy_at(d, at, &row(rows, i).os);
}
