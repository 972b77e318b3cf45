// No two of the rows share: the rule, and how it is tested.
ghost use Rattle.std.specs.Prelude.{◌≡◌, true, ◌+◌, ◌<◌, ◌≤◌, length};
ghost use Rattle.laws.specs.All.{all_to};
ghost use Rattle.wire.specs.Same.{same_bytes};
ghost use Rattle.rows.specs.Row.{row_of, rows_of, apart, fresh, rows_hold};
ghost use Rattle.rows.specs.Read.{rows_in};
ghost use Rattle.rows.specs.Seen.{folded, key, marked};

use crate::{ROW_SIZE, Row, SIZE, as_rows};

// Rows are compared where they stand: read as values first, all of each is loaded before its first
// test.

// Two rows have the same SAS address and LUN. The last byte of the address, which seldom is the same,
// is compared first.
#[tactic(auto, using(crate::proofs::ReadLaws::sas_pair_unlike), unfolding(crate::specs::Row::row_of))]
fn same_sas(row: &[u8; ROW_SIZE], other: &[u8; ROW_SIZE]) -> bool
    ensures { result ≡ same_bytes (row_of row.now 0).sas (row_of other.now 0).sas }
{
    row[7] == other[7] && wire::same16(row, 0, other, 0)
}

// Two rows have the same four OS bytes. The target is compared first.
#[tactic(auto, using(crate::proofs::ReadLaws::os_pair_unlike), unfolding(crate::specs::Row::row_of))]
fn same_os(row: &[u8; ROW_SIZE], other: &[u8; ROW_SIZE]) -> bool
    ensures { result ≡ same_bytes (row_of row.now 0).os (row_of other.now 0).os }
{
    row[18] == other[18] && wire::same4(row, 16, other, 16)
}

// The two share neither SAS address and LUN nor all four OS bytes.
#[tactic(auto, unfolding(crate::specs::Row::apart))]
fn are_apart(row: &[u8; ROW_SIZE], other: &[u8; ROW_SIZE]) -> bool
    ensures { result ≡ apart (row_of row.now 0) (row_of other.now 0) }
{
    !(same_sas(row, other) || same_os(row, other))
}

// Row i shares nothing with a row before it.
fn is_fresh(rows: &[[u8; ROW_SIZE]], i: usize) -> bool
    requires { i < length rows.now }
    ensures { result ≡ fresh (rows_in rows.now) i }
{
    let row = &rows[i];
    rows[..i].iter().all(|other| are_apart(other, row))
}

// A number below 1,024 into which every bit of another goes.
#[tactic(auto, unfolding(crate::specs::Seen::folded))]
fn fold(n: u64) -> usize
    requires { n < 17179869184 }
    ensures { (result ≡ folded n) × (result < 1024) }
{
    ((n + n / 1024 + n / 1048576 + n / 1073741824) % 1024) as usize
}

// The key of some bytes: few have the same.
#[tactic(auto, unfolding(crate::specs::Seen::key))]
fn key<const N: usize>(bytes: &[u8; N]) -> usize
    requires { N ≤ 16 }
    ensures value { result ≡ key bytes.now }
    ensures upper_bound { result < 1024 }
{
    let (words, _) = bytes.as_chunks();
    let mut sum = 0;
    for word in words {
        sum += u64::from(u32::from_le_bytes(*word));
    }
    fold(sum)
}

// Marks row i's keys, and tells whether it shares nothing with a row before it. Where none before it
// has one of its keys, there is nothing to compare.
fn look_at(seen: &mut [bool; 2048], rows: &[[u8; ROW_SIZE]], i: usize) -> bool
    requires i_bound { i < length rows.now }
    requires i_value { all_to (marked seen.old (rows_in rows.now)) i ≡ true }
    ensures value { result ≡ fresh (rows_in rows.now) i }
    ensures i_after { all_to (marked seen.new (rows_in rows.now)) (i + 1) ≡ true }
{
    let row = Row::from_bytes(&rows[i]);
    let sas = key(&row.sas);
    let os = 1024 + key(&row.os);
    let may_share = seen[sas] || seen[os];
    seen[sas] = true;
    seen[os] = true;
    !may_share || is_fresh(rows, i)
}

// A row is compared with those before it only where the table of the keys seen says that one of them
// may be the same.
#[tactic(auto, using(laws::specs::All::all_loop), unfolding(crate::specs::Row::rows_hold))]
fn hold_by(seen: &mut [bool; 2048], rows: &[[u8; ROW_SIZE]], a: usize) -> bool
    requires { a ≤ length rows.now }
    ensures { result ≡ rows_hold (rows_in rows.now) a }
{
    for i in 0..a {
        if !look_at(seen, rows, i) {
            return false;
        }
    }
    true
}

// The table is made in a function of its own: where its 2,048 marks stand among the loop's facts, no
// tactic reads them all.
fn many_hold(rows: &[[u8; ROW_SIZE]], a: usize) -> bool
    requires { a ≤ length rows.now }
    ensures { result ≡ rows_hold (rows_in rows.now) a }
{
    hold_by(&mut [false; 2048], rows, a)
}

/// No two of the first a rows share SAS address and LUN, and no two share all four OS bytes. Where
/// there are no rows, no table is made.
#[tactic(auto, using(crate::proofs::SeenLaws::none_hold))]
pub fn rows_hold(rows: &[u8; SIZE], a: usize) -> bool
    requires { a ≤ 64 }
    ensures { result ≡ rows_hold (rows_of rows.now) a }
{
    a == 0 || many_hold(as_rows(rows), a)
}
