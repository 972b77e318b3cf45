//! The address rows of an adapter: which SAS address and LUN stands for which host index, path,
//! target and LUN (document 01, "Adapter file", and codes 27 and 28). They are bytes that the caller
//! lends, 20 for each of 64 rows.
#![tactic(auto)]

mod hold;

ghost use Rattle.std.specs.Prelude.{◌≡◌, ◌≤◌, length};
ghost use Rattle.wire.specs.Same.{same_bytes};
ghost use Rattle.rows.specs.Row.{row_of, rows_of, zero_from};
ghost use Rattle.rows.specs.Read.{row_held, rows_in};

pub use hold::rows_hold;

/// How many bytes all 64 rows have.
pub const SIZE: usize = 1280;

/// How many bytes a row has.
pub const ROW_SIZE: usize = 20;

/// Which SAS address and LUN stands for which host index, path, target and LUN.
#[derive(Clone, Copy, Debug, PartialEq, Eq)]
pub struct Row {
    /// The SAS address, and behind it the SAS LUN.
    pub sas: [u8; 16],
    /// The OS bytes: host index, path, target and LUN.
    pub os: [u8; 4],
}

impl Row {
    /// The row that stands in 20 bytes.
    #[tactic(auto, unfolding(crate::specs::Row::row_of, laws::specs::Splice::part))]
    pub fn from_bytes(bytes: &[u8; ROW_SIZE]) -> Row
        ensures { row_held result ≡ row_of bytes.now 0 }
    {
        Row {
            sas: bytes[0..16].try_into().unwrap(),
            os: bytes[16..20].try_into().unwrap(),
        }
    }

    /// Whether the row has this SAS address and LUN. The last byte of the address, which seldom is
    /// the same, is compared first.
    #[tactic(auto, using(crate::proofs::EqualLaws::same_parts, crate::proofs::EqualLaws::byte_differs))]
    pub fn has_sas(&self, sas: &[u8; 16]) -> bool
        ensures { result ≡ same_bytes self.now.sas sas.now }
    {
        self.sas[7] == sas[7] && wire::same16(&self.sas, 0, sas, 0)
    }

    /// Whether the row has these four OS bytes. The target is compared first.
    #[tactic(auto, using(crate::proofs::EqualLaws::same_parts, crate::proofs::EqualLaws::byte_differs))]
    pub fn has_os(&self, os: &[u8; 4]) -> bool
        ensures { result ≡ same_bytes self.now.os os.now }
    {
        self.os[2] == os[2] && wire::same4(&self.os, 0, os, 0)
    }
}

/// The rows, 20 bytes each.
pub fn as_rows(rows: &[u8; SIZE]) -> &[[u8; ROW_SIZE]]
    ensures rows { rows_in result.now ≡ rows_of rows.now }
    ensures len { length result.now ≡ 64 }
{
    rows.as_chunks().0
}

/// The rows from a on are zero: one test of their bytes.
#[tactic(auto, using(crate::proofs::ReadLaws::rows_past))]
pub fn zero_from(rows: &[u8; SIZE], a: usize) -> bool
    requires { a ≤ 64 }
    ensures { result ≡ zero_from (rows_of rows.now) a }
{
    wire::zero_at(rows, ROW_SIZE * a, ROW_SIZE * (64 - a))
}
