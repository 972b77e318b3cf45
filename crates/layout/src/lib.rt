//! Where things stand in an adapter file (document 01, "Adapter file").
#![tactic(auto)]

ghost use Rattle.std.specs.Prelude.{◌≡◌, ◌≤◌, ◌<◌, length};
ghost use Rattle.layout.specs.Layout.{phy_place, row_blocks, row_block_place, row_place, controller_block, controller_place, connector_place, blocks, file_length};

/// The counts p and a that block 0 gives: how many phys and how many rows a file has.
#[derive(Clone, Copy, Debug, PartialEq, Eq, Hash)]
pub struct Counts {
    pub phys: u8,
    pub rows: u8,
    ghost few: { (phys ≤ 32) × (rows ≤ 64) },
}

impl Counts {
    /// How many blocks the rows take, 25 to a block.
    pub fn row_blocks(self) -> usize
        ensures { result ≡ row_blocks self.rows }
    {
        row_blocks(usize::from(self.rows))
    }

    /// Where block b of the rows starts, counting from 0.
    pub fn row_block_place(self, b: usize) -> usize
        requires { b < 3 }
        ensures { result ≡ row_block_place self.phys b }
    {
        row_block_place(usize::from(self.phys), b)
    }

    /// Where row i stands.
    pub fn row_place(self, i: usize) -> usize
        requires { i < 64 }
        ensures { result ≡ row_place self.phys i }
    {
        row_place(usize::from(self.phys), i)
    }

    /// Which block holds the controller's configuration and status.
    fn controller_block(self) -> usize
        ensures { result ≡ controller_block self.phys self.rows }
    {
        1 + usize::from(self.phys) + self.row_blocks()
    }

    /// Where it starts.
    pub fn controller_place(self) -> usize
        ensures { result ≡ controller_place self.phys self.rows }
    {
        512 * self.controller_block()
    }

    /// Where the block of phy n's connector starts.
    pub fn connector_place(self, n: usize) -> usize
        requires { n < 32 }
        ensures { result ≡ connector_place self.phys self.rows n }
    {
        512 * (self.controller_block() + 1 + n)
    }

    /// How many blocks a file with these counts has.
    pub fn block_count(self) -> usize
        ensures { result ≡ blocks self.phys self.rows }
    {
        self.controller_block() + 1 + usize::from(self.phys)
    }

    /// How many bytes it has.
    pub fn file_length(self) -> usize
        ensures { result ≡ file_length self.phys self.rows }
    {
        512 * self.block_count()
    }
}

/// A file of the length that its counts give.
#[derive(Clone, Copy, Debug)]
pub struct SizedFile<'a> {
    pub bytes: &'a [u8],
    pub counts: Counts,
    ghost sized: { length bytes.now ≡ file_length counts.phys counts.rows },
}

/// Where phy n's block starts.
pub fn phy_place(n: usize) -> usize
    requires { n < 32 }
    ensures { result ≡ phy_place n }
{
    512 * (1 + n)
}

/// How many blocks `a` rows take, 25 to a block.
pub fn row_blocks(a: usize) -> usize
    requires { a ≤ 64 }
    ensures { result ≡ row_blocks a }
{
    a.div_ceil(25)
}

/// Where block b of the rows starts, counting from 0, in a file with p phys.
pub fn row_block_place(p: usize, b: usize) -> usize
    requires { (p ≤ 32) × (b < 3) }
    ensures { result ≡ row_block_place p b }
{
    512 * (1 + p + b)
}

/// Where row i stands, in a file with p phys.
pub fn row_place(p: usize, i: usize) -> usize
    requires { (p ≤ 32) × (i < 64) }
    ensures { result ≡ row_place p i }
{
    row_block_place(p, i / 25) + 20 * (i % 25)
}
