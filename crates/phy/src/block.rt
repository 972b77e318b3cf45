//! The phy that a block of the adapter file holds, and the state: the first 105 bytes of either.
ghost use Rattle.std.specs.Prelude.{◌≡◌, ◌≤◌, length};
ghost use Rattle.phy.specs.Block.{phy_size, phy_of};

use crate::Phy;
use wire::read32;

impl Phy {
    /// The phy of its bytes (document 01, "Adapter file"): 0 to 63 a PHY_ENTITY, 64 to 79 the
    /// counters, 80 to 99 the signature FIS, then a byte each. Bytes from 105 on are not read.
    #[tactic(auto, unfolding(crate::specs::Block::phy_of, crate::specs::Block::counters_at, laws::specs::Splice::part))]
    pub fn from_block(block: &[u8]) -> Phy
        requires { phy_size ≤ length block.now }
        ensures { result ≡ phy_of block.now }
    {
        Phy {
            entity: block[0..64].try_into().unwrap(),
            counters: [
                read32(block, 64),
                read32(block, 68),
                read32(block, 72),
                read32(block, 76),
            ],
            signature: block[80..100].try_into().unwrap(),
            held: block[100],
            fixed: block[101],
            lowest: block[102],
            highest: block[103],
            spinup_hold: block[104],
        }
    }
}
