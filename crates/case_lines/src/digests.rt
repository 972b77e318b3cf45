// Numbers that stand for every byte of a slice and of a state, its place and its value.
ghost use Rattle.std.specs.Prelude.{◌≡◌, length};
ghost use Rattle.case_lines.specs.Digest.{mix, steps, digest_of, counters_digest, phy_digest, phy_step, state_digest};

use crate::{PHY_SIZE, PHYS, ROWS};

#[tactic(auto, unfolding(crate::specs::Digest::mix))]
fn mixed(d: u64, n: u32) -> u64
    ensures { result ≡ mix d n }
{
    (d % 4294967311 * 257 + u64::from(n)) % 4294967311
}

/// The bytes of `s` after what came before.
#[tactic(auto, using(crate::proofs::DigestLaws::steps_loop))]
pub fn digest(before: u64, s: &[u8]) -> u64
    ensures { result ≡ digest_of before s.now }
{
    let mut d = before;
    for b in s {
        d = mixed(d, u32::from(*b));
    }
    d
}

// The four counters of a phy, each a number.
#[tactic(auto, unfolding(crate::specs::Digest::counters_digest))]
fn mixed_counters(d: u64, phy: &[u8; PHY_SIZE]) -> u64
    ensures { result ≡ counters_digest d phy.now }
{
    let two = mixed(mixed(d, wire::read32(phy, 64)), wire::read32(phy, 68));
    mixed(mixed(two, wire::read32(phy, 72)), wire::read32(phy, 76))
}

// A phy, its counters behind its other bytes.
#[tactic(auto, unfolding(laws::specs::Splice::part, crate::specs::Digest::phy_digest))]
fn mixed_phy(before: u64, phy: &[u8; PHY_SIZE]) -> u64
    ensures { result ≡ phy_digest before phy.now }
{
    mixed_counters(digest(digest(before, &phy[0..64]), &phy[80..105]), phy)
}

#[tactic(auto, using(crate::proofs::DigestLaws::phys_loop))]
fn mixed_phys(before: u64, phys: &[u8]) -> u64
    requires { length phys.now ≡ 3360 }
    ensures { result ≡ steps (phy_step phys.now) before 32 }
{
    let mut d = before;
    let (each, _) = phys.as_chunks::<PHY_SIZE>();
    for phy in each {
        d = mixed_phy(d, phy);
    }
    d
}

/// The level, the counts and the driver info, the phys, and what stands behind them: rows, configuration, status, connectors and what is staged.
#[tactic(auto, using(crate::proofs::DigestLaws::state_by), unfolding(laws::specs::Splice::part))]
pub fn state_digest(state: &[u8; state::SIZE]) -> u64
    ensures { result ≡ state_digest state.now }
{
    let before = mixed_phys(digest(1, &state[0..PHYS]), &state[PHYS..ROWS]);
    digest(before, &state[ROWS..ROWS + 2653])
}
