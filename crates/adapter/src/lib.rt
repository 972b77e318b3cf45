//! The rule on an adapter's two counts (document 01, "Adapter file"). What an adapter holds, and
//! its other rules, stand in specs/: the code has the tables as lent bytes, in crate `tables`.
#![tactic(auto)]

ghost use Rattle.std.specs.Prelude.{◌≡◌};
ghost use Rattle.adapter.specs.Adapter.{counts_hold};

/// There are 1 to 32 phys and at most 64 rows.
#[tactic(auto, unfolding(crate::specs::Adapter::counts_hold))]
pub fn counts_hold(p: u8, a: u8) -> bool
    ensures { result ≡ counts_hold p a }
{
    1 <= p && p <= 32 && a <= 64
}
