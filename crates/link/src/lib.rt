//! The rate that a phy and the device attached to it agree on, a link reset, and a phy that is
//! disabled (document 01, "Link rule"; W-205).
#![tactic(auto)]

ghost use Rattle.std.specs.Prelude.{◌≡◌};
ghost use Rattle.phy.specs.Entity.{programmed_minimum, programmed_maximum};
ghost use Rattle.link.specs.Rule.{in_both, plain_rule, waiting_rate, rule_of, reset, disabled, negotiated_holds};

use phy::Phy;

// A rate inside both the programmed and the device range.
#[tactic(auto, unfolding(crate::specs::Rule::in_both))]
fn in_both(phy: Phy, rate: u8) -> bool
    ensures { result ≡ in_both rate (programmed_minimum phy) (programmed_maximum phy) phy.lowest phy.highest }
{
    (phy.programmed_minimum()..=phy.programmed_maximum()).contains(&rate)
        && (phy.lowest..=phy.highest).contains(&rate)
}

// The rate of a phy that is not held at spin-up.
#[tactic(auto, using(laws::specs::Choice::picks), unfolding(crate::specs::Rule::plain_rule, crate::specs::Rule::rates_rule))]
fn plain_rule(phy: Phy) -> u8
    ensures { result ≡ plain_rule phy }
{
    if phy.no_device() {
        return 0;
    }
    if in_both(phy, codes::LINK_RATE_3_0) {
        return codes::LINK_RATE_3_0;
    }
    if in_both(phy, codes::LINK_RATE_1_5) {
        return codes::LINK_RATE_1_5;
    }
    codes::LINK_RATE_FAILED
}

// A device that waits for its spin-up has no rate yet.
#[tactic(auto, using(laws::specs::Choice::picks), unfolding(crate::specs::Rule::waiting_rate))]
fn waiting_rate(rate: u8) -> u8
    ensures { result ≡ waiting_rate rate }
{
    if rates::is_rate(rate) {
        return codes::SATA_SPINUP_HOLD;
    }
    rate
}

/// The rate that a link reset gives.
// Each branch has a call of its own: the rate of a phy that is not held at spin-up, as most are, is
// then not tested for being one. A request asks the rule of each phy.
#[tactic(auto, unfolding(crate::specs::Rule::rule_of))]
pub fn rule(phy: Phy) -> u8
    ensures { result ≡ rule_of phy }
{
    if phy.spinup_hold == 1 {
        return waiting_rate(plain_rule(phy));
    }
    plain_rule(phy)
}

/// The phy after a link reset. A link that failed is counted.
#[tactic(auto, unfolding(crate::specs::Rule::reset, crate::specs::Rule::counted))]
pub fn reset(phy: Phy) -> Phy
    ensures { result ≡ reset phy }
{
    let rate = rule(phy);
    let linked = phy.with_negotiated(rate);
    if rate == codes::LINK_RATE_FAILED {
        return linked.raised();
    }
    linked
}

/// The phy disabled.
#[tactic(auto, unfolding(crate::specs::Rule::disabled))]
pub fn disabled(phy: Phy) -> Phy
    ensures { result ≡ disabled phy }
{
    phy.with_negotiated(codes::PHY_DISABLED)
}

/// The field rule of the negotiated rate.
#[tactic(auto, unfolding(crate::specs::Rule::negotiated_holds))]
pub fn negotiated_holds(phy: Phy) -> bool
    ensures { result ≡ negotiated_holds phy }
{
    let negotiated = phy.negotiated();
    negotiated == codes::PHY_DISABLED || negotiated == rule(phy)
}
