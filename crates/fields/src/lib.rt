//! The field rules of one phy (document 01, "Adapter file", "Field rules"; W-205). The rule of the
//! negotiated rate rests on the link rule and is not here.
#![tactic(auto)]

ghost use Rattle.std.specs.Prelude.{◌≡◌, ◌&&◌, leb};
ghost use Rattle.wire.specs.Same.{all_zero};
ghost use Rattle.fields.specs.Rules.{is_rate, identify_holds, rates_hold, empty_holds, device_holds, attached_hold, held_signature_holds, spinup_allowed, fields_hold};

use phy::{ATTACHED, CLASS, IDENTIFIER, MAXIMUM, MINIMUM, Phy, PhyIdentifier};

#[tactic(auto, unfolding(crate::specs::Rules::identify_holds, phy::specs::Entity::identifier_of, phy::specs::Entity::class_of, phy::specs::Entity::port_of))]
fn identify_holds(phy: Phy, n: PhyIdentifier, p: u8) -> bool
    ensures { result ≡ identify_holds phy n p }
{
    phy.entity[IDENTIFIER] == n.0 && phy.entity[CLASS] <= 3 && phy.port().0 < p
}

// Numbers that rise from 8 to 9 are rate codes, so only their order is tested. It is `&`, here and
// for the device's rates: one equation and no branch; with `&&` the proof of each branch stays open.
#[tactic(auto, using(crate::proofs::RulesLaws::rates_in_order), unfolding(crate::specs::Rules::rates_hold, crate::specs::Rules::range_holds, phy::specs::Entity::hardware_minimum, phy::specs::Entity::hardware_maximum, phy::specs::Entity::programmed_minimum, phy::specs::Entity::programmed_maximum))]
fn rates_hold(phy: Phy) -> bool
    ensures { result ≡ rates_hold phy }
{
    let minimum = phy.entity[MINIMUM];
    let maximum = phy.entity[MAXIMUM];
    (codes::LINK_RATE_1_5 <= minimum % 16)
        & (minimum % 16 <= minimum / 16)
        & (minimum / 16 <= maximum / 16)
        & (maximum / 16 <= maximum % 16)
        & (maximum % 16 <= codes::LINK_RATE_3_0)
}

#[tactic(auto, using(crate::proofs::RulesLaws::zero_all))]
fn signature_zero(phy: Phy) -> bool
    ensures { result ≡ all_zero phy.signature }
{
    wire::zero_at(&phy.signature, 0, 20)
}

#[tactic(auto, unfolding(crate::specs::Rules::empty_holds, phy::specs::Entity::attached_of))]
fn empty_holds(phy: Phy) -> bool
    ensures { result ≡ empty_holds phy }
{
    wire::zero_at(&phy.entity, ATTACHED, 28)
        && signature_zero(phy)
        && phy.held == 0
        && phy.lowest == 0
        && phy.highest == 0
}

// The device's rates: their order is enough, as above.
#[tactic(auto, using(crate::proofs::RulesLaws::device_in_order))]
fn device_rates_hold(phy: Phy) -> bool
    ensures { result ≡ (is_rate phy.lowest && is_rate phy.highest && leb phy.lowest phy.highest) }
{
    (codes::LINK_RATE_1_5 <= phy.lowest)
        & (phy.lowest <= phy.highest)
        & (phy.highest <= codes::LINK_RATE_3_0)
}

#[tactic(auto, unfolding(crate::specs::Rules::device_holds, phy::specs::Entity::attached_type))]
fn device_holds(phy: Phy) -> bool
    ensures { result ≡ device_holds phy }
{
    matches!(
        phy.entity[ATTACHED],
        codes::END_DEVICE | codes::EDGE_EXPANDER | codes::FANOUT_EXPANDER
    ) && device_rates_hold(phy)
}

// What is attached, and byte 100: a SATA phy alone holds a signature, and its bytes are 0 where
// none is held. Where one is held the device's type is known.
#[tactic(auto, using(crate::proofs::RulesLaws::signed_rates, crate::proofs::RulesLaws::nothing_attached), unfolding(crate::specs::Rules::attached_hold, crate::specs::Rules::held_signature_holds))]
fn attached_holds(phy: Phy) -> bool
    ensures { result ≡ (attached_hold phy && leb phy.held 1 && held_signature_holds phy) }
{
    match phy.held {
        1 => phy.is_sata() && device_rates_hold(phy),
        0 if phy.no_device() => empty_holds(phy),
        0 => device_holds(phy) && signature_zero(phy),
        _ => false,
    }
}

// A SATA phy alone may be held at spin-up.
#[tactic(auto, unfolding(crate::specs::Rules::spinup_allowed))]
fn spinup_allowed(phy: Phy) -> bool
    ensures { result ≡ spinup_allowed phy }
{
    phy.spinup_hold == 0 || phy.spinup_hold == 1 && phy.is_sata()
}

/// The field rules of phy n among p, but for the negotiated rate's. One group is tested behind the
/// other, which is quicker for a sound phy than one test of all, and byte 101 before the rates,
/// which is quicker than behind them.
#[tactic(auto, unfolding(crate::specs::Rules::fields_hold))]
pub fn fields_hold(phy: Phy, n: PhyIdentifier, p: u8) -> bool
    ensures { result ≡ fields_hold phy n p }
{
    identify_holds(phy, n, p)
        && phy.fixed <= 1
        && rates_hold(phy)
        && attached_holds(phy)
        && spinup_allowed(phy)
}
