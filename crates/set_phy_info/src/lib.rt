//! Code 21, set phy info (document 01, "Request"; W-205). It works on the body of its request, the
//! buffer after its header, and on the tables, in which it stores the phy that it changes.
#![tactic(auto)]

ghost use Rattle.std.specs.Prelude.{◌≡◌, ◌<◌, ◌≤◌, length};
ghost use Rattle.codes.specs.Numbers.{code_of};
ghost use Rattle.adapter.specs.Adapter.{Adapter, FewPhys};
ghost use Rattle.phy.specs.declared.PhyIdentifier.{PhyIdentifier};
ghost use Rattle.adapter.specs.Changed.{leaves};
ghost use Rattle.tables.specs.Tables.{tables_of};
ghost use Rattle.set_phy_info.specs.SetPhyInfo.{phy_setting, programmable, resulting, parameters_hold, rates_allowed, set_to, stored_of, set_phy, set_info};

use codes::ReturnCode;
use phy::{Phy, PhyIdentifier};

/// What a code 21 asks: the negotiated byte, the two programmed bytes, and the signal class.
#[derive(Clone, Copy, Debug, PartialEq, Eq)]
pub struct PhySetting {
    pub negotiated: u8,
    pub minimum: u8,
    pub maximum: u8,
    pub class: u8,
}

// The setting in a body.
#[tactic(auto, unfolding(crate::specs::SetPhyInfo::phy_setting))]
fn phy_setting(body: &[u8]) -> PhySetting
    requires { 8 ≤ length body.now }
    ensures { result ≡ phy_setting body.now }
{
    PhySetting {
        negotiated: body[1],
        minimum: body[2],
        maximum: body[3],
        class: body[4],
    }
}

// A programmed byte: 0, which leaves the rate, or a rate. It stays a byte, no `Option`: so it
// stands in `phy_setting`.
#[tactic(auto, unfolding(crate::specs::SetPhyInfo::programmable))]
fn is_programmable(byte: u8) -> bool
    ensures { result ≡ programmable byte }
{
    byte == 0 || rates::is_rate(byte)
}

// The rate that a programmed byte leaves.
#[tactic(auto, using(laws::specs::Choice::picks), unfolding(crate::specs::SetPhyInfo::resulting))]
fn resulting(byte: u8, rate: u8) -> u8
    ensures { result ≡ resulting byte rate }
{
    if byte == 0 { rate } else { byte }
}

#[tactic(auto, unfolding(crate::specs::SetPhyInfo::parameters_hold))]
fn parameters_hold(s: PhySetting) -> bool
    ensures { result ≡ parameters_hold s }
{
    s.negotiated <= 1 && s.class <= 3
}

#[tactic(auto, unfolding(crate::specs::SetPhyInfo::rates_allowed))]
fn rates_allowed(phy: Phy, s: PhySetting, minimum: u8, maximum: u8) -> bool
    ensures { result ≡ rates_allowed phy s minimum maximum }
{
    is_programmable(s.minimum)
        && is_programmable(s.maximum)
        && rates::range_holds(phy, minimum, maximum)
}

// The phy with the class and the rates, disabled or with its link reset.
#[tactic(auto, using(laws::specs::Choice::picks), unfolding(crate::specs::SetPhyInfo::set_to, crate::specs::SetPhyInfo::relinked))]
fn set_to(phy: Phy, s: PhySetting, minimum: u8, maximum: u8) -> Phy
    requires { (minimum < 16) × (maximum < 16) }
    ensures { result ≡ set_to phy s minimum maximum }
{
    let configured = phy.released().configured(s.class, minimum, maximum);
    if s.negotiated == 1 {
        link::disabled(configured)
    } else {
        link::reset(configured)
    }
}

// The phy as it is asked for, or why it is refused.
#[tactic(auto, using(laws::specs::Choice::picks, crate::proofs::Laws::minimum_below, crate::proofs::Laws::maximum_below), unfolding(crate::specs::SetPhyInfo::set_phy, crate::specs::SetPhyInfo::set_checked))]
fn asked(phy: Phy, s: PhySetting) -> Result<Phy, ReturnCode>
    ensures { (ad : Adapter) (n : PhyIdentifier) → stored_of ad n result ≡ set_phy ad n phy s }
{
    let minimum = resulting(s.minimum, phy.programmed_minimum());
    let maximum = resulting(s.maximum, phy.programmed_maximum());
    if phy.fixed == 1 {
        return Err(ReturnCode::PhyInfoNotChangeable);
    }
    if !parameters_hold(s) {
        return Err(ReturnCode::InvalidParameter);
    }
    if !rates_allowed(phy, s, minimum, maximum) {
        return Err(ReturnCode::LinkRateOutOfRange);
    }
    Ok(set_to(phy, s, minimum, maximum))
}

/// Sets a phy's signal class and programmed rates, ends its hold at spin-up, and disables it or
/// resets its link. A refusal leaves the tables as they were.
pub fn set_info(tables: &mut [u8; tables::SIZE], body: &[u8]) -> Result<(), ReturnCode>
    requires few_phys { FewPhys (tables_of tables.old) }
    requires in_bounds { 8 ≤ length body.now }
    ensures { leaves (code_of result) (tables_of tables.new) body.now ≡ set_info (tables_of tables.old) body.now }
{
    let n = PhyIdentifier(body[0]);
    let phy = tables::phy(tables, n).ok_or(ReturnCode::PhyDoesNotExist)?;
    let phy = asked(phy, phy_setting(body))?;
    tables::store_phy(tables, n, phy);
    Ok(())
}
