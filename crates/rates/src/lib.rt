//! What a rate is, and the rates that a phy may be programmed with (document 01, "Adapter file",
//! "Field rules"). A rate and a device type stay bytes: a file may hold any value there until its
//! rules are tested, rates are compared in order, and an enum would be turned into a byte again.
#![tactic(auto)]

ghost use Rattle.std.specs.Prelude.{◌≡◌};
ghost use Rattle.fields.specs.Rules.{is_rate, range_holds};

use phy::{MAXIMUM, MINIMUM, Phy};

/// A rate code: 1.5 or 3.0 Gb/s.
#[tactic(auto, unfolding(fields::specs::Rules::is_rate))]
pub fn is_rate(code: u8) -> bool
    ensures { result ≡ is_rate code }
{
    matches!(code, codes::LINK_RATE_1_5 | codes::LINK_RATE_3_0)
}

/// The two are programmed rates that the phy's hardware allows.
#[tactic(auto, unfolding(fields::specs::Rules::range_holds, fields::specs::Rules::in_range, phy::specs::Entity::hardware_minimum, phy::specs::Entity::hardware_maximum))]
pub fn range_holds(phy: Phy, minimum: u8, maximum: u8) -> bool
    ensures { result ≡ range_holds phy minimum maximum }
{
    is_rate(minimum)
        && is_rate(maximum)
        && phy.entity[MINIMUM] % 16 <= minimum
        && minimum <= maximum
        && maximum <= phy.entity[MAXIMUM] % 16
}
