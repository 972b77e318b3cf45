// The need of a code 22, which goes by its body, as that of a code 25 does (`level::Level::from_need`): clearing counters is a write (W-202).
ghost use Rattle.std.specs.Prelude.{◌≡◌};
ghost use Rattle.control_codes.specs.Table.{link_errors_need};

use level::Level;

// By its reset byte.
#[tactic(auto, unfolding(crate::specs::Table::link_errors_need))]
pub fn link_errors_need(reset: u8) -> Level
    ensures { result ≡ link_errors_need reset }
{
    if reset == codes::LINK_ERROR_RESET_COUNTS {
        Level::FULL
    } else {
        Level::RESTRICTED
    }
}
