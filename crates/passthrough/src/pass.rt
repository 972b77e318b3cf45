// Code 25, STP passthrough.
ghost use Rattle.std.specs.Prelude.{◌≡◌, ◌+◌, ◌*◌, ◌<◌, ◌≤◌, length};
ghost use Rattle.codes.specs.Numbers.{code_of};
ghost use Rattle.adapter.specs.Adapter.{FewPhys, medium_size, phy_in};
ghost use Rattle.tables.specs.Tables.{tables_of};
ghost use Rattle.stp.specs.Body.{data_length, data_place, phy_asked, port_asked, connection_rate, destination_of};
ghost use Rattle.select.specs.Select.{select_in};
ghost use Rattle.passthrough.specs.Passthrough.{passes, form_holds, connected, on_disk, passed_to, passthrough};

use codes::ReturnCode;
use phy::{PhyIdentifier, PortIdentifier};
use select::select_phy;

// A register host-to-device FIS.
const COMMAND_FIS: u8 = 0x27;

/// Selects a phy, and sends the command to its disk if it is connected.
#[tactic(auto, using(laws::specs::Choice::picks), unfolding(crate::specs::Passthrough::passthrough))]
pub fn pass_through(
    tables: &[u8; tables::SIZE],
    medium: &mut [u8],
    body: &mut [u8],
) -> Result<(), ReturnCode>
    requires few_phys { FewPhys (tables_of tables.now) }
    requires medium_len { length medium.old ≡ medium_size (tables_of tables.now) }
    requires body_in_bounds { data_place + data_length body.old ≤ length body.old }
    ensures { passes (code_of result) medium.new body.new
        ≡ passthrough (tables_of tables.now) medium.old body.old }
{
    if is_form(body[stp::FIS_TYPE], body[stp::CONNECTION_RATE]) {
        return pass_selected(tables, medium, body);
    }
    Err(ReturnCode::InvalidParameter)
}

#[tactic(auto, unfolding(crate::specs::Passthrough::form_holds))]
fn is_form(type_byte: u8, rate: u8) -> bool
    ensures { result ≡ form_holds type_byte rate }
{
    type_byte == COMMAND_FIS && (rate == 0 || rates::is_rate(rate))
}

fn pass_selected(
    tables: &[u8; tables::SIZE],
    medium: &mut [u8],
    body: &mut [u8],
) -> Result<(), ReturnCode>
    requires few_phys { FewPhys (tables_of tables.now) }
    requires medium_len { length medium.old ≡ medium_size (tables_of tables.now) }
    requires body_in_bounds { data_place + data_length body.old ≤ length body.old }
    ensures { passes (code_of result) medium.new body.new
        ≡ passed_to (tables_of tables.now) medium.old body.old
        (select_in (tables_of tables.now) (phy_asked body.old) (port_asked body.old)) }
{
    // `?` was tried: the goal of its conversion of the code (`returns-in_err`) stayed open.
    match select_phy(
        tables,
        PhyIdentifier(body[stp::PHY]),
        PortIdentifier(body[stp::PORT]),
    ) {
        Ok(phy) => {
            if is_connected(tables, phy, body) {
                return on_disk(medium, phy, body);
            }
            Err(ReturnCode::ConnectionFailed)
        }
        Err(code) => Err(code),
    }
}

// The phy's link is up at the connection rate, and the SATA device at its end has the destination's
// address.
#[tactic(auto, unfolding(crate::specs::Passthrough::connected, laws::specs::Splice::part))]
fn is_connected(tables: &[u8; tables::SIZE], n: PhyIdentifier, body: &[u8]) -> bool
    requires n_bound { n.0 < 32 }
    requires data_place_in_bounds { data_place ≤ length body.now }
    ensures { result ≡ connected (phy_in (tables_of tables.now) n.0) (connection_rate body.now)
        (destination_of body.now) }
{
    let phy = tables::phy_at(tables, n);
    let negotiated = phy.negotiated();
    phy.is_sata()
        && rates::is_rate(negotiated)
        && body[stp::CONNECTION_RATE] <= negotiated
        && phy.attached_is(&body[stp::DESTINATION..stp::DESTINATION_END])
}

// The phy's disk is lent to the command as a part of the medium.
fn on_disk(medium: &mut [u8], n: PhyIdentifier, body: &mut [u8]) -> Result<(), ReturnCode>
    requires n_in_bounds { 8192 * n.0 + 8192 ≤ length medium.old }
    requires body_in_bounds { data_place + data_length body.old ≤ length body.old }
    ensures { passes (code_of result) medium.new body.new ≡ on_disk medium.old n.0 body.old }
{
    let (_, rest) = medium.split_at_mut(disk::SIZE * n.0 as usize);
    let Some(disk) = rest.first_chunk_mut::<{ disk::SIZE }>() else {
        unreachable!();
    };
    disk_command::command(disk, body)
}
