// What a request asks, read from its command FIS and its uDataLength.
ghost use Rattle.std.specs.Prelude.{◌≡◌, ◌≤◌, length};
ghost use Rattle.stp.specs.Body.{data_place};
ghost use Rattle.disk.specs.Disk.{ata_command};

use crate::AtaCommand;

// Bit 6 of FIS byte 7: the address is an LBA.
const LBA_MODE: u8 = 0x40;

/// What the body of a code 25 asks.
#[tactic(auto, using(laws::specs::Choice::picks, crate::proofs::AskedLaws::asked_by), unfolding(crate::specs::Disk::count_of))]
pub fn ata_command(body: &[u8]) -> AtaCommand
    requires { data_place ≤ length body.now }
    ensures { result ≡ ata_command body.now }
{
    let device = body[stp::DEVICE];
    let lba = [
        body[stp::LBA_LOW],
        body[stp::LBA_MIDDLE],
        body[stp::LBA_HIGH],
        device & 0x0f,
    ];
    let count = body[stp::COUNT];
    AtaCommand {
        command: body[stp::COMMAND],
        addressed: device & LBA_MODE != 0,
        lba: u32::from_le_bytes(lba),
        count: if count == 0 { 256 } else { u32::from(count) },
        data_length: wire::read32(body, stp::DATA_LENGTH),
    }
}
