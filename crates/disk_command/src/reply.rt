// What a reply holds: the Status structure, and the data of ECh.
ghost use Rattle.std.specs.Prelude.{◌≡◌, ◌≤◌, length};
ghost use Rattle.stp.specs.Body.{fis, data_place};
ghost use Rattle.disk.specs.Disk.{byte_twelve, status_of, with_status, identify};
ghost use Rattle.disk.specs.Said.{answer_said};

use disk::{AtaCommand, AtaError, CHECK_POWER_MODE, SECTOR_SIZE};

// Fills in Status: the status FIS at 4, uDataBytes at 88, and 0 in every other byte. The status FIS,
// of type 34h, has status and error, and bytes 4 to 13 of the command FIS; in byte 12 of these E5h
// reports the disk active.
pub fn put_status(body: &mut [u8], asked: AtaCommand, answer: Result<u32, AtaError>)
    requires { data_place ≤ length body.old }
    ensures { body.new ≡ with_status body.old asked (answer_said answer) }
{
    let (status, error, moved) = match answer {
        Ok(moved) => (0x50, 0, moved),
        Err(error) => (0x51, u8::from(error), 0),
    };
    let twelve = if asked.command == CHECK_POWER_MODE {
        0xff
    } else {
        body[stp::COUNT]
    };
    let (fixed, rest) = body.split_at_mut(stp::STATUS);
    let (out, _) = rest.split_at_mut(92);
    out.fill(0);
    out[4] = 0x34;
    out[6] = status;
    out[7] = error;
    out[8..18].copy_from_slice(&fixed[stp::LBA_LOW..stp::LBA_LOW + 10]);
    out[16] = twelve;
    out[88..92].copy_from_slice(&moved.to_le_bytes());
}

// Words 49 (LBA supported) and 60 (sectors) of 256.
#[tactic(auto, unfolding(disk::specs::Disk::identify, laws::specs::Splice::splice, wire::specs::Number::bytes))]
pub fn identify() -> [u8; SECTOR_SIZE]
    ensures { result ≡ identify }
{
    let mut words = [0; SECTOR_SIZE];
    wire::write16(&mut words, 98, 0x0200);
    wire::write16(&mut words, 120, 16);
    words
}
