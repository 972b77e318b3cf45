//! The ATA command that a code 25 request brings to the disk of a phy: what it leaves of the disk
//! and of the request (document 01, "Disk").
#![tactic(auto)]

mod reply;

ghost use Rattle.std.specs.Prelude.{◌≡◌, ◌+◌, ◌≤◌, length};
ghost use Rattle.codes.specs.Numbers.{code_of};
ghost use Rattle.stp.specs.Body.{data_length, data_place};
ghost use Rattle.disk.specs.Disk.{performs, performed};

use codes::ReturnCode;
use disk::{IDENTIFY_DEVICE, READ_SECTORS, SECTOR_SIZE, WRITE_SECTORS, ata_command};
use reply::{identify, put_status};

/// Serves the command in the body of a code 25 request, whose data lies in the body. On `Err` the
/// disk and the body stay as they were.
pub fn command(disk: &mut [u8; disk::SIZE], body: &mut [u8]) -> Result<(), ReturnCode>
    requires { data_place + data_length body.old ≤ length body.old }
    ensures { performs (code_of result) disk.new body.new ≡ performed disk.old body.old }
{
    let asked = ata_command(body);
    let answer = asked.answer();
    let Ok(moved) = answer else {
        put_status(body, asked, answer);
        return Ok(());
    };
    if asked.data_length < moved {
        return Err(ReturnCode::InvalidParameter);
    }
    let at = SECTOR_SIZE * asked.lba as usize;
    let bytes = moved as usize;
    match asked.command {
        READ_SECTORS => {
            put_status(body, asked, answer);
            wire::copy_part(body, stp::DATA, disk, at, bytes);
        }
        WRITE_SECTORS => {
            wire::copy_part(disk, at, body, stp::DATA, bytes);
            put_status(body, asked, answer);
        }
        IDENTIFY_DEVICE => {
            put_status(body, asked, answer);
            let words = identify();
            wire::copy_part(body, stp::DATA, &words, 0, SECTOR_SIZE);
        }
        _ => put_status(body, asked, answer),
    }
    Ok(())
}
