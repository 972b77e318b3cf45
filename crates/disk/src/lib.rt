//! The disk of a phy: 16 sectors of 512 bytes, what a code 25 request asks of it, and what it
//! answers (document 01, "Disk").
#![tactic(auto)]

mod fis;

ghost use Rattle.std.specs.Prelude.{◌≡◌};
ghost use Rattle.disk.specs.Disk.{transfer, answer_to};
ghost use Rattle.disk.specs.Said.{error_bits, answer_said};

pub use fis::ata_command;

/// Bytes of a sector.
pub const SECTOR_SIZE: usize = 512;

/// Bytes of a disk: 16 sectors.
pub const SIZE: usize = 8192;

const SECTORS: u64 = 16;

// The commands that succeed. Every other byte is a command too, and is aborted, so these are
// constants and no enum.
pub const READ_SECTORS: u8 = 0x20;

pub const WRITE_SECTORS: u8 = 0x30;

pub const IDENTIFY_DEVICE: u8 = 0xec;

pub const CHECK_POWER_MODE: u8 = 0xe5;

/// What a request asks.
#[derive(Clone, Copy, Debug, PartialEq, Eq)]
pub struct AtaCommand {
    /// Byte 2 of the command FIS.
    pub command: u8,
    /// Bit 6 of FIS byte 7: the address is an LBA.
    pub addressed: bool,
    /// The first sector.
    pub lba: u32,
    /// How many sectors.
    pub count: u32,
    /// uDataLength, in bytes.
    pub data_length: u32,
}

/// Why a command fails, as the bit of the ATA error register that says so.
#[derive(Clone, Copy, Debug, PartialEq, Eq)]
pub enum AtaError {
    /// ABRT: no such command, or no LBA.
    Aborted = 0x04,
    /// IDNF: there is no such sector.
    IdNotFound = 0x10,
}

impl From<AtaError> for u8 {
    ghost from_gives = { λ error bits. bits ≡ error_bits error };

    fn from(error: AtaError) -> u8 {
        error as u8
    }
}

impl AtaCommand {
    /// The disk's answer: how many bytes the command moves, or why it fails.
    #[tactic(auto, using(laws::specs::Choice::picks), unfolding(crate::specs::Disk::answer_by))]
    pub fn answer(self) -> Result<u32, AtaError>
        ensures { answer_said result ≡ answer_to self }
    {
        match self.command {
            READ_SECTORS | WRITE_SECTORS => self.transfer(),
            IDENTIFY_DEVICE => Ok(SECTOR_SIZE as u32),
            CHECK_POWER_MODE => Ok(0),
            _ => Err(AtaError::Aborted),
        }
    }

    // A read or a write of sectors.
    #[tactic(auto, using(laws::specs::Choice::picks), unfolding(crate::specs::Disk::transfer))]
    fn transfer(self) -> Result<u32, AtaError>
        ensures { answer_said result ≡ transfer self.addressed self.lba self.count }
    {
        if !self.addressed {
            return Err(AtaError::Aborted);
        }
        if SECTORS < u64::from(self.lba) + u64::from(self.count) {
            return Err(AtaError::IdNotFound);
        }
        Ok(SECTOR_SIZE as u32 * self.count)
    }
}
