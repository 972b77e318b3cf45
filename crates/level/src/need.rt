// The level that a command needs, by ranges of its code.
ghost use Rattle.std.specs.Prelude.{◌≡◌};
ghost use Rattle.level.specs.Ranges.{formula, by_range};

use crate::Level;

// The need of the range that a command's code is in.
pub fn by_range(command: u8) -> Level
    ensures { result ≡ by_range formula command }
{
    match command {
        0x00 => Level::RESTRICTED,
        0x01..=0x1f => Level::FULL,
        0x20 => Level::RESTRICTED,
        0x21..=0x23 => Level::FULL,
        0x24..=0x27 => Level::RESTRICTED,
        0x28 => Level::FULL,
        0x29 => Level::RESTRICTED,
        0x2a..=0x2e => Level::FULL,
        0x2f => Level::RESTRICTED,
        0x30..=0x3f => Level::FULL,
        0x40 => Level::RESTRICTED,
        0x41 => Level::FULL,
        0x42 => Level::RESTRICTED,
        0x43..=0x6f => Level::FULL,
        0x70 => Level::RESTRICTED,
        0x71..=0x8f => Level::FULL,
        0x90 => Level::RESTRICTED,
        0x91 => Level::FULL,
        0x92 => Level::LIMITED,
        0x93..=0xa0 => Level::FULL,
        0xa1 => Level::RESTRICTED,
        0xa2..=0xaf => Level::FULL,
        0xb0 => Level::RESTRICTED,
        0xb1..=0xc3 => Level::FULL,
        0xc4 => Level::RESTRICTED,
        0xc5..=0xc6 => Level::FULL,
        0xc7..=0xc8 => Level::RESTRICTED,
        0xc9..=0xe3 => Level::FULL,
        0xe4..=0xe5 => Level::RESTRICTED,
        0xe6 => Level::FULL,
        0xe7 => Level::RESTRICTED,
        0xe8 => Level::LIMITED,
        0xe9 => Level::FULL,
        0xea => Level::RESTRICTED,
        0xeb => Level::FULL,
        0xec => Level::RESTRICTED,
        0xed..=0xf7 => Level::FULL,
        0xf8 => Level::RESTRICTED,
        0xf9..=0xff => Level::FULL,
    }
}
