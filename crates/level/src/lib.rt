//! The level that a driver is set to, as an entry of a text says it, and the level that a command needs (document 01, "Level").
#![tactic(auto)]

mod need;

ghost use Rattle.std.specs.Prelude.{◌≡◌};
ghost use Rattle.level.specs.Setting.{setting_answer};
ghost use Rattle.level.specs.Text.{entry_setting};
ghost use Rattle.level.specs.Need.{need_of};

use codes::CallError;
use need::by_range;

/// How much a console may do: None 0, Restricted 1, Limited 2, Full 3 (document 01, "Level").
#[derive(Clone, Copy, Debug, PartialEq, Eq, PartialOrd, Ord, Hash)]
pub struct Level(pub u8);

impl Level {
    pub const NONE: Level = Level(0);

    pub const RESTRICTED: Level = Level(1);

    pub const LIMITED: Level = Level(2);

    pub const FULL: Level = Level(3);

    /// What an entry of a text says of the level: nothing where it does not begin with `CSMI=`.
    /// One that does and is none of the four is `BadText`.

    #[tactic(auto, using(crate::proofs::EntryLaws::tested_says))]
    pub fn from_entry(entry: &[u8]) -> Result<Option<Level>, CallError>
        ensures { result ≡ setting_answer (entry_setting entry.now) }
    {
        if !entry.starts_with(b"CSMI=") {
            Ok(None)
        } else if entry == b"CSMI=None;".as_slice() {
            Ok(Some(Level::NONE))
        } else if entry == b"CSMI=Restricted;".as_slice() {
            Ok(Some(Level::RESTRICTED))
        } else if entry == b"CSMI=Limited;".as_slice() {
            Ok(Some(Level::LIMITED))
        } else if entry == b"CSMI=Full;".as_slice() {
            Ok(Some(Level::FULL))
        } else {
            Err(CallError::BadText)
        }
    }

    /// The lowest level that may send a command, by the command's code.
    #[tactic(auto, using(crate::proofs::RangesLaws::formula_need))]
    pub fn from_need(command: u8) -> Level
        ensures { result ≡ need_of command }
    {
        by_range(command)
    }
}
