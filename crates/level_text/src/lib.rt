//! The level of a whole text: its entries, one after the other (document 01, "Level").
#![tactic(auto)]

mod entries;

ghost use Rattle.std.specs.Prelude.{◌≡◌};
ghost use Rattle.level.specs.Setting.{told};
ghost use Rattle.level.specs.Text.{text_level};

use codes::CallError;
use entries::Entries;
use level::Level;

/// The most bytes that a text may have.
const MAX_TEXT: usize = 1024;

/// The level of a text. A text over 1,024 bytes, two entries that begin with `CSMI=`, and one that
/// is none of the four are `BadText`.
#[tactic(auto, using(crate::proofs::EntriesLaws::reading))]
pub fn of_text(text: &[u8]) -> Result<Level, CallError>
    ensures { told result ≡ text_level text.now }
{
    if text.len() > MAX_TEXT {
        return Err(CallError::BadText);
    }
    let mut level = None;
    for entry in Entries(text) {
        if let Some(given) = Level::from_entry(entry)? {
            if level.is_some() {
                return Err(CallError::BadText);
            }
            level = Some(given);
        }
    }
    Ok(level.unwrap_or(Level::LIMITED))
}
