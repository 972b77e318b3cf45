//! The tally of a record, which has a line of 8 bytes for each request of a run (W-206).
#![tactic(auto)]

ghost use Rattle.std.specs.Prelude.{◌≡◌};
ghost use Rattle.laws.specs.Splice.{part};
ghost use Rattle.wire.specs.Number.{number};
ghost use Rattle.codes.specs.Numbers.{call_of};
ghost use Rattle.tally.specs.Kinds.{line};
ghost use Rattle.tally.specs.Totals.{tally_of};
ghost use Rattle.tally.specs.Record.{lines_in, totals_bytes, wrote, tallied};

use codes::CallError;
use tally::{Line, Totals};

// The bytes of a line: the call's number and the return code.
const LINE_SIZE: usize = 8;

// The bytes of five totals, of 64 bits each.
const TOTALS_SIZE: usize = 40;

fn line(bytes: &[u8; LINE_SIZE]) -> Line
    ensures { result ≡ line (number (part bytes.now 0 4)) (number (part bytes.now 4 4)) }
{
    Line {
        call: wire::read32(bytes, 0),
        code: wire::read32(bytes, 4),
    }
}

// The totals of the whole lines of a record.
#[tactic(auto, using(tally::proofs::RecordLaws::record_loop))]
fn tally(lines: &[u8]) -> Totals
    ensures { result ≡ tally_of (lines_in lines.now) }
{
    let mut totals = Totals::none();
    let (whole, _) = lines.as_chunks::<LINE_SIZE>();
    for bytes in whole {
        totals = totals.count(line(bytes));
    }
    totals
}

fn write_totals(d: &mut [u8; TOTALS_SIZE], totals: Totals)
    ensures { d.new ≡ totals_bytes totals }
{
    for (i, n) in totals.as_array().iter().enumerate() {
        d[8 * i..8 * i + 8].copy_from_slice(&n.to_le_bytes());
    }
}

/// Writes the totals of a record at the start of the bytes lent for them; where these are too few, `ShortBuffer`, and they stay.
#[tactic(auto, using(tally::proofs::RecordLaws::tally_short, tally::proofs::RecordLaws::tally_wrote))]
pub fn write_tally(lines: &[u8], totals: &mut [u8]) -> Result<(), CallError>
    ensures { wrote (call_of result) totals.new ≡ tallied lines.now totals.old }
{
    let Some(front) = totals.first_chunk_mut::<TOTALS_SIZE>() else {
        return Err(CallError::ShortBuffer);
    };
    write_totals(front, tally(lines));
    Ok(())
}
