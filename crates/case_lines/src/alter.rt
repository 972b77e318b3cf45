// Lines that put values into the state that no call put there.
ghost use Rattle.std.specs.Prelude.{◌≡◌, ◌+◌, ◌≤◌, length};
ghost use Rattle.laws.specs.Splice.{splice};
ghost use Rattle.laws.specs.Clear.{zeros};
ghost use Rattle.case_words.specs.Patch.{patched};
ghost use Rattle.case_lines.specs.Lines.{phy_line, row_line, connector_line, staged_line, count_line, damaged};

use crate::{CONNECTORS, PHYS, ROWS, STAGED};
use case_words::{field, patch};

// The words from word 2 on, over zeros.
#[tactic(auto, using(crate::proofs::LinesLaws::part_by))]
fn put_part(part: &mut [u8], s: &[u8])
    ensures { part.new ≡ patched (zeros (length part.old)) s.now 2 }
{
    part.fill(0);
    patch(part, s, 2);
}

// The same in the w bytes of the state from an index on.
#[tactic(auto, using(crate::proofs::LinesLaws::lent_part))]
fn put_at(state: &mut [u8], at: usize, w: usize, s: &[u8])
    requires { at + w ≤ length state.old }
    ensures { state.new ≡ splice state.old at (patched (zeros w) s.now 2) }
{
    put_part(&mut state[at..at + w], s);
}

#[tactic(auto, unfolding(crate::specs::Lines::phy_line))]
fn phy_line(state: &mut [u8; state::SIZE], s: &[u8])
    ensures { state.new ≡ phy_line state.old s.now }
{
    put_at(state, PHYS + 105 * (field(s, 1) % 32) as usize, 105, s);
}

#[tactic(auto, unfolding(crate::specs::Lines::row_line))]
fn row_line(state: &mut [u8; state::SIZE], s: &[u8])
    ensures { state.new ≡ row_line state.old s.now }
{
    put_at(state, ROWS + 20 * (field(s, 1) % 64) as usize, 20, s);
}

#[tactic(auto, unfolding(crate::specs::Lines::connector_line))]
fn connector_line(state: &mut [u8; state::SIZE], s: &[u8])
    ensures { state.new ≡ connector_line state.old s.now }
{
    put_at(state, CONNECTORS + 36 * (field(s, 1) % 32) as usize, 36, s);
}

#[tactic(auto, using(crate::proofs::LinesLaws::staged_by))]
fn staged_line(state: &mut [u8; state::SIZE], s: &[u8])
    ensures { state.new ≡ staged_line state.old s.now }
{
    put_at(state, STAGED + 1, 8, s);
    state[STAGED] = (field(s, 1) % 256) as u8;
}

#[tactic(auto, using(crate::proofs::LinesLaws::count_by))]
fn count_line(state: &mut [u8; state::SIZE], s: &[u8])
    ensures { state.new ≡ count_line state.old s.now }
{
    state[0] = (field(s, 1) % 256) as u8;
    state[1] = (field(s, 2) % 256) as u8;
    state[2] = (field(s, 3) % 256) as u8;
}

/// The state after a line of the letter `c`; a line of another letter changes nothing.
#[tactic(auto, using(laws::specs::Choice::picks), unfolding(crate::specs::Lines::damaged))]
pub fn damage(state: &mut [u8; state::SIZE], s: &[u8], c: u8)
    ensures { state.new ≡ damaged state.old s.now c }
{
    match c {
        b'y' => phy_line(state, s),
        b'w' => row_line(state, s),
        b'c' => connector_line(state, s),
        b'i' => staged_line(state, s),
        b'l' => count_line(state, s),
        _ => {}
    }
}
