// The bytes that words put into a slice.
ghost use Rattle.std.specs.Prelude.{◌≡◌};
ghost use Rattle.case_words.specs.Patch.{bytes_of, put, put_word, patched};

use crate::numerals::{byte, number};
use crate::pieces::{Pieces, cut, word};

// Puts the bytes that the digits are, two a byte, from an index on; what does not fit is left out.
fn put_bytes(d: &mut [u8], at: usize, digits: &[u8])
    ensures { d.new ≡ put d.old at (bytes_of digits.now) }
{
    let (_, room) = d.split_at_mut(at.min(d.len()));
    let (pairs, _) = digits.as_chunks::<2>();
    let fit = room.len().min(pairs.len());
    for (j, pair) in pairs[..fit].iter().enumerate() {
        room[j] = byte(pair[0], pair[1]);
    }
}

// One word: its place, a colon and its bytes.
#[tactic(auto, using(crate::proofs::PatchLaws::word_by))]
fn put_word(d: &mut [u8], word: &[u8])
    ensures { d.new ≡ put_word d.old word.now }
{
    let (_, digits) = cut(word, b':');
    put_bytes(d, number(word) as usize, digits);
}

/// Puts the words of a line from word `k` on.
#[tactic(auto, using(crate::proofs::PatchLaws::puts_loop))]
pub fn patch(d: &mut [u8], s: &[u8], k: usize)
    ensures { d.new ≡ patched d.old s.now k }
{
    let words = Pieces {
        rest: word(s, k),
        end: b' ',
    };
    for word in words {
        put_word(d, word);
    }
}
