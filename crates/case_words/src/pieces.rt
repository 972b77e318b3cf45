// Bytes cut at the places of one byte.
ghost use Rattle.std.specs.Prelude.{◌≡◌, ◌<◌, ◌≤◌, ◌==◌, IfSome, length, position};
ghost use Rattle.std.specs.Iterator.{YieldsFirstRef, item_count};
ghost use Rattle.case_words.specs.Fields.{up_to, behind, from_word, index_of, pieces};

// Where the first `c` is.
fn place(s: &[u8], c: u8) -> Option<usize>
    ensures value { result ≡ position (λ b. b == c) s.now }
    ensures within { IfSome result (λ at. at < length s.now) }
{
    s.iter().position(|b| *b == c)
}

/// The bytes before the first `c`, and those behind it; all and none where `c` is nowhere.
#[tactic(auto, using(crate::proofs::FieldsLaws::front_found, crate::proofs::FieldsLaws::behind_found, crate::proofs::FieldsLaws::front_none, crate::proofs::FieldsLaws::behind_none, crate::proofs::FieldsLaws::front_index))]
pub fn cut(s: &[u8], c: u8) -> (&[u8], &[u8])
    ensures front { result.0.now ≡ up_to c s.now }
    ensures rest { result.1.now ≡ behind c s.now }
    ensures ends { length result.0.now ≡ index_of s.now 0 c }
    ensures within { length result.0.now ≤ length s.now }
{
    match place(s, c) {
        Some(at) => (&s[..at], &s[at + 1..]),
        None => (s, &[]),
    }
}

/// Pieces of some bytes in order, each ended by `end` or with the bytes: the words of a line, and the lines of a text.
#[derive(Clone, Copy, Debug)]
pub struct Pieces<'a> {
    pub rest: &'a [u8],
    pub end: u8,
}

impl<'a> Iterator for Pieces<'a> {
    type Item = &'a [u8];

    ghost next_gives = { YieldsFirstRef (λ s. pieces s.end s.rest.now) };

    ghost remaining = { item_count (λ s. pieces s.end s.rest.now) };

    #[tactic(auto, using(crate::proofs::FieldsLaws::pieces_next))]
    fn next(&mut self) -> Option<&'a [u8]> {
        if self.rest.is_empty() {
            return None;
        }
        let (piece, rest) = cut(self.rest, self.end);
        self.rest = rest;
        Some(piece)
    }
}

/// A line from word `k` on, counting from 0; nothing where it has no such word.
#[tactic(auto, using(crate::proofs::FieldsLaws::word_none, crate::proofs::FieldsLaws::word_more))]
pub fn word(s: &[u8], k: usize) -> &[u8]
    ensures { result.now ≡ from_word s.now k }
{
    let mut rest = s;
    for _ in 0..k {
        rest = cut(rest, b' ').1;
    }
    rest
}
