// The entries of a text, one after the other.
ghost use Rattle.std.specs.Prelude.{◌≡◌, ◌≤◌, length};
ghost use Rattle.std.specs.Iterator.{YieldsFirstRef, item_count};
ghost use Rattle.level.specs.Text.{entries};
ghost use Rattle.level_text.specs.Entry.{entry_length};

/// The entries of a text in order, each with the semicolon that ends it.
#[derive(Clone, Copy, Debug)]
pub struct Entries<'a>(pub &'a [u8]);

impl<'a> Iterator for Entries<'a> {
    type Item = &'a [u8];

    ghost next_gives = { YieldsFirstRef (λ s. entries s.0.now) };

    ghost remaining = { item_count (λ s. entries s.0.now) };

    #[tactic(auto, using(crate::proofs::EntriesLaws::entries_first), unfolding(level::specs::Text::entries))]
    fn next(&mut self) -> Option<&'a [u8]> {
        if self.0.is_empty() {
            return None;
        }
        let (entry, rest) = self.0.split_at(entry_length(self.0));
        self.0 = rest;
        Some(entry)
    }
}

/// How many bytes the first entry has.
fn entry_length(text: &[u8]) -> usize
    ensures value { result ≡ entry_length text.now }
    ensures within { result ≤ length text.now }
{
    for (i, byte) in text.iter().enumerate() {
        if *byte == b';' {
            return i + 1;
        }
    }
    text.len()
}
