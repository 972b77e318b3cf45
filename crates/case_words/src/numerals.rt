// The numbers that words are, and the values of digits.
ghost use Rattle.std.specs.Prelude.{◌≡◌};
ghost use Rattle.case_words.specs.Fields.{digit_of, number_of, field_of};
ghost use Rattle.case_words.specs.Patch.{hex_byte};

use crate::pieces::{cut, word};

fn digit(c: u8) -> u8
    ensures { result ≡ digit_of c }
{
    if c < b'a' { c % 16 } else { c - 87 }
}

// The decimal number that a word begins with, modulo 4,294,967,296.
#[tactic(auto, using(crate::proofs::FieldsLaws::number_loop))]
pub fn number(word: &[u8]) -> u32
    ensures { result ≡ number_of word.now }
{
    let mut value: u32 = 0;
    for c in word {
        if !c.is_ascii_digit() {
            return value;
        }
        value = value.wrapping_mul(10).wrapping_add(u32::from(digit(*c)));
    }
    value
}

/// The number that word `k` of a line is, modulo 4,294,967,296; 0 where the line has no such word.
#[tactic(auto, using(crate::proofs::FieldsLaws::field_by))]
pub fn field(s: &[u8], k: usize) -> u32
    ensures { result ≡ field_of s.now k }
{
    number(cut(word(s, k), b' ').0)
}

// The byte that two digits are.
pub fn byte(a: u8, b: u8) -> u8
    ensures { result ≡ hex_byte a b }
{
    digit(a).wrapping_mul(16).wrapping_add(digit(b))
}
