//! What a word of an entry names.
ghost use Rattle.std.specs.Prelude.{◌≡◌, option_map, Some};
ghost use Rattle.ec_heading.specs.EntryWords.{cut_at, closed_number};

use ec_text::number;

/// Returns what is before the first such byte, and what is after it; `None` if there is none.
#[tactic(auto, using(crate::proofs::Bytes::cuts))]
pub(crate) fn cut_at(word: &[u8], byte: u8) -> Option<(&[u8], &[u8])>
    ensures { option_map (λ p. (p.0.now, p.1.now)) result ≡ cut_at byte word.now }
{
    for (i, b) in word.iter().enumerate() {
        if *b == byte {
            return Some((&word[..i], &word[i + 1..]));
        }
    }
    None
}

/// Returns the number before a bracket that ends the word.
pub(crate) fn closed_number(rest: &[u8]) -> Option<u64>
    ensures { result ≡ closed_number (cut_at 93 rest.now) }
{
    let (digits, behind) = cut_at(rest, b']')?;
    if !behind.is_empty() {
        return None;
    }
    number(digits)
}
