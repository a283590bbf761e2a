//! Numbers that end a text, read from its end.
ghost use Rattle.std.specs.Prelude.{◌≡◌, ◌<◌, ◌+◌, ℕ, IfSome, None, false, length, drop, slice_index};
ghost use Rattle.std.specs.Char.{is_ascii_digit};
ghost use Rattle.ec_text.specs.Words.{EndsInNumber, AreDigits};

use crate::numbers::has_form;

/// Returns the place of the last space of a text and the number that its last word, after that
/// space, spells. Of the text `w = 17` these are 3 and 17.
///
/// It is found and read from the end of the text, in one pass. More than 18 digits spell no number,
/// so at most the last 19 bytes are read. Even 19 digits fit in a u64.
#[tactic(auto, using(crate::proofs::EndLemmas::by_digit))]
pub fn number_at_end(text: &[u8]) -> Option<(usize, u64)>
    ensures within { IfSome result (λ p. p.0 < length text.now) }
    ensures ends { IfSome result (λ p. EndsInNumber text.now p.0 p.1) }
    ensures none { result ≡ None → (place n : ℕ) → EndsInNumber text.now place n → ⊥ }
{
    let mut number = 0u64;
    let mut weight = 1u64;
    for place in (text.len().saturating_sub(19)..text.len()).rev() {
        if !text[place].is_ascii_digit() {
            return behind_space(text, place, number);
        }
        number += u64::from(text[place] - b'0') * weight;
        weight *= 10;
    }
    None
}

/// Returns the position before the digits and the number, if a space is there and the digits have
/// the form of a number.
#[inline(always)]
fn behind_space(text: &[u8], place: usize, number: u64) -> Option<(usize, u64)>
    requires within { place < length text.now }
    requires short { length text.now < place + 20 }
    requires other { is_ascii_digit (slice_index text.now place) ≡ false }
    requires digits { AreDigits (drop (place + 1) text.now) number }
    ensures within { IfSome result (λ p. p.0 < length text.now) }
    ensures ends { IfSome result (λ p. EndsInNumber text.now p.0 p.1) }
    ensures none { result ≡ None → (place n : ℕ) → EndsInNumber text.now place n → ⊥ }
{
    if text[place] == b' ' && has_form(&text[place + 1..]) {
        Some((place, number))
    } else {
        None
    }
}
