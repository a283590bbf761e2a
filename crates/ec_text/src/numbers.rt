//! Numbers in digits, without leading zeros.
ghost use Rattle.std.specs.Prelude.{◌≡◌, ◌<◌, IfSome};
ghost use Rattle.std.specs.List.{list_all};
ghost use Rattle.std.specs.Char.{is_ascii_digit};
ghost use Rattle.ec_text.specs.Words.{number_in_word, digits_from, has_form, is_number_form};

/// Returns the number that a word spells: `0`, or at most 18 digits of which the first is not 0.
pub fn number(word: &[u8]) -> Option<u64>
    ensures value { result ≡ number_in_word word.now }
    ensures small { IfSome result (λ n. n < 1000000000000000000) }
{
    if has_form(word) { digits(word) } else { None }
}

/// Returns whether a word is `0`, or digits of any count of which the first is not 0.
pub fn is_number_form(word: &[u8]) -> bool
    ensures { result ≡ is_number_form word.now }
{
    has_form(word) && is_digits(word)
}

/// Returns whether a word has one byte, or several of which the first is not the digit 0.
#[inline(always)]
pub(crate) fn has_form(word: &[u8]) -> bool
    ensures { result ≡ has_form word.now }
{
    word.len() == 1 || (!word.is_empty() && word[0] != b'0')
}

/// Returns whether each byte is a digit.
fn is_digits(word: &[u8]) -> bool
    ensures { result ≡ list_all is_ascii_digit word.now }
{
    word.iter().all(|b| b.is_ascii_digit())
}

/// Returns the number that digits spell, if there are at most 18 after leading zeros.
#[tactic(auto, using(crate::proofs::shared::NumberLemmas::digits_steps))]
fn digits(word: &[u8]) -> Option<u64>
    ensures value { result ≡ digits_from 0 word.now }
    ensures small { IfSome result (λ n. n < 1000000000000000000) }
{
    let mut n = 0u64;
    for b in word {
        if b.is_ascii_digit() && n < 100_000_000_000_000_000 {
            n = 10 * n + u64::from(*b - b'0');
        } else {
            return None;
        }
    }
    Some(n)
}
