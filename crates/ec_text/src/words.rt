//! The words of a line.
ghost use Rattle.std.specs.Prelude.{◌≡◌, ◌≢◌, ℕ, ◌≤◌, ◌<◌, ◌+◌, ◌++◌, ◌∷◌, [], ◌==◌, length, take, slice_index, MatchOption, IfSome, IfNone};
ghost use Rattle.std.specs.List.{list_any, position_or_len};
ghost use Rattle.ec_text.specs.Words.{words_of, IsWord};

use std::simd::prelude::*;

/// Returns how many of the first N bytes come before their first space.
#[inline(always)]
fn first_word_length_of<const N: usize>(line: &[u8]) -> usize
    requires wide { N ≤ 64 }
    requires long { N ≤ length line.now }
    ensures { result ≡ position_or_len (λ b. b == 32) (take N line.now) }
{
    let spaces = Simd::<u8, N>::from_slice(line)
        .simd_eq(Simd::splat(b' '))
        .to_bitmask();
    if spaces == 0 {
        N
    } else {
        spaces.trailing_zeros() as usize
    }
}

/// Returns the length of a prefix without a space, which is found at once.
///
/// It is 0 if the line has fewer than 8 bytes.
#[inline(always)]
#[tactic(auto, using(crate::proofs::shared::WordLemmas::fronts))]
fn first_word_length(line: &[u8]) -> usize
    ensures within { result ≤ length line.now }
    ensures none { (k : ℕ) → k < result → slice_index line.now k ≢ 32 }
{
    if line.len() >= 16 {
        first_word_length_of::<16>(line)
    } else if line.len() >= 8 {
        first_word_length_of::<8>(line)
    } else {
        0
    }
}

/// Returns the first word of a line, and the bytes after its space; `None` if no space follows.
///
/// Words are separated by single spaces, so two spaces in a row have an empty word between them.
#[tactic(auto, using(crate::proofs::shared::WordLemmas::cuts))]
pub fn cut_word(line: &[u8]) -> (&[u8], Option<&[u8]>)
    ensures words { MatchOption result.1 (words_of line.now ≡ result.0.now ∷ [])
        (λ rest. words_of line.now ≡ result.0.now ∷ words_of rest.now) }
    ensures whole { IfSome result.1 (λ rest. line.now ≡ result.0.now ++ 32 ∷ rest.now) }
    ensures shorter { IfSome result.1 (λ rest. length result.0.now + 1 + length rest.now ≡ length line.now) }
    ensures only { IfNone result.1 (line.now ≡ result.0.now) }
    ensures word { IsWord result.0.now }
{
    for i in first_word_length(line)..line.len() {
        if line[i] == b' ' {
            return (&line[..i], Some(&line[i + 1..]));
        }
    }
    (line, None)
}

/// Returns whether a word of a line is empty, for example that between two spaces in a row.
pub fn has_blank(line: &[u8]) -> bool
    ensures { result ≡ list_any (λ w. length w == 0) (words_of line.now) }
{
    let (word, rest) = cut_word(line);
    if word.is_empty() {
        return true;
    }
    match rest {
        None => false,
        Some(rest) => has_blank(rest),
    }
}
