//! The lines of a text.
ghost use Rattle.std.specs.Prelude.{◌≡◌, ◌≢◌, ◌++◌, ◌∷◌, All, Some, IfNone, IfSome};
ghost use Rattle.memchr.specs.Find.{IsFirstByte, is_byte};

use memchr::memchr;
use std::simd::prelude::*;

/// Returns the position of the first LF, if it is among the first 32 of at least 32 bytes.
///
/// These bytes are compared at once.
#[inline(always)]
fn near_line_end(bytes: &[u8]) -> Option<usize>
    ensures { IfSome result (λ end. IsFirstByte (is_byte 10) bytes.now (Some end)) }
{
    if bytes.len() < 32 {
        return None;
    }
    let ends = u8x32::from_slice(bytes)
        .simd_eq(u8x32::splat(b'\n'))
        .to_bitmask();
    if ends == 0 {
        return None;
    }
    Some(ends.trailing_zeros() as usize)
}

/// Returns the position of the first LF. Most lines are short, so the first bytes are tried at
/// once.
#[inline(always)]
fn line_end(bytes: &[u8]) -> Option<usize>
    ensures { IsFirstByte (is_byte 10) bytes.now result }
{
    match near_line_end(bytes) {
        Some(end) => Some(end),
        None => memchr(b'\n', bytes),
    }
}

/// Returns the bytes before the first LF and those after it; `None` if there is no LF.
#[inline(always)]
#[tactic(auto, using(crate::proofs::LineCuts::line_cuts))]
pub fn cut_line(bytes: &[u8]) -> Option<(&[u8], &[u8])>
    ensures none { IfNone result (All (λ b. b ≢ 10) bytes.now) }
    ensures plain { IfSome result (λ p. All (λ b. b ≢ 10) p.0.now) }
    ensures whole { IfSome result (λ p. bytes.now ≡ p.0.now ++ 10 ∷ p.1.now) }
{
    let end = line_end(bytes)?;
    Some((&bytes[..end], &bytes[end + 1..]))
}
