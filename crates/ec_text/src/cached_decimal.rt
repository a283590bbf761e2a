//! Numbers that are stored with their digits.
ghost use Rattle.std.specs.Prelude.{◌≡◌, ◌+◌, ◌-◌, ◌<◌, decimal, length, slice_set};

use crate::buffer::InlineText;
use std::marker::Model;

/// A number with its decimal digits, so that they aren't computed each time it is put.
///
/// It is meant for a number that usually changes little, as the points of lines do: then `set`
/// replaces only the last digit. Any number may follow any other. If they differ in more than the
/// last digit, the digits are computed again.
#[derive(Drop)]
pub struct CachedDecimal {
    /// The number with a last digit of 0.
    tens: u64,
    /// The last digit. It is not written among the others: a copy of them all would have to wait for it.
    last: u8,
    /// The digits of `tens`.
    digits: InlineText,
}

impl Model for CachedDecimal {
    ghost use Rattle.std.specs.Prelude.{◌≡◌, ◌+◌, ◌%◌, ◌<◌, ◌^◌, ℕ, decimal};

    ghost Value = { ℕ };

    ghost view = { λ d. d.tens + d.last };

    ghost invariant = { λ d. (d.tens % 10 ≡ 0) × (d.last < 10) × (d.tens + d.last < 2 ^ 64) × (d.digits ≡ decimal d.tens) };
}

impl CachedDecimal {
    /// Makes a number, and computes its digits.
    #[inline(always)]
    pub fn new(n: u64) -> Self
        ensures { result ≡ n }
    {
        let last = n % 10;
        let tens = n - last;
        CachedDecimal {
            tens,
            last: last as u8,
            digits: InlineText::of_number(tens),
        }
    }

    /// Replaces the number by another.
    #[inline(always)]
    pub fn set(&mut self, n: u64)
        ensures { self.new ≡ n }
    {
        match n.checked_sub(self.tens) {
            Some(last) if last < 10 => self.last = last as u8,
            _ => self.spell(n),
        }
    }

    /// Replaces the number by one that differs in more than the last digit.
    #[inline(never)]
    fn spell(&mut self, n: u64)
        ensures { self.new ≡ n }
    {
        *self = CachedDecimal::new(n);
    }

    /// Returns the decimal digits of the number with any last digit, and the right last digit.
    ///
    /// Both are ready to be put.
    #[inline(always)]
    pub(crate) fn ending(&self) -> (&InlineText, u8)
        ensures some { 0 < length result.0.now }
        ensures digits { slice_set result.0.now (length result.0.now - 1) result.1 ≡ decimal self.now }
    {
        (&self.digits, b'0' + self.last)
    }

    /// Returns the decimal digits of the number.
    pub fn digits(&self) -> InlineText
        ensures { result ≡ decimal self.now }
    {
        InlineText::of_number(self.tens + u64::from(self.last))
    }
}
