//! How far a count may go.
ghost use Rattle.std.specs.Prelude.{◌≡◌, ℕ, ◌^◌, ◌<◌, ◌≤◌, ◌↔◌, IsSome, IfSome};

use std::marker::Model;

/// How far each count may go, from 1 to 281474976710655.
#[derive(Clone, Copy, Debug, PartialEq, Eq)]
pub struct Limit {
    largest: u64,
}

impl Model for Limit {
    ghost Value = { ℕ };

    ghost view = { λ l. l.largest };

    ghost invariant = { λ l. (1 ≤ l.largest) × (l.largest < 2 ^ 48) };

    ghost inverse = { λ n. record { largest = n } };
}

impl Limit {
    /// Returns the limit n; `None` if n is 0 or above 281474976710655.
    pub fn new(n: u64) -> Option<Self>
        ensures variant { IsSome result ↔ ((1 ≤ n) × (n < 2 ^ 48)) }
        ensures value { IfSome result (λ l. l ≡ n) }
    {
        if 1 <= n && n <= 281_474_976_710_655 {
            Some(Limit { largest: n })
        } else {
            None
        }
    }

    /// Returns its number, from 1 to 281474976710655.
    #[inline(always)]
    pub fn get(self) -> u64
        ensures value { result ≡ self }
        ensures range { (1 ≤ result) × (result < 2 ^ 48) }
    {
        self.largest
    }
}
