//! An eventcount, by number.
ghost use Rattle.std.specs.Prelude.{◌≡◌, ℕ, ◌<◌, ◌≤◌, ◌↔◌, IsSome, IfSome};

use std::marker::Model;

/// An eventcount.
#[derive(Clone, Copy, Debug, PartialEq, Eq)]
pub struct EventId {
    number: u8,
}

impl Model for EventId {
    ghost Value = { ℕ };

    ghost view = { λ i. i.number };

    ghost invariant = { λ i. i.number < 32 };

    ghost inverse = { λ n. record { number = n } };
}

impl EventId {
    /// Returns the id of eventcount n; `None` if n is above 31.
    #[inline(always)]
    pub fn new(n: usize) -> Option<Self>
        ensures variant { IsSome result ↔ (n < 32) }
        ensures value { IfSome result (λ i. i ≡ n) }
    {
        if n < 32 {
            Some(EventId { number: n as u8 })
        } else {
            None
        }
    }

    /// Returns its number, from 0 to 31.
    #[inline(always)]
    pub fn get(self) -> usize
        ensures value { result ≡ self }
        ensures small { result < 32 }
    {
        self.number as usize
    }
}
