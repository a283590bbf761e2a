//! A worker, by number.
ghost use Rattle.std.specs.Prelude.{◌≡◌, ℕ, ◌<◌, ◌≤◌, ◌↔◌, IsSome, IfSome};

use std::marker::Model;

/// A worker.
#[derive(Clone, Copy, Debug, PartialEq, Eq)]
pub struct WorkerId {
    number: u8,
}

impl Model for WorkerId {
    ghost Value = { ℕ };

    ghost view = { λ i. i.number };

    ghost invariant = { λ i. i.number < 16 };

    ghost inverse = { λ n. record { number = n } };
}

impl WorkerId {
    /// Returns the id of worker n; `None` if n is above 15.
    #[inline(always)]
    pub fn new(n: usize) -> Option<Self>
        ensures variant { IsSome result ↔ (n < 16) }
        ensures value { IfSome result (λ i. i ≡ n) }
    {
        if n < 16 {
            Some(WorkerId { number: n as u8 })
        } else {
            None
        }
    }

    /// Returns its number, from 0 to 15.
    #[inline(always)]
    pub fn get(self) -> usize
        ensures value { result ≡ self }
        ensures small { result < 16 }
    {
        self.number as usize
    }
}

impl Default for WorkerId {
    ghost is_default = { λ i. i ≡ 0 };

    fn default() -> Self {
        WorkerId { number: 0 }
    }
}
