//! A cell, by number.
ghost use Rattle.std.specs.Prelude.{◌≡◌, ℕ, ◌<◌, ◌≤◌, ◌↔◌, IsSome, IfSome};

use std::marker::Model;

/// A cell.
#[derive(Clone, Copy, Debug, PartialEq, Eq)]
pub struct CellId {
    number: u8,
}

impl Model for CellId {
    ghost Value = { ℕ };

    ghost view = { λ i. i.number };

    ghost invariant = { λ i. i.number < 256 };

    ghost inverse = { λ n. record { number = n } };
}

impl CellId {
    /// Returns the id of cell n; `None` if n is above 255.
    #[inline(always)]
    pub fn new(n: usize) -> Option<Self>
        ensures variant { IsSome result ↔ (n < 256) }
        ensures value { IfSome result (λ i. i ≡ n) }
    {
        if n < 256 {
            Some(CellId { number: n as u8 })
        } else {
            None
        }
    }

    /// Returns its number, from 0 to 255.
    #[inline(always)]
    pub fn get(self) -> usize
        ensures value { result ≡ self }
        ensures small { result < 256 }
    {
        self.number as usize
    }
}
