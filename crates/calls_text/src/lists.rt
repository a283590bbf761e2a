//! Interns the lists of numbers that databases store: equal lists have one number.
ghost use Rattle.std.specs.Prelude.{◌≡◌, [], IfOk, OnErr, OnOk, option_map, slice_get};
ghost use Rattle.calls_text.specs.Lists.{is_zeros, lists_after, list_number};

use indexmap::IndexSet;
use std::alloc::{AllocError, Global};
use std::marker::Model;

/// Interned lists of numbers, in the order in which they were added.
///
/// The list at index i has the number i + 1. A list of zeros has the number 0 and is not stored.
#[derive(Drop)]
pub struct Lists {
    table: IndexSet<Vec<u64>>,
}

impl Model for Lists {
    ghost use Rattle.std.specs.Prelude.{ℕ, List, map};
    ghost use Rattle.std.specs.Global.{Vec};

    ghost Value = { List (List ℕ) };

    ghost view = { λ l. map (λ (v : Vec ℕ). v.items) l.table.keys };
}

/// Returns whether each number is 0.
fn is_zeros(list: &[u64]) -> bool
    ensures { result ≡ is_zeros list.now }
{
    list.iter().all(|n| *n == 0)
}

impl Lists {
    /// Returns a table without lists.
    pub(crate) fn new(alloc: Global) -> Lists
        ensures { result ≡ [] }
    {
        Lists {
            table: IndexSet::new(alloc),
        }
    }

    /// Returns the number of a list, which is added if it is new.
    pub(crate) fn number(&mut self, list: Vec<u64>) -> Result<usize, AllocError>
        ensures number { IfOk result (λ n. n ≡ list_number self.old list.items) }
        ensures after { OnOk result (self.new ≡ lists_after self.old list.items) }
        ensures err { OnErr result (self.new ≡ self.old) }
    {
        if is_zeros(&list) {
            return Ok(0);
        }
        // a set has fewer than 2 ^ 63 keys, so the sum below fits
        let _keys = self.table.len();
        match self.table.insert_full(list) {
            Ok((index, _)) => Ok(index + 1),
            Err(_) => Err(AllocError),
        }
    }

    /// Returns the list at an index.
    pub fn get(&self, index: usize) -> Option<&[u64]>
        ensures { option_map (λ l. l.now) result ≡ slice_get self.now index }
    {
        match self.table.get_index(index) {
            Some(list) => Some(list.as_slice()),
            None => None,
        }
    }
}
