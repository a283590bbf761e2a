//! Two lists of workers, each with a role of its own.
ghost use Rattle.std.specs.Prelude.{◌≡◌, ◌≤◌, List, ◌++◌, length};
ghost use Rattle.ec_count.specs.Roles.{roles_fault, shares_worker};

use crate::members::has_repeat;
use crate::setup::names_unknown;
use crate::{Setup, SetupFault, WorkerId};
use arrayvec::ArrayVec;

/// Returns whether a worker is in both lists.
pub fn shares_worker(first: &[WorkerId], second: &[WorkerId]) -> bool
    ensures { result ≡ shares_worker first.now second.now }
{
    first.iter().any(|w| second.contains(w))
}

/// Returns the workers of the first list, then those of the second.
pub fn concat(first: &[WorkerId], second: &[WorkerId]) -> ArrayVec<WorkerId, 32>
    requires few_first { length first.now ≤ 16 }
    requires few_second { length second.now ≤ 16 }
    ensures { result.items ≡ first.now ++ second.now }
{
    let mut both = ArrayVec::new();
    both.try_extend_from_slice(first).unwrap();
    both.try_extend_from_slice(second).unwrap();
    both
}

impl Setup {
    /// Returns why an object with these two roles can't be declared; `None` if it can.
    ///
    /// The first fault that applies is returned. `full` says that a table has too little room for
    /// the object, `none` that the object would have no cell.
    pub fn roles_fault(
        &self,
        full: bool,
        first: &[WorkerId],
        second: &[WorkerId],
        none: bool,
    ) -> Option<SetupFault>
        ensures { result ≡ roles_fault self.now full first.now second.now none }
    {
        if full || first.len() > 16 || second.len() > 16 {
            return Some(SetupFault::TooMany);
        }
        if names_unknown(self.workers(), first) || names_unknown(self.workers(), second) {
            return Some(SetupFault::UnknownWorker);
        }
        if has_repeat(first) || has_repeat(second) {
            return Some(SetupFault::Repeated);
        }
        if none || first.is_empty() || second.is_empty() {
            return Some(SetupFault::Empty);
        }
        if shares_worker(first, second) {
            return Some(SetupFault::TwoRoles);
        }
        None
    }
}
