//! Groups of objects, each of which has its own call lists.
ghost use Rattle.std.specs.Prelude.{◌≡◌, ℕ, List, []};
ghost use Rattle.ec_core.specs.Following.{CompletedCall, Rule, block_after, is_right};
ghost use Rattle.ec_core.specs.declared.protocol.ListProgress.{ListProgress};

use crate::{Act, Reply};
use ec_count::WorkerId;

/// The progress of a worker in its current call list.
///
/// `at` is how many calls of the list are completed. `first` and `second` are two numbers of these
/// calls, such as a ticket; each is 0 if the group has no use for it.
#[derive(Clone, Copy, Debug, PartialEq, Eq)]
pub struct ListProgress {
    pub at: usize,
    pub first: u64,
    pub second: u64,
}

/// The call lists of a group of objects, as a rule for each worker.
///
/// The progress of a worker in its list is enough to judge its next act.
pub trait Protocol {
    ghost rules: { Self → ℕ → Rule };

    ghost keeps: { Self → List CompletedCall → ListProgress };

    /// Returns the progress at which no call of a list is completed.
    fn start(&self) -> ListProgress
        ensures { result ≡ keeps self.now [] };

    /// Returns whether an act of the worker conforms to its list at this progress.
    fn is_right(&self, worker: WorkerId, kept: &ListProgress, act: &Act) -> bool
        ensures { (calls : List CompletedCall) → kept.now ≡ keeps self.now calls → result ≡ is_right (rules self.now worker) calls act.now };

    /// Returns the progress after one more step of a call, given the act that began the call.
    fn after(&self, worker: WorkerId, kept: &ListProgress, op: &Act, reply: Reply) -> ListProgress
        ensures { (calls : List CompletedCall) → kept.now ≡ keeps self.now calls → result ≡ keeps self.now (block_after (rules self.now worker) calls op.now reply) };
}
