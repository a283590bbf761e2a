//! The command that an interpreter is executing.
ghost use Rattle.std.specs.Prelude.{◌≡◌, false, List, None};
ghost use Rattle.ec_core.specs.Following.{CompletedCall};
ghost use Rattle.ec_machine.specs.Runs.{one_call};
ghost use Rattle.ec_machine.specs.Tasks.{small_rest, small_going, large_rest, large_going, task_rest, task_going};

use crate::large_task::LargeTask;
use crate::one_call::OneCall;
use crate::small_task::SmallTask;
use ec_core::{Act, Procedure, Reply};

/// The command that an interpreter is executing: the rest of its list of calls. Small and large
/// commands have a field each, so that a small one is executed without building or moving a large
/// one.
#[derive(Drop)]
pub(crate) struct Task {
    /// Which of the two is due; the other one is ignored.
    is_large: bool,
    small: SmallTask,
    large: LargeTask,
}

impl Task {
    /// Returns the task in which no command is due.
    pub(crate) fn nothing() -> Self
        ensures rest { (calls : List CompletedCall) → task_rest result calls ≡ None }
        ensures going { task_going result ≡ false }
    {
        Task {
            is_large: false,
            small: SmallTask::Nothing,
            large: LargeTask::Nothing,
        }
    }

    /// Makes this small command the one that is due.
    pub(crate) fn put_small(&mut self, small: SmallTask)
        ensures rest { (calls : List CompletedCall)
            → task_rest self.new calls ≡ small_rest small calls }
        ensures going { task_going self.new ≡ small_going small }
    {
        self.is_large = false;
        self.small = small;
    }

    /// Makes a command of this one call the one that is due.
    pub(crate) fn put_one(&mut self, act: Act)
        ensures rest { (calls : List CompletedCall)
            → task_rest self.new calls ≡ one_call act calls }
        ensures going { task_going self.new ≡ false }
    {
        self.put_small(SmallTask::One(OneCall::new(act)));
    }

    /// Makes this large command the one that is due.
    pub(crate) fn put_large(&mut self, large: LargeTask)
        ensures rest { (calls : List CompletedCall)
            → task_rest self.new calls ≡ large_rest large calls }
        ensures going { task_going self.new ≡ large_going large }
    {
        self.is_large = true;
        self.large = large;
    }
}

impl Procedure for Task {
    ghost rest = { task_rest };

    ghost is_going = { task_going };

    fn next(&self) -> Option<Act> {
        if self.is_large {
            self.large.next()
        } else {
            self.small.next()
        }
    }

    fn take(&mut self, reply: Reply) {
        if self.is_large {
            self.large.take(reply);
        } else {
            self.small.take(reply);
        }
    }
}
