//! The progress of a worker in a call list.
ghost use Rattle.std.specs.Prelude.{◌≡◌, ◌≤◌, ◌+◌, true, false};
ghost use Rattle.ec_core.specs.declared.act.TheConstants.{VALUE_MAX};
ghost use Rattle.ec_core.specs.Calls.{is_pending};
ghost use Rattle.ec_core.specs.CallLists.{reply_number};
ghost use Rattle.ec_buffer.specs.Keeping.{call_count_after, turn_after};

use ec_core::{Reply, VALUE_MAX};

/// How many calls of a list of five are completed, the ticket that the first one drew (0 before),
/// and whether a call is pending.
#[derive(Clone, Copy, Debug, PartialEq, Eq)]
pub(crate) struct ListPhase {
    pub(crate) at: usize,
    pub(crate) turn: u64,
    pub(crate) going: bool,
    ghost small: { turn ≤ VALUE_MAX },
    ghost few: { at ≤ 5 },
    ghost busy: { going ≡ true → at ≤ 4 },
}

impl ListPhase {
    pub(crate) fn start() -> Self
        ensures at { result.at ≡ 0 }
        ensures turn { result.turn ≡ 0 }
        ensures going { result.going ≡ false }
    {
        ListPhase {
            at: 0,
            turn: 0,
            going: false,
        }
    }

    /// Takes the reply to the act that is due.
    pub(crate) fn take(&mut self, reply: Reply)
        requires more { self.old.at ≤ 4 }
        requires small { reply_number reply ≤ VALUE_MAX }
        ensures at { self.new.at ≡ call_count_after self.old.at reply }
        ensures turn { self.new.turn ≡ turn_after self.old.at self.old.turn reply }
        ensures going { self.new.going ≡ is_pending reply }
    {
        self.going = reply.is_pending();
        if self.going {
            return;
        }
        if self.at == 0 {
            self.turn = reply.number();
        }
        self.at += 1;
    }
}
