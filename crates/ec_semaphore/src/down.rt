//! P on a semaphore.
ghost use Rattle.std.specs.Prelude.{◌≡◌, ◌≤◌, false, List};
ghost use Rattle.ec_core.specs.declared.act.TheConstants.{VALUE_MAX};
ghost use Rattle.ec_core.specs.Following.{CompletedCall};
ghost use Rattle.ec_semaphore.specs.DownPhases.{ticket_of};
ghost use Rattle.ec_semaphore.specs.Uses.{threshold, down_call};

use crate::SemaphoreShape;
use ec_core::{Act, Procedure, Reply, VALUE_MAX};

/// The phase of a P: what it does next.
#[derive(Clone, Copy, Debug, PartialEq, Eq)]
enum DownPhase {
    Draw,
    Wait { ticket: u64 },
    Over,
}

/// P: takes one from a semaphore. It draws a ticket, and waits until enough were given back.
#[derive(Clone, Copy, Debug, PartialEq, Eq)]
pub struct Down {
    shape: SemaphoreShape,
    phase: DownPhase,
    going: bool,
    ghost small: { ticket_of phase ≤ VALUE_MAX },
}

impl Down {
    /// Makes a P that has made no call.
    pub fn new(shape: SemaphoreShape) -> Self
        ensures whole { (calls : List CompletedCall) → ⟦<Down as Procedure>⟧.rest result calls ≡ down_call shape calls }
        ensures fresh { ⟦<Down as Procedure>⟧.is_going result ≡ false }
    {
        Down {
            shape,
            phase: DownPhase::Draw,
            going: false,
        }
    }
}

/// Returns the total that a P with this ticket waits for.
pub(crate) fn threshold(shape: &SemaphoreShape, ticket: u64) -> u64
    requires { ticket ≤ VALUE_MAX }
    ensures { result ≡ threshold shape.now ticket }
{
    (ticket + 1).saturating_sub(shape.initial())
}

impl Procedure for Down {
    ghost use Rattle.ec_semaphore.specs.DownPhases.{down_rest};

    ghost rest = { λ s calls. down_rest s.shape s.phase calls };

    ghost is_going = { λ s. s.going };

    fn next(&self) -> Option<Act> {
        if self.going {
            return Some(Act::Go);
        }
        match self.phase {
            DownPhase::Draw => Some(Act::Ticket(self.shape.line())),
            DownPhase::Wait { ticket } => Some(Act::Await(
                self.shape.count(),
                threshold(&self.shape, ticket),
            )),
            DownPhase::Over => None,
        }
    }

    fn take(&mut self, reply: Reply) {
        self.going = reply.is_pending();
        if self.going {
            return;
        }
        self.phase = match self.phase {
            DownPhase::Draw => DownPhase::Wait {
                ticket: reply.number(),
            },
            DownPhase::Wait { .. } | DownPhase::Over => DownPhase::Over,
        };
    }
}
