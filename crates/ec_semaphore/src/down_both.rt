//! P on two semaphores at once.
ghost use Rattle.std.specs.Prelude.{◌≡◌, ◌≢◌, ◌≤◌, false, List, []};
ghost use Rattle.ec_core.specs.declared.act.TheConstants.{VALUE_MAX};
ghost use Rattle.ec_core.specs.Following.{CompletedCall};
ghost use Rattle.ec_semaphore.specs.BothPhases.{first_ticket, second_of, next_phase};
ghost use Rattle.ec_semaphore.specs.Both.{down_both_call};

use crate::SemaphoreShape;
use crate::down::threshold;
use ec_core::{Act, Procedure, Reply, VALUE_MAX};

/// The phase of a P on two semaphores: what it does next.
#[derive(Clone, Copy, Debug, PartialEq, Eq)]
enum BothPhase {
    Line,
    Enter { turn: u64 },
    DrawFirst,
    DrawSecond { first: u64 },
    Leave { first: u64, second: u64 },
    WaitFirst { first: u64, second: u64 },
    WaitSecond { second: u64 },
    Over,
}

/// P on two semaphores at once. Both tickets are drawn while it has the common semaphore, so
/// workers on the same two are queued in one order. Then it waits for the one and for the other.
#[derive(Clone, Copy, Debug, PartialEq, Eq)]
pub struct DownBoth {
    common: SemaphoreShape,
    one: SemaphoreShape,
    other: SemaphoreShape,
    phase: BothPhase,
    going: bool,
    ghost small_first: { first_ticket phase ≤ VALUE_MAX },
    ghost small_second: { second_of phase ≤ VALUE_MAX },
}

impl DownBoth {
    /// Makes a P on two semaphores that has made no call. The three semaphores are different, and
    /// the common one has initial value 1, as `declare_both` gives it.
    pub fn new(common: SemaphoreShape, one: SemaphoreShape, other: SemaphoreShape) -> Self
        requires single { common.initial ≡ 1 }
        requires apart { (common ≢ one) × (common ≢ other) × (one ≢ other) }
        ensures whole { (calls : List CompletedCall) → ⟦<DownBoth as Procedure>⟧.rest result calls ≡ down_both_call common one other calls }
        ensures fresh { ⟦<DownBoth as Procedure>⟧.is_going result ≡ false }
    {
        DownBoth {
            common,
            one,
            other,
            phase: BothPhase::Line,
            going: false,
        }
    }

    /// Returns the act that is due if no call is pending.
    fn due(&self) -> Option<Act>
        ensures { result ≡ ⟦<DownBoth as Procedure>⟧.rest self.now [] }
    {
        match self.phase {
            BothPhase::Line => Some(Act::Ticket(self.common.line())),
            BothPhase::Enter { turn } => Some(Act::Await(self.common.count(), turn)),
            BothPhase::DrawFirst => Some(Act::Ticket(self.one.line())),
            BothPhase::DrawSecond { .. } => Some(Act::Ticket(self.other.line())),
            BothPhase::Leave { .. } => Some(Act::Advance(self.common.count())),
            BothPhase::WaitFirst { first, .. } => {
                Some(Act::Await(self.one.count(), threshold(&self.one, first)))
            }
            BothPhase::WaitSecond { second } => Some(Act::Await(
                self.other.count(),
                threshold(&self.other, second),
            )),
            BothPhase::Over => None,
        }
    }
}

/// Returns the phase after this one if its call returned this number, 0 if it returned none.
fn next_phase(phase: BothPhase, number: u64) -> BothPhase
    ensures { result ≡ next_phase phase number }
{
    match phase {
        BothPhase::Line => BothPhase::Enter { turn: number },
        BothPhase::Enter { .. } => BothPhase::DrawFirst,
        BothPhase::DrawFirst => BothPhase::DrawSecond { first: number },
        BothPhase::DrawSecond { first } => BothPhase::Leave {
            first,
            second: number,
        },
        BothPhase::Leave { first, second } => BothPhase::WaitFirst { first, second },
        BothPhase::WaitFirst { second, .. } => BothPhase::WaitSecond { second },
        BothPhase::WaitSecond { .. } => BothPhase::Over,
        BothPhase::Over => BothPhase::Over,
    }
}

impl Procedure for DownBoth {
    ghost use Rattle.ec_semaphore.specs.BothPhases.{both_rest};

    ghost rest = { λ s calls. both_rest s.common s.one s.other s.phase calls };

    ghost is_going = { λ s. s.going };

    fn next(&self) -> Option<Act> {
        if self.going {
            Some(Act::Go)
        } else {
            self.due()
        }
    }

    fn take(&mut self, reply: Reply) {
        self.going = reply.is_pending();
        if self.going {
            return;
        }
        self.phase = next_phase(self.phase, reply.number());
    }
}
