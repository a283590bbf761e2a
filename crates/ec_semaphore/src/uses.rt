//! The lists of calls on a semaphore.
ghost use Rattle.std.specs.Prelude.{◌≡◌, ℕ, ◌+◌, ◌-◌, ◌==◌, List, []};
ghost use Rattle.ec_core.specs.declared.protocol.ListProgress.{ListProgress};
ghost use Rattle.ec_core.specs.Following.{CompletedCall, block_after, is_right};
ghost use Rattle.ec_semaphore.specs.Uses.{threshold, is_on, use_rule, use_rules};
ghost use Rattle.ec_semaphore.specs.Keeping.{list_progress_of_use};

use crate::SemaphoreShape;
use ec_core::{Act, ListProgress, Protocol, Reply};
use ec_count::WorkerId;

/// The progress in a list of which no call is completed.
pub(crate) const NOTHING: ListProgress = ListProgress {
    at: 0,
    first: 0,
    second: 0,
};

/// Returns whether an act names the eventcount or the sequencer of a semaphore.
pub fn is_on(shape: &SemaphoreShape, act: &Act) -> bool
    ensures { result ≡ is_on shape.now act.now }
{
    match act {
        Act::Advance(event) | Act::Read(event) | Act::Await(event, _) | Act::Hand(event, _) => {
            *event == shape.count()
        }
        Act::Ticket(sequencer) => *sequencer == shape.line(),
        Act::Go | Act::Put(_, _) | Act::Get(_) => false,
    }
}

/// Returns whether a P with this ticket waits for this total. No sum is computed, since a ticket
/// may be any number here.
fn is_threshold(shape: &SemaphoreShape, ticket: u64, total: u64) -> bool
    ensures { result ≡ (total == threshold shape.now ticket) }
{
    let initial = shape.initial();
    if initial == 0 {
        total > 0 && total - 1 == ticket
    } else {
        total == ticket.saturating_sub(initial - 1)
    }
}

/// P and V on a semaphore, as call lists. Of the list that a worker is in, its ticket is kept.
impl Protocol for SemaphoreShape {
    ghost use Rattle.ec_semaphore.specs.Uses.{use_rules};
    ghost use Rattle.ec_semaphore.specs.Keeping.{list_progress_of_use};

    ghost rules = { use_rules };

    ghost keeps = { λ _. list_progress_of_use };

    fn start(&self) -> ListProgress {
        NOTHING
    }

    fn is_right(&self, _worker: WorkerId, kept: &ListProgress, act: &Act) -> bool {
        if !is_on(self, act) {
            return true;
        }
        match act {
            Act::Advance(_) | Act::Ticket(_) => kept.at == 0,
            Act::Await(_, total) => kept.at == 1 && is_threshold(self, kept.first, *total),
            _ => false,
        }
    }

    fn after(
        &self,
        _worker: WorkerId,
        kept: &ListProgress,
        op: &Act,
        reply: Reply,
    ) -> ListProgress {
        if reply.is_pending() || !is_on(self, op) {
            return *kept;
        }
        match op {
            Act::Advance(_) => NOTHING,
            _ if kept.at > 0 => NOTHING,
            _ => ListProgress {
                at: 1,
                first: reply.number(),
                second: 0,
            },
        }
    }
}
