//! The critical section of P on two semaphores, as a list of calls.
ghost use Rattle.std.specs.Prelude.{◌≡◌, ℕ, ◌<◌, ◌==◌, List, [], ◌∷◌, Some, slice_get};
ghost use Rattle.ec_core.specs.declared.protocol.ListProgress.{ListProgress};
ghost use Rattle.ec_core.specs.Following.{CompletedCall, block_after, is_right};
ghost use Rattle.ec_semaphore.specs.Both.{is_semaphore_sequencer, both_rules};
ghost use Rattle.ec_semaphore.specs.Keeping.{list_progress_of_both};

use crate::SemaphoreShape;
use crate::uses::{NOTHING, is_on};
use ec_core::{Act, ListProgress, Protocol, Reply};
use ec_count::{SeqId, WorkerId};

/// The critical section of P on two of these semaphores, for workers that use a common one, and a
/// table of the sequencers that it may draw from.
#[derive(Drop)]
pub(crate) struct CriticalSections<'a> {
    common: SemaphoreShape,
    shapes: &'a [SemaphoreShape],
    lines: [bool; 32],
    ghost tabled: { (q : ℕ) → q < 32 → slice_get lines q ≡ Some (is_semaphore_sequencer common shapes.now q) },
}

/// Returns whether each sequencer is that of one of the semaphores, and not that of the common one.
fn semaphore_sequencers(common: &SemaphoreShape, shapes: &[SemaphoreShape]) -> [bool; 32]
    ensures { (q : ℕ) → q < 32
        → slice_get result q ≡ Some (is_semaphore_sequencer common.now shapes.now q) }
{
    let mut lines = [false; 32];
    for shape in shapes {
        let place = shape.line().get();
        lines[place] = place != common.line().get();
    }
    lines
}

impl<'a> CriticalSections<'a> {
    pub(crate) fn new(common: SemaphoreShape, shapes: &'a [SemaphoreShape]) -> Self
        ensures common { result.common ≡ common }
        ensures shapes { result.shapes.now ≡ shapes.now }
    {
        CriticalSections {
            common,
            shapes,
            lines: semaphore_sequencers(&common, shapes),
        }
    }

    /// Returns whether a ticket of the sequencer may be one of the two.
    fn is_semaphore_sequencer(&self, sequencer: SeqId) -> bool
        ensures { result ≡ is_semaphore_sequencer self.now.common self.now.shapes.now sequencer }
    {
        let place = sequencer.get();
        self.lines[place]
    }
}

impl<'a> Protocol for CriticalSections<'a> {
    ghost use Rattle.ec_semaphore.specs.Both.{is_semaphore_sequencer, both_rules};
    ghost use Rattle.ec_semaphore.specs.Keeping.{list_progress_of_both};

    ghost rules = { λ g. both_rules g.common (is_semaphore_sequencer g.common g.shapes.now) };

    ghost keeps = { λ _. list_progress_of_both };

    fn start(&self) -> ListProgress {
        NOTHING
    }

    fn is_right(&self, _worker: WorkerId, kept: &ListProgress, act: &Act) -> bool {
        let common = &self.common;
        match act {
            Act::Go => true,
            Act::Ticket(q) if kept.at == 2 => self.is_semaphore_sequencer(*q),
            Act::Ticket(q) if kept.at == 3 => self.is_semaphore_sequencer(*q)
                && q.get() as u64 != kept.second,
            Act::Await(e, turn) if kept.at == 1 => *e == common.count() && *turn == kept.first,
            Act::Advance(e) if kept.at == 4 => *e == common.count(),
            Act::Ticket(_) => kept.at == 0,
            other => kept.at == 0 && !is_on(common, other),
        }
    }

    fn after(
        &self,
        _worker: WorkerId,
        kept: &ListProgress,
        op: &Act,
        reply: Reply,
    ) -> ListProgress {
        if reply.is_pending() || (kept.at == 0 && !is_on(&self.common, op)) {
            return *kept;
        }
        if kept.at >= 4 {
            return NOTHING;
        }
        ListProgress {
            at: kept.at + 1,
            first: if kept.at == 0 { reply.number() } else { 0 },
            second: match op {
                Act::Ticket(sequencer) if kept.at == 2 => sequencer.get() as u64,
                _ => 0,
            },
        }
    }
}
