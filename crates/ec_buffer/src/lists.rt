//! The call lists of a buffer, for the workers of a setup.
ghost use Rattle.std.specs.Prelude.{◌≡◌, ℕ, ◌+◌, ◌<◌, ◌==◌, Bool, true, List, [], ◌∷◌, Option, Some};
ghost use Rattle.ec_count.specs.Tables.{may_take};
ghost use Rattle.ec_core.specs.declared.act.Act.{Act};
ghost use Rattle.ec_core.specs.declared.protocol.ListProgress.{ListProgress};
ghost use Rattle.ec_core.specs.Following.{CompletedCall, Rule, block_after, is_right};
ghost use Rattle.ec_core.specs.CallLists.{is_due, without_value};
ghost use Rattle.ec_buffer.specs.Follows.{is_on, is_cell, buffer_rules};
ghost use Rattle.ec_buffer.specs.Keeping.{list_progress, AreProducers};

use crate::BufferShape;
use crate::consume::consume_at;
use crate::produce::produce_at;
use ec_core::{Act, ListProgress, Protocol, Reply, is_due};
use ec_count::{Setup, WorkerId};

/// The call lists of a buffer.
#[derive(Drop)]
pub(crate) struct Lists<'a> {
    pub(crate) shape: &'a BufferShape,
    pub(crate) setup: &'a Setup,
    /// Which workers are producers; it is looked up for each entry of a run.
    producers: [bool; 16],
    ghost known: { AreProducers setup.now shape.now 16 producers },
}

/// Returns whether an act names an object of the buffer.
pub fn is_on(shape: &BufferShape, act: &Act) -> bool
    ensures { result ≡ is_on shape.now act.now }
{
    match act {
        Act::Advance(event) | Act::Read(event) | Act::Await(event, _) | Act::Hand(event, _) => {
            *event == shape.in_count() || *event == shape.out_count()
        }
        Act::Go => false,
        Act::Ticket(line) => *line == shape.put_seq() || *line == shape.take_seq(),
        Act::Put(cell, _) | Act::Get(cell) => shape.is_cell(*cell),
    }
}

/// Returns whether an act awaits the put of the item with this number. No sum is computed, since
/// the number plus one may overflow.
fn is_wait(shape: &BufferShape, number: u64, act: &Act) -> bool
    ensures { result ≡ is_due (Some (Act.Await shape.now.in_count (number + 1))) (without_value act.now) }
{
    match act {
        Act::Await(event, threshold) => {
            *event == shape.in_count() && *threshold > 0 && *threshold - 1 == number
        }
        _ => false,
    }
}

impl<'a> Lists<'a> {
    pub(crate) fn new(shape: &'a BufferShape, setup: &'a Setup) -> Self
        ensures shape { result.shape.now ≡ shape.now }
        ensures setup { result.setup.now ≡ setup.now }
    {
        let mut producers = [false; 16];
        for number in 0..16 {
            let worker = WorkerId::new(number).unwrap();
            producers[number] = setup.may_take(shape.put_seq(), worker);
        }
        Lists {
            shape,
            setup,
            producers,
        }
    }

    /// Returns whether the worker is a producer.
    #[inline(always)]
    fn produces(&self, worker: WorkerId) -> bool
        ensures { result ≡ may_take self.now.setup.now self.now.shape.now.put_seq worker }
    {
        self.producers[worker.get()]
    }

    /// Returns whether an act begins the call that the worker's list has next.
    #[inline(always)]
    fn is_next(&self, worker: WorkerId, kept: &ListProgress, act: &Act) -> bool
        ensures { (calls : List CompletedCall) → kept.now ≡ list_progress calls → result ≡ (buffer_rules self.now.setup.now self.now.shape.now worker).fits calls act.now }
    {
        if self.produces(worker) {
            is_due(&produce_at(self.shape, 0, kept.at, kept.first), act)
        } else if kept.at == 2 {
            is_wait(self.shape, kept.first, act)
        } else {
            is_due(&consume_at(self.shape, kept.at, kept.first), act)
        }
    }
}

impl<'a> Protocol for Lists<'a> {
    ghost rules = { λ s. buffer_rules s.setup.now s.shape.now };

    ghost keeps = { λ s. list_progress };

    fn start(&self) -> ListProgress {
        ListProgress {
            at: 0,
            first: 0,
            second: 0,
        }
    }

    fn is_right(&self, worker: WorkerId, kept: &ListProgress, act: &Act) -> bool {
        // (the call that is next is checked first, since in a run that follows most calls are that)
        self.is_next(worker, kept, act) || !is_on(self.shape, act)
    }

    fn after(
        &self,
        _worker: WorkerId,
        kept: &ListProgress,
        op: &Act,
        reply: Reply,
    ) -> ListProgress {
        if reply.is_pending() || !is_on(self.shape, op) {
            return *kept;
        }
        if kept.at >= 4 {
            return self.start();
        }
        ListProgress {
            at: kept.at + 1,
            first: if kept.at == 0 {
                reply.number()
            } else {
                kept.first
            },
            second: 0,
        }
    }
}
