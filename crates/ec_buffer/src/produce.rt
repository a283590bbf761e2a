//! Producing one item.
ghost use Rattle.std.specs.Prelude.{◌≡◌, ℕ, ◌≤◌, false, List, slice_get};
ghost use Rattle.ec_core.specs.declared.act.TheConstants.{VALUE_MAX};
ghost use Rattle.ec_core.specs.Following.{CompletedCall};
ghost use Rattle.ec_buffer.specs.CallLists.{produce_call, produce_list};
ghost use Rattle.ec_buffer.specs.Keeping.{rest_of};

use crate::BufferShape;
use crate::list_phase::ListPhase;
use ec_core::{Act, Procedure, Reply, VALUE_MAX};

/// The procedure that puts one item into a buffer. It draws a ticket, waits for its turn and for a
/// free cell, puts the item, and advances the count of the puts.
#[derive(Clone, Copy, Debug, PartialEq, Eq)]
pub struct Produce {
    shape: BufferShape,
    item: u64,
    phase: ListPhase,
}

impl Produce {
    /// Makes a procedure for this item that has made no call.
    pub fn new(shape: BufferShape, item: u64) -> Self
        requires { item ≤ VALUE_MAX }
        ensures whole { (calls : List CompletedCall) → ⟦<Produce as Procedure>⟧.rest result calls ≡ produce_call shape item calls }
        ensures fresh { ⟦<Produce as Procedure>⟧.is_going result ≡ false }
    {
        Produce {
            shape,
            item,
            phase: ListPhase::start(),
        }
    }
}

/// Returns the call at a place of the list, if the ticket is `turn`.
pub(crate) fn produce_at(shape: &BufferShape, item: u64, at: usize, turn: u64) -> Option<Act>
    ensures { result ≡ slice_get (produce_list shape.now item turn) at }
{
    match at {
        0 => Some(Act::Ticket(shape.put_seq())),
        1 => Some(Act::Await(shape.in_count(), turn)),
        2 => Some(Act::Await(
            shape.out_count(),
            turn.saturating_sub(shape.cells() as u64 - 1),
        )),
        3 => Some(Act::Put(shape.cell_of(turn), item)),
        4 => Some(Act::Advance(shape.in_count())),
        _ => None,
    }
}

impl Procedure for Produce {
    ghost rest = { λ s. rest_of (produce_list s.shape s.item) s.phase.at s.phase.turn };

    ghost is_going = { λ s. s.phase.going };

    fn next(&self) -> Option<Act> {
        if self.phase.going {
            Some(Act::Go)
        } else {
            produce_at(&self.shape, self.item, self.phase.at, self.phase.turn)
        }
    }

    fn take(&mut self, reply: Reply) {
        self.phase.take(reply);
    }
}
