//! Consuming one item.
ghost use Rattle.std.specs.Prelude.{◌≡◌, ℕ, ◌≤◌, false, List, slice_get};
ghost use Rattle.ec_core.specs.declared.act.TheConstants.{VALUE_MAX};
ghost use Rattle.ec_core.specs.Following.{CompletedCall};
ghost use Rattle.ec_buffer.specs.CallLists.{consume_call, consume_list};
ghost use Rattle.ec_buffer.specs.Keeping.{rest_of};

use crate::BufferShape;
use crate::list_phase::ListPhase;
use ec_core::{Act, Procedure, Reply, VALUE_MAX};

/// The procedure that gets one item from a buffer. It draws a ticket, waits for its turn and for
/// the item, gets the item, and advances the count of the gets. Its fourth call returns the item.
#[derive(Clone, Copy, Debug, PartialEq, Eq)]
pub struct Consume {
    shape: BufferShape,
    phase: ListPhase,
}

impl Consume {
    /// Makes a procedure that has made no call.
    pub fn new(shape: BufferShape) -> Self
        ensures whole { (calls : List CompletedCall) → ⟦<Consume as Procedure>⟧.rest result calls ≡ consume_call shape calls }
        ensures fresh { ⟦<Consume as Procedure>⟧.is_going result ≡ false }
    {
        Consume {
            shape,
            phase: ListPhase::start(),
        }
    }
}

/// Returns the call at a place of the list, if the ticket is `turn`.
pub(crate) fn consume_at(shape: &BufferShape, at: usize, turn: u64) -> Option<Act>
    requires { at ≡ 2 → turn ≤ VALUE_MAX }
    ensures { result ≡ slice_get (consume_list shape.now turn) at }
{
    match at {
        0 => Some(Act::Ticket(shape.take_seq())),
        1 => Some(Act::Await(shape.out_count(), turn)),
        2 => Some(Act::Await(shape.in_count(), turn + 1)),
        3 => Some(Act::Get(shape.cell_of(turn))),
        4 => Some(Act::Advance(shape.out_count())),
        _ => None,
    }
}

impl Procedure for Consume {
    ghost rest = { λ s. rest_of (consume_list s.shape) s.phase.at s.phase.turn };

    ghost is_going = { λ s. s.phase.going };

    fn next(&self) -> Option<Act> {
        if self.phase.going {
            Some(Act::Go)
        } else {
            consume_at(&self.shape, self.phase.at, self.phase.turn)
        }
    }

    fn take(&mut self, reply: Reply) {
        self.phase.take(reply);
    }
}
