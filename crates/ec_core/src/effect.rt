//! The effect of a step that is not refused.
ghost use Rattle.std.specs.Prelude.{◌≡◌};
ghost use Rattle.ec_core.specs.kept.Fields.{reply_of_effect, as_first};

use crate::under_way::Round;
use crate::{Reply, UnderWay};
use ec_count::{CellId, EventId, SeqId, WorkerId};

/// The effect of a step that is not refused: how it changes a world, and so its reply.
#[derive(Clone, Copy)]
pub(crate) enum Effect {
    /// The component of the eventcount rises by one.
    Raise(EventId, usize),
    /// The first component of this call is read, which is then pending.
    Begin(UnderWay),
    /// A component is read by the pending call, whose round then has this progress.
    GoOn(Round),
    /// The last component of a call is read: the sum is returned, and no call is pending then.
    End(u64),
    /// The sequencer's ticket of this number is drawn.
    Draw(SeqId, u64),
    /// The value is written into the cell.
    Put(CellId, u64),
    /// A cell with this value is read.
    Get(u64),
    /// The worker's component of the eventcount is transferred to this worker.
    Hand(EventId, WorkerId),
}

impl Effect {
    /// Returns the reply to the worker.
    #[inline(always)]
    pub(crate) fn reply(self) -> Reply
        ensures { result ≡ reply_of_effect self }
    {
        match self {
            Effect::Raise(_, _) | Effect::Put(_, _) | Effect::Hand(_, _) => Reply::Done,
            Effect::Begin(_) | Effect::GoOn(_) => Reply::Pending,
            Effect::End(number) | Effect::Draw(_, number) | Effect::Get(number) => {
                Reply::Number(number)
            }
        }
    }

    /// Returns the effect of the first read of this call, given that of a read in a pending call.
    #[inline(always)]
    pub(crate) fn as_first(self, call: &UnderWay) -> Effect
        ensures { result ≡ as_first call.now self }
    {
        match self {
            Effect::GoOn(round) => Effect::Begin(call.at(round)),
            other => other,
        }
    }
}
