//! A command of few numbers.
ghost use Rattle.ec_machine.specs.Tasks.{small_rest, small_going};

use crate::one_call::OneCall;
use ec_buffer::{Consume, Produce};
use ec_core::{Act, Procedure, Reply};
use ec_semaphore::{Down, DownBoth};

/// What is left of the calls of a command that keeps few numbers.
#[derive(Drop)]
pub(crate) enum SmallTask {
    /// No command is due.
    Nothing,
    One(OneCall),
    Produce(Produce),
    Consume(Consume),
    Down(Down),
    DownBoth(DownBoth),
}

impl Procedure for SmallTask {
    ghost rest = { small_rest };

    ghost is_going = { small_going };

    fn next(&self) -> Option<Act> {
        match self {
            SmallTask::Nothing => None,
            SmallTask::One(call) => call.next(),
            SmallTask::Produce(produce) => produce.next(),
            SmallTask::Consume(consume) => consume.next(),
            SmallTask::Down(down) => down.next(),
            SmallTask::DownBoth(both) => both.next(),
        }
    }

    fn take(&mut self, reply: Reply) {
        match self {
            SmallTask::Nothing => {}
            SmallTask::One(call) => call.take(reply),
            SmallTask::Produce(produce) => produce.take(reply),
            SmallTask::Consume(consume) => consume.take(reply),
            SmallTask::Down(down) => down.take(reply),
            SmallTask::DownBoth(both) => both.take(reply),
        }
    }
}
