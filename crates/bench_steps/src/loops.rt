//! The loop of steps.
use crate::objects::Objects;
use ec_core::{Act, Reply, Run, World};
use ec_count::WorkerId;

/// How many steps one round of the loop has.
const ROUND: u64 = 6;

/// The results of the steps.
#[derive(Clone, Copy)]
pub(crate) struct Sums {
    pub(crate) total: u64,
    pub(crate) issued: u64,
    pub(crate) returned: u64,
}

/// A world or a run, on which steps are made.
pub(crate) trait Steps {
    /// Makes a step, and returns the number of its reply, 0 if it has none, or `None` if it fails.
    fn make(&mut self, worker: WorkerId, act: Act) -> Option<u64>;
}

/// Returns the number of a reply, 0 if it has none.
fn number_of(reply: Reply) -> u64 {
    match reply {
        Reply::Number(n) => n,
        Reply::Done | Reply::Pending => 0,
    }
}

impl Steps for World {
    fn make(&mut self, worker: WorkerId, act: Act) -> Option<u64> {
        Some(number_of(self.step(worker, act).ok()?))
    }
}

impl Steps for Run {
    fn make(&mut self, worker: WorkerId, act: Act) -> Option<u64> {
        Some(number_of(self.step(worker, act).ok()?))
    }
}

/// Makes one round: an advance, a read of four components, and a ticket. Returns the sum of the
/// numbers of the last two.
fn round<S: Steps>(steps: &mut S, objects: &Objects, worker: WorkerId) -> Option<u64> {
    steps.make(worker, Act::Advance(objects.event))?;
    steps.make(worker, Act::Read(objects.event))?;
    steps.make(worker, Act::Go)?;
    steps.make(worker, Act::Go)?;
    let total = steps.make(worker, Act::Go)?;
    let ticket = steps.make(worker, Act::Ticket(objects.sequencer))?;
    Some(total.wrapping_add(ticket))
}

/// Makes at least so many steps, in whole rounds by each worker in turn, and returns the sum of the
/// numbers that they return.
pub(crate) fn many<S: Steps>(steps: &mut S, objects: &Objects, count: u64) -> Option<u64> {
    let mut returned = 0u64;
    for i in 0..count.div_ceil(ROUND) {
        let worker = objects.workers[(i % 4) as usize];
        returned = returned.wrapping_add(round(steps, objects, worker)?);
    }
    Some(returned)
}
