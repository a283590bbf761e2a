//! Pairs of tickets.
use ec_count::{SeqId, WorkerId};

/// The two tickets of one P on two semaphores, in the order in which they were drawn, and the
/// sequencers that they were drawn from.
#[derive(Clone, Copy, Debug, PartialEq, Eq)]
pub struct Pair {
    pub worker: WorkerId,
    pub first: SeqId,
    pub first_ticket: u64,
    pub second: SeqId,
    pub second_ticket: u64,
}
