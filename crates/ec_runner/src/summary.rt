//! What a worker on a thread returns when it has ended.
use ec_core::{Act, Entry};
use ec_machine::Outcome;

/// What a worker asked for and got no reply to, and how many entries the run had then.
#[derive(Clone, Copy)]
pub(crate) struct LastRequest {
    pub act: Act,
    pub moment: usize,
}

/// The log of a worker, how its program ended, and what it asked for last, if it got no reply.
#[derive(Drop)]
pub(crate) struct Summary {
    pub log: Vec<Entry>,
    pub outcome: Outcome,
    pub asked: Option<LastRequest>,
}
