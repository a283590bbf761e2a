//! The report of a script that was run.
use ec_core::{Entry, Run};
use ec_count::WorkerId;
use ec_machine::Outcome;
use thiserror::Error;

/// What the workers of a script did: the run that they made, and, for each declared worker in order
/// of declaration, its entries in order, and how its program has ended.
#[derive(Drop)]
pub struct Report {
    pub run: Run,
    pub logs: Vec<Vec<Entry>>,
    pub outcomes: Vec<Outcome>,
}

/// Why a schedule was not played to its end.
#[derive(Clone, Copy, Debug, PartialEq, Eq, Error)]
pub enum SimFault {
    /// This place of the schedule, counted from 0, names a worker that has ended. All places before
    /// it were played.
    #[error("place {place} of the schedule names a worker that has ended")]
    Ended { place: usize, worker: WorkerId },
    /// There was no memory.
    #[error("there was no memory")]
    Memory,
}
