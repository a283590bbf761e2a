//! The outcome of a decision about the calls of a bank.
use calls_core::{Call, CallList};

/// Up to the response of a call, more calls took a unit of a semaphore than it had units: those at
/// first, and one for each v that was invoked by then.
#[derive(Clone, Copy, Debug, PartialEq, Eq)]
pub struct Fault {
    /// The call, which took a unit of the semaphore too.
    pub call: Call,
    /// The index of the semaphore.
    pub index: usize,
}

/// Whether the calls have a linearization.
#[derive(Debug, Drop)]
pub enum Outcome {
    /// They have this one.
    Ordered(CallList),
    /// They have none. The event at this index is the first one with which there is none.
    Refused(usize, Fault),
}
