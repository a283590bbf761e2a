//! The outcome of a decision about a cell.

use calls_core::{Call, CallList, PendingCall};

/// Why the calls have no linearization.
#[derive(Debug, Drop)]
pub struct Fault {
    /// Gets, the latest first. Each but the latest can return the value of only one put. So that
    /// put took effect by the get's response, and the next get, which was invoked later, cannot
    /// return the value before it. The latest get can return the value of no put.
    pub gets: Vec<Call>,
}

/// Whether a history has a linearization.
#[derive(Debug, Drop)]
pub enum Outcome {
    /// The calls in the order of a linearization.
    Ordered(CallList),
    /// The index of the first event with which there is no linearization, and why there is none.
    Refused(usize, Fault),
    /// Two puts that overlap, so that nothing is decided.
    Overlapping(PendingCall, PendingCall),
}
