//! What is decided of a cell or a database.
use calls_core::{CallList, PendingCall};

/// Why the calls have no linearization.
#[derive(Debug, Drop)]
pub enum Fault {
    /// A fault of the form that calls_distinct finds, shown by the events up to this one.
    Distinct(calls_distinct::Fault),
    /// A fault of the form that calls_serial finds, shown by the events up to this one.
    Serial(calls_serial::Fault),
}

/// Why nothing is decided: a get returned a value that is not distinct, and two puts overlap.
///
/// The value was put twice, or it is 0 and was put. Each get returned 0, or a value put by then.
#[derive(Clone, Copy, Debug, PartialEq, Eq)]
pub struct Undecided {
    /// The value that a get returned.
    pub value: usize,
    /// The put that was invoked first.
    pub first: PendingCall,
    /// The put that was invoked while that was pending.
    pub second: PendingCall,
}

/// What is decided of a history.
#[derive(Debug, Drop)]
pub enum Outcome {
    /// The calls have this linearization.
    Ordered(CallList),
    /// They have none: the event at this index is the first with which they show a fault, among
    /// those with which something is decided.
    Refused(usize, Fault),
    /// The event at this index is the first with which nothing is decided.
    Undecided(usize, Undecided),
}
