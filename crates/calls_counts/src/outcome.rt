//! The outcome of a decision.
use crate::Fault;
use calls_core::CallList;

/// Whether a history has a linearization.
#[derive(Debug, Drop)]
pub enum Outcome {
    /// It has this one.
    Ordered(CallList),
    /// It has none: with the event at this index, and with none before, it shows this fault.
    Refused(usize, Fault),
}
