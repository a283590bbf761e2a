//! How a program has ended, if it has.
use ec_core::Refusal;

/// How a program has ended, if it has.
#[derive(Clone, Copy, Debug, PartialEq, Eq)]
pub enum Outcome {
    /// It has not: an act is due.
    Running,
    /// All commands are done.
    Finished,
    /// A step that it asked for was refused.
    Refused(Refusal),
    /// The command that is due has a value above VALUE_MAX.
    ValueTooLarge,
    /// It was stopped, because the workers were deadlocked.
    Stopped,
    /// It was given no more turns.
    OutOfTurns,
    /// There was no memory for a step.
    Memory,
}
