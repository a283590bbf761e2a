//! Why a text is no trace.
use ec_core::{Refusal, Reply};
use thiserror::Error;

/// Why a line is rejected.
#[derive(Clone, Copy, Debug, PartialEq, Eq)]
pub enum LineFault {
    Bad,
    Refused(Refusal),
    WrongReply(Reply),
}

/// Why a line was not accepted: its fault, or out of memory.
#[derive(Clone, Copy, Debug, PartialEq, Eq)]
pub enum StageFault {
    Line(LineFault),
    Memory,
}

/// Why no trace was read. Lines are numbered from 1.
#[derive(Clone, Copy, Debug, PartialEq, Eq, Error)]
pub enum TraceFault {
    /// This line has none of the forms allowed in its place, has a `hand` in version 1, declares
    /// what can't be declared, has more than 8192 bytes, or is after the last.
    #[error("line {0}: bad line")]
    BadLine(u64),
    /// The step of this line is refused.
    #[error("line {0}: refused: {1}")]
    Refused(u64, Refusal),
    /// The step of this line has another reply than the line says. The right reply is given.
    #[error("line {0}: wrong reply")]
    WrongReply(u64, Reply),
    /// The input ended before the line `end` and its LF.
    #[error("unfinished")]
    Unfinished,
    /// The input has more than 67108864 bytes.
    #[error("too large")]
    TooLarge,
    /// A read failed. It was not tried again.
    #[error("a read failed")]
    Read,
    /// An allocation failed.
    #[error("memory was refused")]
    Memory,
}
