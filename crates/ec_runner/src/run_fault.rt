//! Why there is no report of a run.
use ec_count::WorkerId;
use thiserror::Error;

/// Why workers on threads gave no report.
#[derive(Clone, Copy, Debug, PartialEq, Eq, Error)]
pub enum RunFault {
    /// The run is on other declarations than the script's, and this is the first worker; or this
    /// worker's entries in the run are not its log; or the run does not bear out how it ended.
    #[error("the run is not what the workers were told")]
    Mismatch(WorkerId),
    /// A thread could not be started. Its worker left, and the others ran to their ends.
    #[error("a thread could not be started")]
    Spawn,
    /// There was no memory.
    #[error("there was no memory")]
    Memory,
}
