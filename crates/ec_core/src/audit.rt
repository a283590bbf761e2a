//! Why an audit returns no list.
use ec_count::WorkerId;
use thiserror::Error;

/// Why an audit of a run returns no list. The audit only reads the run.
#[derive(Clone, Copy, Debug, PartialEq, Eq, Error)]
pub enum AuditFault {
    /// The workers' calls on the audited group violate its call lists. `entry` is the position of
    /// the first entry that does so, counted from 0, and `worker` made this entry.
    #[error("entry {entry} breaks the call lists of its worker")]
    NotFollowed { worker: WorkerId, entry: usize },
    /// The calls conform to the lists, and an allocation failed.
    #[error("memory was refused")]
    Memory,
}
