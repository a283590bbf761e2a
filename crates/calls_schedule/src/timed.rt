//! Jobs with limits.
use crate::job::Job;

/// A job, with the greatest numbers of jobs that are done before its positions.
#[derive(Clone, Copy)]
pub(crate) struct Timed {
    /// The job.
    pub(crate) job: Job,
    /// The number before its earliest position.
    pub(crate) early: usize,
    /// The number before the position before which it has begun.
    pub(crate) by: usize,
    /// The number before the position before which it is done.
    pub(crate) late: usize,
}
