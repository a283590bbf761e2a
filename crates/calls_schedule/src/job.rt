//! Jobs, and bounds on how many of them are done.

/// A job of one unit.
#[derive(Clone, Copy, Debug, PartialEq, Eq)]
pub struct Job {
    /// What it is the job of: a number that the caller knows.
    pub item: usize,
    /// It is not done before this position.
    pub early: usize,
    /// It has begun before this position: at most as many jobs of lower rank as there is room for
    /// are not done yet.
    pub by: usize,
    /// It is done before this position.
    pub late: usize,
}

/// At most `due - jobs` jobs are done before position `at`.
#[derive(Clone, Copy, Debug, PartialEq, Eq)]
pub struct Bound {
    /// The position.
    pub at: usize,
    /// Among how many first jobs those are that are counted.
    pub due: usize,
    /// How many of them are not done before the position, at least.
    pub jobs: usize,
}
