//! How a snapshot ends.
use arrayvec::ArrayVec;

/// How a snapshot ended.
#[derive(Debug, PartialEq, Eq, Drop)]
pub enum SnapshotEnd {
    /// The two reads of the last try agree: the version that they read, and the values of its
    /// cells, in order.
    Accepted(u64, ArrayVec<u64, 256>),
    /// The two reads of the last try differ: a write began meanwhile.
    Disturbed,
}
