//! Completed calls as a text shows them.
use ec_core::Entry;

/// A completed call, written as one entry, and its point. The entry has the call's worker, the act
/// that began it, and the reply that ended it.
#[derive(Clone, Copy, Debug, PartialEq, Eq)]
pub struct LinearizedEntry {
    /// The point, as in a `Placed`.
    pub point: usize,
    /// The call, as one entry.
    pub entry: Entry,
}
