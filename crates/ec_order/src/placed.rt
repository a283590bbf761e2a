//! Calls in an order.
use crate::Call;

/// A completed call and its linearization point, the moment at which it takes effect. Moment k is
/// the one at which the first k entries of the run have happened, so that the entry at position k
/// happens right after it.
#[derive(Clone, Copy, Debug, PartialEq, Eq)]
pub struct Placed {
    /// The call.
    pub call: Call,
    /// The point. For a read or an await it is the least moment, from the start of its last round
    /// to its response, at which the total was its answer. For any other call it is its position.
    pub point: usize,
}
