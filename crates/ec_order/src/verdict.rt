//! Verdicts on an order.

/// What is first wrong with a list of placed calls. Places are counted from 0. The fault is that of
/// the first faulty place; if several hold there, it is the first in the order below.
#[derive(Clone, Copy, Debug, PartialEq, Eq)]
pub enum Verdict {
    /// The list is a linearization of the completed calls, each with its point.
    Good,
    /// The call at this place is no completed call of the run; or this is the length of the list,
    /// whose places are all right, and a completed call is not in it.
    Missing(usize),
    /// The call at this place is at an earlier place too.
    Repeated(usize),
    /// The call at this place ended before the invocation of a call at an earlier place.
    OutOfOrder(usize),
    /// The sequential object, after the calls at the earlier places, does not give the reply of the
    /// call at this place.
    WrongReply(usize),
    /// The point at this place is not the call's.
    WrongPoint(usize),
}
