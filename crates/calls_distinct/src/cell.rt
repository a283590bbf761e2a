//! The outcome of a decision about a cell.
use calls_core::{Call, CallList};

/// Why the calls of a cell have no linearization.
#[derive(Clone, Copy, Debug, PartialEq, Eq)]
pub enum Fault {
    /// This get returned a value, and no put of it was invoked before the get's response.
    Nowhere(Call),
    /// The first, of another value, precedes the second, a get that returned 0; and 0 was not put.
    Stale(Call, Call),
    /// Two values alternate: the first precedes the second, and the third the fourth; the first
    /// and the fourth have one value, the second and the third another. The second and the fourth
    /// may be pending puts: then the positions of their responses have no meaning.
    Alternate(Call, Call, Call, Call),
}

/// Whether the calls of a cell are linearizable.
#[derive(Debug, Drop)]
pub enum Outcome {
    /// They have this linearization. A pending put that took effect has its response at the end.
    Ordered(CallList),
    /// They have none: with the event at this index, and with none before, they show this fault.
    Refused(usize, Fault),
    /// Undecided: a get returned this value, which was put twice, or is 0 and was put. The
    /// invocation of a put of it is at this position.
    Repeated(usize, usize),
}
