//! Why the tickets of a sequencer have no linearization.
use calls_core::Call;

/// Completed tickets that show, by counting, that no linearization exists.
#[derive(Clone, Copy, Debug, PartialEq, Eq)]
pub enum Fault {
    /// Two tickets that returned one number.
    Twice(Call, Call),
    /// The first returned its number before the second, which returned a smaller one, was invoked.
    Turned(Call, Call),
    /// Fewer than n + 1 tickets can have returned 0 to n, if n is what this ticket returned.
    Drawn(Call),
}
