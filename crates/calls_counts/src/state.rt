//! The parts of the scan's state.
use calls_core::Call;

/// The place of an advance in the order, and when the advance takes effect.
///
/// A slot is free if it is known that the count rose, and not yet which advance raised it.
#[derive(Clone, Copy, Debug, PartialEq, Eq)]
pub struct Slot {
    /// The position at which the advance takes effect.
    pub moment: usize,
    /// The advance, or `None` if the slot is free.
    pub taken: Option<Call>,
}

/// A completed read or await, and its place among the slots.
#[derive(Clone, Copy, Debug, PartialEq, Eq)]
pub struct PlacedRead {
    /// The call.
    pub call: Call,
    /// How many slots are before it.
    pub place: usize,
}
