//! Why a text is not watched further.
use calls_core::Event;
use calls_monitor::Refused;
use calls_text::TextFault;

/// Why a text is not watched further.
#[derive(Clone, Copy, Debug, PartialEq, Eq)]
pub enum Stop {
    /// A line is at fault, or the text ends too early.
    Unread(TextFault),
    /// With this event the history has no linearization.
    Refused(Event, Refused),
    /// The history was decided at its end, and has no linearization.
    RefusedAtEnd,
    /// The history is not decided.
    NotDecided,
    /// The history calls an object that is not watched, and has more than `TEXT_MAX` bytes.
    TooLarge,
    /// An allocation failed, or a number would overflow.
    Memory,
}
