//! Theorems on `watch` and `check`. Each is the contract of an empty function.
ghost use Rattle.calls_watch.specs.Laws.{WatchAgreesWithCheck, BothRefuseOneEvent};

/// States that `watch` and `check` agree on each text, if neither runs out of memory.
///
/// If no cell, database or buffer is called, they find a fault in the same texts. Otherwise a text
/// of at most `TEXT_MAX` bytes that one of them rejects may be not decided by the other, but is not
/// accepted.
pub fn watch_agrees_with_check()
    ensures { WatchAgreesWithCheck }
{}

/// States that if `check` rejects a history at an event, and `watch` at one as it came, it is the
/// same event.
///
/// A text has fewer than 2 ^ 64 bytes, or no cell, database or buffer is called up to the event.
pub fn both_refuse_one_event()
    ensures { BothRefuseOneEvent }
{}
