//! The theorems: each function states one as its contract.
ghost use Rattle.calls_deliveries.specs.Laws.{DeliveriesAreLinearizable, ItemsAreKnown};

/// States that a history of steps that follows a buffer is linearizable as calls of a FIFO queue.
///
/// Each list of producing or consuming one item is one call of produce or consume.
pub fn deliveries_are_linearizable()
    ensures { DeliveriesAreLinearizable }
{}

/// States that the items of a history that follows a buffer are what was put, in order of time.
///
/// So the theorem above is about each such history.
pub fn items_are_known()
    ensures { ItemsAreKnown }
{}
