//! A theorem about a buffer made of eventcounts, sequencers and cells. Its workers' lists of calls,
//! each seen as one call of produce or consume, are linearizable as a bounded FIFO queue.
#![tactic(auto)]

mod laws;

pub use laws::{deliveries_are_linearizable, items_are_known};
