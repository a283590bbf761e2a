//! Why the calls of a buffer have no linearization.
use calls_core::Call;
use calls_schedule::Bound;
use calls_turns::{Clash, Step};
use std::alloc::Global;

/// Which way items are counted.
#[derive(Clone, Copy, Debug, PartialEq, Eq)]
pub enum Flow {
    /// They are put in.
    In,
    /// They are taken out.
    Out,
}

/// Completed calls and counts that show that no linearization exists. A call that timed out has no
/// effect and is not counted. An item is *taken by* a position if a consume that returned it was
/// invoked up to there.
#[derive(Debug, Drop)]
pub enum Fault {
    /// Up to the response of this consume, so many consumes had returned its item, and fewer
    /// produces of that item had been invoked.
    Unproduced {
        consume: Call,
        taken: usize,
        put: usize,
    },
    /// Up to the response of this call, so many produces had returned: more than the buffer has
    /// room for, even if each consume that was invoked by then had taken an item.
    Overfull {
        call: Call,
        put: usize,
        taken: usize,
    },
    /// Up to the response of this call, so many produces had returned of items that were not taken
    /// by then: more than the buffer has room for, even if each pending consume that was invoked by
    /// then had taken one of them.
    Crowded {
        call: Call,
        left: usize,
        pending: usize,
    },
    /// The produce returned before any produce of the consume's item was invoked. Up to there so
    /// many produces of its item had returned, and so many consumes that returned it were invoked
    /// after the response of the consume: together more than all produces of it.
    Overtaken {
        put: Call,
        consume: Call,
        before: usize,
        later: usize,
        all: usize,
    },
    /// The produce returned before any produce of the consume's item was invoked. Up to there so
    /// many produces had returned of items that were not taken by the response of the consume: more
    /// than the pending consumes that were invoked by then.
    Passed {
        put: Call,
        consume: Call,
        left: usize,
        pending: usize,
    },
    /// Up to the response of the call, so many produces had returned of items that were not taken
    /// by the response of the produce: as many as the buffer has room for, even if each pending
    /// consume that was invoked by then had taken one of them. The produce is the only one of its
    /// item, and returned later. And the item was not taken by the response of the call, or not
    /// yet produced.
    Squeezed {
        full: Call,
        put: Call,
        left: usize,
        pending: usize,
    },
    /// Before each of these positions so many items, which are put in once, were not taken, and are
    /// among the first ones: so at most the others were taken before it. The last of them are more
    /// than the first ones, of which they are.
    Overdue {
        bounds: Vec<Bound>,
    },
    /// If items are taken out, or put in, in the order that is known, then at least so many are by
    /// each of these positions. The clash says why not so many can be.
    Outrun {
        flow: Flow,
        steps: Vec<Step>,
        clash: Clash,
    },
}
