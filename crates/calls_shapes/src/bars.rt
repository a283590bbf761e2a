//! The bars: one for each call.
ghost use Rattle.std.specs.Prelude.{IfOk};
ghost use Rattle.calls_shapes.specs.Bars.{AreBars};

use calls_core::{Call, Part, PendingCall};
use calls_report::completed_call;
use calls_verdict::follow;
use std::alloc::{AllocError, Global};

/// The calls of a history. A completed one is a bar with two ends, a pending one is open.
#[derive(Debug, Drop)]
pub struct Bars {
    /// The completed calls, in the order of their responses.
    pub completed: Vec<Call>,
    /// The pending calls, in the order of their invocations.
    pub pending: Vec<PendingCall>,
}

/// Returns the bars of these events: exactly their calls.
pub fn bars_of(alloc: Global, events: &Part<'_>) -> Result<Bars, AllocError>
    ensures { IfOk result (AreBars events.now) }
{
    let mut bars = Bars {
        completed: Vec::new(alloc),
        pending: Vec::new(alloc),
    };
    for i in 0..events.len() {
        let event = events.at(i);
        if let Some(call) = completed_call(&bars.pending, &event) {
            bars.completed.push(call)?;
        }
        let _object = follow(&mut bars.pending, &event)?;
    }
    Ok(bars)
}
