//! A decision on the calls of a buffer.
ghost use Rattle.std.specs.Prelude.{◌+◌, ◌<◌, ◌≤◌, length, reverse, IfOk};
ghost use Rattle.calls_core.specs.declared.history.Kind.TheVariants.{Buffer};
ghost use Rattle.calls_core.specs.Histories.{IsHistoryOf, clock};
ghost use Rattle.calls_core.specs.Beginnings.{past_at};
ghost use Rattle.calls_buffers.specs.Faults.{Shows};
ghost use Rattle.calls_verdict.specs.Verdicts.{IsHard, IsDecision};

use crate::verdict::{Cause, Decision, Fault};
use calls_core::{CallList, Part};
use calls_distinct::{events_up_to, next_between};
use std::alloc::{AllocError, Global};

/// Returns the last position that a fault names.
fn latest(fault: &calls_buffers::Fault) -> usize {
    match fault {
        calls_buffers::Fault::Unproduced { consume, .. } => consume.last,
        calls_buffers::Fault::Overfull { call, .. } | calls_buffers::Fault::Crowded { call, .. } =>
            { call.last }
        calls_buffers::Fault::Overtaken { put, consume, .. }
        | calls_buffers::Fault::Passed { put, consume, .. } => put.last.max(consume.last),
        calls_buffers::Fault::Squeezed { full, put, .. } => full.last.max(put.last),
        calls_buffers::Fault::Overdue { bounds } => {
            bounds.iter().map(|bound| bound.at).max().unwrap_or(0)
        }
        calls_buffers::Fault::Outrun { steps, .. } => {
            steps.iter().map(|step| step.at).max().unwrap_or(0)
        }
    }
}

/// Finds an event with which a fault is found, and is not found without it. The first `upto` events
/// show a fault. What a fault names and bisection take turns.
fn refuse(
    alloc: Global,
    room: usize,
    events: &Part<'_>,
    end: usize,
    upto: usize,
    fault: calls_buffers::Fault,
) -> Result<Decision, AllocError>
    requires history { IsHistoryOf (Buffer room) (reverse events.now) }
    requires late { clock (reverse events.now) ≤ end }
    requires some { 0 < upto }
    requires within { upto ≤ length events.now }
    requires shown { Shows room (past_at upto events.now) fault }
    ensures { IfOk result (IsDecision (Buffer room) events.now end) }
{
    let mut fault = fault;
    let mut low = 0;
    let mut high = upto;
    let mut halves = false;
    while high - low > 1 {
        let named = events_up_to(events, latest(&fault));
        let mid = next_between(low, high, named, halves);
        let beginning = events.first(mid);
        match calls_buffers::decide(alloc, room, &beginning, end)? {
            calls_buffers::Outcome::Refused(found) => {
                drop(fault);
                fault = found;
                high = mid;
                halves = !halves;
            }
            calls_buffers::Outcome::Ordered(calls) => {
                drop(calls);
                low = mid;
                halves = false;
            }
            calls_buffers::Outcome::NotDecided => {
                low = mid;
                halves = false;
            }
        }
    }
    Ok(Decision::Refused(low, Fault::Items(fault)))
}

/// Finds by bisection the first event with which no linearization is found, or a fault.
fn leave_open(
    alloc: Global,
    room: usize,
    events: &Part<'_>,
    end: usize,
) -> Result<Decision, AllocError>
    requires history { IsHistoryOf (Buffer room) (reverse events.now) }
    requires late { clock (reverse events.now) ≤ end }
    requires some { 0 < length events.now }
    requires hard { IsHard (Buffer room) end (reverse events.now) }
    ensures { IfOk result (IsDecision (Buffer room) events.now end) }
{
    let mut low = 0;
    let mut high = events.len();
    while high - low > 1 {
        let mid = next_between(low, high, 0, true);
        let beginning = events.first(mid);
        match calls_buffers::decide(alloc, room, &beginning, end)? {
            calls_buffers::Outcome::Ordered(calls) => {
                drop(calls);
                low = mid;
            }
            calls_buffers::Outcome::Refused(fault) => {
                return refuse(alloc, room, events, end, mid, fault);
            }
            calls_buffers::Outcome::NotDecided => high = mid,
        }
    }
    Ok(Decision::Open(low, Cause::Unfound(events.at(low).at)))
}

/// Decides the calls of a buffer with room for so many items, where an order or a fault is found.
pub fn decide_buffer(
    alloc: Global,
    room: usize,
    events: &Part<'_>,
    end: usize,
) -> Result<Decision, AllocError>
    requires history { IsHistoryOf (Buffer room) (reverse events.now) }
    requires late { clock (reverse events.now) ≤ end }
    ensures { IfOk result (IsDecision (Buffer room) events.now end) }
{
    let count = events.len();
    if count == 0 {
        return Ok(Decision::Ordered(CallList::new(alloc)));
    }
    match calls_buffers::decide(alloc, room, events, end)? {
        calls_buffers::Outcome::Ordered(calls) => Ok(Decision::Ordered(calls)),
        calls_buffers::Outcome::Refused(fault) => refuse(alloc, room, events, end, count, fault),
        calls_buffers::Outcome::NotDecided => leave_open(alloc, room, events, end),
    }
}
