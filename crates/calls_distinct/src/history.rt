//! The calls of a history.
ghost use Rattle.std.specs.Prelude.{◌≡◌, ◌++◌, reverse, IfOk, OnOk};
ghost use Rattle.calls_core.specs.Histories.{pending_of, pending_after, ended_call};
ghost use Rattle.calls_core.specs.Histories.{completed_calls, pending_calls};
ghost use Rattle.calls_core.specs.Linearizations.{answered_calls};
ghost use Rattle.calls_distinct.specs.kept.Nowhere.{EndsWith};
ghost use Rattle.calls_distinct.specs.kept.Zones.{put_answer, begun_calls};

use crate::reading::is_put;
use calls_core::{Action, Call, Event, Part, PendingCall, Reply, take_pending};
use std::alloc::{AllocError, Global};

/// Follows one event, which makes a call pending, or completes the call that it returns.
pub(crate) fn follow(pending: &mut Vec<PendingCall>, x: &Event) -> Result<Option<Call>, AllocError>
    ensures call { IfOk result (λ call. EndsWith x.now (pending_of x.now.worker pending.old.items)
        call) }
    ensures pending { OnOk result (pending.new.items ≡ pending_after x.now x.now.action
        pending.old.items) }
{
    match x.action {
        Action::Invoke(object, op) => {
            pending.push(PendingCall::new(*x, object, op))?;
            Ok(None)
        }
        Action::Respond(reply) => match take_pending(pending, x.worker) {
            Some(o) => Ok(Some(o.complete(reply, x.at))),
            None => Ok(None),
        },
    }
}

/// Adds one event: it makes a call pending, or completes it.
fn note(calls: &mut Vec<Call>, pending: &mut Vec<PendingCall>, x: &Event) -> Result<(), AllocError>
    ensures calls { OnOk result (calls.new.items ≡ calls.old.items ++ ended_call x.now x.now.action
        (pending_of x.now.worker pending.old.items)) }
    ensures pending { OnOk result (pending.new.items ≡ pending_after x.now x.now.action
        pending.old.items) }
{
    if let Some(call) = follow(pending, x)? {
        calls.push(call)?;
    }
    Ok(())
}

/// Adds the pending puts, with a response at `end`.
fn add_puts(calls: &mut Vec<Call>, pending: &[PendingCall], end: usize) -> Result<(), AllocError>
    ensures { OnOk result (calls.new.items ≡ calls.old.items ++ answered_calls end put_answer
        pending.now) }
{
    for o in pending {
        if is_put(o.op) {
            calls.push(o.complete(Reply::Done, end))?;
        }
    }
    Ok(())
}

/// Lists the completed calls, and the pending puts with a response at `end`.
pub(crate) fn calls_in(
    alloc: Global,
    events: &Part<'_>,
    end: usize,
) -> Result<Vec<Call>, AllocError>
    ensures { IfOk result (λ v. v.items ≡ begun_calls (completed_calls (reverse events.now))
        (pending_calls (reverse events.now)) end) }
{
    let mut calls = Vec::new(alloc);
    let mut pending = Vec::new(alloc);
    for i in 0..events.len() {
        note(&mut calls, &mut pending, &events.at(i))?;
    }
    add_puts(&mut calls, &pending, end)?;
    Ok(calls)
}
