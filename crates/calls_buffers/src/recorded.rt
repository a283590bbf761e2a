//! The calls of a history.
ghost use Rattle.std.specs.Prelude.{◌≡◌, ◌++◌, reverse, IfOk, OnOk};
ghost use Rattle.calls_core.specs.Histories.{pending_of, pending_after, ended_call};
ghost use Rattle.calls_core.specs.Histories.{completed_calls, pending_calls};

use calls_core::{Action, Call, CallList, Event, Part, PendingCall, take_pending};
use std::alloc::{AllocError, Global};

/// The calls of a history.
#[derive(Drop)]
pub(crate) struct Recorded {
    /// The completed ones, the latest response first.
    pub(crate) done: Vec<Call>,
    /// The pending ones, in the order of their invocations.
    pub(crate) pending: Vec<PendingCall>,
}

/// The calls of a history, in little memory.
#[derive(Drop)]
pub(crate) struct Listed {
    /// The completed ones, in the order of their responses.
    pub(crate) done: CallList,
    /// The pending ones, in the order of their invocations.
    pub(crate) pending: Vec<PendingCall>,
}

/// Takes in an event.
fn note(done: &mut CallList, pending: &mut Vec<PendingCall>, x: &Event) -> Result<(), AllocError>
    ensures calls { OnOk result (done.new ≡ done.old ++ ended_call x.now x.now.action
        (pending_of x.now.worker pending.old.items)) }
    ensures pending { OnOk result (pending.new.items ≡ pending_after x.now x.now.action
        pending.old.items) }
{
    match x.action {
        Action::Invoke(object, op) => {
            pending.push(PendingCall::new(*x, object, op))?;
        }
        Action::Respond(reply) => {
            if let Some(o) = take_pending(pending, x.worker) {
                done.push(o.complete(reply, x.at))?;
            }
        }
    }
    Ok(())
}

/// Lists the calls of a history.
pub(crate) fn list_calls(alloc: Global, events: &Part<'_>) -> Result<Listed, AllocError>
    ensures done { IfOk result (λ l. l.done ≡ reverse (completed_calls (reverse events.now))) }
    ensures pending { IfOk result (λ l. l.pending.items ≡ pending_calls (reverse events.now)) }
{
    let mut done = CallList::new(alloc);
    let mut pending = Vec::new(alloc);
    for i in 0..events.len() {
        note(&mut done, &mut pending, &events.at(i))?;
    }
    Ok(Listed { done, pending })
}

/// Returns the calls of a list, the last one first.
fn reversed(alloc: Global, list: &CallList) -> Result<Vec<Call>, AllocError>
    ensures { IfOk result (λ calls. calls.items ≡ reverse list.now) }
{
    let mut calls = Vec::with_capacity(alloc, list.len())?;
    for i in 0..list.len() {
        calls.push(list.at(i))?;
    }
    calls.reverse();
    Ok(calls)
}

/// Lists the calls of a history, for a decision that reads them again and again.
pub(crate) fn record(alloc: Global, events: &Part<'_>) -> Result<Recorded, AllocError>
    ensures done { IfOk result (λ r. r.done.items ≡ completed_calls (reverse events.now)) }
    ensures pending { IfOk result (λ r. r.pending.items ≡ pending_calls (reverse events.now)) }
{
    let Listed { done, pending } = list_calls(alloc, events)?;
    Ok(Recorded {
        done: reversed(alloc, &done)?,
        pending,
    })
}
