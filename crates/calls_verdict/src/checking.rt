//! Tests whether events are a history.
ghost use Rattle.std.specs.Prelude.{◌≡◌, ◌+◌, ◌<◌, ◌↔◌, IsTrue, IfOk, MatchOption, Some, length};
ghost use Rattle.std.specs.Prelude.{reverse, slice_get};
ghost use Rattle.calls_core.specs.declared.history.Event.{Event};
ghost use Rattle.calls_core.specs.declared.history.Kind.TheVariants.{Semaphores};
ghost use Rattle.calls_core.specs.Histories.{clock, pending_of, Takes, Suits, IsNext, IsHistory};
ghost use Rattle.calls_core.specs.Beginnings.{past_at};
ghost use Rattle.calls_verdict.specs.Misuses.{IsMisuseBy, IsFirstMisuse};
ghost use Rattle.calls_verdict.specs.kept.Tests.{IsFirstMisuseBy};

use crate::splitting::follow;
use calls_core::{Action, Events, Kind, Op, PendingCall, Reply, find};
use std::alloc::{AllocError, Global};

/// Why events are no history.
#[derive(Clone, Copy, Debug, PartialEq, Eq)]
pub enum Misuse {
    /// The position is not after those of earlier events.
    OutOfOrder,
    /// The worker invokes while it has a pending call.
    Busy,
    /// The object does not exist, or does not have the operation.
    NotTaken,
    /// The worker responds without a pending call.
    Idle,
    /// The reply does not suit the operation.
    Unsuited,
}

/// Returns whether this is an operation of the object at this index.
fn is_taken(kinds: &[Kind], object: usize, op: Op) -> bool
    ensures { IsTrue result ↔ Takes (slice_get kinds.now object) op }
{
    match (kinds.get(object), op) {
        (Some(Kind::Eventcount(_)), Op::Advance | Op::Read | Op::Await(_)) => true,
        (Some(Kind::Sequencer), Op::Ticket) => true,
        (Some(Kind::Semaphores(units)), Op::P(i) | Op::V(i)) => i < units.len(),
        (Some(Kind::Semaphores(units)), Op::PBoth(i, j)) => {
            i < units.len() && j < units.len() && i != j
        }
        (Some(Kind::Cell | Kind::Database(_)), Op::Put(_) | Op::Get) => true,
        (Some(Kind::Buffer(_)), Op::Produce(_) | Op::Consume) => true,
        _ => false,
    }
}

/// Returns whether a reply suits an operation.
fn suits(op: Op, reply: Reply) -> bool
    ensures { IsTrue result ↔ Suits op reply }
{
    match op {
        Op::Advance | Op::V(_) | Op::Put(_) => matches!(reply, Reply::Done),
        Op::Read | Op::Ticket | Op::Get => matches!(reply, Reply::Number(_)),
        Op::P(_) | Op::PBoth(_, _) => matches!(reply, Reply::Done | Reply::Timeout),
        Op::Produce(_) => matches!(reply, Reply::Done | Reply::Timeout),
        Op::Consume => matches!(reply, Reply::Number(_) | Reply::Timeout),
        Op::Await(_) => true,
    }
}

/// Returns a worker's pending call.
fn pending_call(pending: &[PendingCall], worker: usize) -> Option<PendingCall>
    ensures { result ≡ pending_of worker pending.now }
{
    match find(pending, worker) {
        Some(i) => Some(pending[i]),
        None => None,
    }
}

/// Returns whether the position of an event is not after that of the event before it.
fn is_out_of_order(events: &Events, i: usize) -> bool
    requires { i < length events.now }
    ensures { (x : Event) → slice_get events.now i ≡ Some x
        → (IsTrue result ↔ x.at < clock (past_at i events.now)) }
{
    i > 0 && events.at(i).at <= events.at(i - 1).at
}

/// Finds what is wrong with an action, if its worker has this pending call.
fn misuse_by(kinds: &[Kind], action: Action, pending: Option<PendingCall>) -> Option<Misuse>
    ensures { MatchOption result (IsNext kinds.now action pending)
        (IsFirstMisuseBy kinds.now action pending) }
{
    match (action, pending) {
        (Action::Invoke(_, _), Some(_)) => Some(Misuse::Busy),
        (Action::Invoke(object, op), None) => {
            if is_taken(kinds, object, op) {
                None
            } else {
                Some(Misuse::NotTaken)
            }
        }
        (Action::Respond(_), None) => Some(Misuse::Idle),
        (Action::Respond(reply), Some(call)) => {
            if suits(call.op, reply) {
                None
            } else {
                Some(Misuse::Unsuited)
            }
        }
    }
}

/// Finds the first event with which the events are no history, and why.
pub fn first_misuse(
    alloc: Global,
    kinds: &[Kind],
    events: &Events,
) -> Result<Option<(usize, Misuse)>, AllocError>
    ensures { IfOk result (λ r. MatchOption r (IsHistory kinds.now (reverse events.now)) (λ w.
        IsFirstMisuse kinds.now events.now w.0 w.1)) }
{
    let mut pending = Vec::new(alloc);
    for i in 0..events.len() {
        let event = events.at(i);
        if is_out_of_order(events, i) {
            return Ok(Some((i, Misuse::OutOfOrder)));
        }
        let call = pending_call(&pending, event.worker);
        if let Some(misuse) = misuse_by(kinds, event.action, call) {
            return Ok(Some((i, misuse)));
        }
        let _object = follow(&mut pending, &event)?;
    }
    Ok(None)
}
