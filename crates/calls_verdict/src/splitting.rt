//! Splits the events of a history by their objects.
ghost use Rattle.std.specs.Prelude.{◌≡◌, List, [], length, map, reverse, IfOk, OnOk};
ghost use Rattle.calls_core.specs.declared.history.Event.{Event};
ghost use Rattle.calls_core.specs.Parts.{event_at, events_at};
ghost use Rattle.calls_verdict.specs.kept.Parts.{IsFollowed, IsPart, IsAdded};
ghost use Rattle.calls_verdict.specs.kept.Parts.{AreParts};
ghost use Rattle.calls_core.specs.Lists.{EachFrom};

use calls_core::{Action, Event, Events, Kind, PartList, PendingCall, take_pending};
use std::alloc::{AllocError, Global};

/// Updates the pending calls with an event, and returns the index of the event's object.
///
/// Returns `None` for a response of a worker without a pending call.
pub fn follow(pending: &mut Vec<PendingCall>, event: &Event) -> Result<Option<usize>, AllocError>
    ensures { IfOk result (IsFollowed pending.old.items pending.new.items event.now) }
{
    match event.action {
        Action::Invoke(object, op) => {
            pending.push(PendingCall::new(*event, object, op))?;
            Ok(Some(object))
        }
        Action::Respond(_reply) => {
            Ok(take_pending(pending, event.worker).map(|call| call.object))
        }
    }
}

/// Returns `count` empty lists.
fn empty_parts(alloc: Global, count: usize) -> Result<Vec<PartList>, AllocError>
    ensures count { IfOk result (λ v. length v.items ≡ count) }
    ensures empty { IfOk result (λ v. (events : List Event)
        → EachFrom (IsPart []) 0 (map (events_at events) v.items)) }
{
    let mut parts = Vec::with_capacity(alloc, count)?;
    for _i in 0..count {
        parts.push(PartList::new(alloc))?;
    }
    Ok(parts)
}

/// Adds the index of an event to the list of its object.
fn add(parts: &mut Vec<PartList>, object: usize, i: usize) -> Result<(), AllocError>
    ensures count { OnOk result (length parts.new.items ≡ length parts.old.items) }
    ensures added { OnOk result ((events : List Event) → IsAdded object (event_at events i)
        (map (events_at events) parts.old.items) (map (events_at events) parts.new.items)) }
{
    if object < parts.len() {
        parts[object].push(i)?;
    }
    Ok(())
}

/// Lists for each object its own events, by their indices.
pub fn split(alloc: Global, kinds: &[Kind], events: &Events) -> Result<Vec<PartList>, AllocError>
    ensures { IfOk result (λ v. AreParts (length kinds.now) (reverse events.now)
        (map (events_at events.now) v.items)) }
{
    let mut parts = empty_parts(alloc, kinds.len())?;
    let mut pending = Vec::new(alloc);
    for i in 0..events.len() {
        if let Some(object) = follow(&mut pending, &events.at(i))? {
            add(&mut parts, object, i)?;
        }
    }
    Ok(parts)
}
