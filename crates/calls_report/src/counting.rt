//! Counts calls of a history.
ghost use Rattle.std.specs.Prelude.{◌≡◌, ◌≤◌, [], count_by, reverse, IfOk, IfSome};
ghost use Rattle.std.specs.List.{cons_option};
ghost use Rattle.calls_core.specs.Histories.{ended_call, pending_of};
ghost use Rattle.calls_core.specs.Histories.{completed_calls, pending_calls};
ghost use Rattle.calls_report.specs.Counting.{is_counted, is_counted_pending, is_advance_of};
ghost use Rattle.calls_report.specs.Counting.{is_v_of};

use calls_core::{Action, Call, Event, Op, Part, PendingCall, Reply};
use calls_verdict::{find, follow};
use std::alloc::{AllocError, Global};

/// Which completed calls are counted.
#[derive(Clone, Copy, Debug, PartialEq, Eq)]
pub(crate) enum CountFilter {
    /// The advances of this object that were invoked at the first position or later and have their
    /// responses before the second.
    Advances(usize, usize, usize),
    /// The tickets of this object that returned at most this number.
    Tickets(usize, usize),
    /// The calls that took a unit of the semaphore at this index among the groups.
    Taken(usize),
}

/// Returns whether a completed call is counted.
fn is_counted(counted: CountFilter, call: &Call) -> bool
    ensures { result ≡ is_counted counted call.now }
{
    match counted {
        CountFilter::Advances(object, from, before) => {
            call.object == object
                && matches!(call.op, Op::Advance)
                && from <= call.first
                && call.last < before
        }
        CountFilter::Tickets(object, most) => {
            call.object == object
                && match call.reply {
                    Reply::Number(n) => n <= most,
                    _ => false,
                }
        }
        CountFilter::Taken(place) => {
            matches!(call.reply, Reply::Done)
                && match call.op {
                    Op::P(i) => i == place,
                    Op::PBoth(i, j) => i == place || j == place,
                    _ => false,
                }
        }
    }
}

/// Returns the call that an event completes, if it completes one of these.
pub fn completed_call(pending: &[PendingCall], event: &Event) -> Option<Call>
    ensures call { cons_option result [] ≡ ended_call event.now event.now.action
        (pending_of event.now.worker pending.now) }
    ensures at { IfSome result (λ c. c.last ≡ event.now.at) }
{
    let Action::Respond(reply) = event.action else {
        return None;
    };
    let Some(i) = find(pending, event.worker) else {
        return None;
    };
    let call = pending[i];
    Some(Call {
        worker: call.worker,
        object: call.object,
        op: call.op,
        reply,
        first: call.first,
        last: event.at,
    })
}

/// Returns 1 if there is a call that is counted, and otherwise 0.
fn count_one(counted: CountFilter, call: Option<Call>) -> usize
    ensures count { result ≡ count_by (is_counted counted) (cons_option call []) }
    ensures few { result ≤ 1 }
{
    match call {
        Some(call) => { if is_counted(counted, &call) { 1 } else { 0 } }
        None => 0,
    }
}

/// Returns how many of the completed calls are counted.
pub(crate) fn count_completed(
    alloc: Global,
    events: &Part<'_>,
    counted: CountFilter,
) -> Result<usize, AllocError>
    ensures { IfOk result (λ n. n ≡ count_by (is_counted counted)
        (completed_calls (reverse events.now))) }
{
    let mut pending = Vec::new(alloc);
    let mut count = 0;
    for i in 0..events.len() {
        let event = events.at(i);
        count += count_one(counted, completed_call(&pending, &event));
        let _object = follow(&mut pending, &event)?;
    }
    Ok(count)
}

/// Returns how many of these calls are calls of an object that were invoked up to a position.
fn count_pending(pending: &[PendingCall], object: usize, upto: usize) -> usize
    ensures { result ≡ count_by (is_counted_pending object upto) pending.now }
{
    pending
        .iter()
        .filter(|call| call.object == object && call.first <= upto)
        .count()
}

/// Returns the calls that are pending after these events, in the order of their invocations.
pub(crate) fn pending_after(
    alloc: Global,
    events: &Part<'_>,
) -> Result<Vec<PendingCall>, AllocError>
    ensures { IfOk result (λ calls. calls.items ≡ pending_calls (reverse events.now)) }
{
    let mut pending = Vec::new(alloc);
    for i in 0..events.len() {
        let _object = follow(&mut pending, &events.at(i))?;
    }
    Ok(pending)
}

/// Returns how many tickets of an object are pending that were invoked up to a position.
pub(crate) fn count_pending_tickets(
    alloc: Global,
    events: &Part<'_>,
    object: usize,
    upto: usize,
) -> Result<usize, AllocError>
    ensures { IfOk result (λ n. n ≡ count_by (is_counted_pending object upto)
        (pending_calls (reverse events.now))) }
{
    let pending = pending_after(alloc, events)?;
    Ok(count_pending(&pending, object, upto))
}

/// Returns whether an event invokes an advance of an object.
pub(crate) fn is_advance_of(event: &Event, object: usize) -> bool
    ensures { result ≡ is_advance_of object event.now }
{
    match event.action {
        Action::Invoke(k, Op::Advance) => k == object,
        _ => false,
    }
}

/// Returns how many advances of an object were invoked.
pub(crate) fn count_advances(events: &Part<'_>, object: usize) -> usize
    ensures { result ≡ count_by (is_advance_of object) events.now }
{
    let mut count = 0;
    for i in 0..events.len() {
        if is_advance_of(&events.at(i), object) {
            count += 1;
        }
    }
    count
}

/// Returns whether an event invokes a `v` of a semaphore.
fn is_v_of(event: &Event, place: usize) -> bool
    ensures { result ≡ is_v_of place event.now }
{
    match event.action {
        Action::Invoke(_, Op::V(i)) => i == place,
        _ => false,
    }
}

/// Returns how many `v` of a semaphore were invoked. `place` is its index among the groups.
pub(crate) fn count_v_calls(events: &Part<'_>, place: usize) -> usize
    ensures { result ≡ count_by (is_v_of place) events.now }
{
    let mut count = 0;
    for i in 0..events.len() {
        if is_v_of(&events.at(i), place) {
            count += 1;
        }
    }
    count
}
