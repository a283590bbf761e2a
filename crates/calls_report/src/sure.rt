//! The count that an eventcount has surely reached at the end of a history.
ghost use Rattle.std.specs.Prelude.{◌≡◌, ◌+◌, count_by, reverse, IfOk};
ghost use Rattle.calls_core.specs.Histories.{pending_calls, completed_calls};
ghost use Rattle.calls_counts.specs.Faults.{least};
ghost use Rattle.calls_report.specs.Certificates.{start_at};
ghost use Rattle.calls_report.specs.Counting.{is_advance_of};
ghost use Rattle.calls_report.specs.Remarks.{returned_advances, greatest_shown, sure_count};
ghost use Rattle.calls_report.specs.kept.Sure.{is_pending_advance, is_open_after, left_after};
ghost use Rattle.calls_report.specs.kept.Sure.{raised_by};

use crate::certificate::start_at;
use crate::counting::{completed_call, count_advances, is_advance_of};
use calls_core::{Call, Event, Op, Part, PendingCall, Reply};
use calls_text::Recording;
use calls_verdict::follow;
use std::alloc::{AllocError, Global};

/// Returns the least count at which an eventcount gives a reply.
fn least(op: Op, reply: Reply) -> usize
    ensures { result ≡ least op reply }
{
    match (op, reply) {
        (Op::Read, Reply::Number(n)) => n,
        (Op::Await(v), Reply::Done) => v,
        (Op::Await(_), Reply::Number(n)) => n,
        _ => 0,
    }
}

/// Returns how many pending calls are advances of an object.
fn count_open(pending: &[PendingCall], object: usize) -> usize
    ensures { result ≡ count_by (is_pending_advance object) pending.now }
{
    pending
        .iter()
        .filter(|call| call.object == object && matches!(call.op, Op::Advance))
        .count()
}

/// Returns how many pending calls are advances of an object that were invoked after a position.
fn count_open_after(pending: &[PendingCall], object: usize, position: usize) -> usize
    ensures { result ≡ count_by (is_open_after object position) pending.now }
{
    pending
        .iter()
        .filter(|call| {
            position < call.first && call.object == object && matches!(call.op, Op::Advance)
        })
        .count()
}

/// Returns how many of the `left` advances from an event on come after it.
fn left_after(left: usize, event: &Event, object: usize) -> usize
    ensures { result ≡ left_after object left event.now }
{
    if is_advance_of(event, object) {
        left.saturating_sub(1)
    } else {
        left
    }
}

/// Returns the greater of a count and of that which a completed call of the object shows.
///
/// `left` advances were invoked after the response of the call; of these, the ones in `pending`
/// have not returned.
fn max_with_call(
    greatest: usize,
    call: Option<Call>,
    object: usize,
    left: usize,
    pending: &[PendingCall],
) -> Result<usize, AllocError>
    ensures { IfOk result (λ n. n ≡ raised_by object left pending.now greatest call) }
{
    let Some(call) = call else {
        return Ok(greatest);
    };
    if call.object != object {
        return Ok(greatest);
    }
    let returned = left.saturating_sub(count_open_after(pending, object, call.last));
    match least(call.op, call.reply).checked_add(returned) {
        Some(n) => Ok(n.max(greatest)),
        None => Err(AllocError),
    }
}

/// Returns the greatest of the count `first` and of those that the completed calls of an object
/// show.
fn greatest_shown(
    alloc: Global,
    recording: &Recording,
    pending: &[PendingCall],
    object: usize,
    first: usize,
) -> Result<usize, AllocError>
    requires { pending.now ≡ pending_calls (reverse recording.now.events) }
    ensures { IfOk result (λ n. n ≡ greatest_shown object recording.now.events first
        (completed_calls (reverse recording.now.events))) }
{
    // (the positions ascend)
    let _kinds = recording.kinds().len();
    let events = Part::whole(recording.events());
    let mut calls = Vec::new(alloc);
    let mut left = count_advances(&events, object);
    let mut greatest = first;
    for i in 0..events.len() {
        let event = events.at(i);
        left = left_after(left, &event, object);
        greatest = max_with_call(
            greatest,
            completed_call(&calls, &event),
            object,
            left,
            pending,
        )?;
        let _object = follow(&mut calls, &event)?;
    }
    Ok(greatest)
}

/// Returns the sum of the initial count and the advances that have returned.
fn returned_count(
    recording: &Recording,
    pending: &[PendingCall],
    object: usize,
) -> Result<usize, AllocError>
    requires { pending.now ≡ pending_calls (reverse recording.now.events) }
    ensures { IfOk result (λ n. n ≡ start_at recording.now object
        + returned_advances object recording.now.events) }
{
    let called = count_advances(&Part::whole(recording.events()), object);
    let returned = called.saturating_sub(count_open(pending, object));
    match (start_at(recording, object) as usize).checked_add(returned) {
        Some(n) => Ok(n),
        None => Err(AllocError),
    }
}

/// Returns the count that an eventcount has surely reached at the end.
///
/// `pending` are the calls that are pending then.
pub(crate) fn sure_count(
    alloc: Global,
    recording: &Recording,
    pending: &[PendingCall],
    object: usize,
) -> Result<usize, AllocError>
    requires { pending.now ≡ pending_calls (reverse recording.now.events) }
    ensures { IfOk result (λ n. n ≡ sure_count recording.now object) }
{
    let first = returned_count(recording, pending, object)?;
    greatest_shown(alloc, recording, pending, object, first)
}
