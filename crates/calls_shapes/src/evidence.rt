//! The evidence of a fault: the calls that it names, and the courses of its stairs.
ghost use Rattle.std.specs.Prelude.{◌≡◌, IfOk};
ghost use Rattle.calls_counts.specs.Faults.{least};
ghost use Rattle.calls_shapes.specs.Evidence.{faulty_calls, spans_of, item_calls};
ghost use Rattle.calls_shapes.specs.Evidence.{moves, moves_as, item_moves};
ghost use Rattle.calls_shapes.specs.Evidence.{count_spans, unit_spans, full_spans, item_spans};
ghost use Rattle.calls_shapes.specs.Evidence.{few_span, many_span, since_span};

use crate::bars::bars_of;
use crate::stairs::{Portion, StairSpan};
use crate::steps::{Track, start_of};
use crate::tallies::CountFilter;
use calls_core::{Call, Kind, Op, Part, Reply};
use calls_verdict::Fault;
use std::alloc::{AllocError, Global};

/// Returns the least count of an eventcount with which a call can have a reply.
fn least(op: Op, reply: Reply) -> usize
    ensures { result ≡ least op reply }
{
    match (op, reply) {
        (Op::Read, Reply::Number(n)) => n,
        (Op::Await(v), Reply::Done) => v,
        (Op::Await(_), Reply::Number(n)) => n,
        _ => 0,
    }
}

/// Returns a list of these calls.
fn list_calls(alloc: Global, calls: &[Call]) -> Result<Vec<Call>, AllocError>
    ensures { IfOk result (λ v. v.items ≡ calls.now) }
{
    calls.iter().copied().collect(alloc)
}

/// Returns whether a call puts an item in or takes it out.
fn moves(item: usize, op: Op, reply: Reply) -> bool
    ensures { result ≡ moves item op reply }
{
    match (op, reply) {
        (Op::Produce(value), Reply::Done) => value == item,
        (Op::Consume, Reply::Number(value)) => value == item,
        _ => false,
    }
}

/// Returns whether a call puts the item that a consume returned into the same buffer, or takes it
/// out.
fn moves_as(consume: &Call, call: &Call) -> bool
    ensures { result ≡ moves_as consume.now.object consume.now.reply call.now }
{
    match consume.reply {
        Reply::Number(item) => call.object == consume.object && moves(item, call.op, call.reply),
        Reply::Done | Reply::Timeout => false,
    }
}

/// Returns the completed calls that move the item that a consume returned, in the order of their
/// responses.
fn item_moves(alloc: Global, events: &Part<'_>, consume: &Call) -> Result<Vec<Call>, AllocError>
    ensures { IfOk result (λ v. v.items ≡ item_moves events.now consume.now) }
{
    let bars = bars_of(alloc, events)?;
    bars.completed
        .iter()
        .filter(|call| moves_as(consume, call))
        .copied()
        .collect(alloc)
}

/// Returns the calls that a fault of a buffer names.
fn item_calls(
    alloc: Global,
    events: &Part<'_>,
    fault: &calls_buffers::Fault,
) -> Result<Vec<Call>, AllocError>
    ensures { IfOk result (λ v. v.items ≡ item_calls events.now fault.now) }
{
    match fault {
        calls_buffers::Fault::Unproduced { consume, .. } => item_moves(alloc, events, consume),
        calls_buffers::Fault::Overfull { call, .. } => list_calls(alloc, &[*call]),
        calls_buffers::Fault::Crowded { call, .. } => list_calls(alloc, &[*call]),
        calls_buffers::Fault::Overtaken { put, consume, .. } => list_calls(
            alloc,
            &[*put, *consume],
        ),
        calls_buffers::Fault::Passed { put, consume, .. } => list_calls(alloc, &[*put, *consume]),
        calls_buffers::Fault::Squeezed { full, put, .. } => list_calls(alloc, &[*full, *put]),
        calls_buffers::Fault::Overdue { .. } => Ok(Vec::new(alloc)),
        calls_buffers::Fault::Outrun { .. } => Ok(Vec::new(alloc)),
    }
}

/// Returns the calls that a fault names, in the order in which it names them. If too few produces
/// put an item in, these are all that put it in or took it out.
pub fn faulty_calls(
    alloc: Global,
    events: &Part<'_>,
    fault: &Fault,
) -> Result<Vec<Call>, AllocError>
    ensures { IfOk result (λ v. v.items ≡ faulty_calls events.now fault.now) }
{
    match fault {
        Fault::Count(fault) => match *fault {
            calls_counts::Fault::Below(c) => list_calls(alloc, &[c]),
            calls_counts::Fault::Few(c) => list_calls(alloc, &[c]),
            calls_counts::Fault::Many(c) => list_calls(alloc, &[c]),
            calls_counts::Fault::Since(c, earlier) => list_calls(alloc, &[c, earlier]),
        },
        Fault::Ticket(fault) => match *fault {
            calls_tickets::Fault::Twice(c, d) => list_calls(alloc, &[c, d]),
            calls_tickets::Fault::Turned(c, d) => list_calls(alloc, &[c, d]),
            calls_tickets::Fault::Drawn(c) => list_calls(alloc, &[c]),
        },
        Fault::Units(fault) => list_calls(alloc, &[fault.call]),
        Fault::Value(fault) => match fault {
            calls_cells::Fault::Serial(fault) => list_calls(alloc, &fault.gets),
            calls_cells::Fault::Distinct(fault) => match *fault {
                calls_distinct::Fault::Nowhere(c) => list_calls(alloc, &[c]),
                calls_distinct::Fault::Stale(c, d) => list_calls(alloc, &[c, d]),
                calls_distinct::Fault::Alternate(a, b, c, d) => list_calls(alloc, &[a, b, c, d]),
            },
        },
        Fault::Items(fault) => item_calls(alloc, events, fault),
    }
}

/// Returns the course of the advances that had returned before the invocation of a call.
fn of_many(start: usize, object: usize, call: &Call) -> StairSpan
    ensures { result ≡ many_span start object call.now }
{
    StairSpan {
        counted: CountFilter::Advances(object),
        portion: Portion::Between(0, call.first),
        from: 0,
        base: start,
        to: call.first,
    }
}

/// Returns the course of the advances that were invoked before the response of a call.
fn of_few(start: usize, object: usize, call: &Call) -> StairSpan
    ensures { result ≡ few_span start object call.now }
{
    StairSpan {
        counted: CountFilter::Advances(object),
        portion: Portion::Called,
        from: 0,
        base: start,
        to: call.last,
    }
}

/// Returns the course of the advances between two calls, from the count that the earlier one says.
/// An await that gave up says no least count: then all advances before the later call are counted.
fn of_since(start: usize, object: usize, call: &Call, earlier: &Call) -> StairSpan
    ensures { result ≡ since_span start object call.now earlier.now }
{
    if matches!(earlier.reply, Reply::Timeout) {
        return of_many(start, object, call);
    }
    StairSpan {
        counted: CountFilter::Advances(object),
        portion: Portion::Between(earlier.last, call.first),
        from: earlier.last,
        base: least(earlier.op, earlier.reply),
        to: call.first,
    }
}

/// Returns the courses of a fault of an eventcount that is `start` at first.
fn count_spans(
    alloc: Global,
    start: usize,
    object: usize,
    fault: &calls_counts::Fault,
) -> Result<Vec<StairSpan>, AllocError>
    ensures { IfOk result (λ v. v.items ≡ count_spans start object fault.now) }
{
    let mut spans = Vec::new(alloc);
    match fault {
        calls_counts::Fault::Below(_) => {}
        calls_counts::Fault::Few(c) => spans.push(of_few(start, object, c))?,
        calls_counts::Fault::Many(c) => spans.push(of_many(start, object, c))?,
        calls_counts::Fault::Since(c, s) => spans.push(of_since(start, object, c, s))?,
    }
    Ok(spans)
}

/// Returns the courses of a fault of a semaphore with `units` units at first: of those that were
/// added, and of those that were taken.
fn unit_spans(
    alloc: Global,
    units: usize,
    fault: &calls_semaphores::Fault,
) -> Result<Vec<StairSpan>, AllocError>
    ensures { IfOk result (λ v. v.items ≡ unit_spans units fault.now) }
{
    let mut spans = Vec::new(alloc);
    spans.push(StairSpan {
        counted: CountFilter::Adding(fault.index),
        portion: Portion::Called,
        from: 0,
        base: units,
        to: fault.call.last,
    })?;
    spans.push(StairSpan {
        counted: CountFilter::Taking(fault.index),
        portion: Portion::Returned,
        from: 0,
        base: 0,
        to: fault.call.last,
    })?;
    Ok(spans)
}

/// Returns the courses of the items that were put into a buffer up to the response of a call, and
/// of how many at most there was room for.
fn full_spans(
    alloc: Global,
    room: usize,
    object: usize,
    call: &Call,
) -> Result<Vec<StairSpan>, AllocError>
    ensures { IfOk result (λ v. v.items ≡ full_spans room object call.now) }
{
    let mut spans = Vec::new(alloc);
    spans.push(StairSpan {
        counted: CountFilter::Produces(object),
        portion: Portion::ReturnedBy(call.last),
        from: 0,
        base: 0,
        to: call.last,
    })?;
    spans.push(StairSpan {
        counted: CountFilter::Consumes(object),
        portion: Portion::CalledBy(call.last),
        from: 0,
        base: room,
        to: call.last,
    })?;
    Ok(spans)
}

/// Returns the courses of a fault of a buffer with room for so many items.
fn item_spans(
    alloc: Global,
    room: usize,
    object: usize,
    fault: &calls_buffers::Fault,
) -> Result<Vec<StairSpan>, AllocError>
    ensures { IfOk result (λ v. v.items ≡ item_spans room object fault.now) }
{
    match fault {
        calls_buffers::Fault::Overfull { call, .. } => full_spans(alloc, room, object, call),
        calls_buffers::Fault::Unproduced { .. } => Ok(Vec::new(alloc)),
        calls_buffers::Fault::Crowded { .. } => Ok(Vec::new(alloc)),
        calls_buffers::Fault::Overtaken { .. } => Ok(Vec::new(alloc)),
        calls_buffers::Fault::Passed { .. } => Ok(Vec::new(alloc)),
        calls_buffers::Fault::Squeezed { .. } => Ok(Vec::new(alloc)),
        calls_buffers::Fault::Overdue { .. } => Ok(Vec::new(alloc)),
        calls_buffers::Fault::Outrun { .. } => Ok(Vec::new(alloc)),
    }
}

/// Returns the courses of the stairs that show a fault of an object.
pub fn spans_of(
    alloc: Global,
    kinds: &[Kind],
    object: usize,
    fault: &Fault,
) -> Result<Vec<StairSpan>, AllocError>
    ensures { IfOk result (λ v. v.items ≡ spans_of kinds.now object fault.now) }
{
    match fault {
        Fault::Count(fault) => {
            let start = start_of(kinds, Track { object, index: 0 });
            count_spans(alloc, start, object, fault)
        }
        Fault::Units(fault) => {
            let index = fault.index;
            unit_spans(alloc, start_of(kinds, Track { object, index }), fault)
        }
        Fault::Items(fault) => {
            let room = start_of(kinds, Track { object, index: 0 });
            item_spans(alloc, room, object, fault)
        }
        Fault::Ticket(_) | Fault::Value(_) => Ok(Vec::new(alloc)),
    }
}
