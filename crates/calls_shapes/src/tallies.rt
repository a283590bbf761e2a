//! How many calls had been invoked and had returned, at each moment.
ghost use Rattle.std.specs.Prelude.{◌≡◌, ℕ, ◌+◌, ◌≤◌, Some, IfOk, length, slice_get};
ghost use Rattle.std.specs.List.{cons_option};
ghost use Rattle.std.specs.Prelude.{[], ◌∷◌, count_by};
ghost use Rattle.calls_shapes.specs.Tallies.{counts, invokes_counted_call, is_counted, tally_at};

use calls_core::{Action, Call, Event, Op, Part, Reply};
use calls_report::completed_call;
use calls_verdict::follow;
use std::alloc::{AllocError, Global};

/// Which calls are counted.
#[derive(Clone, Copy, Debug, PartialEq, Eq)]
pub enum CountFilter {
    /// The advances of the eventcount with this index.
    Advances(usize),
    /// The tickets of the sequencer with this index.
    Tickets(usize),
    /// Those that take a unit of the semaphore with this index.
    Taking(usize),
    /// Those that add a unit to the semaphore with this index.
    Adding(usize),
    /// The produces of the buffer with this index.
    Produces(usize),
    /// The consumes of the buffer with this index.
    Consumes(usize),
}

/// How many calls are counted at a moment.
#[derive(Clone, Copy, Debug, PartialEq, Eq)]
pub struct Tally {
    /// Those that had been invoked.
    pub called: usize,
    /// Those that had returned, except those that gave up.
    pub returned: usize,
}

/// Returns whether calls of this object with this operation are counted.
pub(crate) fn counts(counted: CountFilter, object: usize, op: Op) -> bool
    ensures { result ≡ counts counted object op }
{
    match counted {
        CountFilter::Advances(k) => object == k && matches!(op, Op::Advance),
        CountFilter::Tickets(k) => object == k && matches!(op, Op::Ticket),
        CountFilter::Taking(i) => match op {
            Op::P(j) => j == i,
            Op::PBoth(j, l) => j == i || l == i,
            _ => false,
        },
        CountFilter::Adding(i) => match op {
            Op::V(j) => j == i,
            _ => false,
        },
        CountFilter::Produces(k) => object == k && matches!(op, Op::Produce(_)),
        CountFilter::Consumes(k) => object == k && matches!(op, Op::Consume),
    }
}

/// Returns whether a completed call is counted.
pub fn is_counted(counted: CountFilter, call: &Call) -> bool
    ensures { result ≡ is_counted counted call.now }
{
    counts(counted, call.object, call.op) && !matches!(call.reply, Reply::Timeout)
}

/// Returns whether an event is the invocation of a call that is counted.
pub(crate) fn invokes_counted_call(counted: CountFilter, event: &Event) -> bool
    ensures { result ≡ invokes_counted_call counted event.now }
{
    match event.action {
        Action::Invoke(object, op) => counts(counted, object, op),
        Action::Respond(_) => false,
    }
}

/// Returns 1 if there is a call and it is counted, otherwise 0.
fn count_one(counted: CountFilter, call: Option<Call>) -> usize
    ensures count { result ≡ count_by (is_counted counted) (cons_option call []) }
    ensures few { result ≤ 1 }
{
    match call {
        Some(call) => { if is_counted(counted, &call) { 1 } else { 0 } }
        None => 0,
    }
}

/// Returns 1 if an event is the invocation of a call that is counted, otherwise 0.
fn count_call(counted: CountFilter, event: &Event) -> usize
    ensures count { result ≡ count_by (invokes_counted_call counted) (event.now ∷ []) }
    ensures few { result ≤ 1 }
{
    if invokes_counted_call(counted, event) {
        1
    } else {
        0
    }
}

/// Returns the tallies at all moments: the one at index p is that of the first p events.
pub fn tallies_of(
    alloc: Global,
    events: &Part<'_>,
    counted: CountFilter,
) -> Result<Vec<Tally>, AllocError>
    ensures count { IfOk result (λ v. length v.items ≡ length events.now + 1) }
    ensures each { IfOk result (λ v. (p : ℕ) → p ≤ length events.now
        → slice_get v.items p ≡ Some (tally_at counted events.now p)) }
{
    let mut pending = Vec::new(alloc);
    let mut tallies = Vec::new(alloc);
    let mut tally = Tally {
        called: 0,
        returned: 0,
    };
    for i in 0..events.len() {
        let event = events.at(i);
        tallies.push(tally)?;
        tally.called += count_call(counted, &event);
        tally.returned += count_one(counted, completed_call(&pending, &event));
        let _object = follow(&mut pending, &event)?;
    }
    tallies.push(tally)?;
    Ok(tallies)
}
