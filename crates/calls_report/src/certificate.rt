//! Why a history has no linearization, by counting.
ghost use Rattle.std.specs.Prelude.{◌≡◌, IfOk};
ghost use Rattle.calls_tickets.specs.Faults.{number};
ghost use Rattle.calls_report.specs.Certificates.{advances_between, start_at, count_certificate};
ghost use Rattle.calls_report.specs.Certificates.{ticket_certificate, units_of, unit_certificate};
ghost use Rattle.calls_report.specs.Certificates.{events_upto, IsValueCertificate, IsCertificate};

use crate::counting::{
    CountFilter, count_advances, count_completed, count_pending_tickets, count_v_calls,
};
use calls_core::{Call, Events, Part, Reply};
use calls_text::Recording;
use calls_verdict::{Fault, Refusal};
use ec_count::EventId;
use ec_heading::{Group, Heading};
use std::alloc::{AllocError, Global};

/// What the calls of one object show, up to the first faulty event.
#[derive(Clone, Copy, Debug)]
pub enum Certificate<'a> {
    /// An await returned a number below its threshold, or one of 0 gave up.
    Below(Call),
    /// A call shows a greater count than this many advances can make of this initial count. No more
    /// advances had been called.
    Few(Call, usize, u64),
    /// A call shows a smaller count than this many advances make of this initial count. They had
    /// returned before the call was invoked.
    Many(Call, usize, u64),
    /// The first call shows a smaller count than the second, an earlier one, and this many advances
    /// between the two.
    Since(Call, Call, usize),
    /// A call shows a smaller count than this many advances make of this initial count. They had
    /// surely taken effect when the call was invoked.
    Sure(Call, usize, u64),
    /// Two tickets returned one number.
    Twice(Call, Call),
    /// The first ticket returned before the second was invoked, and the second has the smaller
    /// number.
    Turned(Call, Call),
    /// Only this many tickets can have drawn the numbers from 0 to that of this ticket.
    Drawn(Call, usize),
    /// No order of the tickets gives the number of this ticket.
    Unordered(Call),
    /// More units of a semaphore were taken than there can have been: the initial ones, and one for
    /// each `v` that had been called. `place` is its index among the groups.
    Units {
        place: usize,
        taken: usize,
        units: u64,
        added: usize,
    },
    /// A call took a unit of the semaphore at this index among the groups, and none was left.
    NoUnit(usize),
    /// No put of what a get returned had been called.
    Nowhere(Call),
    /// The first call, of another value, was completed before the second, a get of 0, was invoked.
    Stale(Call, Call),
    /// Two values alternate.
    Alternate(Call, Call, Call, Call),
    /// No put is left for the first of these gets, since the others need them.
    NoneLeft(&'a [Call]),
    /// The calls of a buffer show this.
    Items(&'a calls_buffers::Fault),
    /// A consume of a buffer returned an item, and this one was next.
    NotNext(Call, usize),
    /// A consume of a buffer returned an item, and none was left.
    NoItem(Call),
    /// A produce of a buffer returned, and there was no room for its item.
    NoRoom(Call),
    /// A call of a buffer gave up, and must have taken effect: its item was returned, or there was
    /// room only if it took one.
    Needed(Call),
}

/// Returns how many advances of an object lie between two positions.
fn advances_between(
    alloc: Global,
    events: &Part<'_>,
    object: usize,
    from: usize,
    before: usize,
) -> Result<usize, AllocError>
    ensures { IfOk result (λ n. n ≡ advances_between object from before events.now) }
{
    count_completed(alloc, events, CountFilter::Advances(object, from, before))
}

/// Returns the initial count of an eventcount.
pub fn start_at(recording: &Recording, object: usize) -> u64
    ensures { result ≡ start_at recording.now object }
{
    match EventId::new(object) {
        Some(event) => recording.start(event),
        None => 0,
    }
}

/// Returns the certificate `Many` of a call.
fn of_many<'a>(
    alloc: Global,
    recording: &Recording,
    events: &Part<'_>,
    object: usize,
    call: Call,
) -> Result<Certificate<'a>, AllocError>
    ensures { IfOk result (λ c. c ≡ Certificate.Many call
        (advances_between object 0 call.first events.now) (start_at recording.now object)) }
{
    let n = advances_between(alloc, events, object, 0, call.first)?;
    Ok(Certificate::Many(call, n, start_at(recording, object)))
}

/// Returns the certificate of a fault of an eventcount.
fn of_count<'a>(
    alloc: Global,
    recording: &Recording,
    events: &Part<'_>,
    object: usize,
    fault: &calls_counts::Fault,
) -> Result<Certificate<'a>, AllocError>
    ensures { IfOk result (λ c. c ≡ count_certificate recording.now object events.now fault.now) }
{
    match *fault {
        calls_counts::Fault::Below(call) => Ok(Certificate::Below(call)),
        calls_counts::Fault::Few(call) => {
            let n = count_advances(events, object);
            Ok(Certificate::Few(call, n, start_at(recording, object)))
        }
        calls_counts::Fault::Many(call) => of_many(alloc, recording, events, object, call),
        calls_counts::Fault::Since(call, earlier) => {
            if matches!(earlier.reply, Reply::Timeout) {
                return of_many(alloc, recording, events, object, call);
            }
            let n = advances_between(alloc, events, object, earlier.last, call.first)?;
            Ok(Certificate::Since(call, earlier, n))
        }
    }
}

/// Returns the number that a ticket returned.
pub(crate) fn ticket_number(call: &Call) -> usize
    ensures { result ≡ number call.now }
{
    match call.reply {
        Reply::Number(n) => n,
        _ => 0,
    }
}

/// Returns the certificate of a fault of a sequencer.
fn of_ticket<'a>(
    alloc: Global,
    events: &Part<'_>,
    object: usize,
    fault: &calls_tickets::Fault,
) -> Result<Certificate<'a>, AllocError>
    ensures { IfOk result (λ c. c ≡ ticket_certificate object events.now fault.now) }
{
    match *fault {
        calls_tickets::Fault::Twice(one, other) => Ok(Certificate::Twice(one, other)),
        calls_tickets::Fault::Turned(one, other) => Ok(Certificate::Turned(one, other)),
        calls_tickets::Fault::Drawn(call) => {
            let counted = CountFilter::Tickets(object, ticket_number(&call));
            let drawn = count_completed(alloc, events, counted)?;
            let pending = count_pending_tickets(alloc, events, object, call.last)?;
            let Some(tickets) = drawn.checked_add(pending) else {
                return Err(AllocError);
            };
            Ok(Certificate::Drawn(call, tickets))
        }
    }
}

/// Returns the initial units of a semaphore.
fn units_of(heading: &Heading, place: usize) -> u64
    ensures { result ≡ units_of heading.now place }
{
    match heading.groups().get(place) {
        Some(Group::Semaphore(shape)) => shape.initial(),
        _ => 0,
    }
}

/// Returns the certificate of a fault of a semaphore.
fn of_units<'a>(
    alloc: Global,
    heading: &Heading,
    events: &Part<'_>,
    fault: &calls_semaphores::Fault,
) -> Result<Certificate<'a>, AllocError>
    ensures { IfOk result (λ c. c ≡ unit_certificate heading.now events.now fault.now) }
{
    let place = fault.index;
    Ok(Certificate::Units {
        place,
        taken: count_completed(alloc, events, CountFilter::Taken(place))?,
        units: units_of(heading, place),
        added: count_v_calls(events, place),
    })
}

/// Returns the certificate of a fault of a cell or a database.
fn of_value<'a>(fault: &'a calls_cells::Fault) -> Certificate<'a>
    ensures { IsValueCertificate fault.now result }
{
    match fault {
        calls_cells::Fault::Serial(fault) => Certificate::NoneLeft(&fault.gets),
        calls_cells::Fault::Distinct(fault) => match *fault {
            calls_distinct::Fault::Nowhere(call) => Certificate::Nowhere(call),
            calls_distinct::Fault::Stale(earlier, call) => Certificate::Stale(earlier, call),
            calls_distinct::Fault::Alternate(a, b, c, d) => Certificate::Alternate(a, b, c, d),
        },
    }
}

/// Returns the events up to a position.
fn events_upto<'h>(events: &'h Events, at: usize) -> Part<'h>
    ensures { result ≡ events_upto at events.now }
{
    if at < events.len() {
        Part::prefix(events, at + 1)
    } else {
        Part::whole(events)
    }
}

/// Returns the certificate of a fault, by the events up to it.
pub(crate) fn certify<'a>(
    alloc: Global,
    recording: &Recording,
    refusal: &'a Refusal,
) -> Result<Certificate<'a>, AllocError>
    ensures { IfOk result (IsCertificate recording.now refusal.now) }
{
    let events = events_upto(recording.events(), refusal.at);
    let object = refusal.object;
    match &refusal.fault {
        Fault::Count(fault) => of_count(alloc, recording, &events, object, fault),
        Fault::Ticket(fault) => of_ticket(alloc, &events, object, fault),
        Fault::Units(fault) => of_units(alloc, recording.heading(), &events, fault),
        Fault::Value(fault) => Ok(of_value(fault)),
        Fault::Items(fault) => Ok(Certificate::Items(fault)),
    }
}
