//! Decides a history.
ghost use Rattle.std.specs.Prelude.{◌≡◌, ℕ, ◌≤◌, ◌⊎◌, ◌↔◌, nat_lt, reverse, List, Some, IfOk, IfSome};
ghost use Rattle.std.specs.Prelude.{IsSome, IsTrue};
ghost use Rattle.std.specs.List.{filter};
ghost use Rattle.calls_core.specs.declared.history.Kind.TheVariants.{Buffer};
ghost use Rattle.calls_core.specs.declared.history.Call.{Call};
ghost use Rattle.calls_core.specs.declared.history.PendingCall.{PendingCall};
ghost use Rattle.calls_core.specs.Histories.{IsHistoryOf, clock};
ghost use Rattle.calls_core.specs.Calls.{AreCallsOf};
ghost use Rattle.calls_schedule.specs.Schedules.{Refute};
ghost use Rattle.calls_buffers.specs.Jobs.{AreJobs};
ghost use Rattle.calls_buffers.specs.Faults.{ShowsIn};
ghost use Rattle.calls_buffers.specs.Outcomes.{AreDistinct, IsOutcome};
ghost use Rattle.calls_buffers.specs.kept.Spans.{AreInvokedApart};
ghost use Rattle.calls_buffers.specs.declared.accesses.Place.{Place};
ghost use Rattle.calls_buffers.specs.declared.windows.Window.{Window};
ghost use Rattle.calls_buffers.specs.kept.Windows.{AreWindows};
ghost use Rattle.calls_buffers.specs.kept.Pairs.{IsUnproduced};
ghost use Rattle.calls_buffers.specs.kept.Decisions.{AllReturned, NoneAsked, Fits, AreSimple, IsAnswer};

use crate::Fault;
use crate::accesses::Place;
use crate::counting::all_pending_takes;
use crate::finding::find_fault;
use crate::guessing::guessed_order;
use crate::planning::{find_order, order_of};
use crate::ranking::{Ranking, ranked};
use crate::recorded::{Recorded, list_calls, record};
use crate::settling::settled_order;
use crate::testing::unproduced;
use crate::turns::{Turned, by_turns};
use crate::windows::{Window, Windows, windows_of};
use calls_core::{CallList, Part, PendingCall};
use calls_schedule::{Bound, Job, prune};
use std::alloc::{AllocError, Global};

/// Whether the calls have a linearization.
#[derive(Debug, Drop)]
pub enum Outcome {
    /// They have this one.
    Ordered(CallList),
    /// They have none, since they show this fault.
    Refused(Fault),
    /// Nothing is said. Produces overlap, and consumes too, and some item was put in twice or a
    /// pending consume may have taken one. Or there is no room at all, or no position after `end`.
    NotDecided,
}

/// Returns whether each item was returned before `end`.
fn are_returned(windows: &[Window], end: usize) -> bool
    ensures { IsTrue result ↔ AllReturned windows.now end }
{
    let kept = windows.iter().filter(|window| window.take_last >= end);
    kept.count() == 0
}

/// Returns whether no consume is pending.
fn none_asked(pending: &[PendingCall]) -> bool
    ensures { IsTrue result ↔ NoneAsked pending.now }
{
    all_pending_takes(pending) == 0
}

/// Returns whether no pending consume may have taken an item: each item was returned before `end`,
/// or no consume is pending.
fn is_settled(calls: &Recorded, windows: &[Window], end: usize) -> bool
    ensures { IsTrue result ↔ (AllReturned windows.now end ⊎ NoneAsked calls.now.pending.items) }
{
    are_returned(windows, end) || none_asked(&calls.pending)
}

/// Lists the items that were returned.
fn returned_windows(
    alloc: Global,
    windows: &[Window],
    end: usize,
) -> Result<Vec<Window>, AllocError>
    ensures { IfOk result (λ list. list.items ≡ filter (λ (w : Window). nat_lt w.take_last end)
        windows.now) }
{
    windows
        .iter()
        .filter(|window| window.take_last < end)
        .copied()
        .collect(alloc)
}

/// Returns the fault that bounds on jobs show. Those that the last one does not need are left out.
fn overdue(
    alloc: Global,
    room: usize,
    jobs: &[Job],
    bounds: Vec<Bound>,
    upto: usize,
) -> Result<Fault, AllocError>
    ensures { IfOk result (λ f. (done : List Call) (pending : List PendingCall) (end : ℕ)
        → AreJobs done pending end jobs.now → Refute room jobs.now (reverse bounds.items)
        → ShowsIn room done pending f) }
{
    match prune(alloc, room, jobs, &bounds, upto)? {
        Some(bounds) => Ok(Fault::Overdue { bounds }),
        None => Ok(Fault::Overdue { bounds }),
    }
}

/// Returns the fault of the consume whose item was not produced by then, if there is one.
fn unproduced_alone(room: usize, calls: &Recorded, windows: &Windows) -> Option<Fault>
    ensures sound { IfSome result (ShowsIn room calls.now.done.items calls.now.pending.items) }
    ensures exact { (place : Place) → windows.now.alone ≡ Some place
        → IsUnproduced calls.now.done.items calls.now.pending.items place → IsSome result }
{
    match windows.alone {
        Some(Place::Completed(i)) if i < calls.done.len() => unproduced(room, calls, i),
        _ => None,
    }
}

/// Returns a fault of a few calls, if it finds one, or else that of bounds on the jobs of items.
fn fault_of(
    alloc: Global,
    room: usize,
    calls: &Recorded,
    windows: &[Window],
    end: usize,
    jobs: &[Job],
    bounds: Vec<Bound>,
    upto: usize,
) -> Result<Fault, AllocError>
    ensures { IfOk result (λ f. (t : ℕ)
        → AreJobs calls.now.done.items calls.now.pending.items t jobs.now
        → Refute room jobs.now (reverse bounds.items)
        → ShowsIn room calls.now.done.items calls.now.pending.items f) }
{
    match find_fault(alloc, room, calls, windows, end)? {
        Some(fault) => Ok(fault),
        None => overdue(alloc, room, jobs, bounds, upto),
    }
}

/// Searches for a fault of a few calls, and then for an order.
fn search(
    alloc: Global,
    room: usize,
    calls: &Recorded,
    windows: &[Window],
    end: usize,
) -> Result<Outcome, AllocError>
    ensures { IfOk result (λ o.
        (Fits end → AreSimple room calls.now.done.items calls.now.pending.items → ⊥)
        → IsAnswer room calls.now.done.items calls.now.pending.items end o) }
{
    if let Some(fault) = find_fault(alloc, room, calls, windows, end)? {
        return Ok(Outcome::Refused(fault));
    }
    match find_order(alloc, room, calls, windows, end)? {
        Some(order) => Ok(Outcome::Ordered(order)),
        None => Ok(Outcome::NotDecided),
    }
}

/// Decides by the turns of taking items out or putting them in, if these follow one another.
fn decide_in_turn(
    alloc: Global,
    room: usize,
    calls: &Recorded,
    windows: &[Window],
    end: usize,
) -> Result<Outcome, AllocError>
    requires calls { AreCallsOf (Buffer room) calls.now.done.items calls.now.pending.items end }
    requires apart { AreInvokedApart calls.now.done.items calls.now.pending.items }
    ensures { IfOk result (λ o.
        (Fits end → AreDistinct calls.now.done.items calls.now.pending.items → ⊥)
        → IsAnswer room calls.now.done.items calls.now.pending.items end o) }
{
    match by_turns(alloc, room, calls, end)? {
        Some(Turned::Refuted(fault)) => {
            let short = find_fault(alloc, room, calls, windows, end)?;
            Ok(Outcome::Refused(short.unwrap_or(fault)))
        }
        Some(Turned::Ranked(order)) => match settled_order(alloc, room, calls, &order, end)? {
            Some(order) => Ok(Outcome::Ordered(order)),
            None => search(alloc, room, calls, windows, end),
        },
        None => search(alloc, room, calls, windows, end),
    }
}

/// Decides by the ranks of all items. No pending consume may have taken one of them.
fn decide_all(
    alloc: Global,
    room: usize,
    calls: &Recorded,
    windows: &[Window],
    end: usize,
    upto: usize,
) -> Result<Outcome, AllocError>
    ensures { IfOk result (λ o. AreCallsOf (Buffer room) calls.now.done.items
        calls.now.pending.items end
        → AreWindows calls.now.done.items calls.now.pending.items end windows.now → Fits end
        → AllReturned windows.now end ⊎ NoneAsked calls.now.pending.items
        → IsAnswer room calls.now.done.items calls.now.pending.items end o) }
{
    match ranked(alloc, room, windows, end)? {
        Ranking::Refuted(jobs, bounds) => {
            let fault = fault_of(alloc, room, calls, windows, end, &jobs, bounds, upto)?;
            Ok(Outcome::Refused(fault))
        }
        Ranking::Ranked(order) => match order_of(alloc, room, calls, &order, &[], end)? {
            Some(order) => Ok(Outcome::Ordered(order)),
            None => search(alloc, room, calls, windows, end),
        },
    }
}

/// Decides by the ranks of the items that were returned, if these have none.
fn decide_returned(
    alloc: Global,
    room: usize,
    calls: &Recorded,
    windows: &[Window],
    end: usize,
    upto: usize,
) -> Result<Outcome, AllocError>
    requires calls { AreCallsOf (Buffer room) calls.now.done.items calls.now.pending.items end }
    requires apart { AreInvokedApart calls.now.done.items calls.now.pending.items }
    ensures { IfOk result (λ o.
        AreWindows calls.now.done.items calls.now.pending.items end windows.now → Fits end
        → (Fits end → AreDistinct calls.now.done.items calls.now.pending.items → ⊥)
        → IsAnswer room calls.now.done.items calls.now.pending.items end o) }
{
    let returned_windows = returned_windows(alloc, windows, end)?;
    match ranked(alloc, room, &returned_windows, end)? {
        Ranking::Refuted(jobs, bounds) => {
            let fault = fault_of(alloc, room, calls, windows, end, &jobs, bounds, upto)?;
            Ok(Outcome::Refused(fault))
        }
        Ranking::Ranked(_) => decide_in_turn(alloc, room, calls, windows, end),
    }
}

/// Decides calls whose items differ.
fn decide_distinct(
    alloc: Global,
    room: usize,
    calls: &Recorded,
    windows: &[Window],
    end: usize,
    upto: usize,
) -> Result<Outcome, AllocError>
    requires calls { AreCallsOf (Buffer room) calls.now.done.items calls.now.pending.items end }
    requires apart { AreInvokedApart calls.now.done.items calls.now.pending.items }
    ensures { IfOk result (λ o.
        AreWindows calls.now.done.items calls.now.pending.items end windows.now → Fits end
        → IsAnswer room calls.now.done.items calls.now.pending.items end o) }
{
    if is_settled(calls, windows, end) {
        return decide_all(alloc, room, calls, windows, end, upto);
    }
    decide_returned(alloc, room, calls, windows, end, upto)
}

/// Returns the first position after the events.
fn after(events: &Part<'_>) -> usize {
    match events.len().checked_sub(1) {
        Some(i) => events.at(i).at.saturating_add(1),
        None => 0,
    }
}

/// Decides calls whose order was not guessed.
fn decide_recorded(
    alloc: Global,
    room: usize,
    events: &Part<'_>,
    end: usize,
) -> Result<Outcome, AllocError>
    requires history { IsHistoryOf (Buffer room) (reverse events.now) }
    requires end { clock (reverse events.now) ≤ end }
    ensures { IfOk result (IsOutcome room events.now end) }
{
    let calls = record(alloc, events)?;
    let windows = windows_of(alloc, &calls, end)?;
    if let Some(fault) = unproduced_alone(room, &calls, &windows) {
        return Ok(Outcome::Refused(fault));
    }
    if windows.distinct && end < usize::MAX {
        return decide_distinct(alloc, room, &calls, &windows.list, end, after(events));
    }
    decide_in_turn(alloc, room, &calls, &windows.list, end)
}

/// Decides whether the calls of a buffer with room for so many items have a linearization. It does
/// so, if there is room, if no item is put in twice and no pending consume may have taken one; or no
/// two produces overlap; or no two consumes overlap, and no more was put in than was returned or the
/// pending consume, if there is one, comes last. `end` is a position after all events, and not the
/// last of all: there only faults and orders that are found count.
pub fn decide(
    alloc: Global,
    room: usize,
    events: &Part<'_>,
    end: usize,
) -> Result<Outcome, AllocError>
    requires history { IsHistoryOf (Buffer room) (reverse events.now) }
    requires end { clock (reverse events.now) ≤ end }
    ensures { IfOk result (IsOutcome room events.now end) }
{
    match guessed_order(alloc, room, list_calls(alloc, events)?, end)? {
        Some(order) => Ok(Outcome::Ordered(order)),
        None => decide_recorded(alloc, room, events, end),
    }
}
