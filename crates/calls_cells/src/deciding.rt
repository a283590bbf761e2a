//! Decides histories of a cell by two classes: distinct values and serial puts.
ghost use Rattle.std.specs.Prelude.{◌≡◌, ◌+◌, ◌<◌, ◌≤◌, ℕ, length, reverse, take, IfOk};
ghost use Rattle.calls_core.specs.declared.history.Kind.TheVariants.{Cell};
ghost use Rattle.calls_core.specs.Histories.{IsHistoryOf, clock};
ghost use Rattle.calls_core.specs.Beginnings.{past_at};
ghost use Rattle.calls_cells.specs.Outcomes.{IsOutcome};
ghost use Rattle.calls_core.specs.Outcomes.{HasOrderOf};
ghost use Rattle.calls_cells.specs.Faults.{IsOutside};
ghost use Rattle.calls_cells.specs.kept.Tries.{IsTry};

use crate::outcome::{Fault, Outcome, Undecided};
use calls_core::{CallList, Part};
use std::alloc::{AllocError, Global};

/// What is found of a prefix of the events.
#[derive(Debug, Drop)]
enum Try {
    /// It has this linearization.
    Ordered(CallList),
    /// It has none, since the event at this index shows this fault.
    Refused(usize, Fault),
    /// It is of neither class.
    Open(Undecided),
}

/// Tries both classes on a prefix: distinct values, then serial puts.
fn try_both(alloc: Global, events: &Part<'_>, end: usize) -> Result<Try, AllocError>
    requires history { IsHistoryOf Cell (reverse events.now) }
    requires late { clock (reverse events.now) ≤ end }
    ensures { IfOk result (IsTry events.now end) }
{
    let value = match calls_distinct::decide(alloc, events, end)? {
        calls_distinct::Outcome::Ordered(calls) => return Ok(Try::Ordered(calls)),
        calls_distinct::Outcome::Refused(i, fault) => {
            return Ok(Try::Refused(i, Fault::Distinct(fault)));
        }
        calls_distinct::Outcome::Repeated(value, _) => value,
    };
    match calls_serial::decide(alloc, events, end)? {
        calls_serial::Outcome::Ordered(calls) => Ok(Try::Ordered(calls)),
        calls_serial::Outcome::Refused(i, fault) => Ok(Try::Refused(i, Fault::Serial(fault))),
        calls_serial::Outcome::Overlapping(first, second) => Ok(Try::Open(Undecided {
            value,
            first,
            second,
        })),
    }
}

/// Refuses the first get of a value that was never put, or leaves the calls undecided.
///
/// From the event at index `low` on they are of neither class.
fn leave_open(
    alloc: Global,
    events: &Part<'_>,
    low: usize,
    undecided: Undecided,
) -> Result<Outcome, AllocError>
    requires history { IsHistoryOf Cell (reverse events.now) }
    requires within { low < length events.now }
    requires ordered { HasOrderOf Cell (past_at low events.now) }
    requires outside { IsOutside (past_at (low + 1) events.now) undecided }
    ensures { (end : ℕ) → IfOk result (IsOutcome Cell events.now end) }
{
    match calls_distinct::first_nowhere(alloc, events)? {
        Some((i, get)) => {
            let fault = calls_distinct::Fault::Nowhere(get);
            Ok(Outcome::Refused(i, Fault::Distinct(fault)))
        }
        None => Ok(Outcome::Undecided(low, undecided)),
    }
}

/// Finds, by bisection, the first event with which the calls are of neither class, or a fault
/// before it.
///
/// All calls together are of neither class.
fn decide_beginning(
    alloc: Global,
    events: &Part<'_>,
    end: usize,
    undecided: Undecided,
) -> Result<Outcome, AllocError>
    requires history { IsHistoryOf Cell (reverse events.now) }
    requires late { clock (reverse events.now) ≤ end }
    requires outside { IsOutside (reverse events.now) undecided }
    ensures { IfOk result (IsOutcome Cell events.now end) }
{
    let mut undecided = undecided;
    let mut low = 0;
    let mut high = events.len();
    while high - low > 1 {
        let mid = low + (high - low) / 2;
        let beginning = events.first(mid);
        match try_both(alloc, &beginning, end)? {
            Try::Ordered(calls) => {
                drop(calls);
                low = mid;
            }
            Try::Refused(i, fault) => return Ok(Outcome::Refused(i, fault)),
            Try::Open(cause) => {
                undecided = cause;
                high = mid;
            }
        }
    }
    leave_open(alloc, events, low, undecided)
}

/// Decides whether the calls of a cell have a linearization.
///
/// This is decided if each value that was got was put at most once (0 never), or if no two puts
/// overlap, or if a value was got that was never put. A database is decided in the same way.
pub fn decide(alloc: Global, events: &Part<'_>, end: usize) -> Result<Outcome, AllocError>
    requires history { IsHistoryOf Cell (reverse events.now) }
    requires late { clock (reverse events.now) ≤ end }
    ensures { IfOk result (IsOutcome Cell events.now end) }
{
    match try_both(alloc, events, end)? {
        Try::Ordered(calls) => Ok(Outcome::Ordered(calls)),
        Try::Refused(i, fault) => Ok(Outcome::Refused(i, fault)),
        Try::Open(undecided) => decide_beginning(alloc, events, end, undecided),
    }
}
