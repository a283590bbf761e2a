//! Decides the calls of one object, by its kind.
ghost use Rattle.std.specs.Prelude.{◌≤◌, reverse, IfOk};
ghost use Rattle.calls_core.specs.declared.history.Kind.TheVariants.{Cell};
ghost use Rattle.calls_core.specs.Histories.{IsHistoryOf, clock};
ghost use Rattle.calls_verdict.specs.Verdicts.{IsDecision};

use crate::buffers::decide_buffer;
use crate::verdict::{Cause, Decision, Fault};
use calls_core::{Kind, Part};
use std::alloc::{AllocError, Global};

/// Decides the calls of a cell. A database is decided as one.
fn decide_cell(alloc: Global, events: &Part<'_>, end: usize) -> Result<Decision, AllocError>
    requires history { IsHistoryOf Cell (reverse events.now) }
    requires end { clock (reverse events.now) ≤ end }
    ensures { IfOk result (IsDecision Cell events.now end) }
{
    match calls_cells::decide(alloc, events, end)? {
        calls_cells::Outcome::Ordered(calls) => Ok(Decision::Ordered(calls)),
        calls_cells::Outcome::Refused(i, fault) => Ok(Decision::Refused(i, Fault::Value(fault))),
        calls_cells::Outcome::Undecided(i, cause) => Ok(Decision::Open(i, Cause::Values(cause))),
    }
}

/// Decides the calls of one object.
pub fn decide_object(
    alloc: Global,
    kind: &Kind,
    events: &Part<'_>,
    end: usize,
) -> Result<Decision, AllocError>
    requires history { IsHistoryOf kind.now (reverse events.now) }
    requires end { clock (reverse events.now) ≤ end }
    ensures { IfOk result (IsDecision kind.now events.now end) }
{
    match kind {
        Kind::Eventcount(start) => match calls_counts::decide(alloc, *start, events, end)? {
            calls_counts::Outcome::Ordered(calls) => Ok(Decision::Ordered(calls)),
            calls_counts::Outcome::Refused(i, fault) => {
                Ok(Decision::Refused(i, Fault::Count(fault)))
            }
        },
        Kind::Sequencer => match calls_tickets::decide(alloc, events, end)? {
            calls_tickets::Outcome::Ordered(calls) => Ok(Decision::Ordered(calls)),
            calls_tickets::Outcome::Refused(i, fault) => {
                Ok(Decision::Refused(i, Fault::Ticket(fault)))
            }
        },
        Kind::Semaphores(units) => match calls_semaphores::decide(alloc, units, events, end)? {
            calls_semaphores::Outcome::Ordered(calls) => Ok(Decision::Ordered(calls)),
            calls_semaphores::Outcome::Refused(i, fault) => {
                Ok(Decision::Refused(i, Fault::Units(fault)))
            }
        },
        Kind::Cell => decide_cell(alloc, events, end),
        Kind::Database(_) => decide_cell(alloc, events, end),
        Kind::Buffer(room) => decide_buffer(alloc, *room, events, end),
    }
}
