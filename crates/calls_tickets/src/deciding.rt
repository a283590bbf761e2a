//! Decides a whole history of tickets.
ghost use Rattle.std.specs.Prelude.{◌≡◌, ◌+◌, ◌≤◌, length, reverse, IfOk};
ghost use Rattle.calls_core.specs.declared.history.Kind.TheVariants.{Sequencer};
ghost use Rattle.calls_core.specs.Histories.{IsHistoryOf, clock};
ghost use Rattle.calls_tickets.specs.Outcomes.{IsOutcome};

use crate::Fault;
use crate::recorded::RecordedTickets;
use crate::table::Decision;
use calls_core::{CallList, Part};
use std::alloc::{AllocError, Global};

/// Whether the tickets of a history have a linearization.
#[derive(Debug, Drop)]
pub enum Outcome {
    /// They have this one.
    Ordered(CallList),
    /// They have none: the event at this index is the first faulty one, and with it the events show
    /// this fault.
    Refused(usize, Fault),
}

/// Decides whether the tickets of a history have a linearization.
///
/// In a linearization, pending tickets that took effect have their responses at position `end`.
pub fn decide(alloc: Global, events: &Part<'_>, end: usize) -> Result<Outcome, AllocError>
    requires history { IsHistoryOf Sequencer (reverse events.now) }
    requires ends { clock (reverse events.now) ≤ end }
    ensures { IfOk result (IsOutcome events.now end) }
{
    let mut calls = RecordedTickets::new(alloc);
    for i in 0..events.len() {
        let event = events.at(i);
        if !calls.event(event)? {
            return match calls.decide(alloc, event.at)? {
                Decision::Order(_) => unreachable!(),
                Decision::Faulty(fault) => Ok(Outcome::Refused(i, fault)),
            };
        }
    }
    match calls.decide(alloc, end)? {
        Decision::Order(order) => Ok(Outcome::Ordered(order)),
        Decision::Faulty(_) => unreachable!(),
    }
}
