//! The tickets of a history, collected event by event.
ghost use Rattle.std.specs.Prelude.{◌≡◌, ◌+◌, ◌-◌, ◌<◌, ◌≤◌, ◌++◌, ◌∷◌, [], length, reverse, IfOk};
ghost use Rattle.std.specs.Prelude.{OnOk};
ghost use Rattle.std.specs.List.{range_with_len};
ghost use Rattle.calls_core.specs.Pending.{noted_calls};
ghost use Rattle.calls_tickets.specs.kept.Tables.{AreTickets, IsDecided};
ghost use Rattle.calls_tickets.specs.kept.Watching.{IsTaken};
ghost use Rattle.calls_tickets.specs.kept.Recording.{Records, TakesIn};

use crate::pending::{are_paired, hole_index, number};
use crate::table::{Decision, Tickets};
use calls_core::{Action, Call, Event, NotedCall, PendingCall, find_noted};
use std::alloc::{AllocError, Global};

/// The calls so far, and the state of a monitor of any number of workers.
#[derive(Drop)]
pub struct RecordedTickets {
    /// The completed tickets, in the order of their responses.
    pub done: Vec<Call>,
    /// One more than the greatest number returned, 0 at first.
    pub top: usize,
    /// The numbers below `top` that no ticket returned, ascending.
    pub holes: Vec<usize>,
    /// The pending tickets, in the order of their invocations, each with `top` at its invocation.
    pub pending: Vec<NotedCall>,
}

/// Adds the numbers from `from` to below `upto`.
fn raise(holes: &mut Vec<usize>, from: usize, upto: usize) -> Result<(), AllocError>
    ensures { OnOk result (holes.new.items ≡ holes.old.items ++ range_with_len from (upto - from)) }
{
    for i in from..upto {
        holes.push(i)?;
    }
    Ok(())
}

impl RecordedTickets {
    /// Returns the tickets of no events.
    pub fn new(alloc: Global) -> Self
        ensures { Records [] result }
    {
        RecordedTickets {
            done: Vec::new(alloc),
            top: 0,
            holes: Vec::new(alloc),
            pending: Vec::new(alloc),
        }
    }

    /// Adds an event. Returns `false` if the events up to it have no linearization.
    pub fn event(&mut self, event: Event) -> Result<bool, AllocError>
        ensures { IfOk result (TakesIn self.old self.new event) }
    {
        match event.action {
            Action::Invoke(object, op) => {
                let noted = self.top;
                let call = PendingCall::new(event, object, op);
                self.pending.push(NotedCall { call, noted })?;
                Ok(true)
            }
            Action::Respond(reply) => {
                let Some(i) = find_noted(&self.pending, event.worker) else {
                    return Ok(true);
                };
                let ticket = self.pending.remove(i);
                self.done.push(ticket.call.complete(reply, event.at))?;
                if !self.take(number(reply), ticket.noted)? {
                    return Ok(false);
                }
                Ok(are_paired(&self.holes, &self.pending))
            }
        }
    }

    /// Decides whether the calls have a linearization, in which pending ones respond at position
    /// `end`.
    pub fn decide(mut self, alloc: Global, end: usize) -> Result<Decision, AllocError>
        requires tickets { AreTickets (reverse self.done.items) (noted_calls self.pending.items) end }
        ensures { IfOk result (IsDecided (reverse self.done.items) (noted_calls self.pending.items)
            end) }
    {
        self.done.reverse();
        let tickets = Tickets {
            done: &self.done,
            pending: &self.pending,
            end,
        };
        tickets.decide(alloc)
    }

    /// Returns whether a ticket with this `noted` may return `n`. If it may, records that `n` was
    /// returned.
    fn take(&mut self, n: usize, noted: usize) -> Result<bool, AllocError>
        ensures pending { self.new.pending.items ≡ self.old.pending.items }
        ensures done { self.new.done.items ≡ self.old.done.items }
        ensures taken { IfOk result (IsTaken self.old.top self.new.top self.old.holes.items
            self.new.holes.items (length self.old.pending.items) noted n) }
    {
        if n >= self.top {
            let (held, room) = (self.holes.len(), self.pending.len());
            if held > room || n - self.top > room - held {
                return Ok(false);
            }
            raise(&mut self.holes, self.top, n)?;
            self.top = n.saturating_add(1);
            return Ok(true);
        }
        match hole_index(&self.holes, n) {
            Some(k) => {
                if n < noted {
                    return Ok(false);
                }
                self.holes.remove(k);
                Ok(true)
            }
            None => Ok(false),
        }
    }
}
