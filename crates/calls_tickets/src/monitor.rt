//! A monitor of one sequencer: it judges a history event by event, in constant memory.
ghost use Rattle.std.specs.Prelude.{◌≡◌, ◌+◌, ◌-◌, ◌<◌, ◌≤◌, ◌++◌, ◌∷◌, [], length};
ghost use Rattle.std.specs.List.{range_with_len};
ghost use Rattle.arrayvec.specs.ArrayVec.{array_vec_len};
ghost use Rattle.calls_core.specs.Histories.{completion, invoked_by};
ghost use Rattle.calls_core.specs.Pending.{HasRoom};
ghost use Rattle.calls_tickets.specs.Monitors.{Watches, Judges};
ghost use Rattle.calls_tickets.specs.kept.Watching.{IsTaken};

use crate::pending::{are_paired, hole_index, number};
use arrayvec::ArrayVec;
use calls_core::{Action, Call, Event, NotedCall, PendingCall, WORKERS, find_noted, push_range};

/// The state after the events so far, with at most `WORKERS` pending tickets.
#[derive(Drop)]
pub struct Monitor {
    /// One more than the greatest number returned, 0 at first.
    pub top: usize,
    /// The numbers below `top` that no ticket returned, ascending. Pending tickets have to return
    /// them.
    pub holes: ArrayVec<usize, WORKERS>,
    /// The pending tickets, in the order of their invocations, each with `top` at its invocation.
    pub pending: ArrayVec<NotedCall, WORKERS>,
}

/// The events so far have no linearization.
#[derive(Clone, Copy, Debug, PartialEq, Eq)]
pub struct Refused {
    /// The call that the last event completes.
    pub call: Call,
}

impl Monitor {
    /// Makes a monitor of no events.
    pub fn new() -> Self
        ensures { Watches [] result }
    {
        Monitor {
            top: 0,
            holes: ArrayVec::new(),
            pending: ArrayVec::new(),
        }
    }

    /// Adds an event, or returns `Err` if the events up to it have no linearization.
    ///
    /// After an `Err` the monitor represents no history.
    pub fn event(&mut self, event: Event) -> Result<(), Refused>
        requires workers { HasRoom event.action (array_vec_len self.old.pending) }
        ensures { Judges self.old self.new event result }
    {
        match event.action {
            Action::Invoke(object, op) => {
                let noted = self.top;
                let call = PendingCall::new(event, object, op);
                self.pending.push(NotedCall { call, noted });
                Ok(())
            }
            Action::Respond(reply) => {
                let Some(i) = find_noted(self.pending.as_slice(), event.worker) else {
                    return Ok(());
                };
                let ticket = self.pending.remove(i);
                let call = ticket.call.complete(reply, event.at);
                if !self.take(number(reply), ticket.noted) {
                    return Err(Refused { call });
                }
                if are_paired(self.holes.as_slice(), self.pending.as_slice()) {
                    Ok(())
                } else {
                    Err(Refused { call })
                }
            }
        }
    }

    /// Returns whether a ticket with this `noted` may return `n`. If it may, records that `n` was
    /// returned.
    fn take(&mut self, n: usize, noted: usize) -> bool
        requires few { array_vec_len self.old.pending ≤ WORKERS }
        ensures pending { self.new.pending.items ≡ self.old.pending.items }
        ensures taken { IsTaken self.old.top self.new.top self.old.holes.items self.new.holes.items
            (array_vec_len self.old.pending) noted n result }
    {
        if n >= self.top {
            let (held, room) = (self.holes.len(), self.pending.len());
            if held > room || n - self.top > room - held {
                return false;
            }
            push_range(&mut self.holes, self.top, n);
            self.top = n.saturating_add(1);
            return true;
        }
        match hole_index(self.holes.as_slice(), n) {
            Some(k) => {
                if n < noted {
                    return false;
                }
                self.holes.remove(k);
                true
            }
            None => false,
        }
    }
}
