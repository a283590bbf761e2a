//! A monitor of one bank: it judges a history event by event, in constant memory.
ghost use Rattle.std.specs.Prelude.{◌-◌, IfOk};
ghost use Rattle.calls_core.specs.Pending.{HasRoom};
ghost use Rattle.arrayvec.specs.ArrayVec.{array_vec_len};
ghost use Rattle.calls_semaphores.specs.Monitors.{Judges, Grows, Starts};

use crate::{Bank, Fault};
use arrayvec::ArrayVec;
use calls_core::{Action, Event, PendingCall, WORKERS, find};
use std::alloc::{AllocError, Global};

/// The state after the events so far, with at most `WORKERS` pending calls.
#[derive(Drop)]
pub struct Monitor {
    /// The units that are left.
    pub bank: Bank,
    /// The pending calls, in the order of their invocations.
    pub pending: ArrayVec<PendingCall, WORKERS>,
}

impl Monitor {
    /// Returns a monitor of a bank of semaphores that have these units at first.
    ///
    /// This allocates, and `event` does not.
    pub fn new(alloc: Global, units: &Vec<usize>) -> Result<Self, AllocError>
        ensures { IfOk result (Starts units.now) }
    {
        Ok(Monitor {
            bank: Bank::new(alloc, units)?,
            pending: ArrayVec::new(),
        })
    }

    /// Adds an event, or reports a fault: then the events up to it have no linearization.
    ///
    /// After a fault the monitor represents no history.
    pub fn event(&mut self, event: Event) -> Result<(), Fault>
        requires workers { HasRoom event.action (array_vec_len self.old.pending) }
        ensures judges { Judges self.old self.new event result }
        ensures grows { Grows event.action self.old.bank.added.items self.new.bank.added.items }
    {
        match event.action {
            Action::Invoke(object, op) => {
                self.pending.push(PendingCall::new(event, object, op));
                self.bank.add(op);
                Ok(())
            }
            Action::Respond(reply) => {
                let Some(k) = find(self.pending.as_slice(), event.worker) else {
                    return Ok(());
                };
                let call = self.pending.remove(k).complete(reply, event.at);
                match self.bank.take(call.op, reply) {
                    None => Ok(()),
                    Some(index) => Err(Fault { call, index }),
                }
            }
        }
    }
}
