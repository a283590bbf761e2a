//! A monitor of a whole history: it judges the calls of each object event by event, in constant
//! memory.
ghost use Rattle.std.specs.Prelude.{◌≡◌, [], IfOk};
ghost use Rattle.calls_monitor.specs.Monitors.{Judges};
ghost use Rattle.calls_monitor.specs.kept.Watching.{Watches, IsPassed};

use crate::Refusal;
use crate::object::Watch;
use arrayvec::ArrayVec;
use calls_core::{Action, Event, Kind, PendingCall, WORKERS, find};
use std::alloc::{AllocError, Global};

/// The state after the events so far.
#[derive(Drop)]
pub struct Monitor {
    /// The monitor of each object.
    pub(crate) objects: Vec<Watch>,
    /// The pending calls, in the order of their invocations.
    pub(crate) pending: ArrayVec<PendingCall, WORKERS>,
}

/// Which object's calls have no linearization, so that the history has none, and why.
#[derive(Clone, Copy, Debug, PartialEq, Eq)]
pub struct Refused {
    /// The index of the object.
    pub object: usize,
    /// Why its calls have none.
    pub refusal: Refusal,
}

/// Why a monitor doesn't accept an event.
#[derive(Clone, Copy, Debug, PartialEq, Eq)]
pub enum Rejection {
    /// The events up to this one have no linearization. The monitor must not be used again.
    Refused(Refused),
    /// The event invokes a call while `WORKERS` calls are pending. The monitor is unchanged.
    Full,
    /// The event invokes a call of a cell, a database, or a buffer that is not watched. The monitor
    /// must not be used again.
    Unwatched,
}

impl Monitor {
    /// Returns a monitor of objects of these kinds. This allocates, and `event` does not.
    ///
    /// `spsc` has the indices of buffers of which at most one produce and at most one consume are
    /// pending at a time. They are watched if they have room for 1 to 256 items.
    pub fn open(alloc: Global, kinds: &[Kind], spsc: &[usize]) -> Result<Self, AllocError>
        ensures { IfOk result (Watches kinds.now spsc.now []) }
    {
        let mut objects = Vec::with_capacity(alloc, kinds.len())?;
        for kind in kinds {
            let is_spsc = spsc.contains(&objects.len());
            objects.push(Watch::open(alloc, kind, is_spsc)?)?;
        }
        Ok(Monitor {
            objects,
            pending: ArrayVec::new(),
        })
    }

    /// Judges the next event, or returns why the monitor does not accept it.
    pub fn event(&mut self, event: Event) -> Result<(), Rejection>
        ensures { Judges self.old self.new event result }
    {
        // Read so that the proof has its range: no history is too long to count.
        let _at = event.at;
        match event.action {
            Action::Invoke(object, op) => {
                if self.pending.is_full() {
                    return Err(Rejection::Full);
                }
                self.pending.push(PendingCall::new(event, object, op));
                self.pass_to_object(object, event)
            }
            Action::Respond(_reply) => {
                let Some(i) = find(self.pending.as_slice(), event.worker) else {
                    return Ok(());
                };
                let object = self.pending.remove(i).object;
                self.pass_to_object(object, event)
            }
        }
    }

    /// Passes an event to the monitor of its object.
    fn pass_to_object(&mut self, object: usize, event: Event) -> Result<(), Rejection>
        ensures pending { self.new.pending ≡ self.old.pending }
        ensures passed { IsPassed self.old.objects.items self.new.objects.items object event
            result }
    {
        if object >= self.objects.len() {
            return Ok(());
        }
        if !self.objects[object].has_monitor() {
            return Err(Rejection::Unwatched);
        }
        if !self.objects[object].has_room(event.action) {
            return Err(Rejection::Full);
        }
        match self.objects[object].event(event) {
            Ok(()) => Ok(()),
            Err(refusal) => Err(Rejection::Refused(Refused { object, refusal })),
        }
    }
}
