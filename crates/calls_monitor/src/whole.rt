//! Monitors a whole history that is given at once.
ghost use Rattle.std.specs.Prelude.{IfOk, reverse};
ghost use Rattle.calls_core.specs.Histories.{IsHistory};
ghost use Rattle.calls_monitor.specs.Monitors.{IsWatchedTo};
ghost use Rattle.calls_monitor.specs.Watched.{AreSpsc};

use crate::{Monitor, Rejection};
use calls_core::{Events, Kind};
use std::alloc::{AllocError, Global};

/// The first event that a monitor doesn't accept.
#[derive(Clone, Copy, Debug, PartialEq, Eq)]
pub struct Stop {
    /// The index of the event.
    pub index: usize,
    /// Why the monitor doesn't accept it.
    pub rejection: Rejection,
}

/// Passes the events of a history to a monitor, and returns the first that it doesn't accept.
///
/// `spsc` has the indices of buffers with one producer and one consumer, as `Monitor::open` takes
/// them.
pub fn watch(
    alloc: Global,
    kinds: &[Kind],
    spsc: &[usize],
    events: &Events,
) -> Result<Option<Stop>, AllocError>
    requires history { IsHistory kinds.now (reverse events.now) }
    requires spsc { AreSpsc spsc.now (reverse events.now) }
    ensures { IfOk result (IsWatchedTo kinds.now spsc.now events.now) }
{
    let mut monitor = Monitor::open(alloc, kinds, spsc)?;
    for index in 0..events.len() {
        if let Err(rejection) = monitor.event(events.at(index)) {
            return Ok(Some(Stop { index, rejection }));
        }
    }
    Ok(None)
}
