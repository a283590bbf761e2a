//! The monitor of one object.
ghost use Rattle.std.specs.Prelude.{◌≡◌, ◌↔◌, [], IfOk, IsTrue};
ghost use Rattle.calls_core.specs.Pending.{HasRoom};
ghost use Rattle.calls_monitor.specs.declared.object.Watch.TheVariants.{Count};
ghost use Rattle.calls_monitor.specs.Watched.{has_fit_room, is_made};
ghost use Rattle.calls_monitor.specs.kept.Watching.{WatchesOf, RoomFor, JudgesOf, has_monitor};

use calls_core::{Action, Event, Kind, WORKERS};
use calls_spsc::ROOM_MAX;
use std::alloc::{AllocError, Global};

/// The monitor of an object.
#[derive(Drop)]
pub(crate) enum Watch {
    /// Of an eventcount.
    Count(calls_counts::Monitor),
    /// Of a sequencer.
    Ticket(calls_tickets::Monitor),
    /// Of semaphores.
    Units(calls_semaphores::Monitor),
    /// Of a buffer with one producer and one consumer.
    Items(calls_spsc::Monitor),
    /// There is none.
    Nothing,
}

/// Why the calls of one object have no linearization.
#[derive(Clone, Copy, Debug, PartialEq, Eq)]
pub enum Refusal {
    /// Of an eventcount.
    Count(calls_counts::Refusal),
    /// Of a sequencer.
    Ticket(calls_tickets::Refused),
    /// Of semaphores.
    Units(calls_semaphores::Fault),
    /// Of a buffer with one producer and one consumer.
    Items(calls_spsc::Refused),
}

/// Returns whether a monitor with `pending` pending calls has room for the call that an event
/// invokes.
fn has_room(action: Action, pending: usize) -> bool
    ensures { IsTrue result ↔ HasRoom action pending }
{
    match action {
        Action::Invoke(_object, _op) => pending < WORKERS,
        Action::Respond(_reply) => true,
    }
}

/// Returns whether the monitor of an eventcount has room for an event, and can count one more call.
fn has_room_to_count(monitor: &calls_counts::Monitor, action: Action) -> bool
    ensures { IsTrue result ↔ RoomFor (Count monitor.now) action }
{
    has_room(action, monitor.pending.len())
        && monitor.begun < usize::MAX
        && monitor.total <= monitor.begun
}

/// Returns whether a buffer with room for so many items can be judged event by event.
pub fn has_fit_room(room: usize) -> bool
    ensures { result ≡ has_fit_room room }
{
    0 < room && room <= ROOM_MAX
}

impl Watch {
    /// Returns the monitor of an object of this kind. A buffer has one only if it is of one producer
    /// and one consumer, which `is_spsc` says, and has room for at most `ROOM_MAX` items.
    pub(crate) fn open(alloc: Global, kind: &Kind, is_spsc: bool) -> Result<Watch, AllocError>
        ensures watches { IfOk result (WatchesOf kind.now []) }
        ensures made { IfOk result (λ w. has_monitor w ≡ is_made is_spsc kind.now) }
    {
        match kind {
            Kind::Eventcount(start) => Ok(Watch::Count(calls_counts::Monitor::new(*start))),
            Kind::Sequencer => Ok(Watch::Ticket(calls_tickets::Monitor::new())),
            Kind::Semaphores(units) => {
                Ok(Watch::Units(calls_semaphores::Monitor::new(alloc, units)?))
            }
            Kind::Buffer(room) if is_spsc && has_fit_room(*room) => {
                Ok(Watch::Items(calls_spsc::Monitor::new(*room)))
            }
            Kind::Cell | Kind::Database(_) | Kind::Buffer(_) => Ok(Watch::Nothing),
        }
    }

    /// Returns whether this is a monitor.
    pub(crate) fn has_monitor(&self) -> bool
        ensures { result ≡ has_monitor self.now }
    {
        !matches!(self, Watch::Nothing)
    }

    /// Returns whether there is room for what an event adds.
    pub(crate) fn has_room(&self, action: Action) -> bool
        ensures { IsTrue result ↔ RoomFor self.now action }
    {
        match self {
            Watch::Count(monitor) => has_room_to_count(monitor, action),
            Watch::Ticket(monitor) => has_room(action, monitor.pending.len()),
            Watch::Units(monitor) => has_room(action, monitor.pending.len()),
            Watch::Items(_) => true,
            Watch::Nothing => false,
        }
    }

    /// Judges the next event of the object's calls, or returns why these have no linearization.
    pub(crate) fn event(&mut self, event: Event) -> Result<(), Refusal>
        requires { RoomFor self.old event.action }
        ensures judges { JudgesOf self.old self.new event result }
        ensures same { has_monitor self.new ≡ has_monitor self.old }
    {
        match self {
            Watch::Count(monitor) => monitor.event(event).map_err(Refusal::Count),
            Watch::Ticket(monitor) => monitor.event(event).map_err(Refusal::Ticket),
            Watch::Units(monitor) => monitor.event(event).map_err(Refusal::Units),
            Watch::Items(monitor) => monitor.event(event).map_err(Refusal::Items),
            Watch::Nothing => Ok(()),
        }
    }
}
