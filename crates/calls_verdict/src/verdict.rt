//! The verdict on a history, and the decisions on its objects.
use calls_core::{CallList, Order};

/// Why a history has no linearization: what its calls of one object show, by counting.
#[derive(Debug, Drop)]
pub enum Fault {
    /// Of an eventcount.
    Count(calls_counts::Fault),
    /// Of a sequencer.
    Ticket(calls_tickets::Fault),
    /// Of semaphores.
    Units(calls_semaphores::Fault),
    /// Of a cell or a database.
    Value(calls_cells::Fault),
    /// Of a buffer.
    Items(calls_buffers::Fault),
}

/// A faulty event of a history, the first one of objects that are decided. An object that isn't may
/// have a fault that was not looked for, and a buffer or a cell one that is found late.
#[derive(Debug, Drop)]
pub struct Refusal {
    /// The position of the event.
    pub at: usize,
    /// The index of its object.
    pub object: usize,
    /// What the calls of that object show, up to this event.
    pub fault: Fault,
}

/// Why it isn't decided whether the calls of an object have a linearization.
#[derive(Clone, Copy, Debug, PartialEq, Eq)]
pub enum Cause {
    /// Of a cell or a database: these of its calls are the reason.
    Values(calls_cells::Undecided),
    /// Of a buffer: its events before this position have a linearization. With the event at this
    /// position neither one nor a fault was found, which the contract does not say. Produces overlap,
    /// and an item was put in twice or a pending consume may have taken one; or there is no room.
    Unfound(usize),
}

/// An object whose calls aren't decided.
#[derive(Clone, Copy, Debug, PartialEq, Eq)]
pub struct Undecided {
    /// Its index.
    pub object: usize,
    /// Why it isn't decided.
    pub cause: Cause,
}

/// Whether a history has a linearization.
#[derive(Debug, Drop)]
pub enum Verdict {
    /// It has this one: the completed calls, and the pending ones that took effect, in order, each
    /// with its linearization point.
    Linearizable(Order),
    /// It has none.
    Refused(Refusal),
    /// It has one exactly if the calls of this object have one, and those of the others that aren't
    /// decided.
    NotDecided(Undecided),
}

/// Whether the calls of one object have a linearization.
#[derive(Debug, Drop)]
pub enum Decision {
    /// They have this linearization.
    Ordered(CallList),
    /// They have none, since the event at this index shows this fault.
    Refused(usize, Fault),
    /// They aren't decided from the event at this index on.
    Open(usize, Cause),
}
