//! The objects of a history, its events, and the calls that the events make up.
ghost use Rattle.std.specs.Prelude.{◌≡◌};

/// The most calls that may be pending at once in a monitor.
pub const WORKERS: usize = 64;

/// What an object is.
#[derive(Debug, Drop)]
pub enum Kind {
    /// A count that starts at this number and rises by ones. It is read and awaited.
    Eventcount(usize),
    /// It draws the numbers from 0 on, each once and in order.
    Sequencer,
    /// Semaphores from which one call may take together, with the units that each has at first.
    Semaphores(Vec<usize>),
    /// It holds the number that was put last, 0 at first.
    Cell,
    /// This many cells, written and read at once. Its value is a list of numbers, and one number
    /// encodes the list: equal lists have the same code, and the list of zeros has the code 0.
    Database(usize),
    /// A queue of at most this many items: what was produced first is consumed first.
    Buffer(usize),
}

/// What a call asks of its object.
#[derive(Clone, Copy, Debug, Default, PartialEq, Eq)]
pub enum Op {
    /// Adds one to an eventcount.
    Advance,
    /// Returns the count of an eventcount.
    #[default]
    Read,
    /// Returns once the count of an eventcount has reached this threshold.
    Await(usize),
    /// Returns the next number of a sequencer.
    Ticket,
    /// Takes a unit of the semaphore with this index, once it has one.
    P(usize),
    /// Adds a unit to the semaphore with this index.
    V(usize),
    /// Takes a unit of each of two semaphores, once both have one.
    PBoth(usize, usize),
    /// Stores a value in a cell, or the numbers of a database at once.
    Put(usize),
    /// Returns the value of a cell, or the numbers of a database at once.
    Get,
    /// Puts an item at the end of a buffer, once there is room for one.
    Produce(usize),
    /// Takes the first item out of a buffer and returns it, once there is one.
    Consume,
}

/// What a call returns.
#[derive(Clone, Copy, Debug, Default, PartialEq, Eq)]
pub enum Reply {
    /// Nothing: the reply to an advance, a p, a v, a put and a produce, and to an await that
    /// returns no number.
    #[default]
    Done,
    /// The number.
    Number(usize),
    /// Nothing, since the call gave up. For an await, the count was below its threshold at some
    /// moment of the call. For a p, a produce and a consume, it says nothing.
    Timeout,
}

/// What an event does: it invokes a call or responds to one.
#[derive(Clone, Copy, Debug, PartialEq, Eq)]
pub enum Action {
    /// The invocation: a call of the object with this index begins.
    Invoke(usize, Op),
    /// The response: the worker's pending call returns this reply.
    Respond(Reply),
}

/// An event of a history: an invocation or a response (M. Herlihy and J. Wing, "Linearizability: A
/// Correctness Condition for Concurrent Objects", 1990).
#[derive(Clone, Copy, Debug, PartialEq, Eq)]
pub struct Event {
    /// Its position. The positions of a history ascend, and may leave out numbers.
    pub at: usize,
    /// Whose call begins or ends.
    pub worker: usize,
    /// Whether the call begins or ends, with what it asks or returns.
    pub action: Action,
}

/// A call that has no response yet.
#[derive(Clone, Copy, Debug, Default, PartialEq, Eq)]
pub struct PendingCall {
    /// Whose call it is.
    pub worker: usize,
    /// The index of its object.
    pub object: usize,
    /// What it asks for.
    pub op: Op,
    /// The position of its invocation.
    pub first: usize,
}

impl PendingCall {
    ghost use Rattle.calls_core.specs.Histories.{completion, invoked_by};

    /// Returns the call that an invocation begins.
    pub fn new(event: Event, object: usize, op: Op) -> PendingCall
        ensures { result ≡ invoked_by event object op }
    {
        PendingCall {
            worker: event.worker,
            object,
            op,
            first: event.at,
        }
    }

    /// Returns the call with this reply, and with its response at position `last`.
    pub fn complete(self, reply: Reply, last: usize) -> Call
        ensures { result ≡ completion last reply self }
    {
        Call {
            worker: self.worker,
            object: self.object,
            op: self.op,
            reply,
            first: self.first,
            last,
        }
    }
}

/// A completed call, or a pending one that took effect.
#[derive(Clone, Copy, Debug, Default, PartialEq, Eq)]
pub struct Call {
    /// Whose call it is.
    pub worker: usize,
    /// The index of its object.
    pub object: usize,
    /// What it asks for.
    pub op: Op,
    /// What it returns.
    pub reply: Reply,
    /// The position of its invocation.
    pub first: usize,
    /// The position of its response. For a pending call, the first position after the history.
    pub last: usize,
}

/// A call and its linearization point.
#[derive(Clone, Copy, Debug, Default, PartialEq, Eq)]
pub struct Placed {
    /// The point: the call takes effect after every event at a lower position, and before every
    /// event at this or a higher one. It is greater than the position of the call's invocation, and
    /// at most that of its response.
    pub point: usize,
    /// The call.
    pub call: Call,
}
