//! What a worker is to do. The commands are this project's own.
use ec_buffer::BufferShape;
use ec_count::{CellId, EventId, SeqId, WorkerId};
use ec_database::DatabaseShape;
use ec_semaphore::SemaphoreShape;

/// A value that a command names.
#[derive(Clone, Copy, Debug, PartialEq, Eq)]
pub enum Value {
    /// This number, of at most VALUE_MAX.
    Number(u64),
    /// The number that the worker's last completed call returned, of those that returned one, calls
    /// of procedures among them; 0 before any.
    Last,
    /// The same plus this number, from 1 to VALUE_MAX.
    LastPlus(u64),
}

/// A command. Its values are computed when its first call is due.
#[derive(Drop)]
pub enum Command {
    /// Raises the worker's own component of an eventcount by one.
    Advance(EventId),
    /// Reads an eventcount.
    Read(EventId),
    /// Waits until an eventcount has a total of at least this.
    Await(EventId, Value),
    /// Draws a ticket.
    Ticket(SeqId),
    /// Writes a value into a cell.
    Put(CellId, Value),
    /// Reads a cell.
    Get(CellId),
    /// Hands the worker's own component of an eventcount to another worker.
    Hand(EventId, WorkerId),
    /// Puts one item into a buffer.
    Produce(BufferShape, Value),
    /// Gets one item from a buffer.
    Consume(BufferShape),
    /// Writes these values into all cells of a database: as many as it has cells.
    WriteAll(DatabaseShape, Vec<Value>),
    /// Reads all cells of a database, in at most so many tries, from 1 to 1000.
    Snapshot(DatabaseShape, usize),
    /// P on a semaphore.
    Down(SemaphoreShape),
    /// V on a semaphore.
    Up(SemaphoreShape),
    /// P on two semaphores at once, the second and the third: the first is the common one, with
    /// initial value 1. The three are different.
    DownBoth(SemaphoreShape, SemaphoreShape, SemaphoreShape),
    /// A block of at least one command, repeated so many times, from 1 to 1000000.
    Repeat(u64, Vec<Command>),
}
