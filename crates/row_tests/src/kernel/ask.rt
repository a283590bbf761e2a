//! The words of a line, read as workers, objects and acts. `#3` is the id with number 3, which
//! need not be declared.
use crate::fault::Fault;
use crate::line::Line;
use ec_buffer::BufferShape;
use ec_core::{Act, Reply};
use ec_count::{CellId, EventId, SeqId, Target, WorkerId};
use ec_database::DatabaseShape;
use ec_heading::{Group, Heading};
use ec_semaphore::SemaphoreShape;
use std::alloc::Global;

/// A line about a header and what it declares.
pub type Ask<'a> = Line<'a, &'a Heading>;

/// Reads digits.
pub fn digits(word: &str) -> Result<u64, Fault> {
    word.parse().ok().ok_or(Fault::Line)
}

/// Reads the number after a `#`.
fn raw(word: &str) -> Option<usize> {
    let digits = word.strip_prefix('#')?;
    digits.parse().ok()
}

/// Returns the worker that a word names.
pub fn worker_of(heading: &Heading, word: &str) -> Option<WorkerId> {
    match raw(word) {
        Some(n) => WorkerId::new(n),
        None => heading.worker(word.as_bytes()),
    }
}

/// Returns the eventcount that a word names.
pub fn event_of(heading: &Heading, word: &str) -> Option<EventId> {
    match raw(word) {
        Some(n) => EventId::new(n),
        None => heading.event(word.as_bytes()),
    }
}

/// Returns the sequencer that a word names.
pub fn sequencer_of(heading: &Heading, word: &str) -> Option<SeqId> {
    match raw(word) {
        Some(n) => SeqId::new(n),
        None => heading.sequencer(word.as_bytes()),
    }
}

/// Returns the cell that a word names.
pub fn cell_of(heading: &Heading, word: &str) -> Option<CellId> {
    match raw(word) {
        Some(n) => CellId::new(n),
        None => heading.cell(word.as_bytes()),
    }
}

/// Returns the group `both`, if it is declared.
fn common(heading: &Heading) -> Option<&Group> {
    for group in heading.groups() {
        if let Group::Both(_) = group {
            return Some(group);
        }
    }
    None
}

/// Returns the group that a name or `both` names.
pub fn group_of<'a>(heading: &'a Heading, word: &str) -> Option<&'a Group> {
    if word == "both" {
        return common(heading);
    }
    match heading.names().find(word) {
        Some(Target::Group(place)) => heading.groups().get(place),
        _ => None,
    }
}

/// Returns the semaphore that a name or `both` names.
pub fn semaphore_of(heading: &Heading, word: &str) -> Result<SemaphoreShape, Fault> {
    match group_of(heading, word) {
        Some(Group::Semaphore(shape) | Group::Both(shape)) => Ok(*shape),
        _ => Err(Fault::Line),
    }
}

/// Reads a worker.
pub fn worker(ask: &mut Ask<'_>) -> Result<WorkerId, Fault> {
    worker_of(ask.about, ask.word()).ok_or(Fault::Line)
}

/// Reads workers.
pub fn workers(alloc: Global, ask: &mut Ask<'_>) -> Result<Vec<WorkerId>, Fault> {
    let mut list = Vec::new(alloc);
    for word in &mut ask.words {
        list.push(worker_of(ask.about, word).ok_or(Fault::Line)?)?;
    }
    Ok(list)
}

/// Reads an eventcount.
pub fn event(ask: &mut Ask<'_>) -> Result<EventId, Fault> {
    event_of(ask.about, ask.word()).ok_or(Fault::Line)
}

/// Reads a sequencer.
pub fn sequencer(ask: &mut Ask<'_>) -> Result<SeqId, Fault> {
    sequencer_of(ask.about, ask.word()).ok_or(Fault::Line)
}

/// Reads a cell.
pub fn cell(ask: &mut Ask<'_>) -> Result<CellId, Fault> {
    cell_of(ask.about, ask.word()).ok_or(Fault::Line)
}

/// Reads an act on an eventcount.
fn act_on(verb: &str, event: EventId, ask: &mut Ask<'_>) -> Result<Act, Fault> {
    match verb {
        "advance" => Ok(Act::Advance(event)),
        "read" => Ok(Act::Read(event)),
        "await" => Ok(Act::Await(event, ask.number()?)),
        "hand" => Ok(Act::Hand(event, worker(ask)?)),
        _ => Err(Fault::Line),
    }
}

/// Reads an act.
pub fn act(ask: &mut Ask<'_>) -> Result<Act, Fault> {
    match ask.word() {
        "go" => Ok(Act::Go),
        "ticket" => Ok(Act::Ticket(sequencer(ask)?)),
        "put" => Ok(Act::Put(cell(ask)?, ask.number()?)),
        "get" => Ok(Act::Get(cell(ask)?)),
        verb => {
            let event = event(ask)?;
            act_on(verb, event, ask)
        }
    }
}

/// Reads a reply.
pub fn reply(ask: &mut Ask<'_>) -> Result<Reply, Fault> {
    match ask.word() {
        "done" => Ok(Reply::Done),
        "pending" => Ok(Reply::Pending),
        word => Ok(Reply::Number(digits(word)?)),
    }
}

/// Reads a buffer.
pub fn buffer(ask: &mut Ask<'_>) -> Result<BufferShape, Fault> {
    match group_of(ask.about, ask.word()) {
        Some(Group::Buffer(shape)) => Ok(*shape),
        _ => Err(Fault::Line),
    }
}

/// Reads a database.
pub fn database(ask: &mut Ask<'_>) -> Result<DatabaseShape, Fault> {
    match group_of(ask.about, ask.word()) {
        Some(Group::Database(shape)) => Ok(*shape),
        _ => Err(Fault::Line),
    }
}

/// Reads a semaphore, or `both`.
pub fn semaphore(ask: &mut Ask<'_>) -> Result<SemaphoreShape, Fault> {
    semaphore_of(ask.about, ask.word())
}
