//! The object of a line.
ghost use Rattle.std.specs.Prelude.{◌≡◌};
ghost use Rattle.std.specs.Option.{option_and_then};
ghost use Rattle.ec_heading.specs.Groups.{both_of};
ghost use Rattle.ec_heading.specs.Lists.{worker_in};
ghost use Rattle.ec_heading.specs.EntryWords.{event_in};
ghost use Rattle.ec_script.specs.Forms.{only_in, rest_words, phrase_of_parts};
ghost use Rattle.ec_script.specs.Objects.{group_in, semaphore_in, semaphore_pair, transfer_object, object_in, owns, is_owned};

use crate::form::{Parts, only_word};
use crate::verb::LineWord;
use ec_buffer::BufferShape;
use ec_count::{CellId, EventId, SeqId, Target, WorkerId};
use ec_database::DatabaseShape;
use ec_heading::{Group, Heading, both_of};
use ec_semaphore::SemaphoreShape;

/// The object of a line: what its words name.
#[derive(Clone, Copy)]
pub(crate) enum Object {
    Nothing,
    Worker(WorkerId),
    Event(EventId),
    Sequencer(SeqId),
    Cell(CellId),
    /// An eventcount, and the worker to whom its component is handed.
    Handed(EventId, WorkerId),
    OfBuffer(BufferShape),
    OfDatabase(DatabaseShape),
    OfSemaphore(SemaphoreShape),
    /// The common semaphore of `both`, and the two that the line names.
    SemaphorePair(SemaphoreShape, SemaphoreShape, SemaphoreShape),
}

/// Returns the group of a name.
fn group_in(heading: &Heading, word: &[u8]) -> Option<Group>
    ensures { result ≡ group_in heading.now word.now }
{
    let Some(Target::Group(place)) = heading.names().find_bytes(word) else {
        return None;
    };
    heading.groups().get(place).copied()
}

/// Returns the semaphore of a name.
fn semaphore_in(heading: &Heading, word: &[u8]) -> Option<SemaphoreShape>
    ensures { result ≡ semaphore_in heading.now word.now }
{
    group_in(heading, word)?.semaphore()
}

/// Returns the common semaphore and the two that a line names.
fn pair_in(heading: &Heading, parts: &Parts<'_>) -> Option<Object>
    ensures { result ≡ semaphore_pair (both_of heading.now.groups) (semaphore_in heading.now parts.now.object.now) (option_and_then (semaphore_in heading.now) (only_in (rest_words parts.now.rest))) }
{
    let common = both_of(heading.groups())?;
    let one = semaphore_in(heading, parts.object)?;
    let other = semaphore_in(heading, only_word(parts.rest)?)?;
    Some(Object::SemaphorePair(common, one, other))
}

/// Returns the eventcount and the worker that a line names.
fn find_transfer(heading: &Heading, parts: &Parts<'_>) -> Option<Object>
    ensures { result ≡ transfer_object (event_in heading.now.words parts.now.object.now) (option_and_then (worker_in heading.now.words) (only_in (rest_words parts.now.rest))) }
{
    let event = heading.event(parts.object)?;
    let to = heading.worker(only_word(parts.rest)?)?;
    Some(Object::Handed(event, to))
}

/// Returns the object of a line: the declared one that its word names, if it is of the kind that
/// the verb takes.
pub(crate) fn object_in(heading: &Heading, parts: &Parts<'_>) -> Option<Object>
    ensures { result ≡ object_in heading.now (phrase_of_parts parts.now) }
{
    let word = parts.object;
    match parts.verb {
        LineWord::Advance | LineWord::Read | LineWord::Await => Some(Object::Event(heading.event(
            word,
        )?)),
        LineWord::Ticket => Some(Object::Sequencer(heading.sequencer(word)?)),
        LineWord::Put | LineWord::Get => Some(Object::Cell(heading.cell(word)?)),
        LineWord::Hand => find_transfer(heading, parts),
        LineWord::Produce | LineWord::Consume => {
            Some(Object::OfBuffer(group_in(heading, word)?.buffer()?))
        }
        LineWord::Write | LineWord::Snapshot => {
            Some(Object::OfDatabase(group_in(heading, word)?.database()?))
        }
        LineWord::Down | LineWord::Up => Some(Object::OfSemaphore(semaphore_in(heading, word)?)),
        LineWord::DownBoth => pair_in(heading, parts),
        LineWord::Worker => Some(Object::Worker(heading.worker(word)?)),
        LineWord::Repeat | LineWord::End | LineWord::Schedule => Some(Object::Nothing),
    }
}

/// Returns whether an eventcount, a sequencer or a cell belongs to the group; for a `hand`, whether
/// its eventcount does.
fn owns(object: &Object, group: &Group) -> bool
    ensures { result ≡ owns object.now group.now }
{
    match *object {
        Object::Event(event) => group.has_event(event),
        Object::Sequencer(sequencer) => group.has_sequencer(sequencer),
        Object::Cell(cell) => group.has_cell(cell),
        Object::Handed(event, _) => group.has_event(event),
        _ => false,
    }
}

/// Returns whether an eventcount, a sequencer or a cell belongs to one of the groups.
pub(crate) fn is_owned(groups: &[Group], object: &Object) -> bool
    ensures { result ≡ is_owned groups.now object.now }
{
    groups.iter().any(|group| owns(object, group))
}
