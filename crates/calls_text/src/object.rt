//! Finds the object that the words of a call name, and says who may call it.
ghost use Rattle.std.specs.Prelude.{◌≡◌, option_map, if◌then◌else◌};
ghost use Rattle.std.specs.Option.{option_and_then};
ghost use Rattle.ec_heading.specs.Groups.{both_of};
ghost use Rattle.calls_text.specs.Objects.{group_in, semaphore_in, database_in, buffer_in};
ghost use Rattle.calls_text.specs.Objects.{semaphore_pair};
ghost use Rattle.calls_text.specs.Objects.{object_in, owns, is_owned, has_right};

use crate::verb::OpWord;
use ec_buffer::BufferShape;
use ec_count::{CellId, EventId, SeqId, Setup, Target, WorkerId};
use ec_database::DatabaseShape;
use ec_heading::{Group, Heading, both_of};
use ec_semaphore::SemaphoreShape;

/// The object of a call. A semaphore, a database or a buffer comes with its index among the groups.
#[derive(Clone, Copy)]
pub(crate) enum Object {
    Event(EventId),
    Sequencer(SeqId),
    Cell(CellId),
    Semaphore(usize, SemaphoreShape),
    /// The two semaphores of a `pboth`, and the semaphore `both`.
    Pair(usize, SemaphoreShape, usize, SemaphoreShape, SemaphoreShape),
    Database(usize, DatabaseShape),
    Buffer(usize, BufferShape),
}

/// Returns the group of this name, with its index among the groups.
fn group_in(heading: &Heading, word: &[u8]) -> Option<(usize, Group)>
    ensures { result ≡ group_in heading.now word.now }
{
    let Some(Target::Group(place)) = heading.names().find_bytes(word) else {
        return None;
    };
    let group = heading.groups().get(place).copied()?;
    Some((place, group))
}

/// Returns the semaphore of this name, with its index among the groups.
fn semaphore_in(heading: &Heading, word: &[u8]) -> Option<(usize, SemaphoreShape)>
    ensures { result ≡ semaphore_in heading.now word.now }
{
    let (place, group) = group_in(heading, word)?;
    let shape = group.semaphore()?;
    Some((place, shape))
}

/// Returns the database of this name, with its index among the groups.
fn database_in(heading: &Heading, word: &[u8]) -> Option<(usize, DatabaseShape)>
    ensures { result ≡ database_in heading.now word.now }
{
    let (place, group) = group_in(heading, word)?;
    let shape = group.database()?;
    Some((place, shape))
}

/// Returns the buffer of this name, with its index among the groups.
fn buffer_in(heading: &Heading, word: &[u8]) -> Option<(usize, BufferShape)>
    ensures { result ≡ buffer_in heading.now word.now }
{
    let (place, group) = group_in(heading, word)?;
    let shape = group.buffer()?;
    Some((place, shape))
}

/// Returns the two semaphores that a `pboth` names, and the semaphore `both`.
fn pair_in(heading: &Heading, word: &[u8], other: Option<&[u8]>) -> Option<Object>
    ensures { result ≡ semaphore_pair (both_of heading.now.groups)
        (semaphore_in heading.now word.now)
        (option_and_then (semaphore_in heading.now) (option_map (λ w. w.now) other.entry)) }
{
    let common = both_of(heading.groups())?;
    let (i, one) = semaphore_in(heading, word)?;
    let (j, other) = semaphore_in(heading, other?)?;
    Some(Object::Pair(i, one, j, other, common))
}

/// Returns the declared object that a call names, if it is of the sort that the call needs.
///
/// `other` is the name of the second semaphore of a `pboth`.
pub(crate) fn object_in(
    heading: &Heading,
    verb: OpWord,
    word: &[u8],
    other: Option<&[u8]>,
) -> Option<Object>
    ensures { result ≡ object_in heading.now verb word.now (option_map (λ w. w.now) other.entry) }
{
    match verb {
        OpWord::Advance | OpWord::Read | OpWord::Await => Some(Object::Event(heading.event(word)?)),
        OpWord::Ticket => Some(Object::Sequencer(heading.sequencer(word)?)),
        OpWord::Put | OpWord::Get => Some(Object::Cell(heading.cell(word)?)),
        OpWord::P | OpWord::V => {
            let (place, shape) = semaphore_in(heading, word)?;
            Some(Object::Semaphore(place, shape))
        }
        OpWord::PBoth => pair_in(heading, word, other),
        OpWord::Write | OpWord::Snapshot => {
            let (place, shape) = database_in(heading, word)?;
            Some(Object::Database(place, shape))
        }
        OpWord::Produce | OpWord::Consume => {
            let (place, shape) = buffer_in(heading, word)?;
            Some(Object::Buffer(place, shape))
        }
    }
}

/// Returns whether an eventcount, a sequencer or a cell belongs to the group.
fn owns(object: &Object, group: &Group) -> bool
    ensures { result ≡ owns object.now group.now }
{
    match *object {
        Object::Event(event) => group.has_event(event),
        Object::Sequencer(sequencer) => group.has_sequencer(sequencer),
        Object::Cell(cell) => group.has_cell(cell),
        _ => false,
    }
}

/// Returns whether an eventcount, a sequencer or a cell belongs to one of the groups.
#[inline(always)]
pub(crate) fn is_owned(groups: &[Group], object: &Object) -> bool
    ensures { result ≡ is_owned groups.now object.now }
{
    groups.iter().any(|group| owns(object, group))
}

/// Returns the sequencer of the producers, or that of the consumers.
fn sequencer_in(shape: &BufferShape, puts: bool) -> SeqId
    ensures { result ≡ (if puts then shape.now.put_seq else shape.now.take_seq) }
{
    if puts {
        shape.put_seq()
    } else {
        shape.take_seq()
    }
}

/// Returns whether the declarations allow a worker such a call of the object.
///
/// `update` says whether the call is an advance, a put, a write or a produce.
pub(crate) fn has_right(setup: &Setup, worker: WorkerId, update: bool, object: &Object) -> bool
    ensures { result ≡ has_right setup.now worker update object.now }
{
    match *object {
        Object::Event(event) => {
            if update {
                setup.component_of(event, worker).is_some()
            } else {
                setup.may_observe(event, worker)
            }
        }
        Object::Sequencer(sequencer) => setup.may_take(sequencer, worker),
        Object::Cell(cell) => {
            if update {
                setup.may_write(cell, worker)
            } else {
                setup.may_read(cell, worker)
            }
        }
        Object::Semaphore(_, shape) => setup.may_take(shape.line(), worker),
        Object::Pair(_, one, _, other, common) => {
            setup.may_take(common.line(), worker)
                && setup.may_take(one.line(), worker)
                && setup.may_take(other.line(), worker)
        }
        Object::Database(_, shape) => {
            if update {
                setup.may_take(shape.turn(), worker)
            } else {
                setup.may_observe(shape.start(), worker)
            }
        }
        Object::Buffer(_, shape) => setup.may_take(sequencer_in(&shape, update), worker),
    }
}
