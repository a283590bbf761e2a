//! The groups of objects that are declared together.
ghost use Rattle.std.specs.Prelude.{◌≡◌, ◌++◌, IfOk, OnOk};
ghost use Rattle.ec_heading.specs.Groups.{both_of};
ghost use Rattle.ec_heading.specs.Rules.{semaphores_of};

use ec_buffer::BufferShape;
use ec_count::{CellId, EventId, SeqId};
use ec_database::DatabaseShape;
use ec_semaphore::SemaphoreShape;
use std::alloc::{AllocError, Global};

/// A group of objects that are declared together, by its shape.
#[derive(Clone, Copy, Debug, PartialEq, Eq)]
pub enum Group {
    Buffer(BufferShape),
    Database(DatabaseShape),
    Semaphore(SemaphoreShape),
    /// The common semaphore of P on two semaphores at once. It has no name, and there is at most
    /// one.
    Both(SemaphoreShape),
}

impl Group {
    ghost use Rattle.ec_heading.specs.Groups.{buffer_of, database_of, semaphore_of};
    ghost use Rattle.ec_heading.specs.Groups.{has_cell, has_event, has_sequencer};

    /// Returns its shape if it is a buffer.
    pub fn buffer(self) -> Option<BufferShape>
        ensures { result ≡ buffer_of self }
    {
        match self {
            Group::Buffer(shape) => Some(shape),
            _ => None,
        }
    }

    /// Returns its shape if it is a database.
    pub fn database(self) -> Option<DatabaseShape>
        ensures { result ≡ database_of self }
    {
        match self {
            Group::Database(shape) => Some(shape),
            _ => None,
        }
    }

    /// Returns its shape if it is a semaphore with a name.
    pub fn semaphore(self) -> Option<SemaphoreShape>
        ensures { result ≡ semaphore_of self }
    {
        match self {
            Group::Semaphore(shape) => Some(shape),
            _ => None,
        }
    }

    /// Returns whether an eventcount belongs to the group.
    pub fn has_event(&self, event: EventId) -> bool
        ensures { result ≡ has_event self.now event }
    {
        match *self {
            Group::Buffer(shape) => shape.in_count() == event || shape.out_count() == event,
            Group::Database(shape) => shape.start() == event || shape.done() == event,
            Group::Semaphore(shape) | Group::Both(shape) => shape.count() == event,
        }
    }

    /// Returns whether a sequencer belongs to the group.
    pub fn has_sequencer(&self, sequencer: SeqId) -> bool
        ensures { result ≡ has_sequencer self.now sequencer }
    {
        match *self {
            Group::Buffer(shape) => shape.put_seq() == sequencer || shape.take_seq() == sequencer,
            Group::Database(shape) => shape.turn() == sequencer,
            Group::Semaphore(shape) | Group::Both(shape) => shape.line() == sequencer,
        }
    }

    /// Returns whether a cell belongs to the group.
    pub fn has_cell(&self, cell: CellId) -> bool
        ensures { result ≡ has_cell self.now cell }
    {
        let (first, cells) = match *self {
            Group::Buffer(shape) => (shape.first_cell(), shape.cells()),
            Group::Database(shape) => (shape.first_cell(), shape.cells()),
            Group::Semaphore(_) | Group::Both(_) => return false,
        };
        first.get() <= cell.get() && cell.get() < first.get() + cells
    }
}

/// Returns the common semaphore, if one is declared.
pub fn both_of(groups: &[Group]) -> Option<SemaphoreShape>
    ensures { result ≡ both_of groups.now }
{
    match groups {
        [] => None,
        [Group::Both(shape), ..] => Some(*shape),
        [_, rest @ ..] => both_of(rest),
    }
}

/// Adds the semaphores among groups, except the common one of `both`.
fn push_semaphores(list: &mut Vec<SemaphoreShape>, groups: &[Group]) -> Result<(), AllocError>
    ensures { OnOk result (list.new.items ≡ list.old.items ++ semaphores_of groups.now) }
{
    let [group, rest @ ..] = groups else {
        return Ok(());
    };
    if let Group::Semaphore(shape) = group {
        list.push(*shape)?;
    }
    push_semaphores(list, rest)
}

/// Returns the semaphores among groups, except the common one of `both`.
pub fn semaphores_of(alloc: Global, groups: &[Group]) -> Result<Vec<SemaphoreShape>, AllocError>
    ensures { IfOk result (λ list. list.items ≡ semaphores_of groups.now) }
{
    let mut list = Vec::new(alloc);
    push_semaphores(&mut list, groups)?;
    Ok(list)
}
