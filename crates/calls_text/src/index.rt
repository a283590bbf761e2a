//! The indices of the objects: first the eventcounts, then the sequencers, the cells, the
//! semaphores as one object, and the groups.
ghost use Rattle.std.specs.Prelude.{◌≡◌};
ghost use Rattle.calls_text.specs.Recordings.{first_sequencer, first_cell, first_group, cells_of};
ghost use Rattle.calls_text.specs.Recordings.{numbers_of};

use ec_heading::{Group, Heading};

/// Returns the index of the first sequencer.
pub fn first_sequencer(heading: &Heading) -> usize
    ensures { result ≡ first_sequencer heading.now }
{
    heading.setup().events()
}

/// Returns the index of the first cell.
pub fn first_cell(heading: &Heading) -> usize
    ensures { result ≡ first_cell heading.now }
{
    let setup = heading.setup();
    setup.invariant();
    setup.events() + setup.sequencers()
}

/// Returns the index of the first group.
pub fn first_group(heading: &Heading) -> usize
    ensures { result ≡ first_group heading.now }
{
    let setup = heading.setup();
    setup.invariant();
    first_cell(heading) + setup.cells() + 1
}

/// Returns how many cells a database has, or 0 for another group.
pub(crate) fn cells_of(group: &Group) -> usize
    ensures { result ≡ cells_of group.now }
{
    match *group {
        Group::Database(shape) => shape.cells(),
        _ => 0,
    }
}

/// Returns how many numbers a get of an object returns.
pub fn numbers_of(heading: &Heading, object: usize) -> usize
    ensures { result ≡ numbers_of heading.now object }
{
    let first = first_group(heading);
    if object < first {
        return 1;
    }
    match heading.groups().get(object - first) {
        Some(group) => cells_of(group),
        None => 0,
    }
}
