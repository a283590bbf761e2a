//! A history of calls: what its header declares, and its events.
ghost use Rattle.std.specs.Prelude.{◌≡◌, ◌≤◌, ◌<◌, ◌+◌, ◌++◌, ◌∷◌, [], ℕ, length, map, slice_get};
ghost use Rattle.std.specs.Prelude.{IfOk, OnOk, Some};
ghost use Rattle.calls_core.specs.declared.history.Kind.TheVariants.{Eventcount, Sequencer, Cell};
ghost use Rattle.calls_core.specs.declared.history.Kind.TheVariants.{Database, Semaphores};
ghost use Rattle.calls_text.specs.Recordings.{AreKinds, IsRecording, HasFrom, HasUnits, HasGroups};
ghost use Rattle.calls_text.specs.Recordings.{start_count, initial_of, kind_of_group};
ghost use Rattle.calls_text.specs.kept.Adding.{Grows};
ghost use Rattle.calls_text.specs.kept.Runs.{IsNextOf};
ghost use Rattle.calls_text.specs.Reading.{with_events, recorded_of};

use crate::index::cells_of;
use crate::lists::Lists;
use calls_core::{Event, Events, Kind};
use ec_count::EventId;
use ec_heading::{Group, Heading};
use std::alloc::{AllocError, Global};
use std::marker::Model;

/// A history of calls: what is declared, and the events.
#[derive(Drop)]
pub struct Recording {
    /// Boxed, since a `Heading` is large and a history is moved.
    pub(crate) heading: Box<Heading>,
    pub(crate) from: Vec<(EventId, u64)>,
    pub(crate) kinds: Vec<Kind>,
    pub(crate) events: Events,
    pub(crate) lists: Lists,
}

impl Model for Recording {
    ghost use Rattle.calls_text.specs.Recordings.{RecordingModel, IsRecording};

    ghost Value = { RecordingModel };

    ghost view = { λ r. record {
      heading = r.heading.value;
      from = r.from.items;
      events = r.events;
      lists = r.lists;
    } };

    ghost invariant = { λ r. IsRecording (record {
      heading = r.heading.value;
      from = r.from.items;
      events = r.events;
      lists = r.lists;
    }) r.kinds.items };
}

/// Returns the initial count of an eventcount.
fn start_count(from: &[(EventId, u64)], event: usize) -> u64
    ensures { result ≡ start_count from.now event }
{
    match from {
        [] => 0,
        [(other, n), rest @ ..] => {
            if other.get() == event {
                *n
            } else {
                start_count(rest, event)
            }
        }
    }
}

/// Adds `count` eventcounts, with their initial counts.
fn add_events(
    kinds: &mut Vec<Kind>,
    from: &[(EventId, u64)],
    count: usize,
) -> Result<(), AllocError>
    ensures grows { OnOk result (Grows kinds.old.items kinds.new.items count) }
    ensures are { OnOk result (HasFrom kinds.new.items (length kinds.old.items) count
        (λ e. Eventcount (start_count from.now e))) }
{
    for event in 0..count {
        kinds.push(Kind::Eventcount(start_count(from, event) as usize))?;
    }
    Ok(())
}

/// Adds `count` sequencers.
fn add_sequencers(kinds: &mut Vec<Kind>, count: usize) -> Result<(), AllocError>
    ensures grows { OnOk result (Grows kinds.old.items kinds.new.items count) }
    ensures are { OnOk result (HasFrom kinds.new.items (length kinds.old.items) count
        (λ q. Sequencer)) }
{
    for _sequencer in 0..count {
        kinds.push(Kind::Sequencer)?;
    }
    Ok(())
}

/// Adds `count` cells.
fn add_cells(kinds: &mut Vec<Kind>, count: usize) -> Result<(), AllocError>
    ensures grows { OnOk result (Grows kinds.old.items kinds.new.items count) }
    ensures are { OnOk result (HasFrom kinds.new.items (length kinds.old.items) count (λ x. Cell)) }
{
    for _cell in 0..count {
        kinds.push(Kind::Cell)?;
    }
    Ok(())
}

/// Returns the initial units of a semaphore, or 0 for another group.
fn initial_of(group: &Group) -> usize
    ensures { result ≡ initial_of group.now }
{
    match *group {
        Group::Semaphore(shape) => shape.initial() as usize,
        _ => 0,
    }
}

/// Returns the initial units of the semaphores, by the indices of their groups.
fn start_units(alloc: Global, groups: &[Group]) -> Result<Vec<usize>, AllocError>
    ensures { IfOk result (λ units. units.items ≡ map initial_of groups.now) }
{
    groups.iter().map(|group| initial_of(group)).collect(alloc)
}

/// Adds the semaphores, as one object.
fn add_semaphores(alloc: Global, kinds: &mut Vec<Kind>, groups: &[Group]) -> Result<(), AllocError>
    ensures grows { OnOk result (Grows kinds.old.items kinds.new.items 1) }
    ensures are { OnOk result (HasUnits kinds.new.items (length kinds.old.items) groups.now) }
{
    let units = start_units(alloc, groups)?;
    kinds.push(Kind::Semaphores(units))?;
    Ok(())
}

/// Returns the kind of a group: a buffer, or a database, which has 0 cells if the group is none.
fn kind_of_group(group: &Group) -> Kind
    ensures { result ≡ kind_of_group group.now }
{
    match *group {
        Group::Buffer(shape) => Kind::Buffer(shape.cells()),
        _ => Kind::Database(cells_of(group)),
    }
}

/// Adds the groups, each by its kind.
fn add_groups(kinds: &mut Vec<Kind>, groups: &[Group]) -> Result<(), AllocError>
    ensures grows { OnOk result (Grows kinds.old.items kinds.new.items (length groups.now)) }
    ensures are { OnOk result (HasGroups kinds.new.items (length kinds.old.items) groups.now) }
{
    for group in groups {
        kinds.push(kind_of_group(group))?;
    }
    Ok(())
}

/// Returns the kinds of the objects that a header declares, by index.
fn kinds_of(
    alloc: Global,
    heading: &Heading,
    from: &[(EventId, u64)],
) -> Result<Vec<Kind>, AllocError>
    ensures { IfOk result (λ kinds. AreKinds heading.now from.now kinds.items) }
{
    let setup = heading.setup();
    let mut kinds = Vec::new(alloc);
    add_events(&mut kinds, from, setup.events())?;
    add_sequencers(&mut kinds, setup.sequencers())?;
    add_cells(&mut kinds, setup.cells())?;
    add_semaphores(alloc, &mut kinds, heading.groups())?;
    add_groups(&mut kinds, heading.groups())?;
    Ok(kinds)
}

impl Recording {
    /// Returns a history without events.
    pub(crate) fn new(
        alloc: Global,
        heading: Box<Heading>,
        from: Vec<(EventId, u64)>,
    ) -> Result<Recording, AllocError>
        ensures { IfOk result (λ r. r ≡ recorded_of
            (record { heading = heading.value; from = from.items })) }
    {
        let kinds = kinds_of(alloc, &heading, &from)?;
        Ok(Recording {
            heading,
            from,
            kinds,
            events: Events::new(alloc),
            lists: Lists::new(alloc),
        })
    }

    /// Adds the next event.
    pub(crate) fn push(&mut self, event: Event) -> Result<(), AllocError>
        requires { IsNextOf self.old event }
        ensures { OnOk result
            (self.new ≡ with_events self.old (self.old.events ++ event ∷ [])) }
    {
        self.events.push(event)?;
        Ok(())
    }

    /// Returns what is declared.
    pub fn heading(&self) -> &Heading
        ensures { result.now ≡ self.now.heading }
    {
        &self.heading
    }

    /// Returns the initial count of an eventcount.
    pub fn start(&self, event: EventId) -> u64
        ensures { result ≡ start_count self.now.from event }
    {
        start_count(&self.from, event.get())
    }

    /// Returns the kinds of the objects, by index.
    ///
    /// These are the eventcounts, the sequencers, the cells, the semaphores as one object, and the
    /// groups. Of the groups databases and buffers are called by their own indices.
    pub fn kinds(&self) -> &[Kind]
        ensures { IsRecording self.now result.now }
    {
        self.kinds.as_slice()
    }

    /// Returns the events, the one at index i at position i.
    pub fn events(&self) -> &Events
        ensures { result.now ≡ self.now.events }
    {
        &self.events
    }

    /// Returns the lists of numbers that databases store.
    pub fn lists(&self) -> &Lists
        ensures { result.now ≡ self.now.lists }
    {
        &self.lists
    }
}
