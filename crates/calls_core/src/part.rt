//! The events of one object.
ghost use Rattle.std.specs.Prelude.{◌≡◌, ◌<◌, ◌≤◌, ◌++◌, ◌∷◌, [], length, take, get_or};
ghost use Rattle.std.specs.Prelude.{OnOk};
ghost use Rattle.calls_core.specs.declared.history.Event.{Event};
ghost use Rattle.calls_core.specs.Parts.{event_at, events_at};

use crate::{Action, Event, Events, Reply};
use std::alloc::{AllocError, Global};
use std::marker::Model;

/// Which events of a history these are.
#[derive(Clone, Copy)]
enum Choice<'h> {
    /// So many, or all if there are fewer, from the beginning on.
    First(usize),
    /// Those at these indices.
    At(&'h [u32]),
}

/// Some of the events of a history, in order.
#[derive(Drop)]
pub struct Part<'h> {
    events: &'h Events,
    choice: Choice<'h>,
}

impl<'h> Model for Part<'h> {
    ghost use Rattle.std.specs.Prelude.{List};
    ghost use Rattle.calls_core.specs.declared.history.Event.{Event};
    ghost use Rattle.calls_core.specs.Parts.{chosen_events};

    ghost Value = { List Event };

    ghost view = { λ p. chosen_events p.events.now p.choice };
}

/// The event that stands for one that is not there.
const BLANK: Event = Event {
    at: 0,
    worker: 0,
    action: Action::Respond(Reply::Done),
};

/// Returns the event at an index, or the blank one.
fn event_at(events: &Events, i: usize) -> Event
    ensures { result ≡ event_at events.now i }
{
    match events.get(i) {
        Some(event) => event,
        None => BLANK,
    }
}

/// Returns the event at one of some indices.
fn indexed(events: &Events, indices: &[u32], i: usize) -> Event
    requires { i < length indices.now }
    ensures { (d : Event) → result ≡ get_or (events_at events.now indices.now) i d }
{
    event_at(events, indices[i] as usize)
}

impl<'h> Part<'h> {
    /// Returns the events at these indices.
    fn by(events: &'h Events, indices: &'h [u32]) -> Part<'h>
        ensures { result ≡ events_at events.now indices.now }
    {
        Part {
            events,
            choice: Choice::At(indices),
        }
    }

    /// Returns the first n events of a history, or all if there are fewer.
    pub fn prefix(events: &'h Events, n: usize) -> Part<'h>
        ensures { result ≡ take n events.now }
    {
        Part {
            events,
            choice: Choice::First(n),
        }
    }

    /// Returns all events of a history.
    pub fn whole(events: &'h Events) -> Part<'h>
        ensures { result ≡ events.now }
    {
        Part::prefix(events, events.len())
    }

    /// Returns how many events there are.
    pub fn len(&self) -> usize
        ensures { result ≡ length self.now }
    {
        match self.choice {
            Choice::First(n) => n.min(self.events.len()),
            Choice::At(indices) => indices.len(),
        }
    }

    /// Returns the event at an index.
    pub fn at(&self, i: usize) -> Event
        requires { i < length self.now }
        ensures { (d : Event) → result ≡ get_or self.now i d }
    {
        match self.choice {
            Choice::First(_) => self.events.at(i),
            Choice::At(indices) => indexed(self.events, indices, i),
        }
    }

    /// Returns the first n events.
    pub fn first(&self, n: usize) -> Part<'h>
        requires { n ≤ length self.now }
        ensures { result ≡ take n self.now }
    {
        match self.choice {
            Choice::First(_) => Part::prefix(self.events, n),
            Choice::At(indices) => Part::by(self.events, &indices[..n]),
        }
    }
}

/// The indices of the events of one object, in order, while they are collected from a history.
#[derive(Drop)]
pub struct PartList {
    indices: Vec<u32>,
}

impl Model for PartList {
    ghost use Rattle.std.specs.Prelude.{List, ℕ};

    ghost Value = { List ℕ };

    ghost view = { λ p. p.indices.items };
}

impl PartList {
    /// Returns an empty list.
    pub fn new(alloc: Global) -> PartList
        ensures { result ≡ [] }
    {
        PartList {
            indices: Vec::new(alloc),
        }
    }

    /// Adds an index at the end.
    ///
    /// An index that does not fit in 32 bits is answered as if memory ran out.
    pub fn push(&mut self, i: usize) -> Result<(), AllocError>
        ensures { OnOk result (self.new ≡ self.old ++ i ∷ []) }
    {
        match u32::try_from(i) {
            Ok(index) => {
                self.indices.push(index)?;
                Ok(())
            }
            Err(_) => Err(AllocError),
        }
    }

    /// Returns the events at the indices so far.
    pub fn part<'h>(&'h self, events: &'h Events) -> Part<'h>
        ensures { result ≡ events_at events.now self.now }
    {
        Part::by(events, &self.indices)
    }
}
