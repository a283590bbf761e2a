//! The events of a history, in little memory.
ghost use Rattle.std.specs.Prelude.{◌≡◌, ◌<◌, ◌++◌, ◌∷◌, [], length, slice_get, get_or, IfOk, OnOk};
ghost use Rattle.std.specs.Prelude.{OnErr};
ghost use Rattle.calls_core.specs.declared.history.Event.{Event};
ghost use Rattle.calls_core.specs.kept.Packed.{unpack_from};

use crate::Event;
use crate::packed::PackedEvent;
use std::alloc::{AllocError, Global};
use std::marker::Model;

/// Events, each in 8 bytes or each in full.
#[derive(Debug, Drop)]
enum Width {
    Narrow(Vec<PackedEvent>),
    Wide(Vec<Event>),
}

/// The events of a history, in order.
///
/// An event takes 8 bytes. The first one that doesn't fit widens the whole list, which then stays
/// wide.
#[derive(Debug, Drop)]
pub struct Events {
    list: Width,
}

impl Model for Events {
    ghost use Rattle.std.specs.Prelude.{List};
    ghost use Rattle.calls_core.specs.declared.history.Event.{Event};
    ghost use Rattle.calls_core.specs.kept.Packed.{events_in};

    ghost Value = { List Event };

    ghost view = { λ e. events_in e.list };
}

/// Returns the events of a list in full, and one more.
#[inline(never)]
fn widen_with(list: &Vec<PackedEvent>, event: Event) -> Result<Vec<Event>, AllocError>
    ensures { IfOk result (λ wide. wide.items ≡ unpack_from 0 list.now.items ++ event ∷ []) }
{
    let mut wide = Vec::with_capacity(*list.allocator(), list.len() + 1)?;
    for (i, packed) in list.iter().enumerate() {
        wide.push(packed.unpack(i))?;
    }
    wide.push(event)?;
    Ok(wide)
}

impl Events {
    /// Returns an empty list.
    pub fn new(alloc: Global) -> Events
        ensures { result ≡ [] }
    {
        Events {
            list: Width::Narrow(Vec::new(alloc)),
        }
    }

    /// Adds an event at the end. If memory runs out, the list stays as it is.
    #[inline(always)]
    pub fn push(&mut self, event: Event) -> Result<(), AllocError>
        ensures ok { OnOk result (self.new ≡ self.old ++ event ∷ []) }
        ensures err { OnErr result (self.new ≡ self.old) }
    {
        match &mut self.list {
            Width::Narrow(list) => match PackedEvent::of(&event, list.len()) {
                Some(packed) => list.push(packed)?,
                None => self.list = Width::Wide(widen_with(list, event)?),
            },
            Width::Wide(list) => list.push(event)?,
        }
        Ok(())
    }

    /// Returns how many events there are.
    #[inline(always)]
    pub fn len(&self) -> usize
        ensures { result ≡ length self.now }
    {
        match &self.list {
            Width::Narrow(list) => list.len(),
            Width::Wide(list) => list.len(),
        }
    }

    /// Returns the event at an index, `None` if there are no more events.
    #[inline(always)]
    pub fn get(&self, i: usize) -> Option<Event>
        ensures { result ≡ slice_get self.now i }
    {
        if i < self.len() {
            Some(self.at(i))
        } else {
            None
        }
    }

    /// Returns the event at an index.
    #[inline(always)]
    pub fn at(&self, i: usize) -> Event
        requires { i < length self.now }
        ensures { (d : Event) → result ≡ get_or self.now i d }
    {
        match &self.list {
            Width::Narrow(list) => list[i].unpack(i),
            Width::Wide(list) => list[i],
        }
    }
}
