//! A monitor of one buffer: it judges a history event by event, in constant memory.
ghost use Rattle.std.specs.Prelude.{◌≡◌, ◌<◌, ◌≤◌, []};
ghost use Rattle.calls_spsc.specs.Monitors.{Watches, Judges};
ghost use Rattle.calls_spsc.specs.kept.Moves.{Asks, Responds, EndsPut, EndsTake, PutsIn};
ghost use Rattle.calls_spsc.specs.kept.Moves.{MakesRoom, NextIs, KeepsRoomAndPut, expected};
ghost use Rattle.calls_spsc.specs.kept.Moves.{verdict_on};
ghost use Rattle.calls_spsc.specs.kept.Moves.{KeepsRoomAndTake};

use arrayvec::ArrayVec;
use calls_core::{Action, Call, Event, Op, PendingCall, Reply};

/// The most items that a watched buffer has room for.
pub const ROOM_MAX: usize = 256;

/// The pending produce.
#[derive(Clone, Copy, Debug, PartialEq, Eq)]
pub struct PendingPut {
    /// The call.
    pub call: PendingCall,
    /// Its item.
    pub item: usize,
    /// Whether its item was returned, so that it has taken effect.
    pub returned: bool,
}

/// The pending consume.
#[derive(Clone, Copy, Debug, PartialEq, Eq)]
pub struct PendingTake {
    /// The call.
    pub call: PendingCall,
    /// The item that it has taken, if a produce needed the room.
    pub taken: Option<usize>,
}

/// The state after the events so far.
#[derive(Drop)]
pub struct Monitor {
    /// How many items there is room for.
    pub room: usize,
    /// The items that were put in and not taken out, the oldest first.
    pub items: ArrayVec<usize, ROOM_MAX>,
    /// The pending produce, if there is one.
    pub put: Option<PendingPut>,
    /// The pending consume, if there is one.
    pub take: Option<PendingTake>,
}

/// Why the events so far have no linearization.
#[derive(Clone, Copy, Debug, PartialEq, Eq)]
pub enum Refusal {
    /// The consume returned another item than this one, which is the next to be taken out.
    NotNext(usize),
    /// The consume returned an item, but each item that was produced had been taken out.
    Empty,
    /// The produce returned, but there is no room for its item.
    Full,
    /// The call gave up. But its item was returned, or a produce needed the room.
    Needed,
}

/// The events so far have no linearization.
#[derive(Clone, Copy, Debug, PartialEq, Eq)]
pub struct Refused {
    /// The call that the last event completes.
    pub call: Call,
    /// Why there is none.
    pub refusal: Refusal,
}

impl Monitor {
    /// Makes a monitor of no events.
    pub fn new(room: usize) -> Self
        requires some { 0 < room }
        requires few { room ≤ ROOM_MAX }
        ensures { Watches room [] result }
    {
        Monitor {
            room,
            items: ArrayVec::new(),
            put: None,
            take: None,
        }
    }

    /// Adds an event, or returns `Err` if the events up to it have no linearization.
    ///
    /// After an `Err` the monitor represents no history.
    pub fn event(&mut self, event: Event) -> Result<(), Refused>
        ensures { Judges self.old self.new event result }
    {
        match event.action {
            Action::Invoke(object, op) => {
                self.invoke(PendingCall::new(event, object, op));
                Ok(())
            }
            Action::Respond(reply) => self.respond(event, reply),
        }
    }

    /// Adds a pending call.
    fn invoke(&mut self, call: PendingCall)
        ensures { Asks call self.old self.new }
    {
        match call.op {
            Op::Produce(item) => {
                self.put = Some(PendingPut {
                    call,
                    item,
                    returned: false,
                });
            }
            Op::Consume => self.take = Some(PendingTake { call, taken: None }),
            _ => {}
        }
    }

    /// Ends the pending call of the event's worker with this reply, or returns `Err` if the events
    /// have no linearization.
    fn respond(&mut self, event: Event, reply: Reply) -> Result<(), Refused>
        ensures { Responds event reply self.old self.new result }
    {
        if let Some(put) = self.put
            && put.call.worker == event.worker
        {
            self.put = None;
            let call = put.call.complete(reply, event.at);
            return verdict(call, self.end_put(put, reply));
        }
        if let Some(take) = self.take
            && take.call.worker == event.worker
        {
            self.take = None;
            let call = take.call.complete(reply, event.at);
            return verdict(call, self.end_take(take, reply));
        }
        Ok(())
    }

    /// Puts the item of the produce in, unless it has taken effect or gave up.
    fn end_put(&mut self, put: PendingPut, reply: Reply) -> Result<(), Refusal>
        ensures ends { EndsPut self.old.room self.old.items.items self.new.items.items
            self.old.take self.new.take put.item reply put.returned result }
        ensures same { KeepsRoomAndPut self.old self.new }
    {
        match reply {
            Reply::Done if !put.returned => self.put_in(put.item),
            Reply::Timeout if put.returned => Err(Refusal::Needed),
            _ => Ok(()),
        }
    }

    /// Puts an item in. If there is no room for it, the pending consume takes the oldest item
    /// first.
    fn put_in(&mut self, item: usize) -> Result<(), Refusal>
        ensures puts { PutsIn self.old.room self.old.items.items self.new.items.items
            self.old.take self.new.take item result }
        ensures same { KeepsRoomAndPut self.old self.new }
    {
        if self.items.len() >= self.room && !self.make_room() {
            return Err(Refusal::Full);
        }
        match self.items.try_push(item) {
            Ok(()) => Ok(()),
            Err(_) => Err(Refusal::Full),
        }
    }

    /// Lets the pending consume take the oldest item. Returns whether it could.
    fn make_room(&mut self) -> bool
        ensures makes { MakesRoom self.old.items.items self.new.items.items
            self.old.take self.new.take result }
        ensures same { KeepsRoomAndPut self.old self.new }
    {
        match self.take {
            Some(PendingTake { call, taken: None }) if !self.items.is_empty() => {
                let taken = Some(self.items.remove(0));
                self.take = Some(PendingTake { call, taken });
                true
            }
            _ => false,
        }
    }

    /// Compares what the consume returned with the item that it has taken, or with the next one.
    fn end_take(&mut self, take: PendingTake, reply: Reply) -> Result<(), Refusal>
        ensures ends { EndsTake self.old.items.items self.new.items.items
            self.old.put self.new.put reply take.taken result }
        ensures same { KeepsRoomAndTake self.old self.new }
    {
        match (reply, take.taken) {
            (Reply::Number(item), Some(taken)) => expect_item(taken, item),
            (Reply::Number(item), None) => match self.take_next() {
                Ok(next) => expect_item(next, item),
                Err(refusal) => Err(refusal),
            },
            (Reply::Timeout, Some(_)) => Err(Refusal::Needed),
            _ => Ok(()),
        }
    }

    /// Takes out the oldest item, or that of the pending produce if there is no other.
    fn take_next(&mut self) -> Result<usize, Refusal>
        ensures next { NextIs self.old.items.items self.new.items.items
            self.old.put self.new.put result }
        ensures same { KeepsRoomAndTake self.old self.new }
    {
        if !self.items.is_empty() {
            return Ok(self.items.remove(0));
        }
        match self.put {
            Some(put) if !put.returned => {
                self.put = Some(PendingPut {
                    returned: true,
                    ..put
                });
                Ok(put.item)
            }
            _ => Err(Refusal::Empty),
        }
    }
}

/// Returns `Err` if a consume returned another item than the next one.
fn expect_item(next: usize, item: usize) -> Result<(), Refusal>
    ensures { result ≡ expected next item }
{
    if item == next {
        Ok(())
    } else {
        Err(Refusal::NotNext(next))
    }
}

/// Returns the verdict on the events up to the response of the call, if `ended` is why they have no
/// linearization.
fn verdict(call: Call, ended: Result<(), Refusal>) -> Result<(), Refused>
    ensures { result ≡ verdict_on call ended }
{
    match ended {
        Ok(()) => Ok(()),
        Err(refusal) => Err(Refused { call, refusal }),
    }
}
