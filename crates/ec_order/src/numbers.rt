//! The sequential object.
ghost use Rattle.std.specs.Prelude.{◌≡◌, ℕ, ◌+◌, ◌<◌, ◌^◌, Some, length, slice_get, slice_index};
ghost use Rattle.std.specs.Bool.{Decides};
ghost use Rattle.ec_core.specs.kept.Fields.{IsNamed};
ghost use Rattle.ec_order.specs.kept.Numbered.{AreFew, reply_in, after_in};

use crate::Call;
use ec_core::{Act, Reply};
use ec_count::filled;

/// The state of the sequential object: a number for each eventcount, sequencer and cell.
#[derive(Drop)]
pub(crate) struct Numbers {
    pub(crate) events: [u64; 32],
    pub(crate) sequencers: [u64; 32],
    pub(crate) cells: [u64; 256],
}

impl Numbers {
    /// Makes numbers that are all 0.
    pub(crate) fn zeros() -> Self
        ensures events { (k : ℕ) → slice_index result.events k ≡ 0 }
        ensures sequencers { (k : ℕ) → slice_index result.sequencers k ≡ 0 }
        ensures cells { (k : ℕ) → slice_index result.cells k ≡ 0 }
        ensures long { (length result.events ≡ 32)
            × (length result.sequencers ≡ 32) × (length result.cells ≡ 256) }
    {
        Numbers {
            events: filled(0),
            sequencers: filled(0),
            cells: filled(0),
        }
    }

    /// Returns whether the object gives the reply that the call got.
    pub(crate) fn is_answer(&self, call: &Call) -> bool
        ensures named { IsNamed call.now.op }
        ensures value { Decides result (reply_in self.now call.now.op ≡ Some call.now.reply) }
    {
        self.reply(call.op) == Some(call.reply)
    }

    /// Returns the reply to a call in this state; `None` if the call is not possible.
    fn reply(&self, op: Act) -> Option<Reply>
        ensures named { IsNamed op }
        ensures value { result ≡ reply_in self.now op }
    {
        match op {
            Act::Advance(event) => {
                let _event = event.get();
                Some(Reply::Done)
            }
            Act::Read(event) => Some(Reply::Number(self.events[event.get()])),
            Act::Await(event, value) => {
                let number = self.events[event.get()];
                if value <= number {
                    Some(Reply::Number(number))
                } else {
                    None
                }
            }
            Act::Ticket(sequencer) => Some(Reply::Number(self.sequencers[sequencer.get()])),
            Act::Put(cell, _) => {
                let _cell = cell.get();
                Some(Reply::Done)
            }
            Act::Get(cell) => Some(Reply::Number(self.cells[cell.get()])),
            Act::Hand(_, _) => Some(Reply::Done),
            Act::Go => None,
        }
    }

    /// Changes the numbers as the call at place i does.
    pub(crate) fn apply(&mut self, op: Act, i: usize)
        requires few { AreFew self.old i }
        requires small { i + 1 < 2 ^ 64 }
        ensures { self.new ≡ after_in self.old op }
    {
        match op {
            Act::Advance(event) => self.events[event.get()] += 1,
            Act::Ticket(sequencer) => self.sequencers[sequencer.get()] += 1,
            Act::Put(cell, value) => self.cells[cell.get()] = value,
            Act::Read(_) | Act::Await(_, _) | Act::Get(_) | Act::Hand(_, _) | Act::Go => {}
        }
    }
}
