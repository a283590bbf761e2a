//! A monitor of one eventcount: it judges a history event by event, in constant memory.
ghost use Rattle.std.specs.Prelude.{◌≡◌, ◌+◌, ◌-◌, ◌<◌, ◌≤◌, ◌^◌, ◌++◌, [], ◌∷◌, length};
ghost use Rattle.std.specs.Prelude.{MatchOption};
ghost use Rattle.std.specs.List.{range_with_len};
ghost use Rattle.arrayvec.specs.ArrayVec.{array_vec_len};
ghost use Rattle.calls_core.specs.declared.history.Action.TheVariants.{Invoke, Respond};
ghost use Rattle.calls_core.specs.Pending.{HasRoom};
ghost use Rattle.calls_counts.specs.Monitors.{Starts, Judges};
ghost use Rattle.calls_counts.specs.Watching.{AllBelow, IsFirstPlace, IsJudged};

use crate::find::{contradicts, is_advance, least, most};
use arrayvec::ArrayVec;
use calls_core::{
    Action, Call, Event, NotedCall, Op, PendingCall, Reply, WORKERS, find_noted, push_range,
};

/// The state after the events so far, with at most `WORKERS` pending calls.
#[derive(Drop)]
pub struct Monitor {
    /// The number that the eventcount has at first.
    pub start: usize,
    /// How many advances were invoked.
    pub begun: usize,
    /// By how much the count has risen at least, in every linearization.
    pub total: usize,
    /// Which of the first `total` advances no response accounts for yet: their indices, ascending.
    pub free: ArrayVec<usize, WORKERS>,
    /// The pending calls, each with `total` at its invocation.
    pub pending: ArrayVec<NotedCall, WORKERS>,
}

/// Why a history has no linearization: a read or an await with this response is impossible.
#[derive(Clone, Copy, Debug, PartialEq, Eq)]
pub enum Refusal {
    /// An await returned a number below its threshold, or one of 0 gave up.
    Below(Call),
    /// The call says that the count reached `least`, and no more than `invoked` advances were
    /// invoked.
    Few {
        call: Call,
        least: usize,
        invoked: usize,
    },
    /// The call says that the count was no more than `most` at some moment of it, and at its
    /// invocation the count had risen by at least `made`.
    Many {
        call: Call,
        most: usize,
        made: usize,
    },
}

/// Returns where in `free` the first index that is at least `noted` is.
fn place_from(free: &[usize], noted: usize) -> Option<usize>
    ensures { MatchOption result (AllBelow free.now noted (length free.now))
        (IsFirstPlace free.now noted) }
{
    for (k, place) in free.iter().enumerate() {
        if *place >= noted {
            return Some(k);
        }
    }
    None
}

impl Monitor {
    /// Makes a monitor of an eventcount that is `start` at first.
    pub fn new(start: usize) -> Self
        ensures { Starts start result }
    {
        Monitor {
            start,
            begun: 0,
            total: 0,
            free: ArrayVec::new(),
            pending: ArrayVec::new(),
        }
    }

    /// Adds an event, or returns why the events up to it have no linearization.
    pub fn event(&mut self, event: Event) -> Result<(), Refusal>
        requires workers { HasRoom event.action (array_vec_len self.old.pending) }
        requires invoked { self.old.begun + 1 < 2 ^ 64 }
        requires counted { self.old.total ≤ self.old.begun }
        ensures { Judges self.old self.new event result }
    {
        match event.action {
            Action::Invoke(object, op) => {
                self.invoke(event, object, op);
                Ok(())
            }
            Action::Respond(reply) => self.respond(event, reply),
        }
    }

    /// Adds a pending call at its invocation.
    fn invoke(&mut self, event: Event, object: usize, op: Op)
        requires workers { array_vec_len self.old.pending < WORKERS }
        requires room { self.old.begun + 1 < 2 ^ 64 }
        requires action { event.action ≡ Invoke object op }
        ensures { Judges self.old self.new event (Ok tt) }
    {
        let call = PendingCall::new(event, object, op);
        let noted = self.total;
        self.pending.push(NotedCall { call, noted });
        if is_advance(op) {
            self.begun += 1;
        }
    }

    /// Accounts for an advance, or judges a read or an await, at its response.
    fn respond(&mut self, event: Event, reply: Reply) -> Result<(), Refusal>
        requires action { event.action ≡ Respond reply }
        requires room { self.old.begun + 1 < 2 ^ 64 }
        requires counted { self.old.total ≤ self.old.begun }
        ensures { Judges self.old self.new event result }
    {
        let Some(i) = find_noted(self.pending.as_slice(), event.worker) else {
            return Ok(());
        };
        let u = self.pending.remove(i);
        let call = u.call.complete(reply, event.at);
        if !is_advance(u.call.op) {
            return observe(
                self.start,
                self.begun,
                &mut self.total,
                &mut self.free,
                u.noted,
                call,
            );
        }
        match place_from(self.free.as_slice(), u.noted) {
            Some(k) => {
                self.free.remove(k);
            }
            None => {
                self.total += 1;
            }
        }
        Ok(())
    }
}

/// Raises the count to what a read or an await says, or returns why that is impossible.
fn observe(
    start: usize,
    begun: usize,
    total: &mut usize,
    free: &mut ArrayVec<usize, WORKERS>,
    noted: usize,
    call: Call,
) -> Result<(), Refusal>
    ensures { IsJudged start begun total.old total.new free.old.items free.new.items noted call
        result }
{
    let low = least(call.op, call.reply);
    let n = low.saturating_sub(start);
    if contradicts(call.op, call.reply) {
        return Err(Refusal::Below(call));
    }
    if n > begun {
        return Err(Refusal::Few {
            call,
            least: low,
            invoked: begun,
        });
    }
    if let Some(high) = most(call.op, call.reply) {
        if high < start || high - start < noted {
            return Err(Refusal::Many {
                call,
                most: high,
                made: noted,
            });
        }
    }
    push_range(free, *total, n);
    *total = n.max(*total);
    Ok(())
}
