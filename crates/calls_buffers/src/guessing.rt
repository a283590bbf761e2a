//! Guesses an order of the calls of a buffer, and returns it if it is a linearization.
ghost use Rattle.std.specs.Prelude.{◌≡◌, ◌++◌, reverse, IfOk, IfSome, OnOk};
ghost use Rattle.std.specs.List.Sorted.{IsPermutation};
ghost use Rattle.calls_buffers.specs.kept.Orders.{IsFound};

use crate::checking::verify;
use crate::numbered::{NONE, Numbered, Numbers, puts};
use crate::ordering::answered;
use crate::recorded::Listed;
use calls_core::{Call, CallList, Op, PendingCall, Reply};
use std::alloc::{AllocError, Global};
use std::collections::VecDeque;

/// An order of calls.
#[derive(Drop)]
struct Guess {
    /// The places of the completed calls and the pending ones that take effect, at their indices.
    places: Numbers,
    /// The replies of the pending ones that take effect, at the indices of these.
    answers: Vec<Option<Reply>>,
}

/// A buffer whose calls take effect as late as they may: a call that has no place at its response
/// gets one then, after the calls that have to come first.
#[derive(Drop)]
struct Sweep<'c> {
    /// How many items there is room for.
    room: usize,
    /// The calls.
    calls: Numbered<'c>,
    /// The places of calls.
    places: Numbers,
    /// How many calls have places.
    count: usize,
    /// The produces by their invocations, each with the position of its own.
    starts: Vec<(usize, usize)>,
    /// How many of them were invoked so far.
    started: usize,
    /// Those of them that have no place.
    open: Vec<usize>,
    /// The produces of the items that are in the buffer, the oldest first.
    held: VecDeque<usize>,
    /// The pending consumes that have no place.
    askers: VecDeque<usize>,
}

/// Lists the numbers of the pending consumes.
fn askers(
    alloc: Global,
    first: usize,
    pending: &[PendingCall],
) -> Result<VecDeque<usize>, AllocError> {
    let mut list = VecDeque::new(alloc);
    for (i, call) in pending.iter().enumerate() {
        if matches!(call.op, Op::Consume) {
            list.push_back(first.saturating_add(i))?;
        }
    }
    Ok(list)
}

impl<'c> Sweep<'c> {
    /// Begins with an empty buffer.
    fn new(alloc: Global, room: usize, calls: &'c Listed) -> Result<Sweep<'c>, AllocError> {
        let mut puts = puts(alloc, calls)?;
        let numbered = Numbered::new(alloc, calls, &puts)?;
        numbered.by_start(&mut puts)?;
        Ok(Sweep {
            room,
            places: Numbers::none(alloc, numbered.count())?,
            count: 0,
            starts: puts,
            started: 0,
            open: Vec::new(alloc),
            held: VecDeque::new(alloc),
            askers: askers(alloc, numbered.first_pending(), &calls.pending)?,
            calls: numbered,
        })
    }

    /// Returns whether a call has a place.
    fn has_place(&self, number: usize) -> bool {
        number >= self.places.len() || self.places.get(number) != NONE
    }

    /// Gives a call the next place.
    fn place(&mut self, number: usize) {
        self.places.set(number, self.count);
        self.count = self.count.saturating_add(1);
    }

    /// Returns when the consume of an item was invoked.
    fn take_first(&self, put: usize) -> usize {
        self.calls.first(self.calls.mate(put))
    }

    /// Returns when the consume of an item returned.
    fn take_last(&self, put: usize) -> usize {
        self.calls.last(self.calls.mate(put))
    }

    /// Notes the produces that were invoked by now.
    fn start(&mut self, now: usize) -> Result<(), AllocError> {
        for i in self.started..self.starts.len() {
            let (first, put) = self.starts[i];
            if first >= now {
                return Ok(());
            }
            self.started = i + 1;
            self.open.push(put)?;
        }
        Ok(())
    }

    /// Takes out the oldest item by a pending consume.
    fn ask(&mut self, put: usize, now: usize) -> bool {
        let Some(take) = self.askers.front().copied() else {
            return false;
        };
        if self.calls.first(take) >= now {
            return false;
        }
        self.askers.pop_front();
        self.calls.give(put, take);
        self.held.pop_front();
        self.place(take);
        true
    }

    /// Takes out the oldest item, if its consume was invoked.
    fn take_ready(&mut self, now: usize) -> bool {
        let Some(put) = self.held.front().copied() else {
            return false;
        };
        let take = self.calls.mate(put);
        if self.calls.first(take) >= now {
            return false;
        }
        self.held.pop_front();
        self.place(take);
        true
    }

    /// Takes out the oldest item, if there is a consume for it.
    fn take_out(&mut self, now: usize) -> bool {
        if self.take_ready(now) {
            return true;
        }
        match self.held.front().copied() {
            Some(put) if self.calls.mate(put) == NONE => self.ask(put, now),
            _ => false,
        }
    }

    /// Takes out the oldest items whose consumes were invoked.
    fn drain(&mut self, now: usize) {
        for _ in 0..self.held.len() {
            if !self.take_ready(now) {
                return;
            }
        }
    }

    /// Puts an item in, if there is room.
    fn put_in(&mut self, put: usize, now: usize) -> Result<bool, AllocError> {
        if self.calls.first(put) >= now {
            return Ok(false);
        }
        if self.held.len() >= self.room && !self.take_out(now) {
            return Ok(false);
        }
        self.place(put);
        self.held.push_back(put)?;
        self.open.retain(|other| *other != put);
        Ok(true)
    }

    /// Returns the produce whose item can be put in and taken out at once, if the buffer is empty.
    fn passing(&self, now: usize) -> Option<usize> {
        let mut best = None;
        let mut least = NONE;
        for put in &self.open {
            let last = self.take_last(*put);
            if self.take_first(*put) < now && last < least {
                best = Some(*put);
                least = last;
            }
        }
        best
    }

    /// Returns the produce whose item has to be ahead of another one or, if there is room for both,
    /// is taken out before it.
    fn ahead(&self, put: usize) -> Option<usize> {
        let first = self.take_first(put);
        let roomy = self.held.len() < self.room.saturating_sub(1);
        let mut best = None;
        let mut least = self.take_last(put);
        for other in &self.open {
            let last = self.take_last(*other);
            if last < least && (last < first || (roomy && self.take_first(*other) < first)) {
                best = Some(*other);
                least = last;
            }
        }
        best
    }

    /// Returns the produce that comes next, if one has to take effect.
    fn next(&self, put: usize, now: usize) -> usize {
        let passing = if self.held.is_empty() {
            self.passing(now)
        } else {
            None
        };
        passing.or(self.ahead(put)).unwrap_or(put)
    }

    /// Puts an item in after those that come first.
    fn force_put(&mut self, put: usize, now: usize) -> Result<bool, AllocError> {
        self.start(now)?;
        for _ in 0..=self.open.len() {
            if self.has_place(put) {
                return Ok(true);
            }
            self.drain(now);
            if !self.put_in(self.next(put, now), now)? {
                return Ok(false);
            }
        }
        Ok(self.has_place(put))
    }

    /// Takes an item out after those before it.
    fn force_take(&mut self, take: usize, now: usize) -> Result<bool, AllocError> {
        for _ in 0..self.places.len() {
            if self.has_place(take) {
                return Ok(true);
            }
            let put = self.calls.mate(take);
            let done = if self.held.is_empty() {
                !self.has_place(put) && self.force_put(put, now)?
            } else {
                self.take_out(now)
            };
            if !done {
                return Ok(false);
            }
        }
        Ok(self.has_place(take))
    }

    /// Gives a completed call a place by its response.
    fn force(&mut self, number: usize, call: &Call) -> Result<bool, AllocError> {
        if self.has_place(number) {
            return Ok(true);
        }
        match (call.op, call.reply) {
            (Op::Produce(_), Reply::Done) => self.force_put(number, call.last),
            (Op::Consume, Reply::Number(_)) => self.force_take(number, call.last),
            _ => {
                self.place(number);
                Ok(true)
            }
        }
    }

    /// Returns the reply of a pending call, if it takes effect.
    fn answer(&self, number: usize, op: Op) -> Option<Reply> {
        if !self.has_place(number) {
            return None;
        }
        match op {
            Op::Consume => self
                .calls
                .item(self.calls.mate(number))
                .map(|item| Reply::Number(item)),
            _ => Some(Reply::Done),
        }
    }

    /// Returns the order so far.
    fn guess(self, alloc: Global, pending: &[PendingCall]) -> Result<Guess, AllocError> {
        let mut answers = Vec::new(alloc);
        for (i, call) in pending.iter().enumerate() {
            let number = self.calls.first_pending().saturating_add(i);
            answers.push(self.answer(number, call.op))?;
        }
        let mut places = self.places;
        places.close_up();
        Ok(Guess { places, answers })
    }
}

/// Guesses an order.
fn make_guess(alloc: Global, room: usize, calls: &Listed) -> Result<Option<Guess>, AllocError> {
    let mut sweep = Sweep::new(alloc, room, calls)?;
    for number in 0..calls.done.len() {
        if !sweep.force(number, &calls.done.at(number))? {
            return Ok(None);
        }
    }
    Ok(Some(sweep.guess(alloc, &calls.pending)?))
}

/// Exchanges the call at an index with the one at its place, and returns the index, or the next one
/// if the call is there.
fn settle(calls: &mut CallList, places: &mut Numbers, i: usize) -> usize
    ensures { IsPermutation calls.old calls.new }
{
    let place = places.get(i);
    if i >= calls.len() || place >= calls.len() {
        return i;
    }
    if place == i {
        return i + 1;
    }
    calls.swap(i, place);
    places.swap(i, place);
    i
}

/// Exchanges calls until each is at its place.
fn arrange(calls: &mut CallList, mut places: Numbers)
    ensures { IsPermutation calls.old calls.new }
{
    let mut i = 0;
    for _ in 0..calls.len().saturating_mul(2) {
        i = settle(calls, &mut places, i);
    }
}

/// Adds calls at the end of a list.
fn add_calls(list: &mut CallList, calls: &[Call]) -> Result<(), AllocError>
    ensures { OnOk result (list.new ≡ list.old ++ calls.now) }
{
    for call in calls {
        list.push(*call)?;
    }
    Ok(())
}

/// Returns an order of calls, if one is guessed.
pub(crate) fn guessed_order(
    alloc: Global,
    room: usize,
    calls: Listed,
    end: usize,
) -> Result<Option<CallList>, AllocError>
    ensures { IfOk result (λ order. IfSome order (IsFound room (reverse calls.done)
        calls.pending.items end)) }
{
    let Some(Guess { places, answers }) = make_guess(alloc, room, &calls)? else {
        return Ok(None);
    };
    let Listed {
        done: mut list,
        pending,
    } = calls;
    add_calls(&mut list, &answered(alloc, &pending, &answers, end)?)?;
    arrange(&mut list, places);
    if !verify(alloc, room, &list)? {
        return Ok(None);
    }
    Ok(Some(list))
}
