//! The calls of a history by numbers, and a guess of which consume took the item of which produce.
use crate::items::{produced_item, put_item, taken_item};
use crate::recorded::Listed;
use calls_core::Call;
use std::alloc::{AllocError, Global};

/// The number of no call, and a position after all events.
pub(crate) const NONE: usize = usize::MAX;

/// Numbers of calls, or places, in 32 bits each.
#[derive(Drop)]
pub(crate) struct Numbers {
    list: Vec<u32>,
}

impl Numbers {
    /// Returns a list of so many times `NONE`.
    pub(crate) fn none(alloc: Global, count: usize) -> Result<Numbers, AllocError> {
        Ok(Numbers {
            list: Vec::from_elem(alloc, u32::MAX, count)?,
        })
    }

    /// Returns how many there are.
    pub(crate) fn len(&self) -> usize {
        self.list.len()
    }

    /// Returns the number at an index, `NONE` if there is none.
    pub(crate) fn get(&self, i: usize) -> usize {
        match self.list.get(i) {
            Some(number) if *number < u32::MAX => *number as usize,
            _ => NONE,
        }
    }

    /// Writes a number at an index. One that does not fit becomes `NONE`.
    pub(crate) fn set(&mut self, i: usize, number: usize) {
        if let Some(slot) = self.list.get_mut(i) {
            *slot = u32::try_from(number).unwrap_or(u32::MAX);
        }
    }

    /// Exchanges two numbers.
    pub(crate) fn swap(&mut self, i: usize, j: usize) {
        if i < self.list.len() && j < self.list.len() {
            self.list.swap(i, j);
        }
    }

    /// Drops each `NONE`.
    pub(crate) fn close_up(&mut self) {
        self.list.retain(|number| *number < u32::MAX);
    }
}

/// The calls of a history by numbers: the completed ones in the order of their responses, and then
/// the pending ones.
#[derive(Drop)]
pub(crate) struct Numbered<'c> {
    /// The calls.
    calls: &'c Listed,
    /// At the number of a produce that of its consume, and at that of a consume its produce.
    mates: Numbers,
}

/// Lists the completed produces that took effect, each with its item.
fn completed_puts(alloc: Global, calls: &Listed) -> Result<Vec<(usize, usize)>, AllocError> {
    let mut list = Vec::new(alloc);
    for number in 0..calls.done.len() {
        if let Some(item) = put_item(&calls.done.at(number)) {
            list.push((item, number))?;
        }
    }
    Ok(list)
}

/// Lists the produces that may have taken effect, by their items and responses.
pub(crate) fn puts(alloc: Global, calls: &Listed) -> Result<Vec<(usize, usize)>, AllocError> {
    let mut list = completed_puts(alloc, calls)?;
    for (i, call) in calls.pending.iter().enumerate() {
        if let Some(item) = produced_item(call.op) {
            list.push((item, calls.done.len().saturating_add(i)))?;
        }
    }
    list.sort_by_key(|put| put.0)?;
    Ok(list)
}

/// Lists the consumes that returned an item, by their items and responses.
fn takes(alloc: Global, calls: &Listed) -> Result<Vec<(usize, usize)>, AllocError> {
    let mut list = Vec::new(alloc);
    for number in 0..calls.done.len() {
        if let Some(item) = taken_item(&calls.done.at(number)) {
            list.push((item, number))?;
        }
    }
    list.sort_by_key(|take| take.0)?;
    Ok(list)
}

/// Pairs the produces of each item with its consumes, in their order.
fn pair(mates: &mut Numbers, puts: &[(usize, usize)], takes: &[(usize, usize)]) {
    let mut next: usize = 0;
    for (item, put) in puts {
        if let Some((taken, take)) = takes.get(next) {
            if taken == item {
                mates.set(*put, *take);
                mates.set(*take, *put);
                next = next.saturating_add(1);
            }
        }
    }
}

impl<'c> Numbered<'c> {
    /// Numbers calls, and pairs those of each item in the order of their responses. The produces
    /// are listed by their items and responses.
    pub(crate) fn new(
        alloc: Global,
        calls: &'c Listed,
        puts: &[(usize, usize)],
    ) -> Result<Numbered<'c>, AllocError> {
        let count = calls.done.len().saturating_add(calls.pending.len());
        let mut mates = Numbers::none(alloc, count)?;
        pair(&mut mates, puts, &takes(alloc, calls)?);
        Ok(Numbered { calls, mates })
    }

    /// Returns how many calls there are.
    pub(crate) fn count(&self) -> usize {
        self.mates.len()
    }

    /// Returns the number of the first pending call.
    pub(crate) fn first_pending(&self) -> usize {
        self.calls.done.len()
    }

    /// Returns a completed call.
    fn call(&self, number: usize) -> Option<Call> {
        if number < self.calls.done.len() {
            Some(self.calls.done.at(number))
        } else {
            None
        }
    }

    /// Returns the position of the invocation of a call.
    pub(crate) fn first(&self, number: usize) -> usize {
        if let Some(call) = self.call(number) {
            return call.first;
        }
        let pending = number.saturating_sub(self.calls.done.len());
        match self.calls.pending.get(pending) {
            Some(call) => call.first,
            None => NONE,
        }
    }

    /// Returns the position of the response of a call.
    pub(crate) fn last(&self, number: usize) -> usize {
        match self.call(number) {
            Some(call) => call.last,
            None => NONE,
        }
    }

    /// Returns the call that puts in or takes out the same item.
    pub(crate) fn mate(&self, number: usize) -> usize {
        self.mates.get(number)
    }

    /// Returns the item of a produce.
    pub(crate) fn item(&self, put: usize) -> Option<usize> {
        if let Some(call) = self.call(put) {
            return produced_item(call.op);
        }
        let pending = put.saturating_sub(self.calls.done.len());
        produced_item(self.calls.pending.get(pending)?.op)
    }

    /// Gives a pending consume to a produce.
    pub(crate) fn give(&mut self, put: usize, take: usize) {
        self.mates.set(take, put);
    }

    /// Sorts produces by their invocations, and notes the positions of these in place of the items.
    pub(crate) fn by_start(&self, puts: &mut Vec<(usize, usize)>) -> Result<(), AllocError> {
        for put in puts.iter_mut() {
            put.0 = self.first(put.1);
        }
        puts.sort_by_key(|put| put.0)?;
        Ok(())
    }
}
