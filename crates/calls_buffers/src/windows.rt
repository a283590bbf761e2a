//! The items of a history, each with its produce and its consume.
ghost use Rattle.std.specs.Prelude.{◌≡◌, ℕ, ◌<◌, ◌≤◌, IfOk, IsTrue, MatchOption};
ghost use Rattle.std.specs.Prelude.{length, true, false};
ghost use Rattle.calls_core.specs.Lists.{Each};
ghost use Rattle.calls_buffers.specs.declared.accesses.Access.{Access};
ghost use Rattle.calls_buffers.specs.Counts.{item, all_puts};
ghost use Rattle.calls_buffers.specs.kept.Accesses.{ByItem, later};
ghost use Rattle.calls_buffers.specs.kept.Pairs.{with_take, without_take, window_list, fits, IsUnfit};
ghost use Rattle.calls_buffers.specs.kept.Pairs.{IsUnproduced, ArePaired, AreNotPaired};
ghost use Rattle.calls_buffers.specs.kept.Windows.{AreWindows, in_by, out_from};
ghost use Rattle.calls_buffers.specs.Accesses.{AreWithin};

use crate::accesses::{Access, Place, find, puts, repeated, takes};
use crate::recorded::Recorded;
use std::alloc::{AllocError, Global};

/// An item with its produce and its consume.
#[derive(Clone, Copy)]
pub(crate) struct Window {
    /// The item.
    pub(crate) item: usize,
    /// The produce.
    pub(crate) put: Place,
    /// The position of its invocation.
    pub(crate) put_first: usize,
    /// The position of its response.
    pub(crate) put_last: usize,
    /// The consume, if there is one.
    pub(crate) take: Option<Place>,
    /// The position of its invocation.
    pub(crate) take_first: usize,
    /// The position of its response.
    pub(crate) take_last: usize,
}

impl Window {
    /// Returns the position by which the item was put in.
    pub(crate) fn in_by(&self) -> usize
        ensures { result ≡ in_by self.now }
    {
        self.put_last.min(self.take_last)
    }

    /// Returns the position from which the item may have been taken out.
    pub(crate) fn out_from(&self) -> usize
        ensures { result ≡ out_from self.now }
    {
        self.take_first.max(self.put_first)
    }
}

/// The items of a history.
#[derive(Drop)]
pub(crate) struct Windows {
    /// Those that were put in.
    pub(crate) list: Vec<Window>,
    /// A consume that returned an item which was not produced by then.
    pub(crate) alone: Option<Place>,
    /// Each item was put in and taken out at most once, and was produced when it was taken out.
    pub(crate) distinct: bool,
}

/// Returns the window of an item with this produce and this consume.
pub(crate) fn with_take(put: &Access, take: &Access) -> Window
    ensures { result ≡ with_take put.now take.now }
{
    Window {
        item: put.item,
        put: put.place,
        put_first: put.first,
        put_last: put.last,
        take: Some(take.place),
        take_first: take.first,
        take_last: take.last,
    }
}

/// Returns the window of an item with this produce and no consume.
pub(crate) fn without_take(put: &Access, end: usize) -> Window
    ensures { result ≡ without_take end put.now }
{
    Window {
        item: put.item,
        put: put.place,
        put_first: put.first,
        put_last: put.last,
        take: None,
        take_first: end,
        take_last: end,
    }
}

/// Returns the index of the first access from an index on to this item or a greater one.
fn skip(accesses: &[Access], from: usize, item: usize) -> usize {
    let mut next = from;
    while next < accesses.len() && accesses[next].item < item {
        next += 1;
    }
    next
}

/// Pairs the produces of each item with its consumes, in their order.
fn pair(alloc: Global, puts: &[Access], takes: &[Access], end: usize) -> Result<Windows, AllocError>
    ensures { IfOk result (λ w. w.distinct ≡ false) }
{
    let mut list = Vec::new(alloc);
    let mut alone = None;
    let mut next = 0;
    for put in puts {
        let here = skip(takes, next, put.item);
        if next < here {
            alone = takes.get(next).map(|take| take.place);
        }
        next = here;
        match takes.get(next) {
            Some(take) if take.item == put.item => {
                next = next.saturating_add(1);
                list.push(with_take(put, take))?;
            }
            _ => {
                if put.last < end {
                    list.push(without_take(put, end))?;
                }
            }
        }
    }
    if let Some(take) = takes.get(next) {
        alone = Some(take.place);
    }
    Ok(Windows {
        list,
        alone,
        distinct: false,
    })
}

/// Pairs the produce of each item with its consume. Each item is produced and consumed once.
fn paired(
    alloc: Global,
    puts: &[Access],
    takes: &[Access],
    end: usize,
) -> Result<Vec<Window>, AllocError>
    ensures { IfOk result (λ list. ByItem takes.now
        → list.items ≡ window_list end takes.now puts.now) }
{
    let mut list = Vec::new(alloc);
    for put in puts {
        match find(takes, put.item) {
            Some(take) => list.push(with_take(put, &take))?,
            None => {
                if put.last < end {
                    list.push(without_take(put, end))?;
                }
            }
        }
    }
    Ok(list)
}

/// Returns whether a consume returned after its produce was invoked.
fn fits(puts: &[Access], take: &Access) -> bool
    ensures { ByItem puts.now → result ≡ fits puts.now take.now }
{
    match find(puts, take.item) {
        Some(put) => put.first <= take.last,
        None => false,
    }
}

/// Returns the place of a consume that did not, if there is one.
fn unfit(puts: &[Access], takes: &[Access]) -> Option<Place>
    ensures { ByItem puts.now → MatchOption result
        (Each (λ (t : Access). fits puts.now t ≡ true) takes.now) (IsUnfit puts.now takes.now) }
{
    for take in takes {
        if !fits(puts, take) {
            return Some(take.place);
        }
    }
    None
}

/// Returns the place of the later one of two accesses.
fn later(list: &[Access], i: usize) -> Place
    requires low { 0 < i }
    requires high { i < length list.now }
    ensures { result ≡ later list.now i }
{
    if list[i - 1].last <= list[i].last {
        list[i].place
    } else {
        list[i - 1].place
    }
}

/// Pairs the produce of each item with its consume. No item is produced or consumed twice.
fn pair_once(
    alloc: Global,
    puts: &[Access],
    takes: &[Access],
    end: usize,
) -> Result<Windows, AllocError>
    ensures list { IfOk result (λ w. ByItem takes.now
        → w.list.items ≡ window_list end takes.now puts.now) }
    ensures fit { IfOk result (λ w. ByItem puts.now → w.distinct ≡ true
        → Each (λ (t : Access). fits puts.now t ≡ true) takes.now) }
    ensures unfit { IfOk result (λ w. ByItem puts.now → w.distinct ≡ false
        → MatchOption w.alone ⊥ (IsUnfit puts.now takes.now)) }
{
    let list = paired(alloc, puts, takes, end)?;
    let alone = unfit(puts, takes);
    let distinct = alone.is_none();
    Ok(Windows {
        list,
        alone,
        distinct,
    })
}

/// Pairs produces with consumes, both sorted by their items.
fn windows_from(
    alloc: Global,
    puts: &[Access],
    takes: &[Access],
    end: usize,
) -> Result<Windows, AllocError>
    ensures sound { IfOk result (λ w. ByItem puts.now → ByItem takes.now → IsTrue w.distinct
        → ArePaired end puts.now takes.now w.list.items) }
    ensures exact { IfOk result (λ w. ByItem puts.now → ByItem takes.now → w.distinct ≡ false
        → AreNotPaired puts.now takes.now w.alone) }
{
    if let Some(_) = repeated(puts) {
        let windows = pair(alloc, puts, takes, end)?;
        return Ok(windows);
    }
    if let Some(i) = repeated(takes) {
        let mut windows = pair(alloc, puts, takes, end)?;
        windows.alone = Some(later(takes, i));
        return Ok(windows);
    }
    let windows = pair_once(alloc, puts, takes, end)?;
    Ok(windows)
}

/// Lists the items that were put in. What does not happen is at `end`. A pending produce whose item
/// nobody returned is left out. Produces of one item are paired with its consumes in the order of
/// their responses.
pub(crate) fn windows_of(alloc: Global, calls: &Recorded, end: usize) -> Result<Windows, AllocError>
    ensures sound { IfOk result (λ w. AreWithin end calls.now.done.items calls.now.pending.items
        → IsTrue w.distinct
        → AreWindows calls.now.done.items calls.now.pending.items end w.list.items) }
    ensures exact { IfOk result (λ w.
        ((v : ℕ) → all_puts (item v) calls.now.done.items calls.now.pending.items ≤ 1)
        → w.distinct ≡ false
        → MatchOption w.alone ⊥ (IsUnproduced calls.now.done.items calls.now.pending.items)) }
{
    let puts = puts(alloc, &calls.done, &calls.pending, end)?;
    let takes = takes(alloc, &calls.done)?;
    let windows = windows_from(alloc, &puts, &takes, end)?;
    Ok(windows)
}
