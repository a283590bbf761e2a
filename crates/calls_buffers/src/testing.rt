//! Tests by counting whether calls show a fault.
ghost use Rattle.std.specs.Prelude.{◌≡◌, ◌↔◌, ◌⊎◌, ◌+◌, ◌<◌, ◌≤◌, IfOk, IfSome, IsSome, IsTrue};
ghost use Rattle.std.specs.Prelude.{MatchOption, length};
ghost use Rattle.calls_core.specs.declared.history.Op.TheVariants.{Produce};
ghost use Rattle.calls_core.specs.declared.history.Reply.TheVariants.{Done};
ghost use Rattle.calls_buffers.specs.Counts.{item, untaken, returned_puts, invoked_puts, all_puts};
ghost use Rattle.calls_buffers.specs.Counts.{invoked_takes};
ghost use Rattle.calls_buffers.specs.Faults.{ShowsIn};
ghost use Rattle.calls_buffers.specs.declared.accesses.Place.TheVariants.{Completed};
ghost use Rattle.calls_buffers.specs.kept.Items.{counts};
ghost use Rattle.calls_buffers.specs.kept.Pairs.{IsUnproduced};

use crate::Fault;
use crate::counting::{
    all_completed_puts, all_pending_puts, completed_puts, invoked_takes, later_takes, pending_puts,
    pending_takes, returned_puts, returned_takes,
};
use crate::items::{Items, produced_item, taken_item, untaken};
use crate::recorded::Recorded;
use calls_core::{Call, Reply};
use std::alloc::{AllocError, Global};

/// Returns whether two numbers together are less than a third.
fn is_less(a: usize, b: usize, c: usize) -> bool
    ensures { IsTrue result ↔ a + b < c }
{
    match a.checked_add(b) {
        Some(sum) => sum < c,
        None => false,
    }
}

/// Returns the sum of two numbers if it is below a limit.
fn sum_below(a: usize, b: usize, limit: usize) -> Option<usize>
    ensures { MatchOption result (limit ≤ a + b) (λ n. (n ≡ a + b) × (n < limit)) }
{
    match a.checked_add(b) {
        Some(sum) if sum < limit => Some(sum),
        _ => None,
    }
}

/// Returns the item of a completed produce that took effect.
fn put_item(call: &Call) -> Option<usize>
    ensures { IfSome result (λ v. (call.now.op ≡ Produce v) × (call.now.reply ≡ Done)) }
{
    if call.reply != Reply::Done {
        return None;
    }
    produced_item(call.op)
}

/// Counts the produces of these items that had been invoked up to a position, and may have taken
/// effect.
fn invoked_puts(calls: &Recorded, items: &Items, at: usize) -> Option<usize>
    ensures { IfSome result (λ n. n ≡ invoked_puts (counts items.now) at calls.now.done.items
        calls.now.pending.items) }
{
    let completed = completed_puts(items, at, &calls.done);
    completed.checked_add(pending_puts(items, at, &calls.pending))
}

/// Counts the produces of an item that may take effect.
fn all_puts(calls: &Recorded, value: usize) -> Option<usize>
    ensures { IfSome result (λ n. n ≡ all_puts (item value) calls.now.done.items
        calls.now.pending.items) }
{
    let items = Items::One(value);
    let completed = all_completed_puts(&items, &calls.done);
    completed.checked_add(all_pending_puts(&items, &calls.pending))
}

/// Returns whether no produce of an item had been invoked up to a position.
fn is_none_produced(calls: &Recorded, value: usize, at: usize) -> bool
    ensures { IsTrue result → invoked_puts (item value) at calls.now.done.items
        calls.now.pending.items ≡ 0 }
{
    matches!(invoked_puts(calls, &Items::One(value), at), Some(0))
}

/// Counts the produces that had returned up to `put`, of items that no consume returned which was
/// invoked up to `take`.
fn untaken_puts(
    alloc: Global,
    calls: &Recorded,
    put: usize,
    take: usize,
) -> Result<usize, AllocError>
    ensures { IfOk result (λ n. n ≡ returned_puts (untaken take calls.now.done.items) put
        calls.now.done.items) }
{
    let items = untaken(alloc, take, &calls.done)?;
    Ok(returned_puts(&items, put, &calls.done))
}

/// Tests the call at an index.
pub(crate) fn unproduced(room: usize, calls: &Recorded, i: usize) -> Option<Fault>
    requires { i < length calls.now.done.items }
    ensures shown { IfSome result (ShowsIn room calls.now.done.items calls.now.pending.items) }
    ensures found { IsUnproduced calls.now.done.items calls.now.pending.items (Completed i)
        → IsSome result }
{
    let consume = calls.done[i];
    let items = Items::One(taken_item(&consume)?);
    let taken = returned_takes(&items, consume.last, &calls.done);
    let completed = completed_puts(&items, consume.last, &calls.done);
    let waiting = pending_puts(&items, consume.last, &calls.pending);
    let put = sum_below(completed, waiting, taken)?;
    Some(Fault::Unproduced {
        consume,
        taken,
        put,
    })
}

/// Tests the call at an index.
pub(crate) fn overfull(room: usize, calls: &Recorded, i: usize) -> Option<Fault>
    requires { i < length calls.now.done.items }
    ensures { IfSome result (ShowsIn room calls.now.done.items calls.now.pending.items) }
{
    let call = calls.done[i];
    let put = returned_puts(&Items::Any, call.last, &calls.done);
    let completed = invoked_takes(&Items::Any, call.last, &calls.done);
    let taken = completed.checked_add(pending_takes(call.last, &calls.pending))?;
    if is_less(room, taken, put) {
        Some(Fault::Overfull { call, put, taken })
    } else {
        None
    }
}

/// Tests the call at an index.
pub(crate) fn crowded(
    alloc: Global,
    room: usize,
    calls: &Recorded,
    i: usize,
) -> Result<Option<Fault>, AllocError>
    requires { i < length calls.now.done.items }
    ensures { IfOk result (λ f. IfSome f (ShowsIn room calls.now.done.items
        calls.now.pending.items)) }
{
    let call = calls.done[i];
    let left = untaken_puts(alloc, calls, call.last, call.last)?;
    let pending = pending_takes(call.last, &calls.pending);
    if is_less(room, pending, left) {
        Ok(Some(Fault::Crowded {
            call,
            left,
            pending,
        }))
    } else {
        Ok(None)
    }
}

/// Tests the produce and the consume at two indices.
pub(crate) fn overtaken(room: usize, calls: &Recorded, i: usize, j: usize) -> Option<Fault>
    requires put { i < length calls.now.done.items }
    requires take { j < length calls.now.done.items }
    ensures { IfSome result (ShowsIn room calls.now.done.items calls.now.pending.items) }
{
    let put = calls.done[i];
    let consume = calls.done[j];
    let x = put_item(&put)?;
    let y = taken_item(&consume)?;
    if !is_none_produced(calls, y, put.last) {
        return None;
    }
    let before = returned_puts(&Items::One(x), put.last, &calls.done);
    let later = later_takes(&Items::One(x), consume.last, &calls.done);
    let all = all_puts(calls, x)?;
    if all < before.checked_add(later)? {
        Some(Fault::Overtaken {
            put,
            consume,
            before,
            later,
            all,
        })
    } else {
        None
    }
}

/// Tests the produce and the consume at two indices.
pub(crate) fn passed(
    alloc: Global,
    room: usize,
    calls: &Recorded,
    i: usize,
    j: usize,
) -> Result<Option<Fault>, AllocError>
    requires put { i < length calls.now.done.items }
    requires take { j < length calls.now.done.items }
    ensures { IfOk result (λ f. IfSome f (ShowsIn room calls.now.done.items
        calls.now.pending.items)) }
{
    let put = calls.done[i];
    let consume = calls.done[j];
    let Some(y) = taken_item(&consume) else {
        return Ok(None);
    };
    if !is_none_produced(calls, y, put.last) {
        return Ok(None);
    }
    let left = untaken_puts(alloc, calls, put.last, consume.last)?;
    let pending = pending_takes(consume.last, &calls.pending);
    if pending < left {
        Ok(Some(Fault::Passed {
            put,
            consume,
            left,
            pending,
        }))
    } else {
        Ok(None)
    }
}

/// Returns whether an item was not taken up to a position: no consume that returned it was invoked
/// by then, or no produce of it.
fn is_outside(calls: &Recorded, value: usize, at: usize) -> bool
    ensures { IsTrue result → (invoked_takes (item value) at calls.now.done.items ≡ 0)
        ⊎ (invoked_puts (item value) at calls.now.done.items calls.now.pending.items ≡ 0) }
{
    if invoked_takes(&Items::One(value), at, &calls.done) == 0 {
        return true;
    }
    is_none_produced(calls, value, at)
}

/// Tests the call and the produce at two indices.
pub(crate) fn squeezed(
    alloc: Global,
    room: usize,
    calls: &Recorded,
    i: usize,
    j: usize,
) -> Result<Option<Fault>, AllocError>
    requires first { i < length calls.now.done.items }
    requires second { j < length calls.now.done.items }
    ensures { IfOk result (λ f. IfSome f (ShowsIn room calls.now.done.items
        calls.now.pending.items)) }
{
    let full = calls.done[i];
    let put = calls.done[j];
    let Some(item) = put_item(&put) else {
        return Ok(None);
    };
    if put.last <= full.last || !matches!(all_puts(calls, item), Some(1)) {
        return Ok(None);
    }
    if !is_outside(calls, item, full.last) {
        return Ok(None);
    }
    let left = untaken_puts(alloc, calls, full.last, put.last)?;
    let pending = pending_takes(put.last, &calls.pending);
    if !is_less(room, pending, left.saturating_add(1)) {
        return Ok(None);
    }
    Ok(Some(Fault::Squeezed {
        full,
        put,
        left,
        pending,
    }))
}
