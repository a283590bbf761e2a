//! Counts of the calls of a history.
ghost use Rattle.std.specs.Prelude.{◌≡◌, count_by};
ghost use Rattle.calls_buffers.specs.Counts.{is_put, is_take, produces, is_consume};
ghost use Rattle.calls_buffers.specs.Counts.{returned_puts, completed_puts, pending_puts};
ghost use Rattle.calls_buffers.specs.Counts.{returned_takes, invoked_takes, later_takes};
ghost use Rattle.calls_buffers.specs.Counts.{pending_takes};
ghost use Rattle.calls_core.specs.declared.history.PendingCall.{PendingCall};
ghost use Rattle.calls_buffers.specs.kept.Items.{counts};

use crate::items::{Items, produced_item, taken_item};
use calls_core::{Call, Op, PendingCall, Reply};

/// Returns whether a call put one of these items into the buffer.
fn is_put(items: &Items, call: &Call) -> bool
    ensures { result ≡ is_put (counts items.now) call.now }
{
    match produced_item(call.op) {
        Some(value) => call.reply == Reply::Done && items.counts(value),
        None => false,
    }
}

/// Returns whether a call took one of these items out of the buffer.
fn is_take(items: &Items, call: &Call) -> bool
    ensures { result ≡ is_take (counts items.now) call.now }
{
    match taken_item(call) {
        Some(value) => items.counts(value),
        None => false,
    }
}

/// Returns whether a pending call asks to put one of these items into the buffer.
fn produces(items: &Items, op: Op) -> bool
    ensures { result ≡ produces (counts items.now) op }
{
    match produced_item(op) {
        Some(value) => items.counts(value),
        None => false,
    }
}

/// Returns whether a pending call asks for an item.
pub(crate) fn is_consume(op: Op) -> bool
    ensures { result ≡ is_consume op }
{
    matches!(op, Op::Consume)
}

/// Counts the produces of these items that had returned up to a position.
pub(crate) fn returned_puts(items: &Items, at: usize, done: &[Call]) -> usize
    ensures { result ≡ returned_puts (counts items.now) at done.now }
{
    done.iter()
        .filter(|c| is_put(items, c) && c.last <= at)
        .count()
}

/// Counts the completed produces of these items that had been invoked up to a position.
pub(crate) fn completed_puts(items: &Items, at: usize, done: &[Call]) -> usize
    ensures { result ≡ completed_puts (counts items.now) at done.now }
{
    done.iter()
        .filter(|c| is_put(items, c) && c.first <= at)
        .count()
}

/// Counts the pending produces of these items that had been invoked up to a position.
pub(crate) fn pending_puts(items: &Items, at: usize, pending: &[PendingCall]) -> usize
    ensures { result ≡ pending_puts (counts items.now) at pending.now }
{
    pending
        .iter()
        .filter(|o| produces(items, o.op) && o.first <= at)
        .count()
}

/// Counts the consumes of these items that had returned up to a position.
pub(crate) fn returned_takes(items: &Items, at: usize, done: &[Call]) -> usize
    ensures { result ≡ returned_takes (counts items.now) at done.now }
{
    done.iter()
        .filter(|c| is_take(items, c) && c.last <= at)
        .count()
}

/// Counts the consumes that returned these items and had been invoked up to a position.
pub(crate) fn invoked_takes(items: &Items, at: usize, done: &[Call]) -> usize
    ensures { result ≡ invoked_takes (counts items.now) at done.now }
{
    done.iter()
        .filter(|c| is_take(items, c) && c.first <= at)
        .count()
}

/// Counts those that were invoked after a position.
pub(crate) fn later_takes(items: &Items, at: usize, done: &[Call]) -> usize
    ensures { result ≡ later_takes (counts items.now) at done.now }
{
    done.iter()
        .filter(|c| is_take(items, c) && at < c.first)
        .count()
}

/// Counts the pending consumes that had been invoked up to a position.
pub(crate) fn pending_takes(at: usize, pending: &[PendingCall]) -> usize
    ensures { result ≡ pending_takes at pending.now }
{
    pending
        .iter()
        .filter(|o| is_consume(o.op) && o.first <= at)
        .count()
}

/// Counts all produces that put one of these items in.
pub(crate) fn all_completed_puts(items: &Items, done: &[Call]) -> usize
    ensures { result ≡ count_by (is_put (counts items.now)) done.now }
{
    done.iter().filter(|c| is_put(items, c)).count()
}

/// Counts all pending produces of these items.
pub(crate) fn all_pending_puts(items: &Items, pending: &[PendingCall]) -> usize
    ensures { result ≡ count_by (λ (o : PendingCall). produces (counts items.now) o.op)
        pending.now }
{
    pending.iter().filter(|o| produces(items, o.op)).count()
}

/// Counts all consumes that are pending.
pub(crate) fn all_pending_takes(pending: &[PendingCall]) -> usize
    ensures { result ≡ count_by (λ (o : PendingCall). is_consume o.op) pending.now }
{
    pending.iter().filter(|o| is_consume(o.op)).count()
}
