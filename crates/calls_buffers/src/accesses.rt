//! The produces and the consumes of a history, by their items.
ghost use Rattle.std.specs.Prelude.{◌≡◌, ◌++◌, IfOk, MatchOption};
ghost use Rattle.std.specs.List.Sorted.{IsNonDecreasingBy, IsPermutation};
ghost use Rattle.calls_buffers.specs.declared.accesses.Access.{Access};
ghost use Rattle.calls_buffers.specs.Accesses.{put_item, taken_item};
ghost use Rattle.calls_buffers.specs.kept.Accesses.{find_access, ByItem};
ghost use Rattle.calls_buffers.specs.Accesses.{accesses, asked};
ghost use Rattle.calls_buffers.specs.kept.Accesses.{Ascend, IsRepeated};

use crate::items::{produced_item, put_item, taken_item};
use calls_core::{Call, PendingCall};
use std::alloc::{AllocError, Global};

/// Where a call is among those of a history.
#[derive(Clone, Copy)]
pub(crate) enum Place {
    /// At this index of the completed ones.
    Completed(usize),
    /// At this index of the pending ones.
    Pending(usize),
}

/// A produce or a consume.
#[derive(Clone, Copy)]
pub(crate) struct Access {
    /// The item.
    pub(crate) item: usize,
    /// Where the call is.
    pub(crate) place: Place,
    /// The position of its invocation.
    pub(crate) first: usize,
    /// The position of its response.
    pub(crate) last: usize,
}

/// Lists the completed produces that took effect.
pub(crate) fn completed_puts(alloc: Global, done: &[Call]) -> Result<Vec<Access>, AllocError>
    ensures { IfOk result (λ list. list.items ≡ accesses put_item 0 done.now) }
{
    let mut list = Vec::new(alloc);
    for (i, call) in done.iter().enumerate() {
        if let Some(item) = put_item(call) {
            list.push(Access {
                item,
                place: Place::Completed(i),
                first: call.first,
                last: call.last,
            })?;
        }
    }
    Ok(list)
}

/// Lists the consumes that returned an item.
pub(crate) fn completed_takes(alloc: Global, done: &[Call]) -> Result<Vec<Access>, AllocError>
    ensures { IfOk result (λ list. list.items ≡ accesses taken_item 0 done.now) }
{
    let mut list = Vec::new(alloc);
    for (i, call) in done.iter().enumerate() {
        if let Some(item) = taken_item(call) {
            list.push(Access {
                item,
                place: Place::Completed(i),
                first: call.first,
                last: call.last,
            })?;
        }
    }
    Ok(list)
}

/// Adds the pending produces, as if they returned at `end`.
pub(crate) fn add_pending(
    list: &mut Vec<Access>,
    pending: &[PendingCall],
    end: usize,
) -> Result<(), AllocError>
    ensures { IfOk result (λ done. list.new.items ≡ list.old.items ++ asked end 0 pending.now) }
{
    for (i, call) in pending.iter().enumerate() {
        if let Some(item) = produced_item(call.op) {
            list.push(Access {
                item,
                place: Place::Pending(i),
                first: call.first,
                last: end,
            })?;
        }
    }
    Ok(())
}

/// Sorts accesses by their items, and those to one item by their responses.
fn sort(list: &mut Vec<Access>) -> Result<(), AllocError>
    ensures moved { IsPermutation list.old.items list.new.items }
    ensures sorted { IfOk result (λ done. IsNonDecreasingBy (λ (a : Access). a.item)
        list.new.items) }
{
    list.sort_by_key(|access| access.last)?;
    list.sort_by_key(|access| access.item)?;
    Ok(())
}

/// Lists the produces by their items and responses. A pending one returns at `end`.
pub(crate) fn puts(
    alloc: Global,
    done: &[Call],
    pending: &[PendingCall],
    end: usize,
) -> Result<Vec<Access>, AllocError>
    ensures moved { IfOk result (λ list. IsPermutation
        (accesses put_item 0 done.now ++ asked end 0 pending.now) list.items) }
    ensures sorted { IfOk result (λ list. ByItem list.items) }
{
    let mut list = completed_puts(alloc, done)?;
    add_pending(&mut list, pending, end)?;
    sort(&mut list)?;
    Ok(list)
}

/// Lists the consumes that returned an item, by their items and responses.
pub(crate) fn takes(alloc: Global, done: &[Call]) -> Result<Vec<Access>, AllocError>
    ensures moved { IfOk result (λ list. IsPermutation (accesses taken_item 0 done.now)
        list.items) }
    ensures sorted { IfOk result (λ list. ByItem list.items) }
{
    let mut list = completed_takes(alloc, done)?;
    sort(&mut list)?;
    Ok(list)
}

/// Returns the first access to an item of some that are sorted by their items.
pub(crate) fn find(list: &[Access], item: usize) -> Option<Access>
    ensures { ByItem list.now → result ≡ find_access list.now item }
{
    let i = list.partition_point(|access| access.item < item);
    if i < list.len() && list[i].item == item {
        Some(list[i])
    } else {
        None
    }
}

/// Returns the index of an access to the same item as the one before it, if there is one, of some
/// that are sorted by their items.
pub(crate) fn repeated(list: &[Access]) -> Option<usize>
    ensures { MatchOption result (Ascend list.now) (IsRepeated list.now) }
{
    for i in 1..list.len() {
        if list[i].item <= list[i - 1].item {
            return Some(i);
        }
    }
    None
}
