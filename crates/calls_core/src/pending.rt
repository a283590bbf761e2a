//! The pending calls of workers, and lists in constant memory.
ghost use Rattle.std.specs.Prelude.{◌≡◌, ◌+◌, ◌-◌, ◌<◌, ◌≤◌, ◌++◌, length, MatchOption, None};
ghost use Rattle.std.specs.List.{range_with_len};
ghost use Rattle.calls_core.specs.Histories.{pending_of, without};
ghost use Rattle.calls_core.specs.Pending.{noted_calls, IsPendingOf, IsNotedOf};

use crate::{PendingCall, WORKERS};
use arrayvec::ArrayVec;

/// A pending call, with a number that was known at its invocation.
#[derive(Clone, Copy, Debug, Default, PartialEq, Eq)]
pub struct NotedCall {
    /// The call.
    pub call: PendingCall,
    /// The number.
    pub noted: usize,
}

/// Returns the index of a worker's pending call, or `None` if it has none.
pub fn find(pending: &[PendingCall], worker: usize) -> Option<usize>
    ensures { MatchOption result (pending_of worker pending.now ≡ None)
        (IsPendingOf pending.now worker) }
{
    for (i, call) in pending.iter().enumerate() {
        if call.worker == worker {
            return Some(i);
        }
    }
    None
}

/// Removes and returns a worker's pending call, if it has one.
pub fn take_pending(pending: &mut Vec<PendingCall>, worker: usize) -> Option<PendingCall>
    ensures result { result ≡ pending_of worker pending.old.items }
    ensures rest { pending.new.items ≡ without worker pending.old.items }
{
    match find(pending, worker) {
        Some(i) => Some(pending.remove(i)),
        None => None,
    }
}

/// Returns the index of a worker's pending call, or `None` if it has none.
pub fn find_noted(pending: &[NotedCall], worker: usize) -> Option<usize>
    ensures { MatchOption result (pending_of worker (noted_calls pending.now) ≡ None)
        (IsNotedOf pending.now worker) }
{
    for (i, u) in pending.iter().enumerate() {
        if u.call.worker == worker {
            return Some(i);
        }
    }
    None
}

/// Adds the numbers from `from` to below `upto`, as far as there is room.
pub fn push_range(list: &mut ArrayVec<usize, WORKERS>, from: usize, upto: usize)
    ensures { (from < upto → length list.old.items + (upto - from) ≤ WORKERS)
        → list.new.items ≡ list.old.items ++ range_with_len from (upto - from) }
{
    let mut i = from;
    while i < upto {
        if list.is_full() {
            return;
        }
        list.push(i);
        i += 1;
    }
}
