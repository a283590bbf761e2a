//! Calls that are settled: the pending ones that take effect are completed.
ghost use Rattle.std.specs.Prelude.{◌≡◌, ◌<◌, ◌++◌, [], map, IfOk, IfSome, IsSome};
ghost use Rattle.calls_core.specs.declared.history.Kind.TheVariants.{Buffer};
ghost use Rattle.calls_core.specs.declared.history.PendingCall.{PendingCall};
ghost use Rattle.calls_core.specs.Linearizations.{answered_calls};
ghost use Rattle.calls_core.specs.Calls.{AreCallsOf};
ghost use Rattle.calls_buffers.specs.kept.Orders.{IsFound};
ghost use Rattle.calls_buffers.specs.kept.Spans.{AreInvokedApart};
ghost use Rattle.calls_buffers.specs.kept.Settling.{AreGiven, reply_at, settled_calls};
ghost use Rattle.calls_buffers.specs.kept.Settling.{settled_window};
ghost use Rattle.calls_buffers.specs.kept.Decisions.{Fits};

use crate::planning::order_of;
use crate::recorded::Recorded;
use crate::windows::Window;
use calls_core::{Call, CallList, PendingCall, Reply};
use std::alloc::{AllocError, Global};

/// Returns the reply of the call that was invoked at a position, if it is one of these windows.
fn reply_at(windows: &[Window], first: usize) -> Option<Reply>
    ensures { result ≡ reply_at windows.now first }
{
    for window in windows {
        if window.put_first == first {
            return Some(Reply::Done);
        }
        if window.take_first == first {
            return Some(Reply::Number(window.item));
        }
    }
    None
}

/// Adds the pending calls of these windows, with their replies at `end`.
fn add_settled(
    list: &mut Vec<Call>,
    windows: &[Window],
    pending: &[PendingCall],
    end: usize,
) -> Result<(), AllocError>
    ensures { IfOk result (λ done. list.new.items ≡ list.old.items ++ answered_calls end
        (λ (o : PendingCall). reply_at windows.now o.first) pending.now) }
{
    for call in pending {
        if let Some(reply) = reply_at(windows, call.first) {
            list.push(call.complete(reply, end))?;
        }
    }
    Ok(())
}

/// Completes the pending calls of these windows. The other pending ones have no effect.
fn settle(
    alloc: Global,
    calls: &Recorded,
    windows: &[Window],
    end: usize,
) -> Result<Recorded, AllocError>
    ensures done { IfOk result (λ s. s.done.items ≡ settled_calls windows.now end
        calls.now.done.items calls.now.pending.items) }
    ensures pending { IfOk result (λ s. s.pending.items ≡ []) }
{
    let mut done = Vec::from_slice(alloc, &calls.done)?;
    add_settled(&mut done, windows, &calls.pending, end)?;
    Ok(Recorded {
        done,
        pending: Vec::new(alloc),
    })
}

/// Returns a window for calls that are settled: what does not happen is after `end`.
fn settled_window(window: &Window, end: usize) -> Window
    requires { Fits end }
    ensures { result ≡ settled_window end window.now }
{
    if window.take_first < end {
        return *window;
    }
    Window {
        take_first: end + 1,
        take_last: end + 1,
        ..*window
    }
}

/// Lists windows for calls that are settled.
fn settled_windows(alloc: Global, windows: &[Window], end: usize) -> Result<Vec<Window>, AllocError>
    requires { Fits end }
    ensures { IfOk result (λ list. list.items ≡ map (settled_window end) windows.now) }
{
    let mut list = Vec::new(alloc);
    for window in windows {
        list.push(settled_window(window, end))?;
    }
    Ok(list)
}

/// Returns an order of the calls of these items and of those that time out, if there is one in
/// which the items come in and go out as they are listed. Pending calls of these items return at
/// `end`.
pub(crate) fn settled_order(
    alloc: Global,
    room: usize,
    calls: &Recorded,
    windows: &[Window],
    end: usize,
) -> Result<Option<CallList>, AllocError>
    ensures sound { IfOk result (λ order. IfSome order (IsFound room calls.now.done.items
        calls.now.pending.items end)) }
    ensures found { AreCallsOf (Buffer room) calls.now.done.items calls.now.pending.items end
        → AreInvokedApart calls.now.done.items calls.now.pending.items
        → AreGiven room calls.now.done.items calls.now.pending.items end windows.now
        → 0 < room → Fits end → IfOk result (λ order. IsSome order) }
{
    if end == usize::MAX {
        return Ok(None);
    }
    let settled = settle(alloc, calls, windows, end)?;
    let order = settled_windows(alloc, windows, end)?;
    order_of(alloc, room, &settled, &order, &[], end + 1)
}
