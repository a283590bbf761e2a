//! The items of a history as turns, if no two produces or no two consumes overlap.
ghost use Rattle.std.specs.Prelude.{◌≡◌, ◌-◌, ◌≤◌, ◌⊎◌, ◌↔◌, ◌++◌, List, drop, length, slice_get};
ghost use Rattle.std.specs.Prelude.{IfOk, IfSome, IsSome, IsTrue};
ghost use Rattle.std.specs.List.Sorted.{IsPermutation};
ghost use Rattle.calls_core.specs.declared.history.Kind.TheVariants.{Buffer};
ghost use Rattle.calls_core.specs.declared.history.Call.{Call};
ghost use Rattle.calls_core.specs.declared.history.PendingCall.{PendingCall};
ghost use Rattle.calls_core.specs.Lists.{Each};
ghost use Rattle.calls_core.specs.Calls.{AreCallsOf};
ghost use Rattle.calls_buffers.specs.declared.accesses.Access.{Access};
ghost use Rattle.calls_buffers.specs.Outcomes.{AreInTurn, AreTakenInTurn};
ghost use Rattle.calls_buffers.specs.Turns.{puts_of, takes_of, AreApart, takers_of, askers_of};
ghost use Rattle.calls_buffers.specs.Turns.{last_or, taking_turns, asking, first_before};
ghost use Rattle.calls_buffers.specs.Turns.{putting_turns, spare_turns, turns_in, AreFewOrApart};
ghost use Rattle.calls_buffers.specs.kept.Pairs.{window_of};
ghost use Rattle.calls_buffers.specs.kept.Spans.{AreInvokedApart};
ghost use Rattle.calls_buffers.specs.kept.Settling.{IsTurned};
ghost use Rattle.calls_buffers.specs.kept.Takings.{take_by, take_of, taken_windows};
ghost use Rattle.calls_buffers.specs.kept.Puttings.{put_windows};
ghost use Rattle.calls_buffers.specs.kept.InTurn.{ByFirst};

use crate::accesses::{Access, Place, add_pending, completed_puts, completed_takes};
use crate::counting::is_consume;
use crate::fault::{Fault, Flow};
use crate::recorded::Recorded;
use crate::windows::{Window, with_take, without_take};
use calls_core::PendingCall;
use calls_turns::{Outcome, Taker, Turn, assign};
use std::alloc::{AllocError, Global};

/// What the turns of a history show.
#[derive(Drop)]
pub(crate) enum Turned {
    /// The windows of the items in the order of ranks that they may have.
    Ranked(Vec<Window>),
    /// There is no order.
    Refuted(Fault),
}

/// Lists accesses by their invocations.
fn sorted(alloc: Global, list: &[Access]) -> Result<Vec<Access>, AllocError>
    ensures moved { IfOk result (λ v. IsPermutation list.now v.items) }
    ensures sorted { IfOk result (λ v. ByFirst v.items) }
{
    let mut sorted = Vec::from_slice(alloc, list)?;
    sorted.sort_by_key(|access| access.first)?;
    Ok(sorted)
}

/// Returns whether each of them returned before the next one was invoked.
fn are_apart(list: &[Access]) -> bool
    requires { Each (λ (a : Access). a.first ≤ a.last) list.now }
    ensures { IsTrue result ↔ AreApart list.now }
{
    for i in 1..list.len() {
        if list[i].first <= list[i - 1].last {
            return false;
        }
    }
    true
}

/// Lists accesses as takers of turns.
fn takers(alloc: Global, list: &[Access]) -> Result<Vec<Taker>, AllocError>
    ensures { IfOk result (λ v. v.items ≡ takers_of 0 list.now) }
{
    let mut takers = Vec::new(alloc);
    for (call, access) in list.iter().enumerate() {
        takers.push(Taker {
            call,
            item: Some(access.item),
            from: access.first,
            by: access.last,
        })?;
    }
    Ok(takers)
}

/// Adds the pending consumes, each as a taker of any item.
fn add_askers(
    takers: &mut Vec<Taker>,
    pending: &[PendingCall],
    end: usize,
) -> Result<(), AllocError>
    ensures { IfOk result (λ done. takers.new.items ≡ takers.old.items
        ++ askers_of end 0 pending.now) }
{
    for (i, call) in pending.iter().enumerate() {
        if is_consume(call.op) {
            takers.push(Taker {
                call: i,
                item: None,
                from: call.first,
                by: end,
            })?;
        }
    }
    Ok(())
}

/// Lists the consumes that may take items out as takers of turns.
fn all_takers(
    alloc: Global,
    takes: &[Access],
    pending: &[PendingCall],
    end: usize,
) -> Result<Vec<Taker>, AllocError>
    ensures { IfOk result (λ v. v.items ≡ takers_of 0 takes.now ++ askers_of end 0 pending.now) }
{
    let mut list = takers(alloc, takes)?;
    add_askers(&mut list, pending, end)?;
    Ok(list)
}

/// Returns the position by which the first of these items is taken out, for the one to be put in
/// that comes `room` after it.
fn taken_by(puts: &[Access], room: usize, end: usize) -> usize
    ensures { result ≡ last_or end (drop room puts.now) }
{
    match puts.get(room) {
        Some(put) => put.last,
        None => end,
    }
}

/// Lists the turns of taking out the items that are put in.
fn taking_turns(
    alloc: Global,
    room: usize,
    end: usize,
    puts: &[Access],
) -> Result<Vec<Turn>, AllocError>
    ensures { IfOk result (λ v. v.items ≡ taking_turns room end puts.now) }
{
    let mut turns = Vec::new(alloc);
    for (i, put) in puts.iter().enumerate() {
        turns.push(Turn {
            item: Some(put.item),
            from: put.first,
            by: taken_by(&puts[i..], room, end),
        })?;
    }
    Ok(turns)
}

/// Adds the pending consumes, as if they returned at `end`. Their items are not known.
fn add_asking(list: &mut Vec<Access>, pending: &[PendingCall], end: usize) -> Result<(), AllocError>
    ensures { IfOk result (λ done. list.new.items ≡ list.old.items ++ asking end 0 pending.now) }
{
    for (i, call) in pending.iter().enumerate() {
        if is_consume(call.op) {
            list.push(Access {
                item: 0,
                place: Place::Pending(i),
                first: call.first,
                last: end,
            })?;
        }
    }
    Ok(())
}

/// Returns the position from which an item may be put in, after the consume was invoked that comes
/// `room` before it: `end` if there is none.
fn put_from(takes: &[Access], room: usize, i: usize, end: usize) -> usize
    ensures { result ≡ first_before room end takes.now i }
{
    match i.checked_sub(room) {
        Some(k) => takes.get(k).map_or(end, |take| take.first),
        None => 0,
    }
}

/// Lists the turns of putting in the items that are returned.
fn putting_turns(
    alloc: Global,
    room: usize,
    end: usize,
    takes: &[Access],
    all: &[Access],
) -> Result<Vec<Turn>, AllocError>
    ensures { IfOk result (λ v. v.items ≡ putting_turns room end all.now 0 takes.now) }
{
    let mut turns = Vec::new(alloc);
    for (i, take) in takes.iter().enumerate() {
        turns.push(Turn {
            item: Some(take.item),
            from: put_from(all, room, i, end),
            by: take.last,
        })?;
    }
    Ok(turns)
}

/// Adds turns of putting in items that nobody returned, from one number up to another.
fn add_spare_turns(
    turns: &mut Vec<Turn>,
    room: usize,
    end: usize,
    all: &[Access],
    from: usize,
    puts: usize,
) -> Result<(), AllocError>
    ensures { IfOk result (λ done. turns.new.items ≡ turns.old.items
        ++ spare_turns room end all.now from (puts - from)) }
{
    for i in from..puts {
        turns.push(Turn {
            item: None,
            from: put_from(all, room, i, end),
            by: end,
        })?;
    }
    Ok(())
}

/// Lists the turns of so many produces, if all these consumes take items out in their order. The
/// first of them are those that returned one.
fn turns_in(
    alloc: Global,
    room: usize,
    end: usize,
    takes: &[Access],
    all: &[Access],
    puts: usize,
) -> Result<Vec<Turn>, AllocError>
    ensures { IfOk result (λ v. v.items ≡ turns_in room end takes.now all.now puts) }
{
    let mut turns = putting_turns(alloc, room, end, takes, all)?;
    add_spare_turns(&mut turns, room, end, all, takes.len(), puts)?;
    Ok(turns)
}

/// Returns the access at an index, if there is one.
fn access_at(list: &[Access], i: usize) -> Option<Access>
    ensures { result ≡ slice_get list.now i }
{
    list.get(i).copied()
}

/// Returns the consume by which a taker takes out an item.
fn take_by(takes: &[Access], taker: &Taker, item: usize) -> Option<Access>
    ensures { result ≡ take_by takes.now item taker.now }
{
    match taker.item {
        Some(_) => access_at(takes, taker.call),
        None => Some(Access {
            item,
            place: Place::Pending(taker.call),
            first: taker.from,
            last: taker.by,
        }),
    }
}

/// Returns the consume by which the item of a turn is taken out, if there is one.
fn take_of(takes: &[Access], order: &[Taker], turn: usize, item: usize) -> Option<Access>
    ensures { result ≡ take_of takes.now item (slice_get order.now turn) }
{
    match order.get(turn) {
        Some(taker) => take_by(takes, taker, item),
        None => None,
    }
}

/// Adds the window of a produce and of the consume that takes its item out, if there is one. An
/// item that nobody takes, and whose produce is pending, has none.
fn add_window(
    windows: &mut Vec<Window>,
    put: &Access,
    take: Option<Access>,
    end: usize,
) -> Result<(), AllocError>
    ensures { IfOk result (λ done. windows.new.items ≡ windows.old.items
        ++ window_of end put.now take) }
{
    match take {
        Some(take) => windows.push(with_take(put, &take))?,
        None => {
            if put.last < end {
                windows.push(without_take(put, end))?;
            }
        }
    }
    Ok(())
}

/// Lists the windows of items that are put in, in this order, and taken out by these takers.
fn taken_windows(
    alloc: Global,
    puts: &[Access],
    takes: &[Access],
    order: &[Taker],
    end: usize,
) -> Result<Vec<Window>, AllocError>
    ensures { IfOk result (λ v. v.items ≡ taken_windows end takes.now puts.now order.now) }
{
    let mut windows = Vec::new(alloc);
    for (k, put) in puts.iter().enumerate() {
        let take = take_of(takes, order, k, put.item);
        add_window(&mut windows, put, take, end)?;
    }
    Ok(windows)
}

/// Lists the windows of items that are put in by these takers, in their order, and taken out by
/// these consumes, in theirs.
fn put_windows(
    alloc: Global,
    puts: &[Access],
    takes: &[Access],
    order: &[Taker],
    end: usize,
) -> Result<Vec<Window>, AllocError>
    ensures { IfOk result (λ v. v.items ≡ put_windows end puts.now takes.now 0 order.now) }
{
    let mut windows = Vec::new(alloc);
    for (k, taker) in order.iter().enumerate() {
        if let Some(put) = access_at(puts, taker.call) {
            let take = access_at(takes, k);
            add_window(&mut windows, &put, take, end)?;
        }
    }
    Ok(windows)
}

/// Decides by the turns of taking out items.
fn by_takes(
    alloc: Global,
    room: usize,
    puts: &[Access],
    takes: &[Access],
    pending: &[PendingCall],
    end: usize,
) -> Result<Turned, AllocError>
    ensures { (done : List Call) (asking : List PendingCall)
        → AreCallsOf (Buffer room) done asking end → AreInvokedApart done asking
        → IsPermutation (puts_of end done asking) puts.now → AreApart puts.now
        → takes.now ≡ takes_of done → pending.now ≡ asking
        → IfOk result (IsTurned room done asking end) }
{
    let turns = taking_turns(alloc, room, end, puts)?;
    match assign(alloc, end, &turns, &all_takers(alloc, takes, pending, end)?)? {
        Outcome::Assigned(order) => {
            let windows = taken_windows(alloc, puts, takes, &order, end)?;
            Ok(Turned::Ranked(windows))
        }
        Outcome::Refuted { steps, clash } => Ok(Turned::Refuted(Fault::Outrun {
            flow: Flow::Out,
            steps,
            clash,
        })),
    }
}

/// Decides by the turns of putting in items. `all` are the consumes that may take items out: those
/// that returned one, and the pending ones.
fn by_puts(
    alloc: Global,
    room: usize,
    puts: &[Access],
    takes: &[Access],
    all: &[Access],
    end: usize,
) -> Result<Turned, AllocError>
    ensures { (done : List Call) (pending : List PendingCall)
        → AreCallsOf (Buffer room) done pending end → AreInvokedApart done pending
        → puts.now ≡ puts_of end done pending → IsPermutation (takes_of done) takes.now
        → AreApart takes.now → all.now ≡ takes.now ++ asking end 0 pending
        → AreFewOrApart (length puts.now) takes.now (asking end 0 pending)
        → IfOk result (IsTurned room done pending end) }
{
    let turns = turns_in(alloc, room, end, takes, all, puts.len())?;
    match assign(alloc, end, &turns, &takers(alloc, puts)?)? {
        Outcome::Assigned(order) => {
            let windows = put_windows(alloc, puts, all, &order, end)?;
            Ok(Turned::Ranked(windows))
        }
        Outcome::Refuted { steps, clash } => Ok(Turned::Refuted(Fault::Outrun {
            flow: Flow::In,
            steps,
            clash,
        })),
    }
}

/// Returns whether no two of these consumes overlap, and there are no more produces than these, or
/// no two of all consumes overlap: these, and then the pending ones.
fn are_in_turn(takes: &[Access], all: &[Access], puts: usize) -> bool
    requires takes { Each (λ (a : Access). a.first ≤ a.last) takes.now }
    requires all { Each (λ (a : Access). a.first ≤ a.last) all.now }
    ensures { (pending : List Access) → all.now ≡ takes.now ++ pending
        → (IsTrue result ↔ AreApart takes.now × AreFewOrApart puts takes.now pending) }
{
    if puts <= takes.len() {
        are_apart(takes)
    } else {
        are_apart(all)
    }
}

/// Decides by the turns of putting in items if no two consumes overlap, and no more was put in than
/// was returned or the pending consume, if there is one, comes last.
fn by_puts_in_turn(
    alloc: Global,
    room: usize,
    calls: &Recorded,
    puts: &[Access],
    takes: &[Access],
    end: usize,
) -> Result<Option<Turned>, AllocError>
    requires calls { AreCallsOf (Buffer room) calls.now.done.items calls.now.pending.items end }
    requires apart { AreInvokedApart calls.now.done.items calls.now.pending.items }
    requires puts { puts.now ≡ puts_of end calls.now.done.items calls.now.pending.items }
    requires takes { takes.now ≡ takes_of calls.now.done.items }
    ensures sound { IfOk result (λ o.
        IfSome o (IsTurned room calls.now.done.items calls.now.pending.items end)) }
    ensures complete { IfOk result (λ o.
        AreTakenInTurn calls.now.done.items calls.now.pending.items → IsSome o) }
{
    let takes_in_order = sorted(alloc, takes)?;
    let mut all = Vec::from_slice(alloc, &takes_in_order)?;
    add_asking(&mut all, &calls.pending, end)?;
    if are_in_turn(&takes_in_order, &all, puts.len()) {
        let turned = by_puts(alloc, room, puts, &takes_in_order, &all, end)?;
        return Ok(Some(turned));
    }
    Ok(None)
}

/// Decides calls of which no two produces overlap, or no two consumes, if what nobody returned may
/// be taken out in one order only.
pub(crate) fn by_turns(
    alloc: Global,
    room: usize,
    calls: &Recorded,
    end: usize,
) -> Result<Option<Turned>, AllocError>
    requires calls { AreCallsOf (Buffer room) calls.now.done.items calls.now.pending.items end }
    requires apart { AreInvokedApart calls.now.done.items calls.now.pending.items }
    ensures sound { IfOk result (λ o.
        IfSome o (IsTurned room calls.now.done.items calls.now.pending.items end)) }
    ensures complete { IfOk result (λ o. AreInTurn calls.now.done.items calls.now.pending.items
        ⊎ AreTakenInTurn calls.now.done.items calls.now.pending.items → IsSome o) }
{
    let mut puts = completed_puts(alloc, &calls.done)?;
    add_pending(&mut puts, &calls.pending, end)?;
    let takes = completed_takes(alloc, &calls.done)?;
    let puts_in_order = sorted(alloc, &puts)?;
    if are_apart(&puts_in_order) {
        let turned = by_takes(alloc, room, &puts_in_order, &takes, &calls.pending, end)?;
        return Ok(Some(turned));
    }
    by_puts_in_turn(alloc, room, calls, &puts, &takes, end)
}
