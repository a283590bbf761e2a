//! Plans an order of the calls.
ghost use Rattle.std.specs.Prelude.{◌≡◌, ℕ, ◌+◌, ◌<◌, List, length, map, IfOk, IfSome, IsSome};
ghost use Rattle.std.specs.Prelude.{OnOk, None, Some, slice_index_or, if◌then◌else◌};
ghost use Rattle.std.specs.HashMap.{get};
ghost use Rattle.calls_core.specs.declared.history.Kind.TheVariants.{Buffer};
ghost use Rattle.calls_core.specs.declared.history.PendingCall.{PendingCall};
ghost use Rattle.calls_core.specs.Lists.{Each, EachPair};
ghost use Rattle.calls_core.specs.Calls.{Earlier, IsCallOf, AreCallsOf};
ghost use Rattle.calls_buffers.specs.declared.windows.Window.{Window};
ghost use Rattle.calls_buffers.specs.kept.Orders.{same_pair, IsFound};
ghost use Rattle.calls_buffers.specs.kept.Windows.{AreWindows, AreRanked};
ghost use Rattle.calls_buffers.specs.kept.Spans.{AreInvokedApart, AreSpans};
ghost use Rattle.calls_buffers.specs.kept.Plans.{no_stay, stay_at, IsNext, AreStays, put_pair};
ghost use Rattle.calls_buffers.specs.kept.Plans.{put_key, take_pair, take_key, ArePlaces, IsPlan};
ghost use Rattle.calls_buffers.specs.kept.Plans.{answer_of};

use crate::accesses::Place;
use crate::ordering::{Key, Plan, find, follow};
use crate::ranking::{Ranking, ranked};
use crate::recorded::Recorded;
use crate::windows::Window;
use calls_core::{CallList, Op, PendingCall, Reply};
use std::alloc::{AllocError, Global};
use std::collections::HashMap;

/// How many numbers of pending consumes are tried.
const TRIES: usize = 16;

/// When an item is put in and taken out.
#[derive(Clone, Copy)]
pub(crate) struct Stay {
    /// When it is put in.
    pub(crate) put_at: usize,
    /// When it is taken out.
    pub(crate) take_at: usize,
}

/// Returns the stay at an index.
fn stay_at(stays: &[Stay], i: usize) -> Stay
    ensures { result ≡ stay_at stays.now i }
{
    if i < stays.len() {
        return stays[i];
    }
    Stay {
        put_at: 0,
        take_at: 0,
    }
}

/// Returns the stay that comes so many before the next one.
fn stay_before(stays: &[Stay], n: usize) -> Stay
    ensures at { (k : ℕ) → k + n ≡ length stays.now → result ≡ stay_at stays.now k }
    ensures none { length stays.now < n → result ≡ no_stay }
{
    match stays.len().checked_sub(n) {
        Some(i) => stay_at(stays, i),
        None => Stay {
            put_at: 0,
            take_at: 0,
        },
    }
}

/// Returns the stay of the item with the next rank, as early as may be: it is put in after the one
/// before it, and after the one is taken out whose room it needs.
fn next_stay(room: usize, window: &Window, stays: &[Stay]) -> Stay
    ensures { IsNext room window.now stays.now result }
{
    let last = stay_before(stays, 1);
    let freed = stay_before(stays, room);
    let put_at = last.put_at.max(window.put_first).max(freed.take_at);
    let take_at = last.take_at.max(window.take_first).max(put_at);
    Stay { put_at, take_at }
}

/// Lists the stays of items in the order of their ranks.
fn stays_of(alloc: Global, room: usize, order: &[Window]) -> Result<Vec<Stay>, AllocError>
    ensures { IfOk result (λ stays. AreStays room order.now (length order.now) stays.items) }
{
    let mut stays = Vec::new(alloc);
    for i in 0..order.len() {
        let stay = next_stay(room, &order[i], &stays);
        stays.push(stay)?;
    }
    Ok(stays)
}

/// Notes the place of the call of an item that was invoked at a position.
fn note(
    places: &mut HashMap<(usize, usize), Key>,
    item: usize,
    first: usize,
    key: Key,
) -> Result<(), AllocError>
    ensures { OnOk result ((q : ℕ × ℕ) → get same_pair places.new q
        ≡ (if same_pair (item, first) q then Some key else get same_pair places.old q)) }
{
    places.insert((item, first), key)?;
    Ok(())
}

/// Returns the places of the produces of items.
fn put_places(
    alloc: Global,
    order: &[Window],
    stays: &[Stay],
) -> Result<HashMap<(usize, usize), Key>, AllocError>
    ensures { IfOk result (λ places. ArePlaces put_pair (put_key stays.now) order.now
        (length order.now) (get same_pair places)) }
{
    let mut places = HashMap::new(alloc);
    for i in 0..order.len() {
        let key = Key {
            point: stay_at(stays, i).put_at,
            rank: i,
            takes: false,
        };
        let window = &order[i];
        note(&mut places, window.item, window.put_first, key)?;
    }
    Ok(places)
}

/// Returns the places of the consumes of items.
fn take_places(
    alloc: Global,
    order: &[Window],
    stays: &[Stay],
) -> Result<HashMap<(usize, usize), Key>, AllocError>
    ensures { IfOk result (λ places. ArePlaces take_pair (take_key stays.now) order.now
        (length order.now) (get same_pair places)) }
{
    let mut places = HashMap::new(alloc);
    for i in 0..order.len() {
        let key = Key {
            point: stay_at(stays, i).take_at,
            rank: i,
            takes: true,
        };
        let window = &order[i];
        note(&mut places, window.item, window.take_first, key)?;
    }
    Ok(places)
}

/// Returns the reply of a pending call, if it takes effect: a produce that has a place, or a
/// consume that takes an item.
fn answer(plan: &Plan, call: &PendingCall, taken: Option<usize>) -> Option<Reply>
    ensures { result ≡ answer_of (get same_pair plan.now.puts) taken call.now.op call.now.first }
{
    match call.op {
        Op::Produce(item) => {
            match find(&plan.puts, item, call.first) {
                Some(_) => Some(Reply::Done),
                None => None,
            }
        }
        Op::Consume => {
            match taken {
                Some(item) => Some(Reply::Number(item)),
                None => None,
            }
        }
        _ => None,
    }
}

/// Returns the item at an index.
fn taken_at(taken: &[Option<usize>], i: usize) -> Option<usize>
    ensures { result ≡ slice_index_or taken.now i None }
{
    if i < taken.len() { taken[i] } else { None }
}

/// Lists the replies of the pending calls that take effect, at the indices of these.
fn answers_of(
    alloc: Global,
    plan: &Plan,
    pending: &[PendingCall],
    taken: &[Option<usize>],
) -> Result<Vec<Option<Reply>>, AllocError>
    ensures { IfOk result (λ answers. ((i : ℕ) → slice_index_or taken.now i None ≡ None)
        → answers.items ≡ map (λ (o : PendingCall). answer_of (get same_pair plan.now.puts) None
        o.op o.first) pending.now) }
{
    let mut answers = Vec::new(alloc);
    for i in 0..pending.len() {
        answers.push(answer(plan, &pending[i], taken_at(taken, i)))?;
    }
    Ok(answers)
}

/// Plans the calls of items by their ranks.
fn plan_of(alloc: Global, room: usize, order: &[Window]) -> Result<Plan, AllocError>
    ensures { IfOk result (λ plan. IsPlan room order.now (get same_pair plan.puts)
        (get same_pair plan.takes)) }
{
    let stays = stays_of(alloc, room, order)?;
    let puts = put_places(alloc, order, &stays)?;
    let takes = take_places(alloc, order, &stays)?;
    Ok(Plan { puts, takes })
}

/// Returns an order of the calls of these items and of those that time out, if there is one in
/// which the items come in and go out as they are listed. `taken` says which item a pending consume
/// takes, at the index of the call.
pub(crate) fn order_of(
    alloc: Global,
    room: usize,
    calls: &Recorded,
    order: &[Window],
    taken: &[Option<usize>],
    end: usize,
) -> Result<Option<CallList>, AllocError>
    ensures sound { IfOk result (λ order. IfSome order (IsFound room calls.now.done.items
        calls.now.pending.items end)) }
    ensures found { (ws : List Window) → AreCallsOf (Buffer room) calls.now.done.items
        calls.now.pending.items end → AreWindows calls.now.done.items calls.now.pending.items end ws
        → AreRanked room ws order.now → 0 < room
        → ((i : ℕ) → slice_index_or taken.now i None ≡ None) → IfOk result (λ order. IsSome order) }
    ensures spread { Each (IsCallOf (Buffer room) end) calls.now.done.items
        → EachPair Earlier calls.now.pending.items
        → AreInvokedApart calls.now.done.items calls.now.pending.items
        → AreSpans calls.now.done.items calls.now.pending.items end order.now
        → AreRanked room order.now order.now → 0 < room
        → ((i : ℕ) → slice_index_or taken.now i None ≡ None) → IfOk result (λ order. IsSome order) }
{
    let plan = plan_of(alloc, room, order)?;
    let answers = answers_of(alloc, &plan, &calls.pending, taken)?;
    follow(alloc, room, calls, &plan, &answers, end)
}

/// Lists the pending consumes, each with its invocation and its index, in the order of these.
fn takers(alloc: Global, calls: &Recorded) -> Result<Vec<(usize, usize)>, AllocError> {
    let mut takers = Vec::new(alloc);
    for (i, call) in calls.pending.iter().enumerate() {
        if matches!(call.op, Op::Consume) {
            takers.push((call.first, i))?;
        }
    }
    Ok(takers)
}

/// Lists the items that nobody returned, each with the response of its produce and its index, in
/// the order of these.
fn kept(alloc: Global, windows: &[Window]) -> Result<Vec<(usize, usize)>, AllocError> {
    let mut kept = Vec::new(alloc);
    for (i, window) in windows.iter().enumerate() {
        if window.take.is_none() {
            kept.push((window.put_last, i))?;
        }
    }
    kept.sort()?;
    Ok(kept)
}

/// Gives the first n items that nobody returned to the first pending consumes.
fn give(
    alloc: Global,
    windows: &[Window],
    kept: &[(usize, usize)],
    takers: &[(usize, usize)],
    n: usize,
    end: usize,
) -> Result<Vec<Window>, AllocError> {
    let mut list = Vec::from_slice(alloc, windows)?;
    for (i, (_, index)) in kept.iter().enumerate() {
        if i < n && i < takers.len() && *index < list.len() {
            let (first, place) = takers[i];
            let window = &mut list[*index];
            window.take = Some(Place::Pending(place));
            window.take_first = first;
            window.take_last = end.saturating_sub(1);
        }
    }
    Ok(list)
}

/// Lists the items that pending consumes take, at the indices of these.
fn taken_by(
    alloc: Global,
    calls: &Recorded,
    windows: &[Window],
) -> Result<Vec<Option<usize>>, AllocError> {
    let mut taken = Vec::new(alloc);
    for _ in &calls.pending {
        taken.push(None)?;
    }
    give_out(&mut taken, windows);
    Ok(taken)
}

/// Notes the items that pending consumes take, at the indices of these.
fn give_out(taken: &mut Vec<Option<usize>>, windows: &[Window]) {
    for window in windows {
        if let Some(Place::Pending(i)) = window.take {
            if i < taken.len() {
                taken[i] = Some(window.item);
            }
        }
    }
}

/// Lists windows with their indices in place of their items.
fn numbered(alloc: Global, windows: &[Window]) -> Result<Vec<Window>, AllocError> {
    let mut list = Vec::new(alloc);
    for (item, window) in windows.iter().enumerate() {
        list.push(Window { item, ..*window })?;
    }
    Ok(list)
}

/// Lists items by their ranks, if it finds some.
fn by_rank(
    alloc: Global,
    room: usize,
    windows: &[Window],
    end: usize,
) -> Result<Option<Vec<Window>>, AllocError> {
    let Ranking::Ranked(ranks) = ranked(alloc, room, &numbered(alloc, windows)?, end)? else {
        return Ok(None);
    };
    let mut order = Vec::new(alloc);
    for rank in &ranks {
        if let Some(window) = windows.get(rank.item) {
            order.push(*window)?;
        }
    }
    Ok(Some(order))
}

/// Returns an order of the calls of these items and of those that time out, if it finds one.
fn order_with(
    alloc: Global,
    room: usize,
    calls: &Recorded,
    windows: &[Window],
    end: usize,
) -> Result<Option<CallList>, AllocError>
    ensures { IfOk result (λ order. IfSome order (IsFound room calls.now.done.items
        calls.now.pending.items end)) }
{
    match by_rank(alloc, room, windows, end)? {
        Some(order) => {
            let taken = taken_by(alloc, calls, &order)?;
            order_of(alloc, room, calls, &order, &taken, end)
        }
        None => Ok(None),
    }
}

/// Returns a linearization, if it finds one.
pub(crate) fn find_order(
    alloc: Global,
    room: usize,
    calls: &Recorded,
    windows: &[Window],
    end: usize,
) -> Result<Option<CallList>, AllocError>
    ensures { IfOk result (λ order. IfSome order (IsFound room calls.now.done.items
        calls.now.pending.items end)) }
{
    let takers = takers(alloc, calls)?;
    let kept = kept(alloc, windows)?;
    let most = takers.len().min(kept.len());
    let least = kept.len().saturating_sub(room);
    for i in 0..TRIES {
        let n = least.saturating_add(i);
        if n <= most {
            let given = give(alloc, windows, &kept, &takers, n, end)?;
            let order = order_with(alloc, room, calls, &given, end)?;
            if order.is_some() {
                return Ok(order);
            }
        }
    }
    Ok(None)
}
