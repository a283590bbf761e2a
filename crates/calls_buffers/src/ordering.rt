//! Orders the calls that take effect.
ghost use Rattle.std.specs.Prelude.{◌≡◌, ◌++◌, List, None, map, IfOk, IfSome, IsSome};
ghost use Rattle.std.specs.Prelude.{slice_index_or};
ghost use Rattle.std.specs.HashMap.{get};
ghost use Rattle.std.specs.List.Sorted.{IsPermutation};
ghost use Rattle.calls_core.specs.Lists.{EachPair};
ghost use Rattle.calls_core.specs.declared.history.Call.{Call};
ghost use Rattle.calls_buffers.specs.Queues.{IsLegal};
ghost use Rattle.calls_buffers.specs.kept.Orders.{answered_from, calls_in, IsFound};
ghost use Rattle.calls_buffers.specs.kept.Orders.{same_pair, place_in, key_of, keyed_call, with_key};
ghost use Rattle.calls_buffers.specs.kept.Orders.{Before};

use crate::checking::verify;
use crate::recorded::Recorded;
use calls_core::{Call, CallList, Op, PendingCall, Reply};
use std::alloc::{AllocError, Global};
use std::collections::HashMap;

/// How many calls are listed before memory is given back.
const BLOCK: usize = 65536;

/// The place of a call in an order.
#[derive(Clone, Copy)]
pub(crate) struct Key {
    /// When it takes effect.
    pub(crate) point: usize,
    /// The rank of its item.
    pub(crate) rank: usize,
    /// Whether it takes the item out.
    pub(crate) takes: bool,
}

/// A call, and its place.
#[derive(Clone, Copy)]
pub(crate) struct Keyed<'c> {
    /// Its place.
    pub(crate) key: Key,
    /// The call.
    pub(crate) call: &'c Call,
}

/// The places of the calls of items, each by the item and the position of the call's invocation.
#[derive(Drop)]
pub(crate) struct Plan {
    /// Those of produces.
    pub(crate) puts: HashMap<(usize, usize), Key>,
    /// Those of consumes.
    pub(crate) takes: HashMap<(usize, usize), Key>,
}

/// Returns the place of the call of an item that was invoked at a position.
pub(crate) fn find(places: &HashMap<(usize, usize), Key>, item: usize, first: usize) -> Option<Key>
    ensures { result ≡ get same_pair places.now (item, first) }
{
    places.get(&(item, first)).copied()
}

/// Returns the place of a call, if it has one.
fn place_of(plan: &Plan, call: &Call) -> Option<Key>
    ensures { result ≡ place_in (get same_pair plan.now.puts) (get same_pair plan.now.takes)
        call.now.op call.now.reply call.now.first }
{
    match call.reply {
        Reply::Done => {
            match call.op {
                Op::Produce(item) => find(&plan.puts, item, call.first),
                _ => None,
            }
        }
        Reply::Number(item) => {
            match call.op {
                Op::Consume => find(&plan.takes, item, call.first),
                _ => None,
            }
        }
        Reply::Timeout => None,
    }
}

/// Returns the place of a call. One that has none is right after its invocation.
fn key_call<'c>(plan: &Plan, call: &'c Call) -> Keyed<'c>
    ensures { keyed_call result
        ≡ with_key (get same_pair plan.now.puts) (get same_pair plan.now.takes) call.now }
{
    let key = match place_of(plan, call) {
        Some(key) => key,
        None => Key {
            point: call.first,
            rank: 0,
            takes: false,
        },
    };
    Keyed { key, call }
}

/// Adds calls with their places.
fn add_keyed<'c>(
    list: &mut Vec<Keyed<'c>>,
    plan: &Plan,
    calls: &'c [Call],
) -> Result<(), AllocError>
    ensures { IfOk result (λ _. map keyed_call list.new.items ≡ map keyed_call list.old.items
        ++ map (with_key (get same_pair plan.now.puts) (get same_pair plan.now.takes)) calls.now) }
{
    for call in calls {
        list.push(key_call(plan, call))?;
    }
    Ok(())
}

/// Lists calls without their places.
fn without_keys(alloc: Global, list: &[Keyed<'_>]) -> Result<Vec<Call>, AllocError>
    ensures { IfOk result (λ calls. calls.items ≡ calls_in list.now) }
{
    list.iter().map(|keyed| *keyed.call).collect(alloc)
}

/// Lists the completed calls, and others that are answered, in the order of their places.
fn sorted(
    alloc: Global,
    plan: &Plan,
    done: &[Call],
    answered: &[Call],
) -> Result<Vec<Call>, AllocError>
    ensures moved { IfOk result (λ list. IsPermutation (done.now ++ answered.now) list.items) }
    ensures ordered { IfOk result (λ list. EachPair (Before (key_of (get same_pair plan.now.puts)
        (get same_pair plan.now.takes))) list.items) }
{
    let mut list = Vec::new(alloc);
    add_keyed(&mut list, plan, done)?;
    add_keyed(&mut list, plan, answered)?;
    list.sort_by_key(|keyed| (keyed.key.point, keyed.key.rank, keyed.key.takes))?;
    without_keys(alloc, &list)
}

/// Returns the reply at an index.
fn answer_at(answers: &[Option<Reply>], i: usize) -> Option<Reply>
    ensures { result ≡ slice_index_or answers.now i None }
{
    if i < answers.len() { answers[i] } else { None }
}

/// Lists the pending calls that take effect, with their replies as if they came at `end`.
pub(crate) fn answered(
    alloc: Global,
    pending: &[PendingCall],
    answers: &[Option<Reply>],
    end: usize,
) -> Result<Vec<Call>, AllocError>
    ensures { IfOk result (λ list. list.items ≡ answered_from end answers.now 0 pending.now) }
{
    let mut list = Vec::new(alloc);
    for i in 0..pending.len() {
        if let Some(reply) = answer_at(answers, i) {
            list.push(pending[i].complete(reply, end))?;
        }
    }
    Ok(list)
}

/// Returns calls in little memory. That of those which were listed is given back meanwhile.
fn listed(alloc: Global, mut calls: Vec<Call>) -> Result<CallList, AllocError>
    ensures { IfOk result (λ order. order ≡ calls.items) }
{
    calls.reverse();
    let mut order = CallList::new(alloc);
    while let Some(call) = calls.pop() {
        order.push(call)?;
        if calls.len() % BLOCK == 0 {
            calls.shrink_to_fit();
        }
    }
    Ok(order)
}

/// Returns the order of a plan, if it is one of a buffer. The pending calls that have a reply in a
/// list take effect.
pub(crate) fn follow(
    alloc: Global,
    room: usize,
    calls: &Recorded,
    plan: &Plan,
    answers: &[Option<Reply>],
    end: usize,
) -> Result<Option<CallList>, AllocError>
    ensures sound { IfOk result (λ order. IfSome order (IsFound room calls.now.done.items
        calls.now.pending.items end)) }
    ensures found { ((cs : List Call) → IsPermutation (calls.now.done.items ++ answered_from end
        answers.now 0 calls.now.pending.items) cs
        → EachPair (Before (key_of (get same_pair plan.now.puts) (get same_pair plan.now.takes))) cs
        → IsLegal room cs) → IfOk result (λ order. IsSome order) }
{
    let answered = answered(alloc, &calls.pending, answers, end)?;
    let order = listed(alloc, sorted(alloc, plan, &calls.done, &answered)?)?;
    if !verify(alloc, room, &order)? {
        return Ok(None);
    }
    Ok(Some(order))
}
