//! Whether an order of calls is one of a buffer.
ghost use Rattle.std.specs.Prelude.{◌≡◌, ◌↔◌, [], IfOk, IsTrue};
ghost use Rattle.calls_core.specs.Lists.{EachPair};
ghost use Rattle.calls_core.specs.Linearizations.{KeepsOrder};
ghost use Rattle.calls_core.specs.declared.history.Op.TheVariants.{Produce, Consume};
ghost use Rattle.calls_buffers.specs.Queues.{Allows, items_after, IsQueueRun, IsLegal};

use calls_core::{Call, CallList, Op, Reply};
use std::alloc::{AllocError, Global};
use std::collections::VecDeque;

/// Returns whether no call comes after one that was invoked after its response.
fn keeps_order(calls: &CallList) -> bool
    ensures { IsTrue result ↔ EachPair KeepsOrder calls.now }
{
    let mut latest = 0;
    for i in 0..calls.len() {
        let call = calls.at(i);
        if call.last < latest {
            return false;
        }
        latest = latest.max(call.first);
    }
    true
}

/// Puts an item into a queue, and returns whether this was possible with this reply.
fn produce(
    room: usize,
    items: &mut VecDeque<usize>,
    value: usize,
    reply: Reply,
) -> Result<bool, AllocError>
    ensures allowed { IfOk result (λ b. IsTrue b ↔ Allows room items.old.items (Produce value)
        reply) }
    ensures after { IfOk result (λ b. IsTrue b → items.new.items ≡ items_after items.old.items
        (Produce value) reply) }
{
    match reply {
        Reply::Done => {
            if items.len() >= room {
                return Ok(false);
            }
            items.push_back(value)?;
            Ok(true)
        }
        Reply::Number(_) => Ok(false),
        Reply::Timeout => Ok(true),
    }
}

/// Takes an item out of a queue, and returns whether this was possible with this reply.
fn consume(room: usize, items: &mut VecDeque<usize>, reply: Reply) -> bool
    ensures allowed { IsTrue result ↔ Allows room items.old.items Consume reply }
    ensures after { IsTrue result → items.new.items ≡ items_after items.old.items Consume reply }
{
    match reply {
        Reply::Done => false,
        Reply::Number(value) => {
            match items.pop_front() {
                Some(item) => value == item,
                None => false,
            }
        }
        Reply::Timeout => true,
    }
}

/// Does a call, and returns whether this was possible with its reply.
fn step(room: usize, items: &mut VecDeque<usize>, call: &Call) -> Result<bool, AllocError>
    ensures allowed { IfOk result (λ b. IsTrue b ↔ Allows room items.old.items call.now.op
        call.now.reply) }
    ensures after { IfOk result (λ b. IsTrue b → items.new.items ≡ items_after items.old.items
        call.now.op call.now.reply) }
{
    match call.op {
        Op::Produce(value) => produce(room, items, value, call.reply),
        Op::Consume => Ok(consume(room, items, call.reply)),
        Op::Advance
        | Op::Read
        | Op::Await(_)
        | Op::Ticket
        | Op::P(_)
        | Op::V(_)
        | Op::PBoth(_, _)
        | Op::Put(_)
        | Op::Get => Ok(false),
    }
}

/// Returns whether calls, one after another, are possible and return what they return, if the queue
/// is empty at first.
fn is_run(alloc: Global, room: usize, calls: &CallList) -> Result<bool, AllocError>
    ensures { IfOk result (λ b. IsTrue b ↔ IsQueueRun room [] calls.now) }
{
    let mut items = VecDeque::new(alloc);
    for i in 0..calls.len() {
        if !step(room, &mut items, &calls.at(i))? {
            return Ok(false);
        }
    }
    Ok(true)
}

/// Returns whether these calls, in this order, keep the real-time order and are a sequential run of
/// a buffer with room for so many items.
pub fn verify(alloc: Global, room: usize, calls: &CallList) -> Result<bool, AllocError>
    ensures { IfOk result (λ b. IsTrue b ↔ IsLegal room calls.now) }
{
    if !keeps_order(calls) {
        return Ok(false);
    }
    is_run(alloc, room, calls)
}
