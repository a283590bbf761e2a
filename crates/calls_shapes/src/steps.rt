//! The numbers of an object along a linearization.
ghost use Rattle.std.specs.Prelude.{◌≡◌, ◌↔◌, ℕ, ◌+◌, IfOk, IsTrue};
ghost use Rattle.calls_core.specs.Linearizations.{after, start};
ghost use Rattle.calls_shapes.specs.Steps.{steps_of};

use calls_core::{Kind, Op, Order, Reply};
use std::alloc::{AllocError, Global};

/// A number of an object. A bank of semaphores has one for each. A buffer has how many items were
/// taken at index 1, and how many were put in at index 2. Any other object has one, at index 0.
#[derive(Clone, Copy, Debug, PartialEq, Eq)]
pub struct Track {
    /// The index of the object.
    pub object: usize,
    /// The index of the number.
    pub index: usize,
}

/// A number from the linearization point of a call on.
#[derive(Clone, Copy, Debug, PartialEq, Eq)]
pub struct Step {
    /// The linearization point of the call.
    pub point: usize,
    /// The number after the call.
    pub value: usize,
}

/// Returns the initial number of a track.
pub fn start_of(kinds: &[Kind], track: Track) -> usize
    ensures { result ≡ start kinds.now track.object track.index }
{
    match kinds.get(track.object) {
        Some(Kind::Eventcount(start)) => *start,
        Some(Kind::Semaphores(units)) => match units.get(track.index) {
            Some(units) => *units,
            None => 0,
        },
        Some(Kind::Buffer(room)) => { if track.index == 0 { *room } else { 0 } }
        _ => 0,
    }
}

/// Returns a number plus one; an error if that overflows.
fn succ(value: usize) -> Result<usize, AllocError>
    ensures { IfOk result (λ n. n ≡ value + 1) }
{
    match value.checked_add(1) {
        Some(n) => Ok(n),
        None => Err(AllocError),
    }
}

/// Returns whether the item that is produced after so many others has this index.
fn is_next_item(index: usize, produced: usize) -> bool
    ensures { IsTrue result ↔ (index ≡ 3 + produced) }
{
    index > 2 && index - 3 == produced
}

/// Returns the number at an index after an item was produced, if it was this before, and that at
/// index 2, of how many were produced, this.
#[tactic(auto, using(crate::proofs::StepLemmas::item_here, crate::proofs::StepLemmas::item_not))]
fn next_produced(
    value: usize,
    produced: usize,
    index: usize,
    item: usize,
) -> Result<usize, AllocError>
    ensures { IfOk result (λ n. (m : ℕ → ℕ) → m index ≡ value → m 2 ≡ produced
        → n ≡ after m (Op.Produce item) Reply.Done index) }
{
    if index == 2 {
        return succ(value);
    }
    if is_next_item(index, produced) {
        return Ok(item);
    }
    Ok(value)
}

/// Returns the number at an index after a call, if it was this before, and that at index 2 this.
fn next(
    value: usize,
    produced: usize,
    index: usize,
    op: Op,
    reply: Reply,
) -> Result<usize, AllocError>
    ensures { IfOk result (λ n. (m : ℕ → ℕ) → m index ≡ value → m 2 ≡ produced
        → n ≡ after m op reply index) }
{
    match (op, reply) {
        (Op::Advance | Op::Ticket, _) => { if index == 0 { succ(value) } else { Ok(value) } }
        (Op::V(i), _) => { if index == i { succ(value) } else { Ok(value) } }
        (Op::P(i), Reply::Done) => {
            if index == i {
                Ok(value.saturating_sub(1))
            } else {
                Ok(value)
            }
        }
        (Op::PBoth(i, j), Reply::Done) => {
            if index == i || index == j {
                Ok(value.saturating_sub(1))
            } else {
                Ok(value)
            }
        }
        (Op::Put(v), _) => { if index == 0 { Ok(v) } else { Ok(value) } }
        (Op::Produce(item), Reply::Done) => next_produced(value, produced, index, item),
        (Op::Consume, Reply::Number(_)) => { if index == 1 { succ(value) } else { Ok(value) } }
        (Op::P(_) | Op::PBoth(_, _), Reply::Number(_) | Reply::Timeout) => Ok(value),
        (Op::Produce(_), Reply::Number(_) | Reply::Timeout) => Ok(value),
        (Op::Consume, Reply::Done | Reply::Timeout) => Ok(value),
        (Op::Read | Op::Await(_) | Op::Get, _) => Ok(value),
    }
}

/// Returns what a number is after each call of its object, in this order of the calls.
pub fn steps_of(
    alloc: Global,
    kinds: &[Kind],
    order: &Order,
    track: Track,
) -> Result<Vec<Step>, AllocError>
    ensures { IfOk result (λ steps. steps.items
        ≡ steps_of track.object track.index (start kinds.now track.object) order.now) }
{
    let mut steps = Vec::new(alloc);
    let mut value = start_of(kinds, track);
    let mut produced = start_of(
        kinds,
        Track {
            object: track.object,
            index: 2,
        },
    );
    for i in 0..order.len() {
        let placed = order.at(i);
        let call = &placed.call;
        if call.object == track.object {
            value = next(value, produced, track.index, call.op, call.reply)?;
            produced = next(produced, produced, 2, call.op, call.reply)?;
            steps.push(Step {
                point: placed.point,
                value,
            })?;
        }
    }
    Ok(steps)
}
