//! Gives ranks to jobs, the one that is due first before the others.
ghost use Rattle.std.specs.Prelude.{◌≡◌, ◌+◌, ◌<◌, ◌≤◌, ◌++◌, length, IfOk, slice_index_or};
ghost use Rattle.std.specs.List.Sorted.{IsPermutation};
ghost use Rattle.calls_schedule.specs.Serving.{due_by, nothing, AreReleased, Serves, IsServed};

use crate::timed::Timed;
use std::alloc::{AllocError, Global};
use std::cmp::Reverse;
use std::collections::BinaryHeap;

/// Jobs that are given ranks.
#[derive(Drop)]
struct Queue {
    /// Those that may have the next rank: when they are due, by when they have begun, and their
    /// indices.
    waiting: BinaryHeap<Reverse<(usize, usize, usize)>>,
    /// The index of the first one that may not yet.
    next: usize,
    /// Those that have ranks, in their order.
    given: Vec<Timed>,
}

/// Returns the rank before which a job has to be given one.
pub(crate) fn deadline(room: usize, timed: &Timed) -> usize
    ensures { result ≡ due_by room timed.now }
{
    timed.late.min(timed.by.saturating_add(room))
}

/// Adds the next job to the queue.
fn enter(room: usize, list: &[Timed], queue: &mut Queue) -> Result<(), AllocError>
    requires serving { Serves room list.now queue.old }
    requires within { queue.old.next < length list.now }
    requires early { (slice_index_or list.now queue.old.next nothing).early
        ≤ length queue.old.given.items }
    ensures serving { IfOk result (λ _. Serves room list.now queue.new) }
    ensures given { IfOk result (λ _. queue.new.given.items ≡ queue.old.given.items) }
    ensures next { IfOk result (λ _. queue.new.next ≡ queue.old.next + 1) }
{
    let timed = list[queue.next];
    let due = deadline(room, &timed);
    queue
        .waiting
        .push(Reverse((due, timed.job.by, queue.next)))?;
    queue.next += 1;
    Ok(())
}

/// Adds the jobs to the queue whose least rank is reached.
fn admit(room: usize, list: &[Timed], queue: &mut Queue) -> Result<(), AllocError>
    requires { Serves room list.now queue.old }
    ensures serving { IfOk result (λ _. Serves room list.now queue.new) }
    ensures given { IfOk result (λ _. queue.new.given.items ≡ queue.old.given.items) }
    ensures reached { IfOk result (λ _. queue.new.next < length list.now
        → length queue.new.given.items < (slice_index_or list.now queue.new.next nothing).early) }
{
    let rank = queue.given.len();
    while queue.next < list.len() && list[queue.next].early <= rank {
        enter(room, list, queue)?;
    }
    Ok(())
}

/// Gives the next rank to the job that is due first, of those whose least rank is reached.
fn serve_first(room: usize, list: &[Timed], queue: &mut Queue) -> Result<(), AllocError>
    requires serving { Serves room list.now queue.old }
    requires some { length queue.old.given.items < length list.now }
    requires released { AreReleased list.now }
    ensures serving { IfOk result (λ _. Serves room list.now queue.new) }
    ensures given { IfOk result (λ _. length queue.new.given.items
        ≡ length queue.old.given.items + 1) }
{
    admit(room, list, queue)?;
    let Reverse((_, _, index)) = queue.waiting.pop().unwrap();
    queue.given.push(list[index])?;
    Ok(())
}

/// Gives ranks to jobs, the one that is due first before the others.
pub(crate) fn serve(alloc: Global, room: usize, list: &[Timed]) -> Result<Vec<Timed>, AllocError>
    requires { AreReleased list.now }
    ensures all { IfOk result (λ v. IsPermutation list.now v.items) }
    ensures served { IfOk result (λ v. IsServed room 0 v.items) }
{
    let mut queue = Queue {
        waiting: BinaryHeap::new(alloc),
        next: 0,
        given: Vec::new(alloc),
    };
    while queue.given.len() < list.len() {
        serve_first(room, list, &mut queue)?;
    }
    Ok(queue.given)
}
