//! Checks bounds on jobs.
ghost use Rattle.std.specs.Prelude.{IfOk, IsTrue, ◌↔◌, reverse};
ghost use Rattle.calls_schedule.specs.Schedules.{AreBounds, Refute};

use crate::job::{Bound, Job};
use crate::limits::{first_limits, is_bound, lower};
use std::alloc::{AllocError, Global};

/// Returns whether each of these bounds follows from those before it.
fn are_bounds(
    alloc: Global,
    room: usize,
    jobs: &[Job],
    bounds: &[Bound],
) -> Result<bool, AllocError>
    ensures { IfOk result (λ b. IsTrue b ↔ AreBounds room jobs.now (reverse bounds.now)) }
{
    let mut list = first_limits(alloc, jobs)?;
    for bound in bounds {
        if !is_bound(room, bound, &list) {
            return Ok(false);
        }
        lower(&mut list, bound);
    }
    Ok(true)
}

/// Returns whether bounds on jobs leave them no ranks: each of them follows from those before it,
/// and the last one is of more jobs than they can be.
pub fn refutes(
    alloc: Global,
    room: usize,
    jobs: &[Job],
    bounds: &[Bound],
) -> Result<bool, AllocError>
    ensures { IfOk result (λ b. IsTrue b ↔ Refute room jobs.now (reverse bounds.now)) }
{
    match bounds.last() {
        Some(last) if last.due < last.jobs => are_bounds(alloc, room, jobs, bounds),
        _ => Ok(false),
    }
}
