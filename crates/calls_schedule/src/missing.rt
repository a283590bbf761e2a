//! Bounds that jobs show which are given ranks too late.
ghost use Rattle.std.specs.Prelude.{◌≡◌, ◌+◌, ◌<◌, ◌≤◌, ◌⊎◌, ◌∷◌, [], length, IfOk, slice_index_or};
ghost use Rattle.std.specs.Prelude.{IsTrue, MatchBool, reverse, false};
ghost use Rattle.calls_schedule.specs.Serving.{due_by, nothing, IsServed};
ghost use Rattle.calls_schedule.specs.Missing.{IsMissed, AreMissed, AreMisses, Lowers, IsAbove};
ghost use Rattle.calls_schedule.specs.Missing.{EndsRefuted, IsDecided};

use crate::job::Bound;
use crate::serving::deadline;
use crate::timed::Timed;
use std::alloc::{AllocError, Global};

/// What jobs show that are given ranks too late.
#[derive(Drop)]
pub(crate) struct Misses {
    /// Bounds.
    pub(crate) bounds: Vec<Bound>,
    /// Whether the last one is of more jobs than they can be.
    pub(crate) refuted: bool,
}

/// Returns the bound of a job that is given this rank too late, and of those just before it, from
/// a rank on, that are due no later.
fn missed_bound(room: usize, given: &[Timed], floor: usize, rank: usize) -> Bound
    requires within { rank < length given.now }
    requires floor { floor ≤ rank }
    requires late { due_by room (slice_index_or given.now rank nothing) ≤ rank }
    ensures missed { IsMissed room given.now result }
    ensures lowers { floor ≡ 0 → IsServed room 0 given.now
        → (result.due < result.jobs) ⊎ Lowers given.now (result ∷ []) }
{
    let due = deadline(room, &given[rank]);
    let mut start = rank;
    let mut at = given[rank].job.early;
    while floor < start && deadline(room, &given[start - 1]) <= due {
        start -= 1;
        at = at.min(given[start].job.early);
    }
    Bound {
        at,
        due,
        jobs: rank - start + 1,
    }
}

/// Returns whether a bound is of a later position than those before it, and was not cut off.
fn is_new(bounds: &[Bound], floor: usize, rank: usize, bound: &Bound) -> bool
    ensures above { IsTrue result → IsAbove bound.now (reverse bounds.now) }
    ensures some { result ≡ false → 0 < length bounds.now }
{
    match bounds.last() {
        None => true,
        Some(last) => last.at < bound.at && bound.jobs <= rank.saturating_sub(floor),
    }
}

/// Adds the bound of a job that is given this rank too late. Returns whether it refutes.
fn add_missed(
    room: usize,
    given: &[Timed],
    floor: usize,
    rank: usize,
    bounds: &mut Vec<Bound>,
) -> Result<bool, AllocError>
    requires within { rank < length given.now }
    requires floor { floor ≤ rank }
    requires late { due_by room (slice_index_or given.now rank nothing) ≤ rank }
    requires served { IsServed room 0 given.now }
    requires missed { AreMissed room given.now (reverse bounds.old.items) }
    requires decided { ((bounds.old.items ≡ []) × (floor ≡ 0))
        ⊎ Lowers given.now (reverse bounds.old.items) }
    ensures missed { IfOk result (λ _. AreMissed room given.now (reverse bounds.new.items)) }
    ensures decided { IfOk result (λ refuted. MatchBool refuted
        (EndsRefuted (reverse bounds.new.items)) (Lowers given.now (reverse bounds.new.items))) }
{
    let bound = missed_bound(room, given, floor, rank);
    if !is_new(bounds, floor, rank, &bound) {
        return Ok(false);
    }
    bounds.push(bound)?;
    Ok(bound.due < bound.jobs)
}

/// Lists bounds that jobs show which are given ranks too late, until one refutes.
pub(crate) fn find_misses(alloc: Global, room: usize, given: &[Timed]) -> Result<Misses, AllocError>
    requires { IsServed room 0 given.now }
    ensures { IfOk result (λ m. AreMisses room given.now m) }
{
    let mut bounds = Vec::new(alloc);
    let mut floor = 0;
    for rank in 0..given.len() {
        if deadline(room, &given[rank]) <= rank {
            if add_missed(room, given, floor, rank, &mut bounds)? {
                return Ok(Misses {
                    bounds,
                    refuted: true,
                });
            }
            floor = rank + 1;
        }
    }
    Ok(Misses {
        bounds,
        refuted: false,
    })
}
