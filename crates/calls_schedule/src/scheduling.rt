//! Decides whether jobs have a schedule.
ghost use Rattle.std.specs.Prelude.{◌≡◌, IfOk, map};
ghost use Rattle.std.specs.List.Sorted.{IsPermutation, IsNonDecreasingBy};
ghost use Rattle.calls_schedule.specs.declared.job.Job.{Job};
ghost use Rattle.calls_schedule.specs.declared.timed.Timed.{Timed};
ghost use Rattle.calls_schedule.specs.Outcomes.{IsOutcome};

use crate::job::{Bound, Job};
use crate::limits::first_limits;
use crate::lowering::lower_all;
use crate::missing::find_misses;
use crate::serving::serve;
use crate::timed::Timed;
use std::alloc::{AllocError, Global};

/// What is decided of jobs.
#[derive(Debug, Drop)]
pub enum Outcome {
    /// They have this schedule: the jobs in the order of their ranks.
    Scheduled(Vec<Job>),
    /// They have none: each of these bounds follows from those before it, and the last one is of
    /// more jobs than they can be.
    Refuted(Vec<Bound>),
}

/// Lists jobs by their earliest positions.
fn sorted_jobs(alloc: Global, jobs: &[Job]) -> Result<Vec<Job>, AllocError>
    ensures all { IfOk result (λ v. IsPermutation jobs.now v.items) }
    ensures sorted { IfOk result (λ v. IsNonDecreasingBy (λ (j : Job). j.early) v.items) }
{
    let mut sorted = Vec::from_slice(alloc, jobs)?;
    sorted.sort_by_key(|job| job.early)?;
    Ok(sorted)
}

/// Lists jobs without their limits.
fn jobs_of(alloc: Global, list: &[Timed]) -> Result<Vec<Job>, AllocError>
    ensures { IfOk result (λ v. v.items ≡ map (λ (t : Timed). t.job) list.now) }
{
    list.iter().map(|timed| timed.job).collect(alloc)
}

/// Decides whether jobs have a schedule. Jobs are given ranks, the one that is due first before
/// the others; those that are too late give bounds, which lower the limits; and this is repeated.
pub fn schedule(alloc: Global, room: usize, jobs: &[Job]) -> Result<Outcome, AllocError>
    ensures { IfOk result (IsOutcome room jobs.now) }
{
    let sorted = sorted_jobs(alloc, jobs)?;
    let mut list = first_limits(alloc, &sorted)?;
    let mut bounds = Vec::new(alloc);
    'rounds: loop {
        let given = serve(alloc, room, &list)?;
        let misses = find_misses(alloc, room, &given)?;
        if misses.bounds.is_empty() {
            return Ok(Outcome::Scheduled(jobs_of(alloc, &given)?));
        }
        bounds.extend_from_slice(&misses.bounds)?;
        if misses.refuted {
            return Ok(Outcome::Refuted(bounds));
        }
        lower_all(alloc, &mut list, &misses.bounds)?;
    }
}
