//! How many jobs are done before the positions of jobs, at most.
ghost use Rattle.std.specs.Prelude.{◌≡◌, List, ◌∷◌, [], count_by, nat_lt, map, IfOk, IsTrue, ◌↔◌};
ghost use Rattle.std.specs.List.Sorted.{IsNonDecreasing, IsPermutation};
ghost use Rattle.calls_schedule.specs.declared.job.Job.{Job};
ghost use Rattle.calls_schedule.specs.declared.job.Bound.{Bound};
ghost use Rattle.calls_schedule.specs.Schedules.{IsBound};
ghost use Rattle.calls_schedule.specs.Limits.{lower_at, lowered_by, timed_of, is_counted};

use crate::job::{Bound, Job};
use crate::timed::Timed;
use std::alloc::{AllocError, Global};

/// Counts the positions before another one.
fn count_before(starts: &[usize], position: usize) -> usize
    requires { IsNonDecreasing starts.now }
    ensures { result ≡ count_by (λ start. nat_lt start position) starts.now }
{
    starts.partition_point(|start| *start < position)
}

/// Lists the earliest positions of jobs in ascending order.
fn sorted_starts(alloc: Global, jobs: &[Job]) -> Result<Vec<usize>, AllocError>
    ensures sorted { IfOk result (λ v. IsNonDecreasing v.items) }
    ensures all { IfOk result (λ v. IsPermutation (map (λ (j : Job). j.early) jobs.now) v.items) }
{
    let mut starts: Vec<usize> = jobs.iter().map(|job| job.early).collect(alloc)?;
    starts.sort()?;
    Ok(starts)
}

/// Returns a job with its first limits.
fn timed(starts: &[usize], job: &Job) -> Timed
    requires { IsNonDecreasing starts.now }
    ensures { (jobs : List Job) → IsPermutation (map (λ (j : Job). j.early) jobs) starts.now
        → result ≡ timed_of jobs [] job.now }
{
    Timed {
        job: *job,
        early: count_before(starts, job.early),
        by: count_before(starts, job.by),
        late: count_before(starts, job.late),
    }
}

/// Lists jobs with their first limits: as many as could be done before.
pub(crate) fn first_limits(alloc: Global, jobs: &[Job]) -> Result<Vec<Timed>, AllocError>
    ensures { IfOk result (λ v. v.items ≡ map (timed_of jobs.now []) jobs.now) }
{
    let starts = sorted_starts(alloc, jobs)?;
    let mut list = Vec::new(alloc);
    for job in jobs {
        list.push(timed(&starts, job))?;
    }
    Ok(list)
}

/// Returns the limit at a position that a bound leaves of another one.
fn lowered(bound: &Bound, position: usize, limit: usize) -> usize
    ensures { result ≡ lower_at bound.now position limit }
{
    if position <= bound.at {
        bound.due.saturating_sub(bound.jobs).min(limit)
    } else {
        limit
    }
}

/// Returns a job with the limits that a bound leaves.
fn lowered_timed(bound: &Bound, timed: &Timed) -> Timed
    ensures { result ≡ lowered_by bound.now timed.now }
{
    Timed {
        job: timed.job,
        early: lowered(bound, timed.job.early, timed.early),
        by: lowered(bound, timed.job.by, timed.by),
        late: lowered(bound, timed.job.late, timed.late),
    }
}

/// Lowers the limits by a bound.
pub(crate) fn lower(list: &mut [Timed], bound: &Bound)
    ensures { list.new ≡ map (lowered_by bound.now) list.old }
{
    for timed in list.iter_mut() {
        *timed = lowered_timed(bound, timed);
    }
}

/// Returns whether a bound counts a job.
fn is_counted_by(room: usize, bound: &Bound, timed: &Timed) -> bool
    ensures { result ≡ is_counted room bound.now timed.now }
{
    let due = bound.due;
    let among = timed.late <= due || (timed.by <= due && room <= due - timed.by);
    bound.at <= timed.job.early && among
}

/// Counts the jobs of a bound.
fn count_of(room: usize, bound: &Bound, list: &[Timed]) -> usize
    ensures { result ≡ count_by (is_counted room bound.now) list.now }
{
    list.iter()
        .filter(|timed| is_counted_by(room, bound, timed))
        .count()
}

/// Returns whether a bound follows from the limits.
pub(crate) fn is_bound(room: usize, bound: &Bound, list: &[Timed]) -> bool
    ensures { (jobs : List Job) (bs : List Bound) → list.now ≡ map (timed_of jobs bs) jobs
        → IsTrue result ↔ IsBound room jobs bs bound.now }
{
    0 < bound.jobs && bound.jobs <= count_of(room, bound, list)
}
