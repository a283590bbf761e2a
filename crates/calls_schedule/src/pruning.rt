//! Leaves out the bounds that are not needed.
ghost use Rattle.std.specs.Prelude.{IfOk, IfSome, reverse};
ghost use Rattle.calls_schedule.specs.Schedules.{Refute};

use crate::checking::refutes;
use crate::job::{Bound, Job};
use crate::limits::first_limits;
use crate::timed::Timed;
use std::alloc::{AllocError, Global};

/// A bound by which at most so many jobs are done before a position.
#[derive(Clone, Copy)]
struct Cap {
    /// The position.
    at: usize,
    /// The number of jobs.
    most: usize,
    /// The index of the bound.
    index: usize,
}

/// Returns the one that allows fewer jobs.
fn lesser(one: Cap, other: Cap) -> Cap {
    if other.most < one.most { other } else { one }
}

/// Lists bounds by their positions, in place of each the least one at its position or a later one.
fn caps_of(alloc: Global, bounds: &[Bound]) -> Result<Vec<Cap>, AllocError> {
    let mut caps = Vec::new(alloc);
    for (index, bound) in bounds.iter().enumerate() {
        caps.push(Cap {
            at: bound.at,
            most: bound.due.saturating_sub(bound.jobs),
            index,
        })?;
    }
    caps.sort_by_key(|cap| cap.at)?;
    let mut least: Option<Cap> = None;
    for cap in caps.iter_mut().rev() {
        let best = match least {
            Some(other) => lesser(other, *cap),
            None => *cap,
        };
        least = Some(best);
        *cap = Cap { at: cap.at, ..best };
    }
    Ok(caps)
}

/// Returns the index of a bound by which at most so many jobs are done before a position.
fn cap_for(caps: &[Cap], position: usize, most: usize) -> Option<usize> {
    let i = caps.partition_point(|cap| cap.at < position);
    caps.get(i)
        .filter(|cap| cap.most <= most)
        .map(|cap| cap.index)
}

/// Returns the index of a bound that a bound needs to count this job, if it counts it and needs
/// one.
fn cause(room: usize, caps: &[Cap], bound: &Bound, timed: &Timed) -> Option<usize> {
    let due = bound.due;
    let begun = due.checked_sub(room);
    let is_first = timed.late <= due || begun.is_some_and(|n| timed.by <= n);
    if timed.job.early < bound.at || is_first {
        return None;
    }
    match cap_for(caps, timed.job.late, due) {
        Some(index) => Some(index),
        None => cap_for(caps, timed.job.by, begun?),
    }
}

/// Marks the bounds that this one needs.
fn mark_causes(room: usize, caps: &[Cap], bound: &Bound, list: &[Timed], marks: &mut [bool]) {
    for timed in list {
        if let Some(index) = cause(room, caps, bound, timed) {
            if index < marks.len() {
                marks[index] = true;
            }
        }
    }
}

/// Returns for each bound whether the last one needs it.
fn marks_of(
    alloc: Global,
    room: usize,
    jobs: &[Job],
    bounds: &[Bound],
) -> Result<Vec<bool>, AllocError> {
    let list = first_limits(alloc, jobs)?;
    let mut marks = vec![in alloc; false; bounds.len()]?;
    if let Some(last) = marks.last_mut() {
        *last = true;
    }
    for i in (0..bounds.len()).rev() {
        if marks.get(i) == Some(&true) {
            let caps = caps_of(alloc, &bounds[..i])?;
            mark_causes(room, &caps, &bounds[i], &list, &mut marks);
        }
    }
    Ok(marks)
}

/// Lists the marked bounds, with positions up to `end`.
fn marked(
    alloc: Global,
    bounds: &[Bound],
    marks: &[bool],
    end: usize,
) -> Result<Vec<Bound>, AllocError> {
    let mut kept = Vec::new(alloc);
    for (bound, mark) in bounds.iter().zip(marks.iter()) {
        if *mark {
            kept.push(Bound {
                at: bound.at.min(end),
                ..*bound
            })?;
        }
    }
    Ok(kept)
}

/// Returns those of the bounds that the last one needs, with positions up to `end`, if they leave
/// the jobs no ranks.
pub fn prune(
    alloc: Global,
    room: usize,
    jobs: &[Job],
    bounds: &[Bound],
    end: usize,
) -> Result<Option<Vec<Bound>>, AllocError>
    ensures { IfOk result (λ kept. IfSome kept (λ v. Refute room jobs.now (reverse v.items))) }
{
    let marks = marks_of(alloc, room, jobs, bounds)?;
    let kept = marked(alloc, bounds, &marks, end)?;
    if refutes(alloc, room, jobs, &kept)? {
        return Ok(Some(kept));
    }
    Ok(None)
}
