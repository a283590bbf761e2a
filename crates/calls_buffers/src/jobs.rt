//! The items of a history as jobs.
ghost use Rattle.std.specs.Prelude.{◌≡◌, ◌<◌, IfOk, map, List};
ghost use Rattle.calls_core.specs.Lists.{Each};
ghost use Rattle.calls_buffers.specs.declared.jobs.Reach.{Reach};
ghost use Rattle.calls_buffers.specs.kept.Jobs.{early_reach, late_reach, Climbs, IsTop, IsJobFrom};
ghost use Rattle.calls_buffers.specs.kept.Jobs.{AreJobsFrom};
ghost use Rattle.calls_buffers.specs.declared.windows.Window.{Window};
ghost use Rattle.calls_buffers.specs.kept.Windows.{in_by, IsWithin};

use crate::windows::Window;
use calls_schedule::Job;
use std::alloc::{AllocError, Global};

/// For what is after the first position, the second one.
#[derive(Clone, Copy)]
pub(crate) struct Reach {
    /// The first position.
    pub(crate) from: usize,
    /// The second one.
    pub(crate) to: usize,
}

/// Lists when items were in, each with the position from which it may have been taken out.
fn early_reaches(alloc: Global, windows: &[Window]) -> Result<Vec<Reach>, AllocError>
    ensures { IfOk result (λ list. list.items ≡ map early_reach windows.now) }
{
    let mut list = Vec::new(alloc);
    for window in windows {
        list.push(Reach {
            from: window.in_by(),
            to: window.out_from(),
        })?;
    }
    Ok(list)
}

/// Lists how long before `end` items were put in, each with how long before it was taken out.
fn late_reaches(alloc: Global, windows: &[Window], end: usize) -> Result<Vec<Reach>, AllocError>
    ensures { IfOk result (λ list. list.items ≡ map (late_reach end) windows.now) }
{
    let mut list = Vec::new(alloc);
    for window in windows {
        list.push(Reach {
            from: end.saturating_sub(window.put_first),
            to: end.saturating_sub(window.take_last),
        })?;
    }
    Ok(list)
}

/// Sorts these by their first positions, and replaces each second one by the greatest up to there.
fn climb(alloc: Global, mut list: Vec<Reach>) -> Result<Vec<Reach>, AllocError>
    ensures { IfOk result (λ tops. Climbs list.items tops.items) }
{
    list.sort_by_key(|reach| reach.from)?;
    let mut tops = Vec::new(alloc);
    let mut top = 0;
    for reach in &list {
        top = reach.to.max(top);
        tops.push(Reach {
            from: reach.from,
            to: top,
        })?;
    }
    Ok(tops)
}

/// Returns the greatest second position of those whose first one is before a position, or 0.
fn top_before(tops: &[Reach], position: usize) -> usize
    ensures { (list : List Reach) → Climbs list tops.now → IsTop list position result }
{
    let n = tops.partition_point(|reach| reach.from < position);
    match n.checked_sub(1) {
        Some(i) if i < tops.len() => tops[i].to,
        _ => 0,
    }
}

/// Returns the job of an item.
fn job_of(window: &Window, before: &[Reach], after: &[Reach], end: usize) -> Job
    ensures { (ws : List Window) → Climbs (map early_reach ws) before.now
        → Climbs (map (late_reach end) ws) after.now → end < usize.MAX
        → Each (IsWithin end) ws → IsWithin end window.now → in_by window.now < end
        → IsJobFrom ws window.now result }
{
    let early = top_before(before, window.put_first);
    let in_by = window.in_by();
    let left = top_before(after, end.saturating_sub(in_by));
    let late = end.saturating_sub(left.max(end.saturating_sub(window.take_last)));
    Job {
        item: window.item,
        early: window.out_from().max(early),
        by: in_by.saturating_add(1),
        late: late.saturating_add(1),
    }
}

/// Lists the jobs of items, in their order. An item is not taken out before one that was in before
/// its produce was invoked, and is in before the items that were produced after it was.
pub(crate) fn jobs_of(alloc: Global, windows: &[Window], end: usize) -> Result<Vec<Job>, AllocError>
    ensures { IfOk result (λ jobs. end < usize.MAX → Each (IsWithin end) windows.now
        → Each (λ (w : Window). in_by w < end) windows.now
        → AreJobsFrom windows.now windows.now jobs.items) }
{
    let before = climb(alloc, early_reaches(alloc, windows)?)?;
    let after = climb(alloc, late_reaches(alloc, windows, end)?)?;
    let mut jobs = Vec::new(alloc);
    for window in windows {
        jobs.push(job_of(window, &before, &after, end))?;
    }
    Ok(jobs)
}
