//! Gives ranks to items, in which they are put in and taken out.
ghost use Rattle.std.specs.Prelude.{◌≡◌, ◌<◌, IfOk};
ghost use Rattle.calls_buffers.specs.kept.Ranks.{find_window, windows_at, Ascend, AreFit};
ghost use Rattle.calls_buffers.specs.kept.Ranks.{IsRanking};

use crate::jobs::jobs_of;
use crate::windows::Window;
use calls_schedule::{Bound, Job, Outcome, schedule};
use std::alloc::{AllocError, Global};

/// Whether items have ranks.
#[derive(Drop)]
pub(crate) enum Ranking {
    /// Their windows in the order of the ranks.
    Ranked(Vec<Window>),
    /// Their jobs, and bounds that leave these no ranks.
    Refuted(Vec<Job>, Vec<Bound>),
}

/// Returns the window of an item, of some that ascend by their items.
fn window_at(windows: &[Window], item: usize) -> Option<Window>
    ensures { Ascend windows.now → result ≡ find_window windows.now item }
{
    let i = windows.partition_point(|window| window.item < item);
    if i < windows.len() && windows[i].item == item {
        Some(windows[i])
    } else {
        None
    }
}

/// Lists the windows of the items of jobs.
fn in_order(alloc: Global, windows: &[Window], jobs: &[Job]) -> Result<Vec<Window>, AllocError>
    ensures { IfOk result (λ list. Ascend windows.now
        → list.items ≡ windows_at windows.now jobs.now) }
{
    let mut list = Vec::new(alloc);
    for job in jobs {
        if let Some(window) = window_at(windows, job.item) {
            list.push(window)?;
        }
    }
    Ok(list)
}

/// Gives ranks to items, if they have some. Each is in before `end`.
pub(crate) fn ranked(
    alloc: Global,
    room: usize,
    windows: &[Window],
    end: usize,
) -> Result<Ranking, AllocError>
    ensures { IfOk result (λ r. end < usize.MAX → AreFit end windows.now
        → IsRanking room windows.now r) }
{
    let jobs = jobs_of(alloc, windows, end)?;
    match schedule(alloc, room, &jobs)? {
        Outcome::Scheduled(order) => {
            let list = in_order(alloc, windows, &order)?;
            Ok(Ranking::Ranked(list))
        }
        Outcome::Refuted(bounds) => Ok(Ranking::Refuted(jobs, bounds)),
    }
}
