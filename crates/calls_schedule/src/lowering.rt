//! Lowers limits by bounds.
ghost use Rattle.std.specs.Prelude.{◌≡◌, ◌≤◌, map, reverse, IfOk, List};
ghost use Rattle.calls_core.specs.Lists.{EachPair};
ghost use Rattle.calls_schedule.specs.declared.job.Bound.{Bound};
ghost use Rattle.calls_schedule.specs.Missing.{lowered_at, lowered_all};
ghost use Rattle.calls_schedule.specs.Caps.{caps_along, Descend};

use crate::job::Bound;
use crate::timed::Timed;
use std::alloc::{AllocError, Global};

/// What some bounds leave of the limits up to a position.
#[derive(Clone, Copy)]
struct Cap {
    /// The position.
    at: usize,
    /// The greatest limit.
    most: usize,
}

/// Lists the least limits that bounds leave, by descending positions.
fn caps_of(alloc: Global, bounds: &[Bound]) -> Result<Vec<Cap>, AllocError>
    ensures { IfOk result (λ v. v.items ≡ caps_along usize.MAX (reverse bounds.now)) }
{
    let mut caps = Vec::new(alloc);
    let mut most = usize::MAX;
    for k in 0..bounds.len() {
        let bound = bounds[bounds.len() - 1 - k];
        most = bound.due.saturating_sub(bound.jobs).min(most);
        caps.push(Cap { at: bound.at, most })?;
    }
    Ok(caps)
}

/// Returns the limit at a position that bounds leave of another one.
fn capped(caps: &[Cap], position: usize, limit: usize) -> usize
    requires { Descend caps.now }
    ensures { (bs : List Bound) → caps.now ≡ caps_along usize.MAX bs
        → result ≡ lowered_at bs position limit }
{
    let n = caps.partition_point(|cap| position <= cap.at);
    if n == 0 {
        limit
    } else {
        caps[n - 1].most.min(limit)
    }
}

/// Returns a job with the limits that bounds leave.
fn capped_timed(caps: &[Cap], timed: &Timed) -> Timed
    requires { Descend caps.now }
    ensures { (bs : List Bound) → caps.now ≡ caps_along usize.MAX bs
        → result ≡ lowered_all bs timed.now }
{
    Timed {
        job: timed.job,
        early: capped(caps, timed.job.early, timed.early),
        by: capped(caps, timed.job.by, timed.by),
        late: capped(caps, timed.job.late, timed.late),
    }
}

/// Lowers the limits of jobs.
fn cap_all(list: &mut [Timed], caps: &[Cap])
    requires { Descend caps.now }
    ensures { (bs : List Bound) → caps.now ≡ caps_along usize.MAX bs
        → list.new ≡ map (lowered_all bs) list.old }
{
    for timed in list.iter_mut() {
        *timed = capped_timed(caps, timed);
    }
}

/// Lowers the limits by bounds of positions that ascend.
pub(crate) fn lower_all(
    alloc: Global,
    list: &mut [Timed],
    bounds: &[Bound],
) -> Result<(), AllocError>
    requires { EachPair (λ (b c : Bound). c.at ≤ b.at) (reverse bounds.now) }
    ensures { IfOk result (λ _. list.new ≡ map (lowered_all (reverse bounds.now)) list.old) }
{
    let caps = caps_of(alloc, bounds)?;
    cap_all(list, &caps);
    Ok(())
}
