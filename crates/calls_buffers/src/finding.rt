//! Searches for a fault.
ghost use Rattle.std.specs.Prelude.{IfOk, IfSome};
ghost use Rattle.calls_buffers.specs.Faults.{ShowsIn};

use crate::Fault;
use crate::accesses::Place;
use crate::recorded::Recorded;
use crate::tally::Tally;
use crate::testing::{crowded, overfull, overtaken, passed, squeezed, unproduced};
use crate::windows::Window;
use calls_core::Op;
use std::alloc::{AllocError, Global};
use std::cmp::Reverse;

/// Calls that may show a fault.
#[derive(Clone, Copy)]
enum Candidate {
    Unproduced(Place),
    Overfull(Place),
    Crowded(Place),
    Overtaken(Place, Place),
    Passed(Place, Place),
    Squeezed(Place, Place),
}

/// The response of a call, and another position.
#[derive(Clone, Copy)]
struct Moment {
    /// The position of the response.
    at: usize,
    /// The position from which an item may have been taken out.
    other: usize,
    /// The call.
    place: Place,
}

/// Returns how many of the positions, which ascend, are up to this one.
fn up_to(positions: &[usize], at: usize) -> usize {
    positions.partition_point(|position| *position <= at)
}

/// Returns how many of the moments, which ascend, are before a position.
fn before(moments: &[Moment], at: usize) -> usize {
    moments.partition_point(|moment| moment.at < at)
}

/// Lists the invocations of the pending consumes.
fn pending_takes(alloc: Global, calls: &Recorded) -> Result<Vec<usize>, AllocError> {
    let mut positions = Vec::new(alloc);
    for call in &calls.pending {
        if matches!(call.op, Op::Consume) {
            positions.push(call.first)?;
        }
    }
    positions.sort()?;
    Ok(positions)
}

/// Returns a consume that returned before its item was produced.
fn too_early(windows: &[Window]) -> Option<Candidate> {
    for window in windows {
        if window.take_last < window.put_first {
            return window.take.map(|take| Candidate::Unproduced(take));
        }
    }
    None
}

/// Lists the responses of the produces, each with the position from which its item may have been
/// taken out.
fn returned(alloc: Global, windows: &[Window], end: usize) -> Result<Vec<Moment>, AllocError> {
    let mut moments = Vec::new(alloc);
    for window in windows {
        if window.put_last < end {
            moments.push(Moment {
                at: window.put_last,
                other: window.out_from(),
                place: window.put,
            })?;
        }
    }
    moments.sort_by_key(|moment| moment.at)?;
    Ok(moments)
}

/// Lists the positions from which these items may have been taken out.
fn invoked(alloc: Global, moments: &[Moment]) -> Result<Vec<usize>, AllocError> {
    let mut positions = Vec::new(alloc);
    for moment in moments {
        positions.push(moment.other)?;
    }
    positions.sort()?;
    Ok(positions)
}

/// Lists the items that were inside when their produces returned.
fn inside(alloc: Global, moments: &[Moment]) -> Result<Vec<Moment>, AllocError> {
    let mut inside = Vec::new(alloc);
    for moment in moments {
        if moment.at < moment.other {
            inside.push(*moment)?;
        }
    }
    Ok(inside)
}

/// Returns the index of a moment with more items than there is room for.
fn too_many(room: usize, moments: &[Moment], taken: &[usize], pending: &[usize]) -> Option<Place> {
    for (i, moment) in moments.iter().enumerate() {
        let left = i.saturating_sub(up_to(taken, moment.at));
        if left >= room.saturating_add(up_to(pending, moment.at)) {
            return Some(moment.place);
        }
    }
    None
}

/// Lists the produces by their responses, each with the latest invocation of a consume up to it.
fn latest(alloc: Global, moments: &[Moment], end: usize) -> Result<Vec<Moment>, AllocError> {
    let mut list = Vec::new(alloc);
    let mut best: Option<Moment> = None;
    for moment in moments {
        if moment.other < end && best.is_none_or(|b| b.other <= moment.other) {
            best = Some(*moment);
        }
        if let Some(b) = best {
            list.push(Moment {
                at: moment.at,
                other: b.other,
                place: b.place,
            })?;
        }
    }
    Ok(list)
}

/// Returns a produce whose item was taken too late, and the consume that overtook it.
fn too_late(windows: &[Window], latest: &[Moment]) -> Option<Candidate> {
    for window in windows {
        let n = before(latest, window.put_first);
        if n > 0 && n <= latest.len() && latest[n - 1].other > window.take_last {
            let put = latest[n - 1].place;
            return window.take.map(|take| Candidate::Overtaken(put, take));
        }
    }
    None
}

/// Lists the produces of the items that nobody returned, by their responses.
fn kept(alloc: Global, moments: &[Moment], end: usize) -> Result<Vec<Moment>, AllocError> {
    let mut kept = Vec::new(alloc);
    for moment in moments {
        if moment.other == end {
            kept.push(*moment)?;
        }
    }
    Ok(kept)
}

/// Returns a produce whose item was not taken, and a consume that passed it.
fn passed_over(windows: &[Window], kept: &[Moment], pending: &[usize]) -> Option<Candidate> {
    for window in windows {
        let n = before(kept, window.put_first);
        if n > up_to(pending, window.take_last) && n <= kept.len() {
            let put = kept[n - 1].place;
            return window.take.map(|take| Candidate::Passed(put, take));
        }
    }
    None
}

/// Lists the indices of the moments by their other positions, the greatest first.
fn latest_first(alloc: Global, moments: &[Moment]) -> Result<Vec<(usize, usize)>, AllocError> {
    let mut list = Vec::new(alloc);
    for (i, moment) in moments.iter().enumerate() {
        list.push((moment.other, i))?;
    }
    list.sort_by_key(|pair| Reverse(pair.0))?;
    Ok(list)
}

/// Adds those from an index on whose position is after another. Returns the index of the next one.
fn add_after(tally: &mut Tally, list: &[(usize, usize)], from: usize, at: usize) -> usize {
    let mut next = from;
    while next < list.len() && list[next].0 > at {
        tally.add(list[next].1);
        next += 1;
    }
    next
}

/// Returns a call up to which the buffer was full, and a produce of one item more.
fn squeezed_in(
    alloc: Global,
    room: usize,
    moments: &[Moment],
    pending: &[usize],
) -> Result<Option<Candidate>, AllocError> {
    let list = latest_first(alloc, moments)?;
    let mut tally = Tally::new(alloc, moments.len())?;
    let mut next = 0;
    for moment in moments.iter().rev() {
        next = add_after(&mut tally, &list, next, moment.at);
        let n = before(moments, moment.at.min(moment.other));
        let inside = tally.below(n);
        if n > 0 && inside >= room.saturating_add(up_to(pending, moment.at)) {
            if let Some(last) = moments.get(n - 1) {
                return Ok(Some(Candidate::Squeezed(last.place, moment.place)));
            }
        }
    }
    Ok(None)
}

/// Tests the calls of a candidate.
fn test(
    alloc: Global,
    room: usize,
    calls: &Recorded,
    candidate: Candidate,
) -> Result<Option<Fault>, AllocError>
    ensures { IfOk result (λ f. IfSome f (ShowsIn room calls.now.done.items
        calls.now.pending.items)) }
{
    let n = calls.done.len();
    match candidate {
        Candidate::Unproduced(Place::Completed(i)) if i < n => Ok(unproduced(room, calls, i)),
        Candidate::Overfull(Place::Completed(i)) if i < n => Ok(overfull(room, calls, i)),
        Candidate::Crowded(Place::Completed(i)) if i < n => crowded(alloc, room, calls, i),
        Candidate::Overtaken(Place::Completed(i), Place::Completed(j)) if i < n && j < n => Ok(
            overtaken(room, calls, i, j),
        ),
        Candidate::Passed(Place::Completed(i), Place::Completed(j)) if i < n && j < n => passed(
            alloc, room, calls, i, j,
        ),
        Candidate::Squeezed(Place::Completed(i), Place::Completed(j)) if i < n && j < n => squeezed(
            alloc, room, calls, i, j,
        ),
        _ => Ok(None),
    }
}

/// Lists calls that may show a fault.
fn candidates(
    alloc: Global,
    room: usize,
    calls: &Recorded,
    windows: &[Window],
    end: usize,
) -> Result<Vec<Option<Candidate>>, AllocError> {
    let pending = pending_takes(alloc, calls)?;
    let moments = returned(alloc, windows, end)?;
    let taken = invoked(alloc, &moments)?;
    let inside = inside(alloc, &moments)?;
    let taken_inside = invoked(alloc, &inside)?;
    let latest = latest(alloc, &moments, end)?;
    let kept = kept(alloc, &moments, end)?;
    let mut list = Vec::new(alloc);
    list.push(too_early(windows))?;
    let full = too_many(room, &moments, &taken, &pending);
    list.push(full.map(|place| Candidate::Overfull(place)))?;
    let crowd = too_many(room, &inside, &taken_inside, &pending);
    list.push(crowd.map(|place| Candidate::Crowded(place)))?;
    list.push(too_late(windows, &latest))?;
    list.push(passed_over(windows, &kept, &pending))?;
    list.push(squeezed_in(alloc, room, &moments, &pending)?)?;
    Ok(list)
}

/// Returns a fault that the calls show, if it finds one.
pub(crate) fn find_fault(
    alloc: Global,
    room: usize,
    calls: &Recorded,
    windows: &[Window],
    end: usize,
) -> Result<Option<Fault>, AllocError>
    ensures { IfOk result (λ f. IfSome f (ShowsIn room calls.now.done.items
        calls.now.pending.items)) }
{
    let list = candidates(alloc, room, calls, windows, end)?;
    for candidate in &list {
        if let Some(candidate) = *candidate {
            let fault = test(alloc, room, calls, candidate)?;
            if fault.is_some() {
                return Ok(fault);
            }
        }
    }
    Ok(None)
}
