//! Answers lines about the completed calls of a run, their order by points, and verdicts on orders.
use crate::fault::Fault;
use crate::kernel::ask::{Ask, act, reply, worker};
use crate::kernel::writing::{pending, put_entry, tell_entry};
use crate::line::tell;
use ec_core::{Entry, PendingCalls, Run, walk};
use ec_order::{Call, Linearizer, Placed, calls, order, order_between, verify};
use std::alloc::Global;

/// Returns a call as one entry.
fn entry_of(call: &Call) -> Entry {
    Entry {
        worker: call.worker,
        act: call.op,
        reply: call.reply,
    }
}

/// Returns whether a `Linearizer` of the entries of a run gives these calls.
fn is_timed(alloc: Global, run: &Run, placed: &[Placed]) -> Result<bool, Fault> {
    let mut timeline = Linearizer::open(alloc, run.setup())?;
    walk(run, &mut timeline);
    let mut dated = timeline.calls()?;
    for right in placed {
        match dated.next() {
            Some(found) if found.point == right.point && found.entry == entry_of(&right.call) => {}
            _ => return Err(Fault::Line),
        }
    }
    Ok(dated.next().is_none())
}

/// Returns whether of these calls those are given of the middle of the run that began before it, and
/// did not end before it.
fn has_middle(alloc: Global, run: &Run, placed: &[Placed]) -> Result<bool, Fault> {
    let middle = run.len() / 2;
    let found = order_between(alloc, run, middle, middle + 1)?;
    let mut left = found.iter();
    for right in placed {
        let is_there = right.call.first <= middle && middle <= right.call.last;
        if is_there && left.next() != Some(right) {
            return Ok(false);
        }
    }
    Ok(left.next().is_none())
}

/// Writes a call with its linearization point.
fn tell_placed(placed: &Placed, ask: &mut Ask<'_>) -> Result<(), Fault> {
    write!(ask.out, "{} ", placed.point)?;
    tell_entry(Some(entry_of(&placed.call)), ask)
}

/// Writes a call with the positions of its first step, of its last round, and of its last step.
fn tell_call(call: &Call, ask: &mut Ask<'_>) -> Result<(), Fault> {
    put_entry(&entry_of(call), ask)?;
    writeln!(ask.out, " at {} {} {}", call.first, call.round, call.last)
}

/// Returns the part of a list that a word asks for: one or all. If it asks for the size, writes
/// only that.
fn part_of<'a, T>(list: &'a [T], ask: &mut Ask<'_>) -> Result<&'a [T], Fault> {
    match ask.word() {
        "" => Ok(list),
        "size" => {
            tell(list.len(), ask.out)?;
            Ok(&[])
        }
        word => {
            let place: usize = word.parse().ok().ok_or(Fault::Line)?;
            list.get(place..)
                .and_then(|rest| rest.get(..1))
                .ok_or(Fault::Line)
        }
    }
}

/// Writes the order of a run, and compares what three ways to compute it give.
fn answer_the_order(alloc: Global, run: &Run, ask: &mut Ask<'_>) -> Result<(), Fault> {
    let placed = order(alloc, run)?;
    let placed = placed.as_slice();
    if !has_middle(alloc, run, placed)? || !is_timed(alloc, run, placed)? {
        tell("another order, of the middle or by the timeline", ask.out)?;
    }
    for one in part_of(placed, ask)? {
        tell_placed(one, ask)?;
    }
    Ok(())
}

/// Writes the completed calls of a run.
fn answer_calls(alloc: Global, run: &Run, ask: &mut Ask<'_>) -> Result<(), Fault> {
    let found = calls(alloc, run)?;
    for call in part_of(found.as_slice(), ask)? {
        tell_call(call, ask)?;
    }
    Ok(())
}

/// Writes the call that the entry at a position belongs to, up to that entry.
fn answer_so_far(run: &Run, ask: &mut Ask<'_>) -> Result<(), Fault> {
    let last = ask.size()?;
    let mut calls = PendingCalls::new();
    for (place, entry) in run.entries().enumerate() {
        let call = calls.take(run.setup(), place, &entry);
        if place == last {
            let call = call.ok_or(Fault::Line)?;
            put_entry(&pending(entry.worker, call.op), ask)?;
            writeln!(ask.out, " at {} {}", call.first, call.round)?;
            return Ok(());
        }
    }
    Err(Fault::Line)
}

/// Adds a call to those that `judge` verifies: `POINT FIRST ROUND LAST W ACT = REPLY`.
fn add(judged: &mut Vec<Placed>, ask: &mut Ask<'_>) -> Result<(), Fault> {
    let (point, first, round, last) = (ask.size()?, ask.size()?, ask.size()?, ask.size()?);
    let (worker, op) = (worker(ask)?, act(ask)?);
    if ask.word() != "=" {
        return Err(Fault::Line);
    }
    let call = Call {
        worker,
        op,
        reply: reply(ask)?,
        first,
        round,
        last,
    };
    judged.push(Placed { call, point })?;
    Ok(())
}

/// Writes the verdict on calls at their points.
fn judge(alloc: Global, run: &Run, placed: &[Placed], ask: &mut Ask<'_>) -> Result<(), Fault> {
    let verdict = verify(alloc, run, placed)?;
    writeln!(ask.out, "{verdict:?}")
}

/// Writes the verdict on the order that `order` gives of a run.
fn judge_own(alloc: Global, run: &Run, ask: &mut Ask<'_>) -> Result<(), Fault> {
    let placed = order(alloc, run)?;
    judge(alloc, run, placed.as_slice(), ask)
}

/// Answers a question about the calls of a run. `judge` removes the calls that were added.
pub fn answer_order(
    alloc: Global,
    run: &Run,
    judged: &mut Vec<Placed>,
    ask: &mut Ask<'_>,
) -> Result<(), Fault> {
    match ask.verb {
        "order" => answer_the_order(alloc, run, ask),
        "calls" => answer_calls(alloc, run, ask),
        "so-far" => answer_so_far(run, ask),
        "verify" => judge_own(alloc, run, ask),
        "judge" => {
            judge(alloc, run, judged.as_slice(), ask)?;
            judged.clear();
            Ok(())
        }
        _ => add(judged, ask),
    }
}
