//! The comparison of the workers' refusals with the run.
ghost use Rattle.std.specs.Prelude.{◌≡◌, ◌≢◌, ℕ, ◌≤◌, ◌<◌, ◌↔◌, ◌==◌, ◌+◌, ◌∷◌, ◌++◌, false, [], List, length, reverse, take, slice_get, Some, Ok, Err, IsTrue, MatchOption};
ghost use Rattle.ec_core.specs.Standing.{StandsFor};
ghost use Rattle.ec_machine.specs.Steps.{own};
ghost use Rattle.ec_runner.specs.declared.summary.Summary.{Summary};
ghost use Rattle.ec_runner.specs.Fits.{IsDoneBy, IsRefusedSo, IsRightAt, IsUnborne};

use crate::ending::nth_worker;
use crate::summary::{LastRequest, Summary};
use ec_core::{Refusal, Run, World, accepted_means_answered};
use ec_count::WorkerId;
use ec_machine::Outcome;

fn is_same_refusal(refusal: Refusal, other: Refusal) -> bool
    ensures { IsTrue result ↔ (refusal ≡ other) }
{
    refusal == other
}

/// Makes the step of the entry at a place of a run.
fn go_on(world: &mut World, run: &Run, place: usize)
    requires { place < length run.now.entries }
    ensures represents { StandsFor world.old (take place run.now.entries) → world.old.setup ≡ run.now.setup → StandsFor world.new (take (place + 1) run.now.entries) }
    ensures setup { world.new.setup ≡ world.old.setup }
{
    run.invariant();
    accepted_means_answered();
    let Some(entry) = run.entry(place) else {
        return;
    };
    let _ = world.step(entry.worker, entry.act);
}

/// Returns whether the entry at a place is another worker's.
fn is_of_another(run: &Run, place: usize, worker: WorkerId) -> bool
    requires { place < length run.now.entries }
    ensures same { IsTrue result → own worker (take (place + 1) run.now.entries) ≡ own worker (take place run.now.entries) }
    ensures more { result ≡ false → own worker (take place run.now.entries) ≢ own worker run.now.entries }
{
    let Some(entry) = run.entry(place) else {
        return false;
    };
    !entry.is_of(worker)
}

/// Returns whether a worker had made all its steps by a moment.
fn is_done_by(run: &Run, moment: usize, worker: WorkerId) -> bool
    ensures { IsTrue result ↔ IsDoneBy run.now moment worker }
{
    if moment > run.len() {
        return false;
    }
    for place in moment..run.len() {
        if !is_of_another(run, place, worker) {
            return false;
        }
    }
    true
}

/// Returns whether what a worker asked for was refused with this refusal at its moment, to which
/// the world has come. All the worker's steps must have been made by then.
fn is_refused_so(
    run: &Run,
    world: &World,
    worker: WorkerId,
    refusal: Refusal,
    asked: &LastRequest,
) -> bool
    requires represents { StandsFor world.now (take asked.now.moment run.now.entries) }
    requires setup { world.now.setup ≡ run.now.setup }
    ensures { IsTrue result ↔ IsRefusedSo run.now worker refusal asked.now }
{
    if !is_done_by(run, asked.moment, worker) {
        return false;
    }
    match world.answer(worker, &asked.act) {
        Ok(_) => false,
        Err(found) => is_same_refusal(found, refusal),
    }
}

/// Returns whether a worker's refusal is right, if it was at the moment to which the world has
/// come; `true` if it was at another, or the worker was not refused.
fn is_right_at(run: &Run, world: &World, moment: usize, worker: WorkerId, summary: &Summary) -> bool
    requires represents { StandsFor world.now (take moment run.now.entries) }
    requires setup { world.now.setup ≡ run.now.setup }
    ensures { IsTrue result ↔ IsRightAt summary.now.outcome summary.now.asked run.now moment worker }
{
    match (summary.outcome, summary.asked) {
        (Outcome::Refused(refusal), Some(asked)) if asked.moment == moment => {
            is_refused_so(run, world, worker, refusal, &asked)
        }
        _ => true,
    }
}

/// Returns the first worker whose refusal at this moment, to which the world has come, is not
/// right.
fn first_wrong_at(
    run: &Run,
    world: &World,
    moment: usize,
    summaries: &[Summary],
) -> Option<WorkerId>
    requires few { length summaries.now ≤ 16 }
    requires represents { StandsFor world.now (take moment run.now.entries) }
    requires setup { world.now.setup ≡ run.now.setup }
    ensures { MatchOption result
        ((w : ℕ) (summary : Summary) → slice_get summaries.now w ≡ Some summary → IsRightAt summary.outcome summary.asked run.now moment w)
        (IsUnborne run.now summaries.now) }
{
    for w in 0..summaries.len() {
        let worker = nth_worker(w);
        if !is_right_at(run, world, moment, worker, &summaries[w]) {
            return Some(worker);
        }
    }
    None
}

/// Returns a worker whose refusal at a moment up to this one is not right. It is found in one pass
/// over the run, with a world that makes its steps.
pub(crate) fn first_wrong(run: &Run, summaries: &[Summary], last: usize) -> Option<WorkerId>
    requires few { length summaries.now ≤ 16 }
    requires within { last ≤ length run.now.entries }
    ensures { MatchOption result
        ((k w : ℕ) (summary : Summary) → k ≤ last → slice_get summaries.now w ≡ Some summary → IsRightAt summary.outcome summary.asked run.now k w)
        (IsUnborne run.now summaries.now) }
{
    let mut world = World::open(run.setup().copy());
    for k in 0..last {
        match first_wrong_at(run, &world, k, summaries) {
            Some(worker) => return Some(worker),
            None => go_on(&mut world, run, k),
        }
    }
    first_wrong_at(run, &world, last, summaries)
}
