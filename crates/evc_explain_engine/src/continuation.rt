//! How a script ends if its workers go on in turn after its schedule.
ghost use Rattle.std.specs.Prelude.{◌≡◌, ℕ, ◌≤◌, ◌+◌, ◌<◌, List, IfOk, IfSome, OnOk, length};
ghost use Rattle.std.specs.List.{All, list_all};
ghost use Rattle.ec_runner.specs.Reported.{IsReport};
ghost use Rattle.ec_text.specs.Puts.{Puts};
ghost use Rattle.evc_explain_engine.specs.Continuation.{AreFinalEnds, Continues, IsContinuationText, final_ends_text, is_over};

use crate::explanation::whole;
use crate::worker_ends::{End, any_can_continue, ends_of, put_ends};
use ec_count::WorkerId;
use ec_heading::Heading;
use ec_machine::Outcome;
use ec_runner::{Report, SimFault, simulate};
use ec_script::Plan;
use ec_text::Output;
use std::alloc::{AllocError, Global};
use std::io::Write;

/// How many schedules are tried.
const TRIES: usize = 64;

/// A schedule that has more turns is not extended.
const TURNS_MAX: usize = 1_048_576;

/// The most rounds that are added at once.
const ROUNDS_MAX: usize = 65_536;

/// Adds a turn of each worker from `first` on whose program has not ended.
fn add_round(
    schedule: &mut Vec<WorkerId>,
    first: usize,
    outcomes: &[Outcome],
) -> Result<(), AllocError>
    requires { first + length outcomes.now ≤ 16 }
    ensures { OnOk result
        (Continues (first + length outcomes.now) schedule.old.items schedule.new.items) }
{
    let [outcome, rest @ ..] = outcomes else {
        return Ok(());
    };
    let Some(worker) = WorkerId::new(first) else {
        return Ok(());
    };
    if *outcome == Outcome::Running {
        schedule.push(worker)?;
    }
    add_round(schedule, first + 1, rest)
}

/// Adds `count` rounds, each with a turn of each worker whose program has not ended.
fn add_rounds(
    schedule: &mut Vec<WorkerId>,
    outcomes: &[Outcome],
    count: usize,
) -> Result<(), AllocError>
    requires { length outcomes.now ≤ 16 }
    ensures { OnOk result (Continues (length outcomes.now) schedule.old.items schedule.new.items) }
{
    for _ in 0..count {
        add_round(schedule, 0, outcomes)?;
    }
    Ok(())
}

/// Simulates the schedule of a script. If it has a turn of a worker that has ended, cuts it there,
/// but not within its first turns, and returns `None`.
fn play_or_cut(alloc: Global, plan: &mut Plan, first: usize) -> Result<Option<Report>, AllocError>
    requires programs { length plan.old.programs.items ≡ plan.old.heading.setup.workers }
    requires schedule { All (λ w. w < plan.old.heading.setup.workers) plan.old.schedule.items }
    ensures heading { plan.new.heading ≡ plan.old.heading }
    ensures programs { plan.new.programs ≡ plan.old.programs }
    ensures report { IfOk result (λ found. IfSome found (λ r. (plan.new.schedule ≡ plan.old.schedule)
        × IsReport plan.old.heading.setup plan.old.programs.items plan.old.schedule.items r)) }
    ensures continues { (own : List ℕ) → length own ≡ first
        → Continues plan.old.heading.setup.workers own plan.old.schedule.items
        → Continues plan.old.heading.setup.workers own plan.new.schedule.items }
{
    match simulate(alloc, plan) {
        Ok(report) => Ok(Some(report)),
        Err(SimFault::Ended { place, .. }) => {
            plan.schedule.truncate(place.max(first));
            Ok(None)
        }
        Err(SimFault::Memory) => Err(AllocError),
    }
}

/// Returns the final states of the workers if they go on in turn after the schedule of a script;
/// `None` if they are not found.
///
/// Longer and longer schedules are simulated. Each time twice as many rounds are added as before.
fn final_ends(alloc: Global, plan: &mut Plan) -> Result<Option<Vec<End>>, AllocError>
    requires programs { length plan.old.programs.items ≡ plan.old.heading.setup.workers }
    requires few { plan.old.heading.setup.workers ≤ 16 }
    requires schedule { All (λ w. w < plan.old.heading.setup.workers) plan.old.schedule.items }
    ensures heading { plan.new.heading ≡ plan.old.heading }
    ensures ends { IfOk result (λ found. IfSome found (λ ends. AreFinalEnds plan.old ends.items)) }
    ensures few { IfOk result (λ found. IfSome found (λ ends. length ends.items ≤ 16)) }
{
    let first = plan.schedule.len();
    let mut rounds = 1;
    for _ in 0..TRIES {
        if let Some(report) = play_or_cut(alloc, plan, first)? {
            let outcomes = report.outcomes.as_slice();
            let ends = ends_of(alloc, &report.run, plan.schedule.as_slice(), outcomes)?;
            if !any_can_continue(ends.as_slice()) {
                return Ok(Some(ends));
            }
            if plan.schedule.len() > TURNS_MAX {
                return Ok(None);
            }
            add_rounds(&mut plan.schedule, outcomes, rounds)?;
            rounds = ROUNDS_MAX.min(rounds * 2);
        }
    }
    Ok(None)
}

/// Returns whether all workers have finished.
fn are_over(ends: &[End]) -> bool
    ensures { result ≡ list_all is_over ends.now }
{
    ends.iter().all(|end| is_over(end))
}

/// Returns whether a worker has finished.
fn is_over(end: &End) -> bool
    ensures { result ≡ is_over end.now }
{
    matches!(end, End::Over)
}

/// Puts the final states of the workers.
#[tactic(auto, unfolding(crate::specs::Continuation::final_ends_text))]
fn put_final_ends<W: Write>(out: &mut Output<'_, W>, heading: &Heading, ends: &[End])
    requires { length ends.now ≤ 16 }
    ensures { Puts out.old out.new (final_ends_text heading.now.words ends.now) }
{
    if are_over(ends) {
        out.put(b"If the workers go on in turn, all finish.\n");
    } else {
        out.put(b"If the workers go on in turn:\n");
        put_ends(out, heading, ends);
    }
}

/// Returns the final states of the workers, in words.
fn final_ends_bytes(alloc: Global, heading: &Heading, ends: &[End]) -> Result<Vec<u8>, AllocError>
    requires { length ends.now ≤ 16 }
    ensures { IfOk result (λ bytes. bytes.items ≡ final_ends_text heading.now.words ends.now) }
{
    let mut bytes = Vec::new(alloc);
    let mut out = Output::new(&mut bytes);
    put_final_ends(&mut out, heading, ends);
    let done = out.finish();
    out.into_writer();
    whole(bytes, done)
}

/// Returns what is written on a script beyond its schedule: the final states of the workers.
///
/// It is empty if no worker can go on after the schedule, or if no final states are found.
pub(crate) fn continuation_bytes(alloc: Global, plan: &mut Plan) -> Result<Vec<u8>, AllocError>
    requires programs { length plan.old.programs.items ≡ plan.old.heading.setup.workers }
    requires few { plan.old.heading.setup.workers ≤ 16 }
    requires schedule { All (λ w. w < plan.old.heading.setup.workers) plan.old.schedule.items }
    ensures { IfOk result (λ bytes. IsContinuationText plan.old bytes.items) }
{
    let first = plan.schedule.len();
    let Some(ends) = final_ends(alloc, plan)? else {
        return Ok(Vec::new(alloc));
    };
    if plan.schedule.len() == first {
        return Ok(Vec::new(alloc));
    }
    final_ends_bytes(alloc, &plan.heading, ends.as_slice())
}
