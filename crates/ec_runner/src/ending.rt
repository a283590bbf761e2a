//! The comparison of how workers ended with the run.
ghost use Rattle.std.specs.Prelude.{◌≡◌, ◌↔◌, ◌<◌, ◌≤◌, ℕ, length, Some, slice_get, IsTrue, MatchOption};
ghost use Rattle.ec_runner.specs.declared.summary.Summary.{Summary};
ghost use Rattle.ec_runner.specs.Fits.{IsAtEnd, IsBorneOut, IsUnborne, IsWithin, MayBeBorneOut, moment_of_summary};

use crate::refused::first_wrong;
use crate::summary::{LastRequest, Summary};
use crate::wait::waits_forever;
use ec_core::Run;
use ec_count::WorkerId;
use ec_machine::Outcome;

/// Returns whether there is a last request, made at a moment of the run.
fn is_within(run: &Run, asked: Option<LastRequest>) -> bool
    ensures { IsTrue result ↔ IsWithin asked run.now }
{
    matches!(asked, Some(asked) if asked.moment <= run.len())
}

/// Returns whether there is a last request, made at the end of the run.
fn is_at_end(run: &Run, asked: Option<LastRequest>) -> bool
    ensures { IsTrue result ↔ IsAtEnd asked run.now }
{
    matches!(asked, Some(asked) if asked.moment == run.len())
}

/// Returns whether the run bears out how a worker ended. Of a refusal only the moment is checked.
fn may_be_borne_out(run: &Run, worker: WorkerId, summary: &Summary) -> bool
    ensures { IsTrue result ↔ MayBeBorneOut summary.now.outcome run.now worker summary.now.asked }
{
    match summary.outcome {
        Outcome::Refused(_) => is_within(run, summary.asked),
        Outcome::Stopped => is_at_end(run, summary.asked) && waits_forever(run, worker),
        _ => true,
    }
}

/// Returns the moment of a worker's refusal, 0 if it was not refused.
fn moment_of_summary(summary: &Summary) -> usize
    ensures { result ≡ moment_of_summary summary.now.outcome summary.now.asked }
{
    match (summary.outcome, summary.asked) {
        (Outcome::Refused(_), Some(asked)) => asked.moment,
        _ => 0,
    }
}

/// Returns a moment after which no worker was refused.
fn last_moment(summaries: &[Summary]) -> usize
    ensures { (w : ℕ) (summary : Summary) → slice_get summaries.now w ≡ Some summary → moment_of_summary summary.outcome summary.asked ≤ result }
{
    let mut last = 0;
    for w in 0..summaries.len() {
        last = moment_of_summary(&summaries[w]).max(last);
    }
    last
}

/// Returns the worker with this number.
pub(crate) fn nth_worker(number: usize) -> WorkerId
    requires { number < 16 }
    ensures { result ≡ number }
{
    WorkerId::new(number).unwrap()
}

/// Returns the first worker whose end the run does not bear out. Of refusals only the moments are
/// checked.
fn first_implausible_end(run: &Run, summaries: &[Summary]) -> Option<WorkerId>
    requires { length summaries.now ≤ 16 }
    ensures { MatchOption result
        ((w : ℕ) (summary : Summary) → slice_get summaries.now w ≡ Some summary → MayBeBorneOut summary.outcome run.now w summary.asked)
        (IsUnborne run.now summaries.now) }
{
    for w in 0..summaries.len() {
        let worker = nth_worker(w);
        if !may_be_borne_out(run, worker, &summaries[w]) {
            return Some(worker);
        }
    }
    None
}

/// Returns a worker whose end the run does not bear out.
pub(crate) fn first_not_borne_out(run: &Run, summaries: &[Summary]) -> Option<WorkerId>
    requires { length summaries.now ≤ 16 }
    ensures { MatchOption result
        ((w : ℕ) (summary : Summary) → slice_get summaries.now w ≡ Some summary → IsBorneOut summary.outcome run.now w summary.asked)
        (IsUnborne run.now summaries.now) }
{
    match first_implausible_end(run, summaries) {
        Some(worker) => Some(worker),
        None => first_wrong(run, summaries, last_moment(summaries).min(run.len())),
    }
}
