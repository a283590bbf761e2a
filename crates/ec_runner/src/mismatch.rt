//! The comparison of the workers' summaries with the run.
ghost use Rattle.std.specs.Prelude.{◌≡◌, ◌↔◌, ◌≤◌, length, IsTrue, MatchOption};
ghost use Rattle.ec_runner.specs.Fits.{AllFit, IsMismatch};

use crate::ending::{first_not_borne_out, nth_worker};
use crate::log_comparison::first_log_mismatch;
use crate::summary::Summary;
use ec_core::Run;
use ec_count::{Setup, WorkerId};

fn are_same(setup: &Setup, other: &Setup) -> bool
    ensures { IsTrue result ↔ (setup.now ≡ other.now) }
{
    setup == other
}

/// Returns a worker whose summary doesn't fit the run, or the first worker if the run is on other
/// declarations. Allocates nothing.
pub(crate) fn find_mismatch(setup: &Setup, run: &Run, summaries: &[Summary]) -> Option<WorkerId>
    requires few { length summaries.now ≤ 16 }
    requires each { length summaries.now ≡ setup.now.workers }
    ensures { MatchOption result (AllFit setup.now run.now summaries.now) (IsMismatch setup.now run.now summaries.now) }
{
    if !are_same(run.setup(), setup) {
        return Some(nth_worker(0));
    }
    match first_log_mismatch(run, summaries) {
        Some(worker) => Some(worker),
        None => first_not_borne_out(run, summaries),
    }
}
