//! The comparison of the run with the logs of the workers.
ghost use Rattle.std.specs.Prelude.{◌≡◌, ◌≢◌, ◌<◌, ◌≤◌, ◌↔◌, ℕ, false, List, [], ◌∷◌, ◌++◌, length, slice_get, slice_index, Some, IsTrue, MatchOption};
ghost use Rattle.ec_core.specs.declared.act.Entry.{Entry};
ghost use Rattle.ec_runner.specs.declared.summary.Summary.{Summary};
ghost use Rattle.ec_runner.specs.kept.LogComparison.{AreComparedSoFar, AreLogsOf, IsUnfinished, IsLogMismatch};

use crate::ending::nth_worker;
use crate::summary::Summary;
use ec_core::{Entry, Run, accepted_means_answered};
use ec_count::WorkerId;

fn is_same(entry: &Entry, other: &Entry) -> bool
    ensures { IsTrue result ↔ (entry.now ≡ other.now) }
{
    entry == other
}

/// Returns whether the entry is in the log at this place.
fn is_entry_at(log: &[Entry], at: usize, entry: &Entry) -> bool
    ensures value { IsTrue result ↔ (slice_get log.now at ≡ Some entry.now) }
    ensures within { IsTrue result → at < length log.now }
{
    match log.get(at) {
        Some(found) => is_same(found, entry),
        None => false,
    }
}

/// Advances the cursor of the entry's worker, if the entry is the next one of its log. Returns
/// whether it is.
fn advances_cursor(cursors: &mut [usize; 16], summaries: &[Summary], entry: &Entry) -> bool
    requires { entry.now.worker < length summaries.now }
    ensures yes { (done : List Entry) → AreComparedSoFar summaries.now cursors.old done → IsTrue result → AreComparedSoFar summaries.now cursors.new (done ++ entry.now ∷ []) }
    ensures no { (done rest : List Entry) → AreComparedSoFar summaries.now cursors.old done
        → result ≡ false
        → IsLogMismatch summaries.now (done ++ entry.now ∷ rest) entry.now.worker }
{
    let w = entry.worker.get();
    let at = cursors[w];
    let summary = &summaries[w];
    if !is_entry_at(summary.log.as_slice(), at, entry) {
        return false;
    }
    cursors[w] = at + 1;
    true
}

/// Returns the first worker whose cursor is not at the end of its log.
fn first_unfinished(cursors: &[usize; 16], summaries: &[Summary]) -> Option<WorkerId>
    requires { length summaries.now ≤ 16 }
    ensures { MatchOption result
        ((w : ℕ) (summary : Summary) → slice_get summaries.now w ≡ Some summary → slice_index cursors.now w ≡ length summary.log.items)
        (IsUnfinished summaries.now cursors.now) }
{
    for w in 0..summaries.len() {
        if cursors[w] != summaries[w].log.as_slice().len() {
            return Some(nth_worker(w));
        }
    }
    None
}

/// Returns a worker whose entries in the run are not its log. It is found in one pass over the run,
/// with a cursor for each worker.
pub(crate) fn first_log_mismatch(run: &Run, summaries: &[Summary]) -> Option<WorkerId>
    requires few { length summaries.now ≤ 16 }
    requires each { length summaries.now ≡ run.now.setup.workers }
    ensures { MatchOption result (AreLogsOf summaries.now run.now.entries) (IsLogMismatch summaries.now run.now.entries) }
{
    run.invariant();
    accepted_means_answered();
    let mut cursors = [0; 16];
    for entry in run.entries() {
        if !advances_cursor(&mut cursors, summaries, &entry) {
            return Some(entry.worker);
        }
    }
    first_unfinished(&cursors, summaries)
}
