//! What the definitions mean: each function states a theorem and does nothing.
ghost use Rattle.ec_runner.specs.RunReports.{OutcomesAreTheirs, ReportsInterleave};
ghost use Rattle.ec_runner.specs.ScheduleLaws.{EndedHasNoHistory, EndedIsAfterAHistory, EndedIsNotPlayed, HistoriesAreOfTurns, SchedulesArePlayedInOrder, SchedulesHaveOneHistory, SchedulesHaveOneRun};

/// States that the turns of a schedule make a history of it, in the order of time. The workers of
/// its entries are those of the schedule without the places that were refused. The entries of each
/// worker are a run of its program. At each place its worker's program was running, and its next
/// act is the entry made there, or was refused. A worker that was refused has no place after it.
pub fn schedules_are_played_in_order()
    ensures { SchedulesArePlayedInOrder }
{}

/// States that a schedule has at most one run.
pub fn schedules_have_one_run()
    ensures { SchedulesHaveOneRun }
{}

/// States that a schedule that names a worker that has ended has no run.
pub fn ended_is_not_played()
    ensures { EndedIsNotPlayed }
{}

/// States that each history of a schedule is made by turns of it, and its programs end as after
/// those. `schedules_are_played_in_order` says what a history is.
pub fn histories_are_of_turns()
    ensures { HistoriesAreOfTurns }
{}

/// States that a schedule has at most one history, and its programs end in one way.
pub fn schedules_have_one_history()
    ensures { SchedulesHaveOneHistory }
{}

/// States when a place of a schedule names a worker that has ended: exactly if the places before it
/// have a history after which that worker's program is not running.
pub fn ended_is_after_a_history()
    ensures { EndedIsAfterAHistory }
{}

/// States that a schedule that names a worker that has ended has no history at all.
pub fn ended_has_no_history()
    ensures { EndedHasNoHistory }
{}

/// States that the run in a report of workers on threads is their logs, interleaved. Each entry of
/// the run is in the log of its worker, after as many as the worker had made before.
pub fn reports_interleave()
    ensures { ReportsInterleave }
{}

/// States that in a report of workers on threads no outcome is `Running`. If a program has ended
/// after its worker's log, the outcome says how.
pub fn outcomes_are_theirs()
    ensures { OutcomesAreTheirs }
{}
