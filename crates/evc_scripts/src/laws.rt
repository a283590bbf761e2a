//! Theorems about `sim` and `run`, each the contract of a function that does nothing.
ghost use Rattle.evc_scripts.specs.RunLaws.{LinesReportAlike, PlansReportAlike, ReportsHaveOneText};
ghost use Rattle.evc_scripts.specs.SimLaws.{EndedPlansAreNotPlayed, EndedPlansHaveNoHistory, LinesPlayAlike, PlansEndAtOnePlace, PlansHaveOneRun, RanIsReadAgain, RefusalsAreAlike, RefusedRunsHaveOneNote, RefusedScriptsHaveOneFault, RefusedSimsHaveOneNote, SimsEndOneWay, SimsHaveOneText, SimulatedIsReadAgain};

/// States that programs of the same lines behave alike, however their lists are stored. If turns
/// play a schedule for some programs, they play it for others of the same lines, with the same
/// outcomes.
pub fn lines_play_alike()
    ensures { LinesPlayAlike }
{}

/// States that the schedule of a plan has at most one run and one list of outcomes.
pub fn plans_have_one_run()
    ensures { PlansHaveOneRun }
{}

/// States that `sim` has at most one trace and one note for a plan whose schedule is played.
pub fn sims_have_one_text()
    ensures { SimsHaveOneText }
{}

/// States that a plan whose schedule names a worker that has ended has no run.
pub fn ended_plans_are_not_played()
    ensures { EndedPlansAreNotPlayed }
{}

/// States that a plan whose schedule names a worker that has ended has no history either. A history
/// has a run of each program, in the order of the schedule, and at each place an entry or a
/// refusal.
pub fn ended_plans_have_no_history()
    ensures { EndedPlansHaveNoHistory }
{}

/// States that for a plan whose schedule names a worker that has ended only one place and one
/// worker can be reported.
pub fn plans_end_at_one_place()
    ensures { PlansEndAtOnePlace }
{}

/// States that `sim` ends on no bytes both with status 0, a trace, and with status 1, a note.
pub fn sims_end_one_way()
    ensures { SimsEndOneWay }
{}

/// States that for bytes that are no script only one line and one kind can be reported.
pub fn refused_scripts_have_one_fault()
    ensures { RefusedScriptsHaveOneFault }
{}

/// States that whenever `sim` ends with status 1 on the same bytes, it writes only the same note.
/// The bytes are no script then, or their schedule names a worker that has ended.
pub fn refused_sims_have_one_note()
    ensures { RefusedSimsHaveOneNote }
{}

/// States that whenever `run` ends with status 1 on the same bytes, it writes only the same note,
/// whatever the bound of turns.
pub fn refused_runs_have_one_note()
    ensures { RefusedRunsHaveOneNote }
{}

/// States that if both `sim` and `run` end with status 1 on the same bytes, they write one note.
pub fn refusals_are_alike()
    ensures { RefusalsAreAlike }
{}

/// States that the trace that `sim` writes is parsed to the run of the schedule, if it is within
/// the bound of traces.
pub fn simulated_is_read_again()
    ensures { SimulatedIsReadAgain }
{}

/// States that the trace that `run` writes is parsed to the run of its workers, if it is within the
/// bound of traces.
pub fn ran_is_read_again()
    ensures { RanIsReadAgain }
{}

/// States that programs of the same lines have the same reports, however their lists are stored: a
/// report of workers that ran some programs is one of workers that ran others of the same lines.
pub fn lines_report_alike()
    ensures { LinesReportAlike }
{}

/// States that the reports of a script's workers depend only on the script's lines: a report of one
/// run is a report of all programs of these lines.
pub fn plans_report_alike()
    ensures { PlansReportAlike }
{}

/// States that for one script runs of the same entries have the same trace, and the same outcomes
/// have the same note and status.
pub fn reports_have_one_text()
    ensures { ReportsHaveOneText }
{}
