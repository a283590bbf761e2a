//! What the definitions mean: each function states a theorem and does nothing.
ghost use Rattle.ec_count.specs.Laws.{FirstTestAnswers, OneSignaller, RightsAreDeclared, SilenceIsNoRight, NamesAreFound};

/// States that the fault of a list of tests is that of the first test that holds.
///
/// If there is no fault, no test holds.
pub fn the_first_test_answers<F>()
    ensures { FirstTestAnswers F }
{}

/// States that each declared component has one signaller: the worker that owns it.
pub fn each_component_has_one_signaller()
    ensures { OneSignaller }
{}

/// States that only declared workers have rights, and only on declared objects.
pub fn rights_are_declared()
    ensures { RightsAreDeclared }
{}

/// States that a read-only worker is a declared one without a right to change anything.
///
/// It signals no eventcount, takes from no sequencer and writes no cell.
pub fn silent_workers_change_nothing()
    ensures { SilenceIsNoRight }
{}

/// States that each name of a table is found with its own target.
///
/// The name that is returned for a target is the first that was added for it. It is found too.
pub fn names_are_found()
    ensures { NamesAreFound }
{}
