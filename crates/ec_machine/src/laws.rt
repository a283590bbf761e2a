//! What the definitions mean: each function states a theorem and does nothing.
ghost use Rattle.ec_machine.specs.Joined.{RunsMeanWholeLists, FollowingMeansWholeLists};
ghost use Rattle.ec_machine.specs.Laws.{RunsAreOfWholeLists, OwnStepsAreCut, PrefixesAreRuns};

/// States that the completed calls of a run are the call lists of its program's first commands, in
/// order. The repeats are unrolled. After these whole lists comes a proper prefix of the list of
/// the next command; the pending call is the next one in it.
pub fn runs_are_of_whole_lists()
    ensures { RunsAreOfWholeLists }
{}

/// States that steps are a run of a program exactly if their calls are as `runs_are_of_whole_lists`
/// says.
pub fn runs_mean_whole_lists()
    ensures { RunsMeanWholeLists }
{}

/// States that in an accepted history a worker follows its program exactly if its calls are as
/// `runs_are_of_whole_lists` says.
pub fn following_means_whole_lists()
    ensures { FollowingMeansWholeLists }
{}

/// States that in an accepted history the calls of a worker's own steps are its calls in the
/// history.
pub fn own_steps_are_cut()
    ensures { OwnStepsAreCut }
{}

/// States that each prefix of a run of a program is a run of it.
pub fn prefixes_are_runs()
    ensures { PrefixesAreRuns }
{}
