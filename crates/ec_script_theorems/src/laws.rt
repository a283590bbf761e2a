//! Theorems about programs and groups, each the contract of a function that does nothing.
ghost use Rattle.ec_script_theorems.specs.Headings.{GroupsAreFollowed, PlayedGroupsAreFollowed, ReportedGroupsAreFollowed};
ghost use Rattle.ec_script_theorems.specs.Passing.{FollowedTracesPass, RanTracesPass, SimulatedTracesPass};
ghost use Rattle.ec_script_theorems.specs.Laws.{BuffersAreFollowed, DatabasesAreFollowed, SemaphoresAreFollowed, BothIsFollowed, OwnEntriesAreReversed};

/// States that programs that use a declared buffer only by Produce and Consume follow it: in every
/// accepted history in which each worker's entries are a run of its program.
pub fn buffers_are_followed()
    ensures { BuffersAreFollowed }
{}

/// States the same for a declared database that the programs use only by WriteAll and Snapshot.
pub fn databases_are_followed()
    ensures { DatabasesAreFollowed }
{}

/// States the same for a semaphore that the programs use only by P and V.
pub fn semaphores_are_followed()
    ensures { SemaphoresAreFollowed }
{}

/// States the same for `both`, whose common semaphore the programs use only by P on two semaphores.
pub fn both_is_followed()
    ensures { BothIsFollowed }
{}

/// States that programs that use the objects of a header's groups only by the groups' procedures
/// follow every group: in every accepted history in which each worker's entries are a run of its
/// program.
pub fn groups_are_followed()
    ensures { GroupsAreFollowed }
{}

/// States that the reversed entries of a worker are its entries in the reversed history. So what is
/// said of the one list is said of the other.
pub fn own_entries_are_reversed()
    ensures { OwnEntriesAreReversed }
{}

/// States that if a schedule of such programs was played, the run that is reported follows every
/// group of the header.
pub fn played_groups_are_followed()
    ensures { PlayedGroupsAreFollowed }
{}

/// States that if workers ran such programs on threads, the run that is reported follows every
/// group of the header.
pub fn reported_groups_are_followed()
    ensures { ReportedGroupsAreFollowed }
{}

/// States that `check` and `audit` reject no trace that follows each group of its header. They end
/// with status 0, or report a failed read or write (3) or out of memory (4).
pub fn followed_traces_pass()
    ensures { FollowedTracesPass }
{}

/// States that what `sim` wrote of a script with status 0 is such a trace, if it is within the
/// bound of traces. So `check` and `audit` do not reject it.
pub fn simulated_traces_pass()
    ensures { SimulatedTracesPass }
{}

/// States the same about what `run` wrote of a script, if it wrote the whole trace: with status 0,
/// or with 4 or 5 if it wrote anything.
pub fn ran_traces_pass()
    ensures { RanTracesPass }
{}
