//! What the definitions mean: each function states a theorem and does nothing.
ghost use Rattle.ec_database.specs.Auditing.{OthersMayBeLeftOut, GoesMayBeLeftOut};
ghost use Rattle.ec_database.specs.Joined.{FollowingMeansLists};
ghost use Rattle.ec_database.specs.Laws.{DatabasesStay, VersionsArePutOnce, AcceptedTriesAreUndisturbed, TriesHaveOwnEntries, TriesAreListed, TriesAreDetermined, CallListsAreWritten, SnapshotsAreTries};

/// States that a database that fits declarations still fits them if more is declared.
pub fn declared_databases_stay()
    ensures { DatabasesStay }
{}

/// States that in an accepted history that follows a database, no value of a version is put twice.
pub fn versions_are_put_once()
    ensures { VersionsArePutOnce }
{}

/// States that in an accepted history that follows a database, an accepted try has the values of
/// the version that it read. No put on the database comes between its first and its last get.
pub fn accepted_tries_are_undisturbed()
    ensures { AcceptedTriesAreUndisturbed }
{}

/// States that an undisturbed try has only one first read and one get of each value. So the
/// definition of undisturbed is about these entries and no others.
pub fn accepted_tries_have_own_entries()
    ensures { TriesHaveOwnEntries }
{}

/// States that the accepted tries of a history are listed, each once and no others, in the order of
/// their last steps.
pub fn accepted_tries_are_listed()
    ensures { TriesAreListed }
{}

/// States that a history has only one list of accepted tries.
pub fn accepted_tries_are_determined()
    ensures { TriesAreDetermined }
{}

/// States that the call lists of a write and of a try are those written out, whatever turn the
/// write drew or version the try read.
pub fn call_lists_are_written_out()
    ensures { CallListsAreWritten }
{}

/// States that the calls of a snapshot are tries, one after another. They go up to the first whose
/// reads agree, and are at most as many as it may make.
pub fn snapshots_are_tries()
    ensures { SnapshotsAreTries }
{}

/// States that an accepted history follows a database exactly if each worker's calls on it are its
/// written lists joined end to end, and a prefix of one more.
pub fn following_means_lists()
    ensures { FollowingMeansLists }
{}

/// States that the audit of a database may leave out entries whose calls are not on it, and goes
/// that end no call: without them its state is the same.
pub fn audits_may_leave_out_entries()
    ensures off { OthersMayBeLeftOut }
    ensures goes { GoesMayBeLeftOut }
{}
