//! What conformance and procedures mean, in order of time: each function states a theorem and does
//! nothing.
ghost use Rattle.ec_core.specs.Laws.{FollowingHoldsOfPrefixes, FollowsOrBreaks, BreaksAreFirst, FollowingMeansJoinedLists, FollowingMeansUnbrokenLists, AnsweredCallsAreWritten};

/// States that each prefix of a history that conforms does so.
pub fn following_holds_of_prefixes()
    ensures { FollowingHoldsOfPrefixes }
{}

/// States that a history conforms, or an entry of it is the first violation.
pub fn histories_follow_or_break()
    ensures { FollowsOrBreaks }
{}

/// States that exactly the prefixes before the first violation conform.
///
/// If entry k is the first violation, these are the first i entries for each i up to k.
pub fn breaks_are_first()
    ensures { BreaksAreFirst }
{}

/// States that a history conforms exactly if each worker's calls on the group are its call lists.
///
/// That is: whole lists joined end to end, then a prefix of one more.
pub fn following_means_joined_lists()
    ensures { FollowingMeansJoinedLists }
{}

/// States the same of lists within which their worker makes no other call.
///
/// A history conforms exactly if each worker's calls are whole lists, with calls on other objects
/// between them, then a prefix of one more list.
pub fn following_means_unbroken_lists()
    ensures { FollowingMeansUnbrokenLists }
{}

/// States that the answered calls of a procedure are a prefix of its written list.
///
/// What it still asks for is the rest of the list.
pub fn answered_calls_are_written()
    ensures { AnsweredCallsAreWritten }
{}
