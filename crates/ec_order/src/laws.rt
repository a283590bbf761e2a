//! Theorems about every accepted history, each the contract of a function that does nothing.
ghost use Rattle.ec_order.specs.Laws.{CallsAreCutInOrder, ProtocolsSpeakOfTheseCalls, PointsExist, OrderByPointsIsGood, OrderByPointsAscends, OrderByPointsIsTheOnlyOne, EveryAcceptedHistoryHasAnOrder};

/// States that the completed calls are exactly what the workers' entries are cut into: each begins
/// with an act that is no go, goes on with its worker's goes, and ends with the first reply that is
/// not Pending. They are in order of their responses.
pub fn calls_are_cut_in_order()
    ensures { CallsAreCutInOrder }
{}

/// States that the protocols of buffers, databases and semaphores speak of the calls that `calls`
/// lists: both have the same completed calls of each worker.
pub fn protocols_speak_of_these_calls()
    ensures { ProtocolsSpeakOfTheseCalls }
{}

/// States that every completed call has its point; for a read or an await it is the least moment,
/// from the start of its last round to its response, at which the total was its answer.
pub fn points_exist()
    ensures { PointsExist }
{}

/// States that the order by points of every accepted history is a linearization of its completed
/// calls, each with its point.
pub fn order_by_points_is_good()
    ensures { OrderByPointsIsGood }
{}

/// States that the order by points has exactly the completed calls, each with its point. It ascends
/// by points. At one point the reads and awaits, in order of their responses, come before the other
/// call.
pub fn order_by_points_ascends()
    ensures { OrderByPointsAscends }
{}

/// States that no other list is such an order. A list that has exactly the completed calls, each
/// with its point, and ascends in that way is the order by points.
pub fn order_by_points_is_the_only_one()
    ensures { OrderByPointsIsTheOnlyOne }
{}

/// States that every accepted history has a linearization of its completed calls: the order by
/// points. Moreover the number that a completed read or await returned was the total at some moment
/// between its invocation and its response.
pub fn every_accepted_history_has_an_order()
    ensures { EveryAcceptedHistoryHasAnOrder }
{}
