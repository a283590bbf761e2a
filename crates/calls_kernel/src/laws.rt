//! The theorems: each function states one as its contract.
ghost use Rattle.calls_kernel.specs.Laws as laws;

/// States that an accepted history of steps is linearizable as a history of calls.
///
/// The order of its completed calls by linearization points is a linearization.
pub fn calls_of_accepted_histories_are_linearizable()
    ensures { laws.CallsOfAcceptedHistoriesAreLinearizable }
{}

/// States that each linearization within the declared rights and the limit can be made by steps.
///
/// It is an accepted history of steps, in which its calls are made one after another.
pub fn linearizations_are_accepted_histories()
    ensures { laws.LinearizationsAreAcceptedHistories }
{}

/// States that a history of calls that a program can have recorded of a kernel is linearizable.
///
/// The kernel may have made a call's steps at any time between its invocation and its response.
pub fn records_are_linearizable()
    ensures { laws.RecordsAreLinearizable }
{}

/// States that a history with a linearization can have been recorded of a kernel.
///
/// The linearization has to keep the declared rights and the limit. The steps can't be seen from
/// outside.
pub fn linearizable_histories_are_records()
    ensures { laws.LinearizableHistoriesAreRecords }
{}

/// States that what a program can have recorded of a kernel is exactly what is linearizable.
///
/// This is about histories of calls within the declared rights and the limit.
pub fn records_are_exactly_the_linearizable()
    ensures { laws.RecordsAreExactlyTheLinearizable }
{}
