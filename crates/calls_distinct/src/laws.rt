//! Theorems about the calls of one cell or database, each the contract of an empty function.
ghost use Rattle.calls_distinct.specs.Laws.{AFaultLeavesNoOrder, EveryHistoryOfTheClassIsDecided};

/// States that events that show a fault have no linearization.
pub fn a_fault_leaves_no_order()
    ensures { AFaultLeavesNoOrder }
{}

/// States that every history of the distinct class has a linearization or shows a fault.
pub fn every_history_of_the_class_is_decided()
    ensures { EveryHistoryOfTheClassIsDecided }
{}
