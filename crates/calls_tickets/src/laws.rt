//! Theorems about every history of tickets, each the contract of an empty function.
ghost use Rattle.calls_tickets.specs.Laws.{AFaultLeavesNoOrder, EveryHistoryIsDecided};

/// States that a history that shows a fault has no linearization.
pub fn a_fault_leaves_no_order()
    ensures { AFaultLeavesNoOrder }
{}

/// States that each history has a linearization or shows a fault.
pub fn every_history_is_decided()
    ensures { EveryHistoryIsDecided }
{}
