//! Theorems about every history of an eventcount, each the contract of an empty function.
ghost use Rattle.calls_counts.specs.Laws.{AFaultLeavesNoOrder, EveryHistoryIsDecided};
ghost use Rattle.calls_counts.specs.Laws.{AMonitorAgrees};

/// States that a history that shows a fault has no linearization.
pub fn a_fault_leaves_no_order()
    ensures { AFaultLeavesNoOrder }
{}

/// States that every history has a linearization, or shows a fault.
pub fn every_history_is_decided()
    ensures { EveryHistoryIsDecided }
{}

/// States that a monitor refuses the event that `decide` names as the first faulty one, and none
/// before it.
pub fn a_monitor_agrees()
    ensures { AMonitorAgrees }
{}
