//! Theorems on every history of a cell. Each is the contract of a function that does nothing.
ghost use Rattle.calls_cells.specs.Laws as laws;

/// States that a history that shows a fault has no linearization.
pub fn a_fault_leaves_no_order()
    ensures { laws.AFaultLeavesNoOrder }
{}

/// States the same of a fault whose gets are any list, as `every_history_is_decided` has them.
pub fn any_fault_leaves_no_order()
    ensures { laws.AnyFaultLeavesNoOrder }
{}

/// States that each history has a linearization, shows a fault, or shows why it isn't decided.
pub fn every_history_is_decided()
    ensures { laws.EveryHistoryIsDecided }
{}

/// States that calls of neither class stay so, whatever follows.
pub fn it_stays_outside()
    ensures { laws.ItStaysOutside }
{}

/// States that what is found of the history of a cell holds of a database with the same history.
///
/// A history of a database is one of a cell.
pub fn a_database_is_a_cell()
    ensures { laws.ADatabaseIsACell }
{}
