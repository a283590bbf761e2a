//! Theorems about cells whose puts do not overlap, each the contract of an empty function.
ghost use Rattle.calls_serial.specs.Laws.{AFaultLeavesNoOrder, ADatabaseIsACell};
ghost use Rattle.calls_serial.specs.Laws.{AFaultStays, EverySerialHistoryIsDecided};

/// States that a history of a cell that shows a fault has no linearization.
pub fn a_fault_leaves_no_order()
    ensures { AFaultLeavesNoOrder }
{}

/// States that a fault that a history shows is shown by each longer one.
pub fn a_fault_stays()
    ensures { AFaultStays }
{}

/// States that a history whose puts do not overlap has a linearization or shows a fault.
pub fn every_serial_history_is_decided()
    ensures { EverySerialHistoryIsDecided }
{}

/// States that a history of a database is one of a cell, with the same linearizations.
///
/// What is decided of the cell holds of the database.
pub fn a_database_is_a_cell()
    ensures { ADatabaseIsACell }
{}
