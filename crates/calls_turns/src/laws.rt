//! Theorems about all turns, each the contract of a function that does nothing.
ghost use Rattle.calls_turns.specs.Laws.{StepsLeaveNoTaking};

/// States that turns can't be taken if steps show it.
pub fn steps_leave_no_taking()
    ensures { StepsLeaveNoTaking }
{}
