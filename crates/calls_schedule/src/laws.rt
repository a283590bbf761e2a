//! Theorems about all jobs, each the contract of a function that does nothing.
ghost use Rattle.calls_schedule.specs.Laws.{BoundsLeaveNoRanks};

/// States that jobs have no ranks if bounds on them end with more jobs than they can be.
pub fn bounds_leave_no_ranks()
    ensures { BoundsLeaveNoRanks }
{}
