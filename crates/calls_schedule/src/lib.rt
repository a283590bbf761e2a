//! Schedules jobs of one unit each, where what is done before a position bounds which jobs it is.
#![tactic(auto)]

mod checking;
mod job;
mod laws;
mod limits;
mod lowering;
mod missing;
mod pruning;
mod scheduling;
mod serving;
mod timed;

pub use checking::refutes;
pub use job::{Bound, Job};
pub use laws::bounds_leave_no_ranks;
pub use pruning::prune;
pub use scheduling::{Outcome, schedule};
