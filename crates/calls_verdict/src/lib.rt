//! Decides whether a history of the calls of many objects has a linearization.
#![tactic(auto)]

mod buffers;
mod checking;
mod deciding;
mod findings;
mod laws;
mod objects;
mod splitting;
mod verdict;

pub use calls_core::find;
pub use checking::{Misuse, first_misuse};
pub use deciding::{decide, has_room};
pub use laws::{
    a_fault_leaves_no_linearization, a_refusal_is_final, every_history_is_decided,
    the_first_fault_is_one, what_is_shown_is_a_fault,
};
pub use splitting::{follow, split};
pub use verdict::{Cause, Decision, Fault, Refusal, Undecided, Verdict};
