//! Decides whether the calls of a bounded buffer have a linearization: always if no item is put in
//! twice and no pending consume may have taken one, or if items are put in or taken out in turn;
//! else if it finds one or a fault.
#![tactic(auto)]

mod accesses;
mod checking;
mod counting;
mod deciding;
mod fault;
mod finding;
mod guessing;
mod items;
mod jobs;
mod laws;
mod numbered;
mod ordering;
mod planning;
mod ranking;
mod recorded;
mod settling;
mod tally;
mod testing;
mod turns;
mod windows;

pub use checking::verify;
pub use deciding::{Outcome, decide};
pub use fault::{Fault, Flow};
pub use laws::{a_buffer_is_a_queue, a_fault_leaves_no_order};
