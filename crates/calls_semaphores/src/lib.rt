//! Decides and monitors, by counting, whether the calls of a bank of semaphores are linearizable.
#![tactic(auto)]

mod bank;
mod fault;
mod laws;
mod monitor;
mod scan;

pub use bank::Bank;
pub use fault::{Fault, Outcome};
pub use laws::{a_fault_leaves_no_order, every_history_is_decided};
pub use monitor::Monitor;
pub use scan::decide;
