//! Decides and monitors whether the tickets of a sequencer are linearizable.
#![tactic(auto)]

mod deciding;
mod fault;
mod laws;
mod monitor;
mod pending;
mod recorded;
mod table;

pub use deciding::{Outcome, decide};
pub use fault::Fault;
pub use laws::{a_fault_leaves_no_order, every_history_is_decided};
pub use monitor::{Monitor, Refused};
