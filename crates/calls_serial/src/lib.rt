//! Decides whether the calls of one cell or database, whose puts don't overlap, are linearizable.
#![tactic(auto)]

mod changes;
mod laws;
mod outcome;
mod pass;
mod responses;
mod search;
mod stage;

pub use laws::{
    a_database_is_a_cell, a_fault_leaves_no_order, a_fault_stays, every_serial_history_is_decided,
};
pub use outcome::{Fault, Outcome};
pub use pass::decide;
