//! Decides whether the calls of one cell, or of one database, have a linearization.
#![tactic(auto)]

mod deciding;
mod laws;
mod outcome;

pub use deciding::decide;
pub use laws::{
    a_database_is_a_cell, a_fault_leaves_no_order, any_fault_leaves_no_order,
    every_history_is_decided, it_stays_outside,
};
pub use outcome::{Fault, Outcome, Undecided};
