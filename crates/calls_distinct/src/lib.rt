//! Decides whether the calls of one cell or database, with each value put once, are linearizable.
#![tactic(auto)]

mod cell;
mod crossing;
mod deciding;
mod groups;
mod history;
mod laws;
mod nowhere;
mod reading;
mod searching;
mod testing;
mod verdict;
mod zone;
mod zones;

pub use cell::{Fault, Outcome};
pub use deciding::decide;
pub use laws::{a_fault_leaves_no_order, every_history_of_the_class_is_decided};
pub use nowhere::first_nowhere;
pub use searching::{events_up_to, next_between};
