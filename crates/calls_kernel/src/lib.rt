//! Theorems about histories of steps, which the kernel makes, and histories of calls, which a
//! program records. An accepted history of steps is a linearizable history of calls, and a
//! linearization of calls is an accepted history of steps.
#![tactic(auto)]

mod laws;

pub use laws::{
    calls_of_accepted_histories_are_linearizable, linearizable_histories_are_records,
    linearizations_are_accepted_histories, records_are_exactly_the_linearizable,
    records_are_linearizable,
};
