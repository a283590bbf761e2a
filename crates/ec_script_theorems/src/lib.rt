//! Programs that use groups of objects only by the groups' own procedures: their histories follow
//! the groups, so `check` and `audit` accept what `sim` and `run` wrote of a script. The crate has
//! no code, only theorems.
#![tactic(auto)]

mod laws;

pub use laws::{
    both_is_followed, buffers_are_followed, databases_are_followed, followed_traces_pass,
    groups_are_followed, own_entries_are_reversed, played_groups_are_followed, ran_traces_pass,
    reported_groups_are_followed, semaphores_are_followed, simulated_traces_pass,
};
