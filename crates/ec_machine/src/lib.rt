//! Programs of workers, and their interpreter: a command represents a list of calls, and commands
//! can be repeated.
#![tactic(auto)]

mod command;
mod due_command;
mod follow;
mod large_task;
mod laws;
mod limits;
mod machine;
mod one_call;
mod outcome;
mod program;
mod remaining;
mod small_task;
mod task;
mod values;

pub use command::{Command, Value};
pub use follow::follows;
pub use laws::{
    following_means_whole_lists, own_steps_are_cut, prefixes_are_runs, runs_are_of_whole_lists,
    runs_mean_whole_lists,
};
pub use limits::{COMMANDS_MAX, NESTING_MAX, TIMES_MAX, TRIES_MAX, are_apart};
pub use machine::Machine;
pub use outcome::Outcome;
pub use program::Program;
