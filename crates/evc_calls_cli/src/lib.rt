//! The command line of `evc-calls`: its commands, its help, and the task that its words ask for.
#![tactic(auto)]

mod choice;
mod help;
mod line;

pub use choice::{Action, Task};
pub use clap::Error;
pub use line::{plain_lines, status_of, task};
