//! The command line of `evc`: its commands, its help, and what its words ask for.
#![tactic(auto)]

mod choice;
mod help;
mod line;

pub use choice::{Request, Task};
pub use clap::Error;
pub use help::VERSION;
pub use line::{plain_lines, request, status_of, turns_lines};
