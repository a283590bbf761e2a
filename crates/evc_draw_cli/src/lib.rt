//! The command line of `evc-draw`: its options, its help, and the task that its words give.
#![tactic(auto)]

mod choice;
mod help;
mod line;

pub use choice::{Bound, Form, NO_END, NoNumber, Range, Task};
pub use clap::Error;
pub use line::{plain_lines, status_of, task};
