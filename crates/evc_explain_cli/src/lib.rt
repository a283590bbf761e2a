//! The command line of `evc-explain`: its help, and the file that its words name.
#![tactic(auto)]

mod help;
mod line;

pub use clap::Error;
pub use line::{file_named, plain_lines, status_of};
