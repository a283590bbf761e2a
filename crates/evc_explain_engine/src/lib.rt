//! The engine of `evc-explain`: reads a text, and writes what is wrong with it and how to mend it.
#![tactic(auto)]

mod bad_lines;
mod by_format;
mod continuation;
mod explaining;
mod explanation;
mod form;
mod good;
mod histories;
mod reasons;
mod round;
mod worker_ends;

pub use explaining::explain;
