//! The calls of a trace of steps, as a history of calls.
#![tactic(auto)]

mod cause;
mod extracting;
mod writing;

pub use cause::Cause;
pub use extracting::extract_calls;
pub use writing::write_calls;
