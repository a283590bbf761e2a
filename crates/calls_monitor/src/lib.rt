//! A monitor of a history of the calls of many objects.
#![tactic(auto)]

mod monitor;
mod object;
mod whole;

pub use monitor::{Monitor, Refused, Rejection};
pub use object::{Refusal, has_fit_room};
pub use whole::{Stop, watch};
