//! Judges the calls of a buffer with one producer and one consumer event by event.
#![tactic(auto)]

mod laws;
mod monitor;

pub use laws::what_flows_has_an_order;
pub use monitor::{Monitor, PendingPut, PendingTake, ROOM_MAX, Refusal, Refused};
