//! Histories of calls as text, read exactly.
#![tactic(auto)]

mod fault;
mod following;
mod form;
mod index;
mod laws;
mod lists;
mod literal;
mod object;
mod opening;
mod reading;
mod recording;
mod running;
mod stage;
mod tally;
mod verb;

pub use fault::{Cause, FaultKind, TextFault};
pub use following::{Follower, HistoryLine};
pub use index::{first_cell, first_group, first_sequencer, numbers_of};
pub use laws::{prefix_is_refused, read_is_spelled, spelled_is_read, texts_are_prefix_free};
pub use lists::Lists;
pub use reading::{Read, read_history};
pub use recording::Recording;
