//! Gives turns, which are taken one after another, to those who take them.
#![tactic(auto)]

mod assigning;
mod chaining;
mod clash;
mod counting;
mod demand;
mod laws;
mod sharing;
mod sweeping;
mod turn;

pub use assigning::{Outcome, assign};
pub use laws::steps_leave_no_taking;
pub use turn::{Clash, Crowd, Reason, Share, Shortage, Step, Taker, Turn};
