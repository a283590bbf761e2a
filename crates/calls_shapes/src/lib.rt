//! The shapes of a picture of a history of calls, in positions and counts.
#![tactic(auto)]

mod bars;
mod evidence;
mod stairs;
mod steps;
mod tallies;

pub use bars::{Bars, bars_of};
pub use evidence::{faulty_calls, spans_of};
pub use stairs::{Portion, Stair, StairSpan, stair_of};
pub use steps::{Step, Track, start_of, steps_of};
pub use tallies::{CountFilter, Tally, is_counted, tallies_of};
