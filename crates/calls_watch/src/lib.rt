//! Judges histories of calls line by line.
#![tactic(auto)]

mod feeder;
mod kept;
mod laws;
mod load;
mod shown;
mod spsc;
mod stop;
mod watcher;
mod watching;
mod whole;

pub use laws::{both_refuse_one_event, watch_agrees_with_check};
pub use load::Load;
pub use stop::Stop;
pub use watcher::Watcher;
pub use watching::{report_stop, watch};
