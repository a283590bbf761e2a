//! Writes a history of calls as a trace of steps: a kernel makes the calls, one after another.
#![tactic(auto)]

mod laws;
mod making;
mod obstacle;
mod replaying;

pub use laws::traces_of_orders_are_read;
pub use making::{Stop, replay};
pub use obstacle::Obstacle;
pub use replaying::replay_calls;
