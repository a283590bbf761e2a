//! The workers of a script: on threads that share one board, or in the turns of a schedule.
#![tactic(auto)]

mod board;
mod ending;
mod gate;
mod holding;
mod laws;
mod log_comparison;
mod logs;
mod mismatch;
mod playing;
mod refused;
mod report;
mod run_fault;
mod schedule;
mod summary;
mod threads;
mod wait;
mod wait_queue;
mod work_promise;
mod worker_state;
mod worker_states;
mod workers;

pub use board::{Board, BoardFault, ParkOutcome};
pub use gate::{Gate, OpenGate};
pub use laws::{
    ended_has_no_history, ended_is_after_a_history, ended_is_not_played, histories_are_of_turns,
    outcomes_are_theirs, reports_interleave, schedules_are_played_in_order,
    schedules_have_one_history, schedules_have_one_run,
};
pub use report::{Report, SimFault};
pub use run_fault::RunFault;
pub use schedule::simulate;
use worker_state::WorkerState;
pub use workers::run_workers;
