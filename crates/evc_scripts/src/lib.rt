//! The commands `sim` and `run` on scripts, and all tasks of the command line.
#![tactic(auto)]

mod laws;
mod outcomes;
mod running;
mod simulating;
mod tasks;
mod writing;

pub use laws::{
    ended_plans_are_not_played, ended_plans_have_no_history, lines_play_alike, lines_report_alike,
    plans_end_at_one_place, plans_have_one_run, plans_report_alike, ran_is_read_again,
    refusals_are_alike, refused_runs_have_one_note, refused_scripts_have_one_fault,
    refused_sims_have_one_note, reports_have_one_text, sims_end_one_way, sims_have_one_text,
    simulated_is_read_again,
};
pub use outcomes::note_mismatch;
pub use running::run;
pub use simulating::sim;
pub use tasks::{engine, engine_without_threads};
