//! A parser of scripts that accepts exactly their grammar.
#![tactic(auto)]

mod block_item;
mod command;
mod draft;
mod fault;
mod form;
mod kinds;
mod laws;
mod lists;
mod object;
mod parsing;
mod plan;
mod script;
mod stage;
mod verb;
mod version_limit;

pub use block_item::{BlockItem, Values};
pub use fault::{Kind, ScriptFault};
pub use laws::{
    blocks_are_counted, confined_lines_are_confined_commands, fault_is_the_first,
    faultless_lines_are_accepted, faults_are_reported, head_faults_keep_their_numbers,
    layouts_are_scripts, layouts_are_spelled, least_kind_wins, lines_are_spelled,
    lines_lead_to_headings, lines_mean_items, lines_of_two_roles, long_is_line_1,
    plans_are_confined, read_is_script, script_is_read, scripts_are_laid_out, scripts_are_spelled,
    scripts_have_a_mebibyte_at_most, two_roles_are_one_name, two_roles_are_reported,
    unfinished_is_reported,
};
pub use parsing::{SCRIPT_MAX, parse};
pub use plan::Plan;
