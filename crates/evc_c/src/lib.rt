//! `check`, `audit`, `upgrade` and `sim`, and `check` of histories of calls, for programs in C and
//! Rust. They read bytes in memory, and write a text and notes to the caller's memory. Monitors
//! check histories of calls line by line.
#![tactic(auto)]

mod calls;
mod laws;
mod monitor;
mod monitor_calls;
mod room;

pub use calls::{
    EvcWritten, evc_audit, evc_calls_check, evc_check, evc_sim, evc_upgrade, evc_version,
};
pub use laws::notes_have_room_for_1024_bytes;
