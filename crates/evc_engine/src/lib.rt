//! The commands `check`, `audit` and `upgrade`: what they write is a function of the bytes that
//! they read.
#![tactic(auto)]

mod audit_result;
mod audit_text;
mod auditing;
mod checking;
mod laws;
mod notes;
mod status;
mod text;
mod totals;
mod upgrading;
mod walked;

pub use auditing::audit;
pub use checking::{check, note_unread};
pub use laws::{
    audits_end_one_way, audits_have_one_text, checks_and_audits_refuse_alike,
    notes_are_written_out, refused_audits_have_one_note, refused_checks_have_one_note,
    texts_have_no_version,
};
pub use notes::{put_line, put_refused, report_fault};
pub use status::Status;
pub use upgrading::upgrade;
