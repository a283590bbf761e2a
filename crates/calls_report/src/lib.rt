//! Checks histories of calls, and writes a linearization of each, or a note that says why there is
//! none.
#![tactic(auto)]

mod certificate;
mod checking;
mod counting;
mod items;
mod notes;
mod order;
mod outruns;
mod refusal;
mod remarks;
mod status;
mod sums;
mod sure;
mod totals;
mod words;

pub use certificate::{Certificate, start_at};
pub use checking::{LastHistory, TEXT_MAX, check, check_whole, linearize, note_unread};
pub use counting::completed_call;
pub use notes::{report_certificate, report_fault, report_refusal, report_undecided};
pub use remarks::put_remarks_on;
pub use status::Status;
