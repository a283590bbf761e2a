//! What is wrong with a text, in words: the cause, the place, and how to mend it.
#![tactic(auto)]

mod cause;
mod entry;
mod finding;
mod head;
mod history_lines;
mod kinds;
mod line;
mod lines;
mod placing;
mod related_line;
mod rights;
mod round;
mod site;
mod words;
mod writing;

pub use cause::Cause;
pub use finding::{
    Finding, LinePosition, find_missing_end, finding_at, finding_of_line, finding_of_refusal,
    finding_of_text, finding_of_wrong_reply,
};
pub use kinds::{calls_finding, script_finding};
pub use lines::{line_at, position_or_end, text_before_line};
pub use placing::{cause_at, place_at};
pub use rights::{Asked, asked_in, holders};
pub use round::{Look, looks_with};
pub use site::Site;
pub use writing::{put_finding, put_line_seen};
