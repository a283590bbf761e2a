//! Headers of texts: what they declare, and how lines name it. Only the canonical encoding is read.
#![tactic(auto)]

mod decl_kind;
mod entry_words;
mod form;
mod group;
mod heading;
mod kinds;
mod laws;
mod lists;
mod objects;
mod version;

pub use decl_kind::DeclKind;
pub use group::{Group, both_of, semaphores_of};
pub use heading::{HeadFault, Heading, LINE_MAX};
pub use laws::{
    lines_have_an_outline, outline_lines_lead, read_declaration_is_spelled,
    read_workers_are_spelled, spelled_declaration_is_read, spelled_workers_are_read,
};
pub use lists::{count_words, has_unknown};
pub use version::Version;
