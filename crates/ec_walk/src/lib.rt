//! One pass over the entries of a run, for the audits of all groups of a header.
#![tactic(auto)]

mod group_audits;
mod group_table;

pub use group_audits::{GroupAudit, GroupAudits, walk_groups};
