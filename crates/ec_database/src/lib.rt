//! A database: cells that writers fill one after another. Readers read them without keeping the
//! writers out, by comparing versions (L. Lamport, "Concurrent Reading and Writing", CACM 20(11),
//! 1977).
#![tactic(auto)]

mod audit;
mod ending;
mod laws;
mod lists;
mod places;
mod shape;
mod snapshot;
mod tries;
mod write;

pub use audit::{VersionAudit, versions};
pub use ending::SnapshotEnd;
pub use laws::{
    accepted_tries_are_determined, accepted_tries_are_listed, accepted_tries_are_undisturbed,
    accepted_tries_have_own_entries, audits_may_leave_out_entries, call_lists_are_written_out,
    declared_databases_stay, following_means_lists, snapshots_are_tries, versions_are_put_once,
};
pub use lists::is_on;
pub use shape::{DatabaseShape, declare_database};
pub use snapshot::Snapshot;
pub use tries::{Accepted, AcceptedTries, TryView};
pub use write::WriteAll;
