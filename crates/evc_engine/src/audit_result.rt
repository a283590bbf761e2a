//! What an audit finds.
use ec_buffer::Delivery;
use ec_database::AcceptedTries;
use ec_semaphore::{Balance, Pair};

/// What the audit of a group found, if its workers follow its rules.
#[derive(Drop)]
pub enum AuditResult {
    /// The deliveries of a buffer, by number.
    Deliveries(Vec<Delivery>),
    /// The accepted tries of a database, in the order of their last entries.
    Versions(AcceptedTries),
    /// The parts of a semaphore's balance, and the balance.
    Balances(Balance, u64),
    /// Those of the common semaphore of `both`, and the pairs of tickets that were drawn under it.
    Pairs(Balance, u64, Vec<Pair>),
}
