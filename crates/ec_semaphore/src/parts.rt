//! The parts of a semaphore's balance.

/// The parts of a semaphore's balance, which is `initial + ups - downs`: the initial value, and how
/// many P and how many V are completed.
#[derive(Clone, Copy, Debug, PartialEq, Eq)]
pub struct Balance {
    pub initial: u64,
    pub downs: u64,
    pub ups: u64,
}
