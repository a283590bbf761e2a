//! An item that was got.
use ec_count::WorkerId;

/// An item of a buffer that was got: it is number `number`, counted from 0, `producer` put it and
/// `consumer` got it.
#[derive(Clone, Copy, Debug, PartialEq, Eq)]
pub struct Delivery {
    pub number: u64,
    pub producer: WorkerId,
    pub consumer: WorkerId,
    pub item: u64,
}
