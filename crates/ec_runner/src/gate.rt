//! A hook at which the threads of workers can be delayed.
use ec_count::WorkerId;

/// A hook that the thread of a worker calls before each of its critical sections: before each step,
/// and before it leaves. A worker whose thread could not be started leaves without a call. A gate
/// that blocks can make the threads go on in a chosen order.
pub trait Gate {
    /// Is called before each step, and before the worker leaves. `step` is how many steps this
    /// worker has asked the board for before.
    fn before(&self, worker: WorkerId, step: u64);
}

/// A gate that delays nobody.
#[derive(Clone, Copy, Debug, Drop)]
pub struct OpenGate;

impl Gate for OpenGate {
    fn before(&self, _worker: WorkerId, _step: u64) {}
}
