//! The state of a worker on a board.
ghost use Rattle.std.specs.Prelude.{◌≡◌};
ghost use Rattle.ec_runner.specs.WorkerStates.{is_active, is_running, is_waiting};

use ec_count::EventId;

/// The state of a worker on a board.
#[derive(Clone, Copy, Debug, PartialEq, Eq)]
pub(crate) enum WorkerState {
    /// It has left, or was never declared.
    Gone,
    /// It is active, and doesn't wait.
    Running,
    /// It is active, and waits until the total of the eventcount has reached the threshold.
    Waiting(EventId, u64),
}

impl WorkerState {
    /// Returns whether the worker has not left.
    pub fn is_active(&self) -> bool
        ensures { result ≡ is_active self.now }
    {
        !matches!(self, WorkerState::Gone)
    }

    /// Returns whether it waits.
    pub fn is_waiting(&self) -> bool
        ensures { result ≡ is_waiting self.now }
    {
        matches!(self, WorkerState::Waiting(_, _))
    }

    /// Returns whether it is active and doesn't wait.
    pub(crate) fn is_running(&self) -> bool
        ensures { result ≡ is_running self.now }
    {
        matches!(self, WorkerState::Running)
    }
}
