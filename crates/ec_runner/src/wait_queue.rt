//! The waiters of one eventcount.
ghost use Rattle.std.specs.Prelude.{◌≡◌, ◌==◌, ◌<◌, ◌≤◌, [], length, drop, is_some, if◌then◌else◌, Some, IfSome};
ghost use Rattle.ec_runner.specs.kept.WaitQueues.{comes_before, insertion_index, insert_waiter, without, first_ready};

use arrayvec::ArrayVec;
use ec_count::WorkerId;
use std::marker::Model;

/// A worker that waits until a total has reached its threshold.
#[derive(Clone, Copy, Debug, PartialEq, Eq)]
pub(crate) struct Waiter {
    pub threshold: u64,
    pub worker: WorkerId,
}

impl Waiter {
    /// Returns whether it is before another in the queue: by threshold, and at equal thresholds by
    /// worker.
    fn comes_before(&self, other: &Waiter) -> bool
        ensures { result ≡ comes_before self.now other.now }
    {
        self.threshold < other.threshold
            || (self.threshold == other.threshold && self.worker.get() < other.worker.get())
    }
}

impl Default for Waiter {
    fn default() -> Self {
        Waiter {
            threshold: 0,
            worker: WorkerId::default(),
        }
    }
}

/// The waiters of one eventcount by ascending threshold and, at equal thresholds, by worker.
#[derive(Drop)]
pub(crate) struct WaitQueue {
    waiters: ArrayVec<Waiter, 16>,
}

impl Model for WaitQueue {
    ghost use Rattle.std.specs.Prelude.{List};
    ghost use Rattle.ec_runner.specs.declared.wait_queue.Waiter.{Waiter};

    ghost Value = { List Waiter };

    ghost view = { λ l. l.waiters.items };
}

impl WaitQueue {
    /// Makes a queue in which nobody waits.
    pub fn empty() -> Self
        ensures { result ≡ [] }
    {
        WaitQueue {
            waiters: ArrayVec::new(),
        }
    }

    /// Returns whether nobody waits.
    pub fn is_empty(&self) -> bool
        ensures { result ≡ (length self.now == 0) }
    {
        self.waiters.is_empty()
    }

    /// Inserts a waiter at its position.
    pub fn insert(&mut self, waiter: Waiter)
        requires { length self.old < 16 }
        ensures { self.new ≡ insert_waiter waiter self.old }
    {
        let place = insertion_index(self.waiters.as_slice(), &waiter);
        self.waiters.insert(place, waiter);
    }

    /// Removes a worker.
    pub fn remove(&mut self, worker: WorkerId)
        ensures { self.new ≡ without worker self.old }
    {
        self.waiters.retain(|waiter| waiter.worker != worker);
    }

    /// Removes and returns the first waiter, if the total has reached its threshold.
    pub fn pop_ready(&mut self, total: u64) -> Option<Waiter>
        ensures first { result ≡ first_ready total self.old }
        ensures rest { self.new ≡ (if is_some result then drop 1 self.old else self.old) }
    {
        let first = self.waiters.as_slice().first().copied()?;
        if first.threshold > total {
            return None;
        }
        self.waiters.remove(0);
        Some(first)
    }
}

/// Returns the position at which a waiter is inserted: after those that come before it.
fn insertion_index(queue: &[Waiter], waiter: &Waiter) -> usize
    requires { length queue.now ≤ 16 }
    ensures place { result ≡ insertion_index waiter.now queue.now }
    ensures within { result ≤ length queue.now }
{
    match queue {
        [first, rest @ ..] if first.comes_before(waiter) => insertion_index(rest, waiter) + 1,
        _ => 0,
    }
}
