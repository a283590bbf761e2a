//! The states of all workers, and the queues of those that wait.
ghost use Rattle.std.specs.Prelude.{◌≡◌, ℕ, ◌<◌, ◌≤◌, true, false, map, slice_get, slice_set, Some, if◌then◌else◌, nat_lt, List, length, drop, is_some};
ghost use Rattle.std.specs.List.{list_any};
ghost use Rattle.ec_runner.specs.declared.worker_state.WorkerState.TheVariants.{Gone, Running, Waiting};
ghost use Rattle.ec_runner.specs.WorkerStates.{is_active, is_running, is_waiting, is_deadlocked, every_active_waits, state_at_total, states_after_act};
ghost use Rattle.ec_runner.specs.kept.WaitQueues.{LetsOneGo, remove_waiter, insert_waiter, first_ready, waits_on};
ghost use Rattle.ec_core.specs.kept.Fields.{map_at};
ghost use Rattle.ec_runner.specs.declared.wait_queue.Waiter.{Waiter};
ghost use Rattle.ec_runner.specs.BoardModel.{past_of};
ghost use Rattle.ec_core.specs.Acceptance.{names_unknown_object};

use crate::WorkerState;
use crate::wait_queue::{WaitQueue, Waiter};
use ec_core::{Act, Run};
use ec_count::{EventId, WorkerId};
use std::marker::Model;

/// The state of each worker, and the queue of each eventcount's waiters. So an advance finds those
/// that it releases at the head of one queue.
#[derive(Drop)]
pub(crate) struct WorkerStates {
    table: [WorkerState; 16],
    queues: [WaitQueue; 32],
}

impl Model for WorkerStates {
    ghost use Rattle.std.specs.Prelude.{List};
    ghost use Rattle.ec_runner.specs.declared.worker_state.WorkerState.{WorkerState};

    ghost Value = { List WorkerState };

    ghost use Rattle.ec_runner.specs.kept.WaitQueues.{AreWaitQueues};

    ghost view = { λ s. s.table };

    ghost invariant = { λ s. AreWaitQueues s.table s.queues };
}

impl WorkerStates {
    /// Makes states in which the first `workers` workers are active, and nobody waits.
    pub fn open(workers: usize) -> Self
        requires { workers ≤ 16 }
        ensures states { (w : ℕ) → w < 16 → slice_get result w ≡ Some (if nat_lt w workers then Running else Gone) }
        ensures long { length result ≡ 16 }
    {
        WorkerStates {
            table: initial_states(workers),
            queues: std::array::from_fn(|_| WaitQueue::empty()),
        }
    }

    /// Returns the state of a worker.
    pub fn get(&self, worker: WorkerId) -> WorkerState
        ensures { slice_get self.now worker ≡ Some result }
    {
        self.table[worker.get()]
    }

    /// Returns whether anybody waits for an eventcount.
    pub fn has_waiters(&self, event: EventId) -> bool
        ensures { result ≡ list_any (waits_on event) self.now }
    {
        let queue = &self.queues[event.get()];
        !queue.is_empty()
    }

    /// Gives a worker a state in which it doesn't wait, and removes it from the queue that it is
    /// in.
    pub fn stop_waiting(&mut self, worker: WorkerId, state: WorkerState)
        requires { is_waiting state ≡ false }
        ensures states { self.new ≡ slice_set self.old worker state }
        ensures within { worker < length self.old }
    {
        let was = self.get(worker);
        remove_from_queue(&mut self.queues, was, worker);
        self.table[worker.get()] = state;
    }

    /// Makes a running worker a waiter.
    pub fn wait(&mut self, worker: WorkerId, event: EventId, threshold: u64)
        requires { slice_get self.old worker ≡ Some Running }
        ensures { self.new ≡ slice_set self.old worker (Waiting event threshold) }
    {
        insert_into_queue(&mut self.queues, event, Waiter { threshold, worker });
        self.table[worker.get()] = WorkerState::Waiting(event, threshold);
    }

    /// Releases the first waiter on an eventcount, if the total has reached its threshold. Returns
    /// whether it did.
    fn release_first(&mut self, event: EventId, total: u64) -> bool
        ensures yes { result ≡ true → LetsOneGo event total self.old self.new }
        ensures no { result ≡ false → (self.new ≡ self.old) × (map (state_at_total event total) self.old ≡ self.old) }
    {
        match pop_ready(&mut self.queues, event, total) {
            Some(waiter) => {
                self.table[waiter.worker.get()] = WorkerState::Running;
                true
            }
            None => false,
        }
    }

    /// Releases all waiters on an eventcount whose threshold the total has reached.
    pub fn release(&mut self, event: EventId, total: u64)
        ensures { self.new ≡ map (state_at_total event total) self.old }
    {
        while self.release_first(event, total) {}
    }

    /// Updates the states after the latest entry of a run. Its worker stops waiting, and an advance
    /// releases the waiters whose threshold the total has reached.
    pub fn note(&mut self, run: &Run, worker: WorkerId, act: &Act)
        requires { names_unknown_object run.now.setup act.now ≡ false }
        ensures states { self.new ≡ states_after_act act.now (past_of run.now) (slice_set self.old worker Running) }
        ensures within { worker < length self.old }
    {
        self.stop_waiting(worker, WorkerState::Running);
        if let Act::Advance(event) = *act {
            if let Some(total) = run.world().total(event) {
                self.release(event, total);
            }
        }
    }

    /// Returns whether some worker is active and every active worker waits.
    pub fn are_deadlocked(&self) -> bool
        ensures { result ≡ is_deadlocked self.now }
    {
        any_is_active(&self.table) && !any_is_running(&self.table)
    }
}

/// Removes a worker with this state from the queue that it is in.
fn remove_from_queue(queues: &mut [WaitQueue; 32], state: WorkerState, worker: WorkerId)
    ensures { queues.new ≡ remove_waiter state worker queues.old }
{
    if let WorkerState::Waiting(event, _) = state {
        queues[event.get()].remove(worker);
    }
}

/// Inserts a waiter into the queue of an eventcount.
fn insert_into_queue(queues: &mut [WaitQueue; 32], event: EventId, waiter: Waiter)
    requires { (queue : List Waiter) → slice_get queues.old event ≡ Some queue → length queue < 16 }
    ensures queue { queues.new ≡ map_at (insert_waiter waiter) queues.old event }
    ensures event { event < 32 }
{
    queues[event.get()].insert(waiter);
}

/// Removes and returns the first waiter on an eventcount, if the total has reached its threshold.
fn pop_ready(queues: &mut [WaitQueue; 32], event: EventId, total: u64) -> Option<Waiter>
    ensures first { (queue : List Waiter) → slice_get queues.old event ≡ Some queue → result ≡ first_ready total queue }
    ensures rest { queues.new ≡ map_at (λ queue. if is_some result then drop 1 queue else queue) queues.old event }
    ensures event { event < 32 }
{
    queues[event.get()].pop_ready(total)
}

/// Makes states in which the first `workers` workers run, and the others are gone.
fn initial_states(workers: usize) -> [WorkerState; 16]
    requires { workers ≤ 16 }
    ensures long { length result ≡ 16 }
    ensures each { (w : ℕ) → w < 16 → slice_get result w ≡ Some (if nat_lt w workers then Running else Gone) }
{
    let mut states = [WorkerState::Gone; 16];
    for w in 0..workers {
        states[w] = WorkerState::Running;
    }
    states
}

fn any_is_active(states: &[WorkerState]) -> bool
    ensures { result ≡ list_any is_active states.now }
{
    states.iter().any(|state| state.is_active())
}

fn any_is_running(states: &[WorkerState]) -> bool
    ensures { result ≡ list_any is_running states.now }
{
    states.iter().any(|state| state.is_running())
}
