//! The board that workers share under one lock.
ghost use Rattle.std.specs.Prelude.{◌≡◌, ℕ, ◌<◌, ◌++◌, ◌∷◌, true, false, [], Some, None, Ok, IfOk, OnErr, MatchResult, if◌then◌else◌, nat_lt, slice_get, length};
ghost use Rattle.ec_core.specs.Values.{TellsAtMost};
ghost use Rattle.ec_core.specs.Procedures.{IsReply};
ghost use Rattle.ec_runner.specs.declared.wait.Wait.{Wait};
ghost use Rattle.ec_runner.specs.declared.worker_state.WorkerState.TheVariants.{Gone, Running, Waiting};
ghost use Rattle.ec_runner.specs.WorkerStates.{is_active, is_waiting, worker_state, states_after_act};

use crate::WorkerState;
use crate::wait::{Wait, unmet_await};
use crate::worker_states::WorkerStates;
use ec_core::{Act, Refusal, Reply, Run, StepFault, VALUE_MAX};
use ec_count::{Setup, WorkerId};
use std::alloc::{AllocError, Global};
use std::marker::Model;
use thiserror::Error;

/// Why a board makes no step. The first of these that holds, in this order, is reported, and the
/// board is unchanged.
#[derive(Clone, Copy, Debug, PartialEq, Eq, Error)]
pub enum BoardFault {
    /// The board is deadlocked, or the worker is a declared one that has left.
    #[error("the worker is stopped")]
    Stopped,
    /// The step is refused.
    #[error("the step is refused: {0}")]
    Refused(Refusal),
    /// The step is not refused, and there was no memory for its entry.
    #[error("there was no memory for the step's entry")]
    Memory,
}

/// What `Board::park` did.
#[derive(Clone, Copy, Debug, PartialEq, Eq)]
pub enum ParkOutcome {
    /// The board is deadlocked: every active worker waits, for good.
    Stuck,
    /// The worker has nothing to wait for.
    Ready,
    /// The worker waits, and may still be released.
    Asleep,
}

/// A run, the state of each of its workers, and whether the board is deadlocked. A waiter's latest
/// entry ended a round of an await that fell short, and the total is still below the threshold.
#[derive(Drop)]
pub struct Board {
    run: Run,
    states: WorkerStates,
    deadlocked: bool,
}

impl Model for Board {
    ghost use Rattle.ec_runner.specs.BoardModel.{BoardModel, AreWaiters};

    ghost Value = { BoardModel };

    ghost view = { λ b. record { run = b.run; states = b.states; deadlocked = b.deadlocked } };

    ghost invariant = { λ b. AreWaiters (record { run = b.run; states = b.states; deadlocked = b.deadlocked }) };
}

ghost use Rattle.ec_runner.specs.BoardModel.{AreWaiters, IsBoardFault, wait_of, with_worker_state, after_entry, is_stopped, has_left, answer_on};

impl Board {
    ghost use Rattle.ec_runner.specs.kept.Holds.{is_asleep, is_awaited};

    /// Makes a board with an empty run on these declarations. Every declared worker is active, and
    /// nobody waits. If there is no memory, the declarations are dropped.
    pub fn open(alloc: Global, setup: Setup) -> Result<Self, AllocError>
        ensures run { IfOk result (λ b. b.run ≡ record { setup = setup; entries = [] }) }
        ensures states { IfOk result (λ b. (w : ℕ) → w < 16 → slice_get b.states w ≡ Some (if nat_lt w setup.workers then Running else Gone)) }
        ensures deadlocked { IfOk result (λ b. b.deadlocked ≡ false) }
    {
        let workers = setup.workers();
        let run = Run::open(alloc, setup)?;
        Ok(Board {
            run,
            states: WorkerStates::open(workers),
            deadlocked: false,
        })
    }

    /// States what is true of the active workers and of the waiters of a board. For example, every
    /// active worker is declared.
    pub fn invariant(&self)
        ensures { AreWaiters self.now }
    {
        let _ = &self.run;
    }

    /// Makes one step, whose entry is added to the run. The worker stops waiting, and an advance
    /// releases the waiters whose threshold the total has reached.
    pub fn step(&mut self, worker: WorkerId, act: Act) -> Result<Reply, BoardFault>
        ensures answer { MatchResult result
            (λ reply. (is_stopped self.old worker ≡ false) × (answer_on self.old worker act ≡ Ok reply))
            (λ fault. IsBoardFault fault self.old worker act) }
        ensures ok { IfOk result (λ reply. self.new ≡ after_entry self.old (record { worker = worker; act = act; reply = reply })) }
        ensures small { IfOk result (TellsAtMost VALUE_MAX) }
        ensures kind { IfOk result (IsReply act) }
        ensures err { OnErr result (self.new ≡ self.old) }
    {
        if self.deadlocked || self.has_left(worker) {
            return Err(BoardFault::Stopped);
        }
        let reply = match self.run.step(worker, act) {
            Ok(reply) => reply,
            Err(StepFault::Refused(refusal)) => return Err(BoardFault::Refused(refusal)),
            Err(StepFault::Memory) => return Err(BoardFault::Memory),
        };
        self.states.note(&self.run, worker, &act);
        Ok(reply)
    }

    /// Makes a worker a waiter, if it is active and has something to wait for. Allocates nothing.
    pub fn park(&mut self, worker: WorkerId) -> ParkOutcome
        ensures deadlocked { self.old.deadlocked ≡ true → (result ≡ ParkOutcome.Stuck)
            × (self.new ≡ self.old) }
        ensures ready { self.old.deadlocked ≡ false → wait_of self.old worker ≡ None → (result ≡ ParkOutcome.Ready) × (self.new ≡ self.old) }
        ensures waits { (a : Wait) → self.old.deadlocked ≡ false → wait_of self.old worker ≡ Some a
            → (self.new ≡ with_worker_state self.old worker (Waiting a.event a.threshold)) × (result ≡ (if self.new.deadlocked then ParkOutcome.Stuck else ParkOutcome.Asleep)) }
    {
        if self.deadlocked {
            return ParkOutcome::Stuck;
        }
        let Some(wait) = self.wait_of(worker) else {
            return ParkOutcome::Ready;
        };
        self.states.stop_waiting(worker, WorkerState::Running);
        self.states.wait(worker, wait.event, wait.threshold);
        self.deadlocked = self.states.are_deadlocked();
        if self.deadlocked {
            ParkOutcome::Stuck
        } else {
            ParkOutcome::Asleep
        }
    }

    /// Makes an active worker leave for good, and stop waiting. If others are left and all of them
    /// wait, the board is deadlocked. Allocates nothing.
    pub fn leave(&mut self, worker: WorkerId)
        ensures gone { is_active (worker_state self.old.states worker) ≡ true → self.new ≡ with_worker_state self.old worker Gone }
        ensures same { is_active (worker_state self.old.states worker) ≡ false
            → self.new ≡ self.old }
    {
        if !self.is_active(worker) {
            return;
        }
        self.states.stop_waiting(worker, WorkerState::Gone);
        self.deadlocked = self.deadlocked || self.states.are_deadlocked();
    }

    /// Returns the run so far.
    pub fn run(&self) -> &Run
        ensures { result.now ≡ self.now.run }
    {
        &self.run
    }

    /// Consumes the board and returns its run.
    pub fn into_run(self) -> Run
        ensures { result ≡ self.run }
    {
        self.run
    }

    /// Returns whether the worker is a declared one that has not left.
    pub fn is_active(&self, worker: WorkerId) -> bool
        ensures { result ≡ is_active (worker_state self.now.states worker) }
    {
        self.states.get(worker).is_active()
    }

    /// Returns whether the worker waits.
    pub fn is_waiting(&self, worker: WorkerId) -> bool
        ensures { result ≡ is_waiting (worker_state self.now.states worker) }
    {
        self.states.get(worker).is_waiting()
    }

    /// Returns whether the board is deadlocked: at some moment some worker was active, and every
    /// active worker waited. Nobody makes a step from then on.
    pub fn is_deadlocked(&self) -> bool
        ensures { result ≡ self.now.deadlocked }
    {
        self.deadlocked
    }

    /// Returns whether the worker waits and may still be released.
    pub(crate) fn is_asleep(&self, worker: WorkerId) -> bool
        ensures { result ≡ is_asleep self.now worker }
    {
        self.is_waiting(worker) && !self.deadlocked
    }

    /// Returns whether somebody waits for the eventcount that an act advances.
    pub(crate) fn is_awaited(&self, act: &Act) -> bool
        ensures { result ≡ is_awaited act.now self.now.states }
    {
        match act {
            Act::Advance(event) => self.states.has_waiters(*event),
            _ => false,
        }
    }

    fn has_left(&self, worker: WorkerId) -> bool
        ensures { result ≡ has_left self.now worker }
    {
        worker.get() < self.run.setup().workers() && !self.is_active(worker)
    }

    fn wait_of(&self, worker: WorkerId) -> Option<Wait>
        ensures { result ≡ wait_of self.now worker }
    {
        if !self.is_active(worker) {
            return None;
        }
        unmet_await(&self.run, worker)
    }
}
