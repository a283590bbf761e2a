//! One critical section of a worker on the board.
ghost use Rattle.std.specs.Prelude.{◌≡◌, ◌≢◌, ℕ, ◌<◌, ◌==◌, ◌&&◌, not, true, false, length, Some, None, slice_get};
ghost use Rattle.ec_core.specs.Calls.{is_pending};
ghost use Rattle.ec_runner.specs.declared.worker_state.WorkerState.TheVariants.{Gone};
ghost use Rattle.ec_runner.specs.WorkerStates.{is_active, is_waiting, worker_state};
ghost use Rattle.ec_runner.specs.BoardModel.{BoardModel, with_worker_state};
ghost use Rattle.ec_runner.specs.kept.Holds.{is_asleep, is_awaited, is_sleep, is_woken, park, AreWoken, IsNext, FitsAct};

use crate::board::{Board, BoardFault};
use crate::ending::nth_worker;
use ec_core::{Act, Reply};
use ec_count::WorkerId;
use ec_machine::Outcome;

/// What a worker does after it has asked the board for a step. It goes on with the reply, or sleeps
/// and then goes on with it. If it got no reply it leaves; the number is how many entries the run
/// had.
#[derive(Clone, Copy)]
pub(crate) enum Next {
    GoOn(Reply),
    Sleep(Reply),
    Leave(Outcome, usize),
}

/// The result of a critical section: what its worker does next, and which others are to be woken,
/// if any are.
#[derive(Clone, Copy)]
pub(crate) struct SectionOutcome {
    pub next: Next,
    pub woken: Option<[bool; 16]>,
}

/// Returns, for each worker, whether it is to sleep.
fn sleeping_workers(board: &Board) -> [bool; 16]
    ensures long { length result ≡ 16 }
    ensures each { (v : ℕ) → v < 16 → slice_get result v ≡ Some (is_asleep board.now v) }
{
    let mut table = [false; 16];
    for v in 0..16 {
        table[v] = board.is_asleep(nth_worker(v));
    }
    table
}

/// Returns whether the worker at a place is another one that slept before and is not to sleep any
/// more.
fn is_woken(before: &[bool], board: &Board, worker: WorkerId, place: usize) -> bool
    requires { place < 16 }
    ensures { (b : BoardModel) → ((v : ℕ) → v < 16 → slice_get before.now v ≡ Some (is_asleep b v)) → result ≡ is_woken b worker board.now place }
{
    let Some(slept) = before.get(place) else {
        return false;
    };
    place != worker.get() && *slept && !board.is_asleep(nth_worker(place))
}

/// Returns which other workers slept before and are not to sleep any more.
fn workers_to_wake(before: &[bool], board: &Board, worker: WorkerId) -> [bool; 16]
    ensures { (b : BoardModel) → ((v : ℕ) → v < 16 → slice_get before.now v ≡ Some (is_asleep b v))
        → (v : ℕ) → v < 16 → slice_get result v ≡ Some (is_woken b worker board.now v) }
{
    let mut table = [false; 16];
    for v in 0..16 {
        table[v] = is_woken(before, board, worker, v);
    }
    table
}

/// Returns which other workers wait.
fn waiting_workers(board: &Board, worker: WorkerId) -> [bool; 16]
    ensures { (v : ℕ) → v < 16 → slice_get result v ≡ Some (not (v == worker) && is_waiting (worker_state board.now.states v)) }
{
    let mut table = [false; 16];
    for v in 0..16 {
        table[v] = v != worker.get() && board.is_waiting(nth_worker(v));
    }
    table
}

/// Makes the worker a waiter, if it has something to wait for.
fn park(board: &mut Board, worker: WorkerId)
    requires { board.old.deadlocked ≡ false }
    ensures { board.new ≡ park board.old worker }
{
    board.park(worker);
}

/// Makes the step. If the reply is `Pending` and the worker may wait, parks it.
fn step(board: &mut Board, worker: WorkerId, act: Act, may_park: bool) -> Next
    ensures next { IsNext result board.old worker act may_park board.new }
    ensures kind { FitsAct result act }
{
    match board.step(worker, act) {
        Ok(reply) => {
            if may_park && reply.is_pending() {
                park(board, worker);
            }
            if board.is_asleep(worker) {
                Next::Sleep(reply)
            } else {
                Next::GoOn(reply)
            }
        }
        Err(BoardFault::Stopped) => Next::Leave(Outcome::Stopped, board.run().len()),
        Err(BoardFault::Memory) => Next::Leave(Outcome::Memory, board.run().len()),
        Err(BoardFault::Refused(refusal)) => {
            Next::Leave(Outcome::Refused(refusal), board.run().len())
        }
    }
}

/// Returns which workers are woken if the states of the others are unchanged: none, or, if the
/// board has become deadlocked, all others that wait.
fn wake_if_deadlocked(was_stuck: bool, board: &Board, worker: WorkerId) -> Option<[bool; 16]>
    ensures none { board.now.deadlocked ≡ false → result ≡ None }
    ensures woken { (b : BoardModel) → b.deadlocked ≡ was_stuck → ((v : ℕ) → worker ≢ v → slice_get board.now.states v ≡ slice_get b.states v)
        → AreWoken result b worker board.now }
{
    if was_stuck {
        return None;
    }
    if !board.is_deadlocked() {
        return None;
    }
    Some(waiting_workers(board, worker))
}

/// Makes an advance of an eventcount that somebody waits for, and returns whom it wakes. Its worker
/// doesn't go to sleep.
fn advance(board: &mut Board, worker: WorkerId, act: Act, may_park: bool) -> SectionOutcome
    requires { is_awaited act board.old.states ≡ true }
    ensures awake { is_sleep result.next ≡ false }
    ensures next { IsNext result.next board.old worker act may_park board.new }
    ensures kind { FitsAct result.next act }
    ensures woken { AreWoken result.woken board.old worker board.new }
{
    let before = sleeping_workers(board);
    let next = step(board, worker, act, may_park);
    let woken = Some(workers_to_wake(&before, board, worker));
    SectionOutcome { next, woken }
}

/// Runs one critical section: a step, and then the wait, if an await fell short and the worker may
/// wait. Others are woken only by an advance of an eventcount that somebody waits for, and by a
/// wait that makes the board deadlocked. Only then are the sleeping workers looked up. A worker
/// that goes to sleep wakes nobody, and sleeps only if `may_park`.
pub(crate) fn hold(board: &mut Board, worker: WorkerId, act: Act, may_park: bool) -> SectionOutcome
    ensures last { is_sleep result.next ≡ true → may_park ≡ true }
    ensures none { is_sleep result.next ≡ true → result.woken ≡ None }
    ensures next { IsNext result.next board.old worker act may_park board.new }
    ensures kind { FitsAct result.next act }
    ensures woken { AreWoken result.woken board.old worker board.new }
{
    if board.is_awaited(&act) {
        return advance(board, worker, act, may_park);
    }
    let was_stuck = board.is_deadlocked();
    let next = step(board, worker, act, may_park);
    let woken = wake_if_deadlocked(was_stuck, board, worker);
    SectionOutcome { next, woken }
}

/// Makes the worker leave the board, and returns which others are to be woken.
pub(crate) fn leave(board: &mut Board, worker: WorkerId) -> [bool; 16]
    ensures gone { is_active (worker_state board.old.states worker) ≡ true → board.new ≡ with_worker_state board.old worker Gone }
    ensures same { is_active (worker_state board.old.states worker) ≡ false
        → board.new ≡ board.old }
    ensures woken { (v : ℕ) → v < 16 → slice_get result v ≡ Some (is_woken board.old worker board.new v) }
{
    let before = sleeping_workers(board);
    board.leave(worker);
    workers_to_wake(&before, board, worker)
}
