//! A thread for each worker.
ghost use Rattle.std.specs.Prelude.{◌≡◌, ◌≢◌, ℕ, ◌+◌, ◌<◌, ◌≤◌, true, false, List, [], ◌∷◌, ◌++◌, length, Some, vec_len, vec_capacity};
ghost use Rattle.ec_core.specs.declared.act.Entry.{Entry};
ghost use Rattle.ec_core.specs.Procedures.{IsReply};
ghost use Rattle.ec_machine.specs.declared.command.Command.{Command};
ghost use Rattle.ec_machine.specs.declared.outcome.Outcome.TheVariants.{Memory, OutOfTurns};
ghost use Rattle.ec_machine.specs.Outcomes.{is_running, is_external, outcome_after_refusal};
ghost use Rattle.ec_machine.specs.Standing.{due_act, machine_outcome};
ghost use Rattle.ec_runner.specs.declared.summary.LastRequest.{LastRequest};
ghost use Rattle.ec_runner.specs.kept.Holds.{FitsAct, IsTaken, is_sleep};
ghost use Rattle.ec_runner.specs.WorkPromises.{IsFor, AreFor};
ghost use Rattle.ec_runner.specs.Works.{IsStop, Works, HasHad, IsAsked, IsSummaryOf};

use crate::board::Board;
use crate::ending::nth_worker;
use crate::gate::Gate;
use crate::holding::{Next, hold, leave};
use crate::summary::{LastRequest, Summary};
use crate::work_promise::WorkPromise;
use ec_core::{Act, Entry, Reply};
use ec_count::WorkerId;
use ec_machine::{Machine, Outcome, Program};
use std::alloc::{AllocError, Global};
use std::sync::{Condvar, Mutex, MutexGuard, Wait};
use std::thread;
use std::thread::{PromisedHandle, Scope};

/// What the threads share: the board under its lock, a condition variable for each worker, the
/// gate, and how many steps a worker may ask for.
pub(crate) struct SharedState<'a, G> {
    pub board: &'a Mutex<Board>,
    pub condvars: &'a [Condvar; 16],
    pub gate: &'a G,
    pub turns: u64,
    pub alloc: Global,
}

impl<G> Clone for SharedState<'_, G> {
    fn clone(&self) -> Result<Self, AllocError> {
        Ok(*self)
    }
}

impl<G> Copy for SharedState<'_, G> {}

/// How often a worker that finds the lock held yields before it blocks.
const YIELDS: u32 = 30;

/// Acquires the lock. A critical section takes a fraction of a microsecond, and to block a thread
/// and wake it costs more than many of them. So a worker that finds the lock held yields and tries
/// again, and blocks only if the lock was held each time.
fn lock_board<'b, R: Wait>(rt: &R, board: &'b Mutex<Board>) -> MutexGuard<'b, Board> {
    for _ in 0..YIELDS {
        if let Some(guard) = board.try_lock() {
            return guard;
        }
        thread::yield_now();
    }
    board.lock(rt)
}

/// Wakes these workers.
fn wake(condvars: &[Condvar], woken: &[bool]) {
    for (condvar, is_woken) in condvars.iter().zip(woken) {
        if *is_woken {
            condvar.notify_one();
        }
    }
}

/// Runs one critical section and, if the worker is to wait, the sleep. In its last turn a worker
/// doesn't wait; its steps so far are in its log. Others are woken once the lock is free; a worker
/// that goes to sleep wakes nobody.
fn step_under_lock<R: Wait, G>(
    rt: &R,
    shared: SharedState<'_, G>,
    worker: WorkerId,
    act: Act,
    log: &[Entry],
) -> Next
    ensures kind { FitsAct result act }
    ensures last { is_sleep result ≡ true → length log.now + 1 < shared.entry.turns }
{
    let condvars = shared.condvars;
    let may_park = (log.len() as u64) < shared.turns.saturating_sub(1);
    let mut guard = lock_board(rt, shared.board);
    let held = hold(&mut *guard, worker, act, may_park);
    match held.next {
        Next::Sleep(_) => {
            let condvar = &condvars[worker.get()];
            let _guard = condvar.wait_while(rt, guard, |board| board.is_asleep(worker));
        }
        Next::GoOn(_) | Next::Leave(_, _) => {
            drop(guard);
            if let Some(woken) = held.woken {
                wake(condvars, &woken);
            }
        }
    }
    held.next
}

/// Makes the worker leave the board, and wakes the others if they are deadlocked by that.
fn leave_under_lock<R: Wait, G>(rt: &R, shared: SharedState<'_, G>, worker: WorkerId) {
    let condvars = shared.condvars;
    let mut guard = lock_board(rt, shared.board);
    let woken = leave(&mut *guard, worker);
    drop(guard);
    wake(condvars, &woken);
}

/// Returns whether a step is due.
fn is_running(machine: &Machine<'_>) -> bool
    ensures { result ≡ is_running (machine_outcome machine.now) }
{
    machine.next().is_some()
}

/// Ends a running program at a step that got no reply.
fn stop(machine: &mut Machine<'_>, outcome: Outcome)
    requires stop { IsStop outcome }
    requires running { is_running (machine_outcome machine.old) ≡ true }
    ensures outcome { machine_outcome machine.new ≡ outcome }
    ensures works { (cs : List Command) (log : List Entry) → Works cs machine.old log → Works cs machine.new log }
    ensures had { (log : List Entry) → HasHad (length log + 1) machine.new log }
{
    machine.refuse(outcome);
}

/// Takes the reply to a step, whose entry is added to the log.
fn take(machine: &mut Machine<'_>, log: &mut Vec<Entry>, worker: WorkerId, act: &Act, reply: Reply)
    requires room { vec_len log.old < vec_capacity log.old }
    requires due { due_act machine.old ≡ Some act.now }
    requires kind { IsReply act.now reply }
    ensures works { (cs : List Command) → Works cs machine.old log.old.items → Works cs machine.new log.new.items }
    ensures unset { is_external (machine_outcome machine.new) ≡ false }
    ensures entry { log.new.items ≡ log.old.items ++ record { worker = worker; act = act.now; reply = reply } ∷ [] }
    ensures len { vec_len log.new ≡ vec_len log.old + 1 }
{
    log.push_reserved(Entry {
        worker,
        act: *act,
        reply,
    });
    machine.take(reply);
}

/// Takes the result of a step: the reply, or the end of the program. Returns what was asked for, if
/// there was no reply.
fn take_next(
    machine: &mut Machine<'_>,
    log: &mut Vec<Entry>,
    worker: WorkerId,
    act: &Act,
    next: &Next,
) -> Option<LastRequest>
    requires room { vec_len log.old < vec_capacity log.old }
    requires due { due_act machine.old ≡ Some act.now }
    requires running { is_running (machine_outcome machine.old) ≡ true }
    requires kind { FitsAct next.now act.now }
    ensures taken { IsTaken next.now worker act.now log.old.items log.new.items (machine_outcome machine.new) result }
    ensures works { (cs : List Command) → Works cs machine.old log.old.items → Works cs machine.new log.new.items }
    ensures had { HasHad (length log.old.items + 1) machine.new log.new.items }
    ensures asked { (cs : List Command) → Works cs machine.old log.old.items → IsAsked (machine_outcome machine.new) cs log.new.items result }
{
    match *next {
        Next::GoOn(reply) | Next::Sleep(reply) => {
            take(machine, log, worker, act, reply);
            None
        }
        Next::Leave(outcome, moment) => {
            stop(machine, outcome);
            Some(LastRequest { act: *act, moment })
        }
    }
}

/// Makes the step that the program asks for; the log has room for its entry. Returns what was asked
/// for, if there was no reply.
fn make_step<R: Wait, G>(
    rt: &R,
    shared: SharedState<'_, G>,
    worker: WorkerId,
    machine: &mut Machine<'_>,
    log: &mut Vec<Entry>,
) -> Option<LastRequest>
    requires room { vec_len log.old < vec_capacity log.old }
    requires running { is_running (machine_outcome machine.old) ≡ true }
    ensures works { (cs : List Command) → Works cs machine.old log.old.items → Works cs machine.new log.new.items }
    ensures had { HasHad (length log.old.items + 1) machine.new log.new.items }
    ensures asked { (cs : List Command) → Works cs machine.old log.old.items → IsAsked (machine_outcome machine.new) cs log.new.items result }
{
    let act = machine.next()?;
    let next = step_under_lock(rt, shared, worker, act, log.as_slice());
    take_next(machine, log, worker, &act, &next)
}

/// Makes one turn of a worker: the log grows, then comes the step that the program asks for.
/// `steps` counts the steps that it has asked for. Returns what was asked for, if there was no
/// reply.
fn take_turn<R: Wait, G: Gate>(
    rt: &R,
    shared: SharedState<'_, G>,
    worker: WorkerId,
    steps: &mut u64,
    machine: &mut Machine<'_>,
    log: &mut Vec<Entry>,
) -> Option<LastRequest>
    requires turns { steps.old < shared.turns }
    requires made { steps.old ≡ length log.old.items }
    requires running { is_running (machine_outcome machine.old) ≡ true }
    ensures steps { steps.new ≤ steps.old + 1 }
    ensures counted { machine_outcome machine.new ≢ Memory → steps.new ≡ steps.old + 1 }
    ensures works { (cs : List Command) → Works cs machine.old log.old.items → Works cs machine.new log.new.items }
    ensures had { HasHad (length log.old.items + 1) machine.new log.new.items }
    ensures asked { (cs : List Command) → Works cs machine.old log.old.items → IsAsked (machine_outcome machine.new) cs log.new.items result }
{
    if log.reserve(1).is_err() {
        stop(machine, Outcome::Memory);
        return None;
    }
    shared.gate.before(worker, *steps);
    *steps += 1;
    make_step(rt, shared, worker, machine, log)
}

/// Returns the summary of a worker that has ended. A program that is still running is out of turns.
fn summarize(log: Vec<Entry>, mut machine: Machine<'_>, asked: Option<LastRequest>) -> Summary
    ensures outcome { result.outcome
        ≡ outcome_after_refusal (machine_outcome machine.entry) OutOfTurns }
    ensures tells { (cs : List Command) (turns : ℕ) → Works cs machine.entry log.items → HasHad turns machine.entry log.items
        → IsAsked (machine_outcome machine.entry) cs log.items asked → IsSummaryOf cs turns result }
{
    machine.refuse(Outcome::OutOfTurns);
    Summary {
        log,
        outcome: machine.outcome(),
        asked,
    }
}

/// Runs a worker's program to its end, or until the worker is out of turns.
fn work_through<R: Wait, G: Gate>(
    rt: &R,
    shared: SharedState<'_, G>,
    worker: WorkerId,
    program: &Program,
) -> Summary
    ensures { IsSummaryOf program.now shared.entry.turns result }
{
    let mut machine = Machine::new(program);
    let mut log = Vec::new(shared.alloc);
    let mut steps = 0;
    let mut asked = None;
    for _ in 0..shared.turns {
        if !is_running(&machine) {
            break;
        }
        asked = take_turn(rt, shared, worker, &mut steps, &mut machine, &mut log);
    }
    shared.gate.before(worker, steps);
    summarize(log, machine, asked)
}

/// Runs a worker to its end, in a thread of its own, and makes it leave the board.
fn work<R: Wait, G: Gate>(
    rt: &R,
    shared: SharedState<'_, G>,
    place: usize,
    program: &Program,
) -> Summary
    requires { place < 16 }
    ensures { IsSummaryOf program.now shared.entry.turns result }
{
    let worker = nth_worker(place);
    let summary = work_through(rt, shared, worker, program);
    leave_under_lock(rt, shared, worker);
    summary
}

/// Starts a thread for a program. Returns `None` if it could not be started; its worker then
/// leaves.
fn start_worker<'s, E: 's, R: Wait + Sync, G: Gate + Sync>(
    rt: &'s R,
    scope: &Scope<'s, E>,
    shared: SharedState<'s, G>,
    place: usize,
    program: &'s Program,
) -> Option<PromisedHandle<Summary, WorkPromise<'s>>>
    requires { place < 16 }
    ensures { IsFor result program.now shared.entry.turns }
{
    let worker = nth_worker(place);
    let turns = shared.turns;
    let job = move || -> Summary
        requires { place < 16 }
        ensures { IsSummaryOf program.entry.now shared.entry.turns result }
    { work(rt, shared, place, program) };
    match scope.spawn_with(WorkPromise { program, turns }, job) {
        Ok(handle) => Some(handle),
        Err(_refused) => {
            leave_under_lock(rt, shared, worker);
            None
        }
    }
}

/// Starts a thread for each program.
pub(crate) fn start_each<'s, E: 's, R: Wait + Sync, G: Gate + Sync>(
    rt: &'s R,
    scope: &Scope<'s, E>,
    shared: SharedState<'s, G>,
    programs: &'s [Program],
    room: Vec<Option<PromisedHandle<Summary, WorkPromise<'s>>>>,
) -> Vec<Option<PromisedHandle<Summary, WorkPromise<'s>>>>
    requires few { length programs.now ≤ 16 }
    requires room { length programs.now ≤ vec_capacity room }
    requires none { room.items ≡ [] }
    ensures { AreFor result.items programs.now shared.entry.turns }
{
    let mut handles = room;
    for program in programs {
        let handle = start_worker(rt, scope, shared, handles.len(), program);
        handles.push_reserved(handle);
    }
    handles
}
