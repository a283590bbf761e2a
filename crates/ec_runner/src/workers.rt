//! Workers on threads of their own.
ghost use Rattle.std.specs.Prelude.{◌≡◌, ℕ, ◌≤◌, map, length, Err, IfOk, IfErr, MatchResult};
ghost use Rattle.ec_runner.specs.Fits.{AllFit, IsVerdict};
ghost use Rattle.ec_runner.specs.WorkPromises.{IsJoinResult, IsOneMore, AreJoinResults, AreSummariesOf, IsThreadFault};
ghost use Rattle.ec_runner.specs.RunReports.{IsReportOf, NamesDeclared};
ghost use Rattle.ec_runner.specs.RunFaults.{IsRunFault};

use crate::board::Board;
use crate::gate::Gate;
use crate::mismatch::find_mismatch;
use crate::report::Report;
use crate::run_fault::RunFault;
use crate::summary::Summary;
use crate::threads::{SharedState, start_each};
use crate::work_promise::WorkPromise;
use ec_core::Run;
use ec_count::Setup;
use ec_machine::Program;
use ec_script::Plan;
use std::alloc::{AllocError, Global};
use std::sync::{Condvar, Mutex, Wait};
use std::thread;
use std::thread::{PromisedHandle, Scope, Threads};

/// Returns the report of a run and its workers' summaries.
fn report_of_summaries(
    alloc: Global,
    run: Run,
    summaries: Vec<Summary>,
) -> Result<Report, AllocError>
    ensures run { IfOk result (λ r. r.run ≡ run) }
    ensures logs { IfOk result (λ r. r.logs.items ≡ map (λ t. t.log) summaries.items) }
    ensures outcomes { IfOk result (λ r. r.outcomes.items ≡ map (λ t. t.outcome) summaries.items) }
{
    let mut logs = Vec::new(alloc);
    let mut outcomes = Vec::new(alloc);
    for summary in summaries {
        logs.push(summary.log)?;
        outcomes.push(summary.outcome)?;
    }
    Ok(Report {
        run,
        logs,
        outcomes,
    })
}

/// Adds the summary of one more worker. A thread that was not started is reported rather than out
/// of memory.
fn push_summary(
    summaries: Result<Vec<Summary>, RunFault>,
    summary: Option<Summary>,
) -> Result<Vec<Summary>, RunFault>
    ensures { IsOneMore summaries summary result }
{
    let Some(summary) = summary else {
        return Err(RunFault::Spawn);
    };
    let mut summaries = summaries?;
    match summaries.push(summary) {
        Ok(()) => Ok(summaries),
        Err(_) => Err(RunFault::Memory),
    }
}

/// Joins a thread and returns its summary, if the thread was started.
fn join_worker<R: Threads>(
    rt: &R,
    handle: Option<PromisedHandle<Summary, WorkPromise<'_>>>,
) -> Option<Summary>
    ensures { IsJoinResult handle.entry result }
{
    match handle {
        Some(handle) => Some(handle.join(rt)),
        None => None,
    }
}

/// Joins all threads, and returns the summaries of their workers in order.
fn join_each<R: Threads>(
    rt: &R,
    alloc: Global,
    handles: Vec<Option<PromisedHandle<Summary, WorkPromise<'_>>>>,
) -> Result<Vec<Summary>, RunFault>
    ensures { AreJoinResults handles.entry.items result }
{
    let mut summaries = Ok(Vec::new(alloc));
    for handle in handles {
        let summary = join_worker(rt, handle);
        summaries = push_summary(summaries, summary);
    }
    summaries
}

/// Starts a thread for each program, and joins them all.
fn start_and_join<'s, E: 's, R: Threads + Wait + Sync, G: Gate + Sync>(
    rt: &'s R,
    scope: &Scope<'s, E>,
    board: &'s Mutex<Board>,
    condvars: &'s [Condvar; 16],
    programs: &'s [Program],
    gate: &'s G,
    turns: u64,
    alloc: Global,
) -> Result<Vec<Summary>, RunFault>
    requires { length programs.now ≤ 16 }
    ensures { MatchResult result (λ v. AreSummariesOf programs.now turns v.items) IsThreadFault }
{
    let Ok(room) = Vec::with_capacity(alloc, programs.len()) else {
        return Err(RunFault::Memory);
    };
    let shared = SharedState {
        board,
        condvars,
        gate,
        turns,
        alloc,
    };
    let handles = start_each(rt, scope, shared, programs, room);
    join_each(rt, alloc, handles)
}

/// Runs each program in a thread of its own, all at once, on one board. Returns the board's run,
/// once all threads have ended, and their summaries.
fn run_threads<R: Threads + Wait + Sync, G: Gate + Sync>(
    rt: &R,
    alloc: Global,
    setup: &Setup,
    programs: &[Program],
    gate: &G,
    turns: u64,
) -> Result<(Run, Vec<Summary>), RunFault>
    requires { length programs.now ≤ 16 }
    ensures { MatchResult result (λ r. AreSummariesOf programs.now turns r.1.items) IsThreadFault }
{
    let Ok(board) = Board::open(alloc, setup.copy()) else {
        return Err(RunFault::Memory);
    };
    let board = Mutex::new(board);
    let condvars: [Condvar; 16] = std::array::from_fn(|_| Condvar::new());
    let lock = &board;
    let shared_condvars = &condvars;
    let summaries = thread::scope(
        thread::scope_env(),
        rt,
        |scope| -> Result<Vec<Summary>, RunFault>
            requires { length programs.now ≤ 16 }
            ensures { MatchResult result (λ v. AreSummariesOf programs.entry.now turns v.items)
                IsThreadFault }
        {
            start_and_join(
                rt,
                scope,
                lock,
                shared_condvars,
                programs,
                gate,
                turns,
                alloc,
            )
        },
    )?;
    Ok((board.into_inner().into_run(), summaries))
}

/// Returns the report of a run, if the workers' summaries fit it, and otherwise the mismatch.
fn report_or_mismatch(
    alloc: Global,
    setup: &Setup,
    run: Run,
    summaries: Vec<Summary>,
) -> Result<Report, RunFault>
    requires few { length summaries.items ≤ 16 }
    requires each { length summaries.items ≡ setup.now.workers }
    ensures { IsVerdict result setup.now run summaries.items }
{
    if let Some(worker) = find_mismatch(setup, &run, summaries.as_slice()) {
        return Err(RunFault::Mismatch(worker));
    }
    match report_of_summaries(alloc, run, summaries) {
        Ok(report) => Ok(report),
        Err(_) => Err(RunFault::Memory),
    }
}

/// Runs the programs of a parsed script, each worker's in a thread of its own, all at once, on one
/// board under one lock. The script's schedule is not used. A turn is one step that a worker asks
/// the board for, in one critical section, and no worker has more than `turns`. A worker whose
/// await has fallen short sleeps, unless that was its last turn. It sleeps until the total has
/// reached its threshold, or until every active worker waits. The gate is called before each
/// critical section. When all have ended, their logs and outcomes are compared with the run: a
/// mismatch names a declared worker. `Spawn` is reported rather than out of memory for the
/// summaries.
pub fn run_workers<R: Threads + Wait + Sync, G: Gate + Sync>(
    rt: &R,
    alloc: Global,
    plan: &Plan,
    gate: &G,
    turns: u64,
) -> Result<Report, RunFault>
    requires { length plan.now.programs.items ≡ plan.now.heading.setup.workers }
    ensures report { IfOk result (IsReportOf plan.now.heading.setup plan.now.programs.items turns) }
    ensures named { IfErr result (NamesDeclared plan.now.heading.setup) }
    ensures fault { IfErr result (IsRunFault plan.now.heading.setup plan.now.programs.items turns) }
{
    let setup = plan.heading.setup();
    setup.invariant();
    match run_threads(rt, alloc, setup, plan.programs.as_slice(), gate, turns) {
        Ok((run, summaries)) => report_or_mismatch(alloc, setup, run, summaries),
        Err(fault) => Err(fault),
    }
}
