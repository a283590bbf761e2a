//! The command `run`: reads a script, runs its workers on threads, and writes their trace and, in
//! the notes, their outcomes.
ghost use Rattle.std.specs.Prelude.{◌≡◌, ℕ, IfSome, length};
ghost use Rattle.std.specs.List.{list_any};
ghost use Rattle.ec_text.specs.Puts.{Puts, IsWrittenOut};
ghost use Rattle.ec_script.specs.Outcome.{shown_plan};
ghost use Rattle.ec_script.specs.Confined.{IsPlan};
ghost use Rattle.ec_runner.specs.RunReports.{IsReportOf};
ghost use Rattle.evc_scripts.specs.Runs.{RunEnds, Runs, status_for, is_memory, is_cut_short, run_fault_status, run_fault_note};

use crate::outcomes::{note_kind, note_mismatch};
use crate::writing::write_run;
use ec_machine::Outcome;
use ec_runner::{OpenGate, Report, RunFault, run_workers};
use ec_script::{Plan, SCRIPT_MAX, ScriptFault, parse};
use ec_text::{Input, Output, read_up_to};
use ec_trace::Heading;
use evc_engine::Status;
use std::alloc::Global;
use std::io::{Read, Write};
use std::sync::Wait;
use std::thread::Threads;

fn has_memory(outcomes: &[Outcome]) -> bool
    ensures { result ≡ list_any is_memory outcomes.now }
{
    outcomes.iter().any(|outcome| *outcome == Outcome::Memory)
}

fn has_cut_short(outcomes: &[Outcome]) -> bool
    ensures { result ≡ list_any is_cut_short outcomes.now }
{
    outcomes.iter().any(|outcome| matches!(outcome, Outcome::Stopped | Outcome::OutOfTurns))
}

/// Returns the status of the command if the trace and the outcomes were written.
fn status_for(outcomes: &[Outcome]) -> Status
    ensures { result ≡ status_for outcomes.now }
{
    if has_memory(outcomes) {
        Status::Memory
    } else if has_cut_short(outcomes) {
        Status::Stopped
    } else {
        Status::Done
    }
}

/// Writes the note why there is no report of the workers, and returns the status.
fn note_fault<N: Write>(heading: &Heading, fault: RunFault, notes: &mut Output<'_, N>) -> Status
    ensures status { result ≡ run_fault_status fault }
    ensures note { Puts notes.old notes.new (run_fault_note heading.now fault) }
    ensures written { IsWrittenOut notes.new }
{
    match fault {
        RunFault::Mismatch(worker) => {
            note_mismatch(notes, heading, worker);
            Status::Stopped
        }
        RunFault::Spawn => {
            notes.say(b"no thread\n");
            Status::InputOutput
        }
        RunFault::Memory => {
            notes.say(b"no memory\n");
            Status::Memory
        }
    }
}

/// Writes the trace of the workers and the note on their outcomes, and returns the status.
fn write_report<W: Write, N: Write>(
    plan: &Plan,
    report: &Report,
    out: &mut W,
    notes: &mut Output<'_, N>,
) -> Status
    requires plan { IsPlan (shown_plan plan.now) }
    requires few { length report.now.outcomes.items ≡ plan.now.heading.setup.workers }
    ensures ends { (turns : ℕ) → IsReportOf plan.now.heading.setup plan.now.programs.items turns report.now → RunEnds (shown_plan plan.now) turns result
        (record { out = W.contents out.old; notes = notes.old })
        (record { out = W.contents out.new; notes = notes.new }) }
    ensures written { IsWrittenOut notes.new }
{
    plan.heading.invariant();
    plan.heading.setup().invariant();
    report.run.invariant();
    let outcomes = report.outcomes.as_slice();
    if write_run(&plan.heading, &report.run, outcomes, out, notes) {
        status_for(outcomes)
    } else {
        Status::InputOutput
    }
}

/// Runs a plan's workers, and writes their trace and outcomes.
fn run_plan<H: Threads + Wait + Sync, W: Write, N: Write>(
    rt: &H,
    alloc: Global,
    turns: u64,
    plan: &Plan,
    out: &mut W,
    notes: &mut Output<'_, N>,
) -> Status
    requires { IsPlan (shown_plan plan.now) }
    ensures ends { RunEnds (shown_plan plan.now) turns result
        (record { out = W.contents out.old; notes = notes.old })
        (record { out = W.contents out.new; notes = notes.new }) }
    ensures written { IsWrittenOut notes.new }
{
    match run_workers(rt, alloc, plan, &OpenGate, turns) {
        Ok(report) => write_report(plan, &report, out, notes),
        Err(fault) => note_fault(&plan.heading, fault, notes),
    }
}

/// Reads a script, runs its workers, each on a thread of its own and for at most this many turns,
/// and writes their trace. Then the notes say how each worker's program has ended. The schedule of
/// the script is checked, but not used.
///
/// Nothing is written to `out` before all workers have ended.
// (If it were inlined, its half a megabyte of tables would be on the stack for every task.)
#[inline(never)]
pub fn run<H: Threads + Wait + Sync, R: Read, W: Write, N: Write>(
    rt: &H,
    alloc: Global,
    turns: u64,
    reader: &mut R,
    out: &mut W,
    notes: &mut Output<'_, N>,
) -> Status
    ensures ends { IfSome (R.remaining reader.old) (λ bytes. Runs turns bytes (R.remaining reader.new) result
        (record { out = W.contents out.old; notes = notes.old })
        (record { out = W.contents out.new; notes = notes.new })) }
    ensures written { IsWrittenOut notes.new }
{
    match read_up_to(alloc, reader, SCRIPT_MAX) {
        Ok(Input::Whole(text)) => match parse(alloc, text.as_slice()) {
            Ok(plan) => run_plan(rt, alloc, turns, &plan, out, notes),
            Err(ScriptFault::At { line, kind }) => {
                note_kind(notes, line, kind);
                Status::Refused
            }
            Err(ScriptFault::Memory) => {
                notes.say(b"no memory\n");
                Status::Memory
            }
        },
        Ok(Input::CutOff(_)) => {
            notes.say(b"read fault\n");
            Status::InputOutput
        }
        Err(_) => {
            notes.say(b"no memory\n");
            Status::Memory
        }
    }
}
