//! The command `sim`: reads a script, plays its schedule, and writes the trace and, in the notes,
//! the outcomes of the workers.
ghost use Rattle.std.specs.Prelude.{◌≡◌, IfSome};
ghost use Rattle.ec_text.specs.Puts.{Puts, IsWrittenOut};
ghost use Rattle.ec_runner.specs.Reported.{IsReport};
ghost use Rattle.ec_script.specs.Confined.{IsPlan};
ghost use Rattle.ec_script.specs.Outcome.{shown_plan};
ghost use Rattle.evc_scripts.specs.Sims.{PlanEnds, Sims, fault_status, sim_fault_note};

use crate::outcomes::{note_ended, note_kind};
use crate::writing::write_run;
use ec_runner::{Report, SimFault, simulate};
use ec_script::{Plan, SCRIPT_MAX, ScriptFault, parse};
use ec_text::{Input, Output, read_up_to};
use ec_trace::Heading;
use evc_engine::Status;
use std::alloc::Global;
use std::io::{Read, Write};

/// Writes the trace of a report and the note on the outcomes, and returns the status.
fn write_report<W: Write, N: Write>(
    plan: &Plan,
    report: &Report,
    out: &mut W,
    notes: &mut Output<'_, N>,
) -> Status
    requires plan { IsPlan (shown_plan plan.now) }
    requires report { IsReport plan.now.heading.setup plan.now.programs.items plan.now.schedule.items report.now }
    ensures ends { PlanEnds (shown_plan plan.now) result
        (record { out = W.contents out.old; notes = notes.old })
        (record { out = W.contents out.new; notes = notes.new }) }
    ensures written { IsWrittenOut notes.new }
{
    plan.heading.invariant();
    report.run.invariant();
    let outcomes = report.outcomes.as_slice();
    if write_run(&plan.heading, &report.run, outcomes, out, notes) {
        Status::Done
    } else {
        Status::InputOutput
    }
}

/// Writes the note why a plan's schedule was not played, and returns the status.
fn note_fault<N: Write>(heading: &Heading, fault: SimFault, notes: &mut Output<'_, N>) -> Status
    ensures status { result ≡ fault_status fault }
    ensures note { Puts notes.old notes.new (sim_fault_note heading.now fault) }
    ensures written { IsWrittenOut notes.new }
{
    match fault {
        SimFault::Ended { place, worker } => {
            note_ended(notes, heading, place, worker);
            Status::Refused
        }
        SimFault::Memory => {
            notes.say(b"no memory\n");
            Status::Memory
        }
    }
}

/// Plays a plan's schedule, and writes the trace and the outcomes.
fn sim_plan<W: Write, N: Write>(
    alloc: Global,
    plan: &Plan,
    out: &mut W,
    notes: &mut Output<'_, N>,
) -> Status
    requires { IsPlan (shown_plan plan.now) }
    ensures ends { PlanEnds (shown_plan plan.now) result
        (record { out = W.contents out.old; notes = notes.old })
        (record { out = W.contents out.new; notes = notes.new }) }
    ensures written { IsWrittenOut notes.new }
{
    match simulate(alloc, plan) {
        Ok(report) => write_report(plan, &report, out, notes),
        Err(fault) => note_fault(&plan.heading, fault, notes),
    }
}

/// Reads a script, and writes the trace of its workers by its schedule. Then the notes say how each
/// worker's program has ended. If the script or its schedule is rejected, a note says why.
///
/// Nothing is written to `out` before the schedule was played to its end.
// (If it were inlined, its half a megabyte of tables would be on the stack for every task.)
#[inline(never)]
pub fn sim<R: Read, W: Write, N: Write>(
    alloc: Global,
    reader: &mut R,
    out: &mut W,
    notes: &mut Output<'_, N>,
) -> Status
    ensures ends { IfSome (R.remaining reader.old) (λ bytes. Sims bytes (R.remaining reader.new) result
        (record { out = W.contents out.old; notes = notes.old })
        (record { out = W.contents out.new; notes = notes.new })) }
    ensures written { IsWrittenOut notes.new }
{
    match read_up_to(alloc, reader, SCRIPT_MAX) {
        Ok(Input::Whole(text)) => match parse(alloc, text.as_slice()) {
            Ok(plan) => sim_plan(alloc, &plan, out, notes),
            Err(ScriptFault::At { line, kind }) => {
                note_kind(notes, line, kind);
                Status::Refused
            }
            Err(ScriptFault::Memory) => {
                notes.say(b"no memory\n");
                Status::Memory
            }
        },
        Ok(Input::CutOff(_)) => {
            notes.say(b"read fault\n");
            Status::InputOutput
        }
        Err(_) => {
            notes.say(b"no memory\n");
            Status::Memory
        }
    }
}
