//! Explains a text, by its format.
ghost use Rattle.std.specs.Prelude.{◌≡◌, ◌≤◌, ◌<◌, IfOk, length};
ghost use Rattle.std.specs.List.{All};
ghost use Rattle.ec_trace.specs.declared.read.TheConstants.{TRACE_MAX};
ghost use Rattle.ec_script.specs.Confined.{IsPlan};
ghost use Rattle.ec_script.specs.Outcome.{shown_plan};
ghost use Rattle.evc_engine.specs.Checks.{RefusedFor};
ghost use Rattle.evc_explain_engine.specs.Explanations.{IsExplanation, ExplainsCalls, ExplainsFault, ExplainsPlan, ExplainsScript};
ghost use Rattle.evc_explain_engine.specs.Explanations.{IsUnplayed, ExplainsPlayed, ExplainsTrace};

use crate::bad_lines::finding_of;
use crate::continuation::continuation_bytes;
use crate::explanation::{Explanation, explain_finding};
use crate::form::{Form, form_of};
use crate::good::{good_bytes, script_bytes};
use crate::histories::explain_histories;
use crate::reasons::{read_text, reason_of};
use crate::worker_ends::{run_ends_text, turn_bytes};
use ec_explain::{Cause, finding_of_text, script_finding};
use ec_heading::Heading;
use ec_runner::{Report, SimFault, simulate};
use ec_script::{Plan, ScriptFault, parse};
use ec_trace::{TRACE_MAX, TraceFault};
use evc_engine::Status;
use std::alloc::{AllocError, Global};

/// Returns the explanation of a text that has this fault as a trace.
fn explain_fault(alloc: Global, text: &[u8], fault: &TraceFault) -> Result<Explanation, AllocError>
    requires { RefusedFor text.now fault.now }
    ensures { IfOk result (ExplainsFault text.now fault.now) }
{
    let finding = finding_of(alloc, text, fault)?;
    let reason = reason_of(alloc, text, fault)?;
    explain_finding(alloc, &finding, reason.as_slice(), text)
}

/// Returns the explanation of a trace.
fn explain_trace(alloc: Global, text: &[u8]) -> Result<Explanation, AllocError>
    ensures { IfOk result (ExplainsTrace text.now) }
{
    match read_text(alloc, text) {
        Ok(traced) => Ok(Explanation {
            bytes: good_bytes(alloc, &traced)?,
            status: Status::Done,
        }),
        Err(TraceFault::Memory | TraceFault::Read) => Err(AllocError),
        Err(fault) => explain_fault(alloc, text, &fault),
    }
}

/// Returns the explanation of a script whose schedule was simulated.
fn explain_played(
    alloc: Global,
    plan: &mut Plan,
    report: &Report,
) -> Result<Explanation, AllocError>
    requires outcomes { length report.now.outcomes.items ≤ 16 }
    requires programs { length plan.old.programs.items ≡ plan.old.heading.setup.workers }
    requires few { plan.old.heading.setup.workers ≤ 16 }
    requires schedule { All (λ w. w < plan.old.heading.setup.workers) plan.old.schedule.items }
    ensures { IfOk result (ExplainsPlayed plan.old report.now) }
{
    let left = run_ends_text(
        alloc,
        &plan.heading,
        &report.run,
        plan.schedule.as_slice(),
        report.outcomes.as_slice(),
    )?;
    let mut bytes = script_bytes(alloc, plan, left.as_slice())?;
    let more = continuation_bytes(alloc, plan)?;
    bytes.extend_from_slice(more.as_slice())?;
    Ok(Explanation {
        bytes,
        status: Status::Done,
    })
}

/// Returns the explanation of a script whose schedule could not be simulated: it has a turn of a
/// worker that has ended.
fn explain_unplayed(
    alloc: Global,
    text: &[u8],
    heading: &Heading,
    fault: SimFault,
) -> Result<Explanation, AllocError>
    ensures { IfOk result (IsUnplayed text.now heading.now.words fault) }
{
    match fault {
        SimFault::Ended { place, worker } => {
            let more = turn_bytes(alloc, heading, place, worker)?;
            explain_finding(
                alloc,
                &finding_of_text(Cause::TurnOfEnded),
                more.as_slice(),
                text,
            )
        }
        SimFault::Memory => Err(AllocError),
    }
}

/// Returns the explanation of a parsed script.
fn explain_plan(alloc: Global, text: &[u8], plan: &mut Plan) -> Result<Explanation, AllocError>
    requires { IsPlan (shown_plan plan.old) }
    ensures { IfOk result (ExplainsPlan text.now plan.old) }
{
    plan.heading.setup().invariant();
    match simulate(alloc, plan) {
        Ok(report) => explain_played(alloc, plan, &report),
        Err(fault) => explain_unplayed(alloc, text, &plan.heading, fault),
    }
}

/// Returns the explanation of a script.
fn explain_script(alloc: Global, text: &[u8]) -> Result<Explanation, AllocError>
    ensures { IfOk result (ExplainsScript text.now) }
{
    match parse(alloc, text) {
        Ok(mut plan) => explain_plan(alloc, text, &mut plan),
        Err(ScriptFault::Memory) => Err(AllocError),
        Err(ScriptFault::At { line, kind }) => {
            let finding = script_finding(kind, line, text);
            explain_finding(alloc, &finding, b"", text)
        }
    }
}

/// Returns the explanation of histories of calls.
fn explain_calls(alloc: Global, text: &[u8]) -> Result<Explanation, AllocError>
    ensures { IfOk result (ExplainsCalls text.now) }
{
    if text.len() > TRACE_MAX {
        return explain_finding(alloc, &finding_of_text(Cause::TooLarge), b"", text);
    }
    explain_histories(alloc, text)
}

/// Returns the explanation of a text, by how its first line begins.
pub(crate) fn explain_by_format(alloc: Global, text: &[u8]) -> Result<Explanation, AllocError>
    ensures { IfOk result (IsExplanation text.now) }
{
    match form_of(text) {
        Form::Trace => explain_trace(alloc, text),
        Form::Script => explain_script(alloc, text),
        Form::Calls => explain_calls(alloc, text),
    }
}
