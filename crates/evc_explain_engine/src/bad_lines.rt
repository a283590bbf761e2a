//! Where the faulty line of a trace is, and what is wrong with it there.
ghost use Rattle.std.specs.Prelude.{◌≡◌, ◌<◌, Ok, Err, IfOk, IfSome, IfNone};
ghost use Rattle.ec_heading.specs.Heading.{head_step};
ghost use Rattle.ec_trace.specs.Outcome.{parse_result};
ghost use Rattle.ec_trace.specs.declared.fault.TraceFault.TheVariants.{BadLine};
ghost use Rattle.ec_trace.specs.declared.read.TheConstants.{TRACE_MAX};
ghost use Rattle.evc_engine.specs.Checks.{RefusedFor};
ghost use Rattle.evc_explain_engine.specs.BadLines.{Finds, FindsBad, Heads, IsInHeading, IsSite};
ghost use Rattle.evc_explain_engine.specs.BadLines.{follows_end};

use crate::reasons::{lines_before, trace_before};
use ec_explain::{
    Cause, Finding, Site, find_missing_end, finding_of_line, finding_of_refusal, finding_of_text,
    finding_of_wrong_reply, line_at,
};
use ec_heading::{HeadFault, Heading, Version};
use ec_trace::{TraceFault, TraceOpening, open_trace};
use std::alloc::{AllocError, Global};

/// Returns the header of a text, up to its line `run`; `None` if there is a fault up to there.
fn heading_of(alloc: Global, text: &[u8]) -> Result<Option<Heading>, AllocError>
    ensures { IfOk result (Heads text.now) }
{
    let mut rest = text;
    match open_trace(alloc, &mut rest) {
        Ok(
            TraceOpening {
                heading,
                lines: _lines,
            },
        ) => Ok(Some(heading)),
        Err(TraceFault::Memory | TraceFault::Read) => Err(AllocError),
        Err(_) => Ok(None),
    }
}

/// Adds a line to a header, and returns the lowest fault of the line; `None` if it has none.
///
/// A line with a fault doesn't change the header.
fn fault_of(heading: &mut Heading, line: &[u8]) -> Result<Option<HeadFault>, AllocError>
    ensures fits { IfOk result (λ found. IfNone found
        (head_step heading.old line.now ≡ Ok heading.new)) }
    ensures same { IfOk result (λ found. IfSome found (λ fault. heading.new ≡ heading.old)) }
    ensures fault { IfOk result (λ found. IfSome found
        (λ fault. head_step heading.old line.now ≡ Err fault)) }
{
    match heading.line(line) {
        Ok(()) => Ok(None),
        Err(HeadFault::Memory) => Err(AllocError),
        Err(fault) => Ok(Some(fault)),
    }
}

/// Returns what is found of a bad line, which is at this site.
fn found_at(site: &Site<'_>, text: &[u8], number: u64) -> Finding
    requires { IsSite text.now number site.now }
    ensures { FindsBad text.now number result }
{
    finding_of_line(site, number, line_at(number, text))
}

/// Returns what is wrong with the line of the workers.
///
/// If nothing is, the lines before it, `run` and `end` are too large a text.
fn in_workers(alloc: Global, text: &[u8]) -> Result<Finding, AllocError>
    requires { IsInHeading text.now 3 }
    ensures { IfOk result (FindsBad text.now 3) }
{
    let Some(limit) = Version::One.limit(1) else {
        unreachable!();
    };
    let mut heading = Heading::new(alloc, Version::One, limit)?;
    match fault_of(&mut heading, line_at(3, text))? {
        Some(fault) => Ok(found_at(&Site::Workers(fault), text, 3)),
        None => Ok(found_at(&Site::Unknown, text, 3)),
    }
}

/// Returns what is wrong with a line after the line of the workers.
///
/// If nothing is, the lines before it, `run` and `end` are too large a text.
fn in_declarations(alloc: Global, text: &[u8], number: u64) -> Result<Finding, AllocError>
    requires heading { IsInHeading text.now number }
    requires behind { 3 < number }
    ensures { IfOk result (FindsBad text.now number) }
{
    let before = lines_before(alloc, number, text, b"run\nend\n")?;
    let Some(mut heading) = heading_of(alloc, before.as_slice())? else {
        return Ok(found_at(&Site::Unknown, text, number));
    };
    match fault_of(&mut heading, line_at(number, text))? {
        Some(fault) => Ok(found_at(&Site::Declaration(&heading, fault), text, number)),
        None => Ok(found_at(&Site::Unknown, text, number)),
    }
}

/// Returns what is wrong with a line before `run`.
fn in_heading(alloc: Global, text: &[u8], number: u64) -> Result<Finding, AllocError>
    requires { IsInHeading text.now number }
    ensures { IfOk result (FindsBad text.now number) }
{
    if number <= 1 {
        return Ok(found_at(&Site::First, text, number));
    }
    if number == 2 {
        return Ok(found_at(&Site::Limit, text, number));
    }
    if number == 3 {
        return in_workers(alloc, text);
    }
    in_declarations(alloc, text, number)
}

/// Returns whether a line follows the line `end`.
fn follows_end(number: u64, text: &[u8]) -> bool
    ensures { result ≡ follows_end number text.now }
{
    line_at(number.saturating_sub(1), text) == b"end".as_slice()
}

/// Returns what is wrong with a bad line.
fn bad_line(alloc: Global, text: &[u8], number: u64) -> Result<Finding, AllocError>
    requires { parse_result TRACE_MAX text.now ≡ Err (BadLine number) }
    ensures { IfOk result (FindsBad text.now number) }
{
    if follows_end(number, text) {
        return Ok(found_at(&Site::Behind, text, number));
    }
    match trace_before(alloc, number, text)? {
        Some(traced) => Ok(found_at(&Site::Entry(traced.heading()), text, number)),
        None => in_heading(alloc, text, number),
    }
}

/// Returns what is wrong with a text that has this fault as a trace.
pub(crate) fn finding_of(
    alloc: Global,
    text: &[u8],
    fault: &TraceFault,
) -> Result<Finding, AllocError>
    requires { RefusedFor text.now fault.now }
    ensures { IfOk result (Finds text.now fault.now) }
{
    match *fault {
        TraceFault::BadLine(number) => bad_line(alloc, text, number),
        TraceFault::Refused(number, refusal) => { Ok(finding_of_refusal(number, refusal, text)) }
        TraceFault::WrongReply(number, right) => Ok(finding_of_wrong_reply(number, right, text)),
        TraceFault::Unfinished => Ok(find_missing_end(text)),
        TraceFault::TooLarge | TraceFault::Read | TraceFault::Memory => Ok(finding_of_text(
            Cause::TooLarge,
        )),
    }
}
