//! Explains the histories of calls of a text.
ghost use Rattle.std.specs.Prelude.{◌≡◌, ◌≤◌, ◌++◌, ◌∷◌, [], IfOk, OnOk, length, if◌then◌else◌};
ghost use Rattle.std.specs.Prelude.{nat_lt, map};
ghost use Rattle.std.specs.List.{flat_map};
ghost use Rattle.ec_trace.specs.declared.read.TheConstants.{TRACE_MAX};
ghost use Rattle.ec_text.specs.Puts.{Puts};
ghost use Rattle.calls_turns.specs.declared.turn.Step.{Step};
ghost use Rattle.calls_report.specs.Checks.{IsUndecided, IsRefused};
ghost use Rattle.evc_explain_engine.specs.Histories.{event_line};
ghost use Rattle.evc_explain_engine.specs.Histories.{if_before, ends_before, named_positions, few, seen_at};
ghost use Rattle.evc_explain_engine.specs.Histories.{seen_lines, count_reason, ticket_reason, cell_reason};
ghost use Rattle.evc_explain_engine.specs.Histories.{distinct_reason, item_reason, reason_for, ExplainsRefused};
ghost use Rattle.evc_explain_engine.specs.Histories.{ExplainsUndecided, Judges, ExplainsHistories, IsUnread};
ghost use Rattle.evc_explain_engine.specs.Histories.{open_position, first_put, told};
ghost use Rattle.evc_explain_engine.specs.Histories.{clash_marks, item_marks, marks_of};

use crate::explanation::{Explanation, explain_finding, whole};
use crate::good::ordered_bytes;
use calls_core::{Call, Part};
use calls_report::{report_refusal, report_undecided};
use calls_schedule::Bound;
use calls_shapes::faulty_calls;
use calls_text::{Read, TextFault, read_history};
use calls_turns::{Clash, Step};
use calls_verdict::{Fault, Refusal, Undecided, Verdict, decide};
use ec_explain::{Cause, calls_finding, finding_at, line_at, put_line_seen};
use ec_text::Output;
use evc_engine::Status;
use std::alloc::{AllocError, Global};
use std::io::Write;

/// Returns the number of the line of the event at a position.
fn event_line(read: &Read<'_>, position: usize) -> u64
    ensures { result ≡ event_line read.now.number read.now.recording position }
{
    let events = read.recording.events().len() as u64;
    let first = read.number.saturating_sub(1).saturating_sub(events);
    first.saturating_add(position as u64)
}

/// Adds a position, if it is before `at`.
fn add_if_before(positions: &mut Vec<usize>, at: usize, position: usize) -> Result<(), AllocError>
    ensures { OnOk result (positions.new.items ≡ positions.old.items ++ if_before at position) }
{
    if position < at {
        positions.extend_from_slice(&[position])?;
    }
    Ok(())
}

/// Adds those of the positions of a call's two events that are before `at`.
fn add_ends(positions: &mut Vec<usize>, at: usize, call: &Call) -> Result<(), AllocError>
    ensures { OnOk result (positions.new.items ≡ positions.old.items ++ ends_before at call.now) }
{
    add_if_before(positions, at, call.first)?;
    add_if_before(positions, at, call.last)
}

/// Returns those of the positions of calls' events that are before `at`.
fn ends_of(alloc: Global, at: usize, calls: &[Call]) -> Result<Vec<usize>, AllocError>
    ensures { IfOk result (λ ps. ps.items ≡ flat_map (ends_before at) calls.now) }
{
    let mut positions = Vec::new(alloc);
    for call in calls {
        add_ends(&mut positions, at, call)?;
    }
    Ok(positions)
}

/// Returns those of some positions that are before `at`.
fn marks_before(alloc: Global, at: usize, marks: &[usize]) -> Result<Vec<usize>, AllocError>
    ensures { IfOk result (λ ps. ps.items ≡ flat_map (if_before at) marks.now) }
{
    let mut positions = Vec::new(alloc);
    for mark in marks {
        add_if_before(&mut positions, at, *mark)?;
    }
    Ok(positions)
}

/// Returns the positions of steps, and of the count that follows them if it is none.
fn outrun_marks(alloc: Global, steps: &[Step], clash: &Clash) -> Result<Vec<usize>, AllocError>
    ensures { IfOk result (λ ps. ps.items
        ≡ map (λ (s : Step). s.at) steps.now ++ clash_marks clash.now) }
{
    let mut positions: Vec<usize> = steps.iter().map(|step| step.at).collect(alloc)?;
    if let Clash::Full(crowd) = clash {
        positions.push(crowd.at)?;
    }
    Ok(positions)
}

/// Returns the positions of the counts that a fault of a buffer names.
fn item_marks(alloc: Global, fault: &calls_buffers::Fault) -> Result<Vec<usize>, AllocError>
    ensures { IfOk result (λ ps. ps.items ≡ item_marks fault.now) }
{
    match fault {
        calls_buffers::Fault::Unproduced { .. } => Ok(Vec::new(alloc)),
        calls_buffers::Fault::Overfull { .. } => Ok(Vec::new(alloc)),
        calls_buffers::Fault::Crowded { .. } => Ok(Vec::new(alloc)),
        calls_buffers::Fault::Overtaken { .. } => Ok(Vec::new(alloc)),
        calls_buffers::Fault::Passed { .. } => Ok(Vec::new(alloc)),
        calls_buffers::Fault::Squeezed { .. } => Ok(Vec::new(alloc)),
        calls_buffers::Fault::Overdue { bounds } => {
            bounds.iter().map(|bound| bound.at).collect(alloc)
        }
        calls_buffers::Fault::Outrun { steps, clash, .. } => outrun_marks(alloc, steps, clash),
    }
}

/// Returns the positions of the counts that a fault names.
fn marks_of(alloc: Global, fault: &Fault) -> Result<Vec<usize>, AllocError>
    ensures { IfOk result (λ ps. ps.items ≡ marks_of fault.now) }
{
    match fault {
        Fault::Count(_) => Ok(Vec::new(alloc)),
        Fault::Ticket(_) => Ok(Vec::new(alloc)),
        Fault::Units(_) => Ok(Vec::new(alloc)),
        Fault::Value(_) => Ok(Vec::new(alloc)),
        Fault::Items(fault) => item_marks(alloc, fault),
    }
}

/// Returns the positions of the events of the calls that a refusal names, and of its counts, before
/// the first faulty event.
fn named_positions(
    alloc: Global,
    events: &Part<'_>,
    refusal: &Refusal,
) -> Result<Vec<usize>, AllocError>
    ensures { IfOk result (λ ps. ps.items ≡ named_positions events.now refusal.now) }
{
    let calls = faulty_calls(alloc, events, &refusal.fault)?;
    let mut positions = ends_of(alloc, refusal.at, calls.as_slice())?;
    let marks = marks_of(alloc, &refusal.fault)?;
    let marks = marks_before(alloc, refusal.at, &marks)?;
    positions.extend_from_slice(marks.as_slice())?;
    Ok(positions)
}

/// Returns the first 20 of some positions.
fn few(positions: &[usize]) -> &[usize]
    ensures { result.now ≡ few positions.now }
{
    &positions[..positions.len().min(20)]
}

/// Puts the line of the event at a position.
fn put_seen<W: Write>(out: &mut Output<'_, W>, text: &[u8], read: &Read<'_>, position: usize)
    ensures { Puts out.old out.new (seen_at text.now read.now.number read.now.recording position) }
{
    let number = event_line(read, position);
    put_line_seen(out, number, 0, line_at(number, text));
}

/// Puts the lines of the events at these positions.
fn put_seen_lines<W: Write>(
    out: &mut Output<'_, W>,
    text: &[u8],
    read: &Read<'_>,
    positions: &[usize],
)
    ensures { Puts out.old out.new
        (seen_lines text.now read.now.number read.now.recording positions.now) }
{
    for position in positions {
        put_seen(out, text, read, *position);
    }
}

/// Returns why an eventcount has no linearization.
fn count_reason(fault: &calls_counts::Fault) -> &'static [u8]
    ensures { result.now ≡ count_reason fault.now }
{
    match *fault {
        calls_counts::Fault::Below(_) =>
            b"An await returns at least its threshold, and one of 0 never gives up.\n",
        calls_counts::Fault::Few(_) =>
            b"A count is at most its first value and one for each advance that was called.\n",
        calls_counts::Fault::Many(_) =>
            b"A count is at least its first value and one for each advance that had returned.\n",
        calls_counts::Fault::Since(_, _) =>
            b"A count is at least what an earlier call found and one for each advance between.\n",
    }
}

/// Returns why a sequencer has no linearization.
fn ticket_reason(fault: &calls_tickets::Fault) -> &'static [u8]
    ensures { result.now ≡ ticket_reason fault.now }
{
    match *fault {
        calls_tickets::Fault::Twice(_, _) => b"Each ticket has another number.\n",
        calls_tickets::Fault::Turned(_, _) =>
            b"A ticket that is called later has a larger number.\n",
        calls_tickets::Fault::Drawn(_) =>
            b"Tickets are numbered from 0 on, so this number needs more tickets before it.\n",
    }
}

/// Returns why a cell or a database, whose values are distinct, has no linearization.
fn distinct_reason(fault: &calls_distinct::Fault) -> &'static [u8]
    ensures { result.now ≡ distinct_reason fault.now }
{
    match *fault {
        calls_distinct::Fault::Nowhere(_) =>
            b"What is stored was put by a call that began before.\n",
        calls_distinct::Fault::Stale(_, _) =>
            b"The value 0 is stored only before the first put takes effect.\n",
        calls_distinct::Fault::Alternate(_, _, _, _) =>
            b"Each value is stored once, for a time: of two values one is stored first.\n",
    }
}

/// Returns why a cell or a database has no linearization.
fn cell_reason(fault: &calls_cells::Fault) -> &'static [u8]
    ensures { result.now ≡ cell_reason fault.now }
{
    match fault {
        calls_cells::Fault::Distinct(fault) => distinct_reason(fault),
        calls_cells::Fault::Serial(_) =>
            b"Each of these calls needs a put of its own that takes effect before it.\n",
    }
}

/// Returns why a buffer has no linearization.
fn item_reason(fault: &calls_buffers::Fault) -> &'static [u8]
    ensures { result.now ≡ item_reason fault.now }
{
    match fault {
        calls_buffers::Fault::Unproduced { .. } =>
            b"An item is taken out once for each time that it was put in, and not before.\n",
        calls_buffers::Fault::Overfull { .. }
        | calls_buffers::Fault::Crowded { .. }
        | calls_buffers::Fault::Squeezed { .. } =>
            b"A buffer never holds more items than it has room for.\n",
        calls_buffers::Fault::Overtaken { .. }
        | calls_buffers::Fault::Passed { .. }
        | calls_buffers::Fault::Overdue { .. }
        | calls_buffers::Fault::Outrun { .. } =>
            b"A buffer returns its items in the order in which they were produced.\n",
    }
}

/// Returns why there is no linearization.
fn reason_for(fault: &Fault) -> &'static [u8]
    ensures { result.now ≡ reason_for fault.now }
{
    match fault {
        Fault::Count(fault) => count_reason(fault),
        Fault::Ticket(fault) => ticket_reason(fault),
        Fault::Units(_) =>
            b"Each p and pboth that has returned took a unit that was there or was added.\n",
        Fault::Value(fault) => cell_reason(fault),
        Fault::Items(fault) => item_reason(fault),
    }
}

/// Returns the explanation of a history that has no linearization: the certificate, the lines that
/// it names, and why they leave no linearization.
fn explain_refused(
    alloc: Global,
    text: &[u8],
    read: &Read<'_>,
    refusal: &Refusal,
) -> Result<Explanation, AllocError>
    requires { IsRefused read.now.recording refusal.now }
    ensures { IfOk result (ExplainsRefused text.now read.now.number read.now.recording) }
{
    let positions = named_positions(alloc, &Part::whole(read.recording.events()), refusal)?;
    let mut bytes = Vec::new(alloc);
    let mut out = Output::new(&mut bytes);
    report_refusal(alloc, &mut out, read, refusal)?;
    put_seen_lines(&mut out, text, read, few(positions.as_slice()));
    out.put(reason_for(&refusal.fault));
    let done = out.finish();
    out.into_writer();
    let more = whole(bytes, done)?;
    let finding = finding_at(Cause::NoOrder, event_line(read, refusal.at), 0);
    explain_finding(alloc, &finding, more.as_slice(), text)
}

/// Returns the position of the event that shows that a history is not decided.
fn open_position(cause: &calls_verdict::Cause) -> usize
    ensures { result ≡ open_position cause.now }
{
    match cause {
        calls_verdict::Cause::Values(values) => values.second.first,
        calls_verdict::Cause::Unfound(position) => *position,
    }
}

/// Returns the position of the first of two puts that overlap.
fn first_put(alloc: Global, cause: &calls_verdict::Cause) -> Result<Vec<usize>, AllocError>
    ensures { IfOk result (λ ps. ps.items ≡ first_put cause.now) }
{
    let mut positions = Vec::new(alloc);
    match cause {
        calls_verdict::Cause::Values(values) => positions.push(values.first.first)?,
        calls_verdict::Cause::Unfound(_) => {}
    }
    Ok(positions)
}

/// Returns the explanation of a history that is not decided: the value that is the cause, and the
/// line of its first put.
fn explain_undecided(
    alloc: Global,
    text: &[u8],
    read: &Read<'_>,
    undecided: &Undecided,
) -> Result<Explanation, AllocError>
    requires { IsUndecided read.now.recording undecided.now }
    ensures { IfOk result (ExplainsUndecided text.now read.now.number read.now.recording) }
{
    let positions = first_put(alloc, &undecided.cause)?;
    let mut bytes = Vec::new(alloc);
    let mut out = Output::new(&mut bytes);
    report_undecided(&mut out, read, undecided);
    put_seen_lines(&mut out, text, read, positions.as_slice());
    let done = out.finish();
    out.into_writer();
    let more = whole(bytes, done)?;
    let line = event_line(read, open_position(&undecided.cause));
    let finding = finding_at(Cause::NotDecided, line, 0);
    explain_finding(alloc, &finding, more.as_slice(), text)
}

/// Returns the explanation of a history; `None` if it has a linearization.
fn judge(alloc: Global, text: &[u8], read: &Read<'_>) -> Result<Option<Explanation>, AllocError>
    ensures { IfOk result (Judges text.now read.now.number read.now.recording) }
{
    let recording = &read.recording;
    // (there are no more events than a `usize` can say)
    let _count = recording.events().len();
    match decide(alloc, recording.kinds(), recording.events())? {
        Verdict::Linearizable(_) => Ok(None),
        Verdict::Refused(refusal) => Ok(Some(explain_refused(alloc, text, read, &refusal)?)),
        Verdict::NotDecided(undecided) => Ok(Some(explain_undecided(
            alloc, text, read, &undecided,
        )?)),
    }
}

/// Returns the explanation of a text whose next history can't be read.
fn explain_unread(alloc: Global, fault: TextFault, text: &[u8]) -> Result<Explanation, AllocError>
    ensures { IfOk result (IsUnread text.now fault) }
{
    match fault {
        TextFault::At { line, kind, .. } => {
            explain_finding(alloc, &calls_finding(kind, line, text), b"", text)
        }
        TextFault::Memory => Err(AllocError),
    }
}

/// Adds how many calls and workers a linearizable history has, and the remarks on it.
fn add_ordered(alloc: Global, lines: &mut Vec<u8>, read: &Read<'_>) -> Result<(), AllocError>
    ensures { OnOk result (lines.new.items
        ≡ lines.old.items ++ told read.now.number read.now.recording) }
{
    let bytes = ordered_bytes(alloc, read)?;
    lines.extend_from_slice(bytes.as_slice())
}

/// Returns the explanation of the histories of a text, up to the first that is rejected.
pub(crate) fn explain_histories(alloc: Global, text: &[u8]) -> Result<Explanation, AllocError>
    requires { length text.now ≤ TRACE_MAX }
    ensures { IfOk result (ExplainsHistories text.now) }
{
    let mut lines = Vec::new(alloc);
    let mut number = 1;
    let mut rest = text;
    loop {
        let read = match read_history(alloc, rest, number) {
            Ok(read) => read,
            Err(fault) => return explain_unread(alloc, fault, text),
        };
        if let Some(explanation) = judge(alloc, text, &read)? {
            return Ok(explanation);
        }
        add_ordered(alloc, &mut lines, &read)?;
        number = read.number;
        rest = read.rest;
        if rest.is_empty() {
            return Ok(Explanation {
                bytes: lines,
                status: Status::Done,
            });
        }
    }
}
