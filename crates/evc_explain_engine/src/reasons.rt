//! What is known of the entry of a faulty line, by the history before it.
ghost use Rattle.std.specs.Prelude.{◌≡◌, ◌++◌, [], IfOk, IfErr, reverse};
ghost use Rattle.std.specs.List.{flat_map};
ghost use Rattle.std.specs.Option.{option_map_or};
ghost use Rattle.ec_core.specs.Rounds.{component_count};
ghost use Rattle.ec_explain.specs.Rounds.{total_of};
ghost use Rattle.ec_explain.specs.TextLines.{text_before_line};
ghost use Rattle.ec_text.specs.Puts.{Puts};
ghost use Rattle.evc_explain_engine.specs.Explanations.{RefusedOr};
ghost use Rattle.evc_engine.specs.Checks.{ReadsAs};
ghost use Rattle.evc_explain_engine.specs.Reasons.{right_words, worker_after, names_text};
ghost use Rattle.evc_explain_engine.specs.Reasons.{may_words, holders_text, trace_before};
ghost use Rattle.evc_explain_engine.specs.Reasons.{holders_at, event_at, round_at, is_reading};
ghost use Rattle.evc_explain_engine.specs.Reasons.{round_for, holders_before, round_before};
ghost use Rattle.evc_explain_engine.specs.Reasons.{refused_reason, reason_text, round_model};

use crate::explanation::whole;
use crate::round::Round;
use ec_core::{Act, Refusal, Reply, Run};
use ec_count::{EventId, Setup, WorkerId};
use ec_explain::{Asked, asked_in, holders, line_at, looks_with, text_before_line};
use ec_heading::Heading;
use ec_text::Output;
use ec_trace::{Spellings, TraceFault, Traced, put_cell, read_trace};
use std::alloc::{AllocError, Global};
use std::io::Write;

/// Puts what a right allows.
fn put_right<W: Write>(out: &mut Output<'_, W>, spellings: &Spellings<'_>, act: &Act)
    ensures { Puts out.old out.new (right_words spellings.now act.now) }
{
    match *act {
        Act::Advance(event) | Act::Hand(event, _) => {
            out.put(b"signal ");
            out.put(spellings.event(event));
        }
        Act::Read(event) | Act::Await(event, _) => {
            out.put(b"observe ");
            out.put(spellings.event(event));
        }
        Act::Go => out.put(b"go on"),
        Act::Ticket(sequencer) => {
            out.put(b"take from ");
            out.put(spellings.sequencer(sequencer));
        }
        Act::Put(cell, _) => {
            out.put(b"write ");
            put_cell(out, spellings, cell);
        }
        Act::Get(cell) => {
            out.put(b"read ");
            put_cell(out, spellings, cell);
        }
    }
}

/// Puts the name of a worker after a space.
fn put_worker_after<W: Write>(out: &mut Output<'_, W>, spellings: &Spellings<'_>, worker: WorkerId)
    ensures { Puts out.old out.new (worker_after spellings.now worker) }
{
    out.put(b" ");
    out.put(spellings.worker(worker));
}

/// Puts the names of workers, each after a space.
fn put_workers<W: Write>(out: &mut Output<'_, W>, spellings: &Spellings<'_>, workers: &[WorkerId])
    ensures { Puts out.old out.new (flat_map (worker_after spellings.now) workers.now) }
{
    for worker in workers {
        put_worker_after(out, spellings, *worker);
    }
}

/// Puts the names of workers, or that there are none.
fn put_names<W: Write>(out: &mut Output<'_, W>, spellings: &Spellings<'_>, workers: &[WorkerId])
    ensures { Puts out.old out.new (names_text spellings.now workers.now) }
{
    if workers.is_empty() {
        out.put(b" nobody");
    } else {
        put_workers(out, spellings, workers);
    }
}

/// Puts which right it is.
#[tactic(auto, unfolding(crate::specs::Reasons::may_words))]
fn put_may<W: Write>(out: &mut Output<'_, W>, spellings: &Spellings<'_>, act: &Act)
    ensures { Puts out.old out.new (may_words spellings.now act.now) }
{
    out.put(b"Who may ");
    put_right(out, spellings, act);
    out.put(b" at this line:");
}

/// Puts which workers have the right to an act.
#[tactic(auto, unfolding(crate::specs::Reasons::holders_text))]
pub(crate) fn put_holders<W: Write>(
    out: &mut Output<'_, W>,
    heading: &Heading,
    act: &Act,
    workers: &[WorkerId],
)
    ensures { Puts out.old out.new (holders_text heading.now.words act.now workers.now) }
{
    let spellings = Spellings::new(heading.words());
    put_may(out, &spellings, act);
    put_names(out, &spellings, workers);
    out.put(b".\n");
}

/// Reads a text as a trace.
pub(crate) fn read_text(alloc: Global, text: &[u8]) -> Result<Traced, TraceFault>
    ensures ok { IfOk result (ReadsAs text.now) }
    ensures err { IfErr result (RefusedOr text.now) }
{
    let mut rest = text;
    read_trace(alloc, &mut rest)
}

/// Returns the lines before a line, and then these bytes.
pub(crate) fn lines_before(
    alloc: Global,
    number: u64,
    text: &[u8],
    end: &[u8],
) -> Result<Vec<u8>, AllocError>
    ensures { IfOk result (λ bytes. bytes.items ≡ text_before_line number text.now ++ end.now) }
{
    let mut bytes = Vec::new(alloc);
    bytes.extend_from_slice(text_before_line(number, text))?;
    bytes.extend_from_slice(end)?;
    Ok(bytes)
}

/// Returns the trace of the lines before a line and `end`; `None` if these are no trace.
pub(crate) fn trace_before(
    alloc: Global,
    number: u64,
    text: &[u8],
) -> Result<Option<Traced>, AllocError>
    ensures { IfOk result (λ read. read ≡ trace_before number text.now) }
{
    let ended = lines_before(alloc, number, text, b"end\n")?;
    match read_text(alloc, ended.as_slice()) {
        Ok(traced) => Ok(Some(traced)),
        Err(TraceFault::Memory | TraceFault::Read) => Err(AllocError),
        Err(_) => Ok(None),
    }
}

/// Returns the text on who has, after a trace, the right that is needed.
fn holders_at(alloc: Global, traced: &Traced, asked: &Asked) -> Result<Vec<u8>, AllocError>
    ensures { IfOk result (λ bytes. bytes.items ≡ holders_at traced.now asked.now) }
{
    let workers = holders(alloc, traced.run(), &asked.act)?;
    let mut bytes = Vec::new(alloc);
    let mut out = Output::new(&mut bytes);
    put_holders(&mut out, traced.heading(), &asked.act, workers.as_slice());
    let done = out.finish();
    out.into_writer();
    whole(bytes, done)
}

/// Returns the eventcount of the call that an act continues or begins after a trace.
fn event_at(traced: &Traced, asked: &Asked) -> EventId
    ensures { result ≡ event_at traced.now asked.now }
{
    match asked.act {
        Act::Go => match traced.run().world().under_way(asked.worker) {
            Some(call) => call.op().event(),
            None => Act::Go.event(),
        },
        _ => asked.act.event(),
    }
}

/// Returns how many components an eventcount has, 0 if it is not declared.
fn component_count(setup: &Setup, event: EventId) -> usize
    ensures { result ≡ component_count setup.now event }
{
    setup.components(event).unwrap_or(0)
}

/// Returns the total of an eventcount at the end of a run, 0 if it is not declared.
fn total_of(run: &Run, event: EventId) -> u64
    ensures { result ≡ total_of run.now.setup event (reverse run.now.entries) }
{
    run.world().total(event).unwrap_or(0)
}

/// Returns the round with an act after a trace, if this is the right reply.
fn round_at<'a>(
    alloc: Global,
    traced: &'a Traced,
    asked: &Asked,
    number: u64,
    right: Reply,
) -> Result<Round<'a>, AllocError>
    ensures { IfOk result (λ r. round_model r ≡ round_at number right traced.now asked.now) }
{
    let run = traced.run();
    let event = event_at(traced, asked);
    Ok(Round {
        spellings: Spellings::new(traced.heading().words()),
        event,
        looks: looks_with(alloc, run, asked.worker, &asked.act)?,
        width: component_count(run.setup(), event),
        total: total_of(run, event),
        right,
        number,
        entries: run.len(),
    })
}

/// Returns whether an act reads an eventcount.
fn is_reading(act: &Act) -> bool
    ensures { result ≡ is_reading act.now }
{
    matches!(*act, Act::Read(_) | Act::Await(_, _) | Act::Go)
}

/// Returns the text on the round of an act after a trace; empty if the act reads no eventcount.
fn round_for(
    alloc: Global,
    traced: &Traced,
    asked: &Asked,
    number: u64,
    right: Reply,
) -> Result<Vec<u8>, AllocError>
    ensures { IfOk result (λ bytes. bytes.items ≡ round_for number right traced.now asked.now) }
{
    if !is_reading(&asked.act) {
        return Ok(Vec::new(alloc));
    }
    let round = round_at(alloc, traced, asked, number, right)?;
    round.bytes(alloc)
}

/// Returns the text on who has, after a trace, the right that a line needs.
fn holders_of_line(
    alloc: Global,
    number: u64,
    text: &[u8],
    traced: &Traced,
) -> Result<Vec<u8>, AllocError>
    ensures { IfOk result (λ bytes. bytes.items ≡ holders_before text.now number traced.now) }
{
    match asked_in(traced.heading(), line_at(number, text)) {
        Some(asked) => holders_at(alloc, traced, &asked),
        None => Ok(Vec::new(alloc)),
    }
}

/// Returns the text on who has the right that a line needs, by the lines before it.
fn holders_before(alloc: Global, number: u64, text: &[u8]) -> Result<Vec<u8>, AllocError>
    ensures { IfOk result (λ bytes. bytes.items
        ≡ option_map_or (holders_before text.now number) (trace_before number text.now) []) }
{
    match trace_before(alloc, number, text)? {
        Some(traced) => holders_of_line(alloc, number, text, &traced),
        None => Ok(Vec::new(alloc)),
    }
}

/// Returns the text on the round of the act of a line, after a trace, if this is its right reply.
fn round_of_line(
    alloc: Global,
    number: u64,
    right: Reply,
    text: &[u8],
    traced: &Traced,
) -> Result<Vec<u8>, AllocError>
    ensures { IfOk result (λ bytes. bytes.items ≡ round_before text.now number right traced.now) }
{
    match asked_in(traced.heading(), line_at(number, text)) {
        Some(asked) => round_for(alloc, traced, &asked, number, right),
        None => Ok(Vec::new(alloc)),
    }
}

/// Returns the text on the round of the act of a line, by the lines before it, if this is its right
/// reply.
fn round_before(
    alloc: Global,
    number: u64,
    right: Reply,
    text: &[u8],
) -> Result<Vec<u8>, AllocError>
    ensures { IfOk result (λ bytes. bytes.items
        ≡ option_map_or (round_before text.now number right) (trace_before number text.now) []) }
{
    match trace_before(alloc, number, text)? {
        Some(traced) => round_of_line(alloc, number, right, text, &traced),
        None => Ok(Vec::new(alloc)),
    }
}

/// Returns what is known of the refused entry of a line.
fn refused_reason(
    alloc: Global,
    number: u64,
    refusal: Refusal,
    text: &[u8],
) -> Result<Vec<u8>, AllocError>
    ensures { IfOk result (λ bytes. bytes.items ≡ refused_reason text.now number refusal) }
{
    match refusal {
        Refusal::NoRight | Refusal::AlreadySignals => holders_before(alloc, number, text),
        _ => Ok(Vec::new(alloc)),
    }
}

/// Returns what is known of the entry of a faulty line of a text that has this fault.
pub(crate) fn reason_of(
    alloc: Global,
    text: &[u8],
    fault: &TraceFault,
) -> Result<Vec<u8>, AllocError>
    ensures { IfOk result (λ bytes. bytes.items ≡ reason_text text.now fault.now) }
{
    match *fault {
        TraceFault::Refused(number, refusal) => refused_reason(alloc, number, refusal, text),
        TraceFault::WrongReply(number, right) => round_before(alloc, number, right, text),
        _ => Ok(Vec::new(alloc)),
    }
}
