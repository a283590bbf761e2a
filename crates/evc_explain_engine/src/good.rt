//! What is written on a good text.
ghost use Rattle.std.specs.Prelude.{◌≡◌, ◌++◌, IfOk, length};
ghost use Rattle.ec_text.specs.Puts.{Puts};
ghost use Rattle.calls_report.specs.Remarks.{remarks_text};
ghost use Rattle.evc_explain_engine.specs.Good.{begins_call, calls_in, calls_of, good_script};
ghost use Rattle.evc_explain_engine.specs.Good.{good_text, is_invocation, ordered_text};
ghost use Rattle.ec_script.specs.Outcome.{shown_plan};

use crate::explanation::{put_count, whole};
use calls_core::{Action, Event, Events};
use calls_report::put_remarks_on;
use calls_text::{Read, Recording};
use ec_core::{Act, Entry, Run};
use ec_script::Plan;
use ec_text::Output;
use ec_trace::Traced;
use std::alloc::{AllocError, Global};
use std::io::Write;

/// Returns whether an entry begins a call.
fn begins_call(entry: &Entry) -> bool
    ensures { result ≡ begins_call entry.now }
{
    !matches!(entry.act, Act::Go)
}

/// Returns how many calls a run has.
fn calls_of(run: &Run) -> usize
    ensures { result ≡ calls_of run.now.entries }
{
    run.entries().filter(|entry| begins_call(entry)).count()
}

/// Puts that a trace is good, and how many entries, calls and workers it has.
fn put_good<W: Write>(out: &mut Output<'_, W>, traced: &Traced)
    ensures { Puts out.old out.new (good_text traced.now) }
{
    let run = traced.run();
    let workers = traced.heading().setup().workers();
    put_count(out, b"The trace is good: ", run.len() as u64, b" entries, ");
    put_count(out, b"", calls_of(run) as u64, b" calls, ");
    put_count(out, b"", workers as u64, b" workers.\n");
}

/// Puts that a script is good, and how many workers and turns it has.
#[tactic(auto, unfolding(crate::specs::Good::good_script))]
fn put_good_script<W: Write>(out: &mut Output<'_, W>, plan: &Plan)
    ensures { Puts out.old out.new (good_script (shown_plan plan.now)) }
{
    let workers = plan.heading.setup().workers() as u64;
    let turns = plan.schedule.len() as u64;
    put_count(out, b"The script is good: ", workers, b" workers, ");
    put_count(out, b"", turns, b" turns in its schedule.\n");
}

/// Returns whether an event is an invocation.
fn is_invocation(event: &Event) -> bool
    ensures { result ≡ is_invocation event.now.action }
{
    matches!(event.action, Action::Invoke(_, _))
}

/// Returns how many calls events have, with pending ones.
fn calls_in(events: &Events) -> usize
    ensures { result ≡ calls_in events.now }
{
    let mut count = 0;
    for i in 0..events.len() {
        if is_invocation(&events.at(i)) {
            count += 1;
        }
    }
    count
}

/// Puts that calls are linearizable, and how many calls and workers the history has.
#[tactic(auto, unfolding(crate::specs::Good::ordered_text))]
fn put_ordered<W: Write>(out: &mut Output<'_, W>, recording: &Recording)
    ensures { Puts out.old out.new (ordered_text recording.now) }
{
    let calls = calls_in(recording.events()) as u64;
    let workers = recording.heading().setup().workers() as u64;
    put_count(out, b"The calls are linearizable: ", calls, b" calls, ");
    put_count(out, b"", workers, b" workers.\n");
}

/// Returns the text which says that a trace is good.
pub(crate) fn good_bytes(alloc: Global, traced: &Traced) -> Result<Vec<u8>, AllocError>
    ensures { IfOk result (λ bytes. bytes.items ≡ good_text traced.now) }
{
    let mut bytes = Vec::new(alloc);
    let mut out = Output::new(&mut bytes);
    put_good(&mut out, traced);
    let done = out.finish();
    out.into_writer();
    whole(bytes, done)
}

/// Returns the text which says that a script is good, and what more is known of it.
pub(crate) fn script_bytes(alloc: Global, plan: &Plan, more: &[u8]) -> Result<Vec<u8>, AllocError>
    ensures { IfOk result (λ bytes. bytes.items ≡ good_script (shown_plan plan.now) ++ more.now) }
{
    let mut bytes = Vec::new(alloc);
    let mut out = Output::new(&mut bytes);
    put_good_script(&mut out, plan);
    out.put(more);
    let done = out.finish();
    out.into_writer();
    whole(bytes, done)
}

/// Returns the text which says that calls are linearizable, with the remarks on them.
pub(crate) fn ordered_bytes(alloc: Global, read: &Read<'_>) -> Result<Vec<u8>, AllocError>
    ensures { IfOk result (λ bytes. bytes.items ≡ ordered_text read.now.recording
        ++ remarks_text read.now.number read.now.recording) }
{
    let mut bytes = Vec::new(alloc);
    let mut out = Output::new(&mut bytes);
    put_ordered(&mut out, &read.recording);
    put_remarks_on(alloc, &mut out, read)?;
    let done = out.finish();
    out.into_writer();
    whole(bytes, done)
}
