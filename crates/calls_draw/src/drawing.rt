//! Draws a picture of one history of a text.
ghost use Rattle.std.specs.Prelude.{◌≡◌, ◌⊎◌, ◌<◌, List, [], ℕ, length, codes, nat_eq};
ghost use Rattle.std.specs.Prelude.{false, IfOk, IsTrue, IsSome};
ghost use Rattle.std.specs.List.{starts_with};
ghost use Rattle.ec_text.specs.Puts.{IsWrittenOut, Puts};
ghost use Rattle.calls_report.specs.declared.status.Status.TheVariants.{Done, Memory};
ghost use Rattle.calls_draw.specs.Draws.{Draws, Chooses, IsNoteOn, SaysAsCheck, WritesOne};
ghost use Rattle.calls_draw.specs.Draws.{SaysOfPicture, cut_note};

use crate::choice::{unknown_object, unknown_worker};
use crate::history::FoundHistory;
use crate::picture::{Picture, usual_from};
use crate::sink::{Pen, PutResult};
use crate::svg::put_svg;
use crate::text::put_plain;
use crate::view::{CallsView, Form};
use calls_report::{LastHistory, Status, check_whole};
use ec_text::{Output, write_out};
use std::alloc::{AllocError, Global};
use std::io::{Write, sink};

/// Returns whether a text is one of histories of calls, by how it begins.
pub fn is_calls(text: &[u8]) -> bool
    ensures { result ≡ starts_with nat_eq text.now (codes "evc-calls") }
{
    text.starts_with(b"evc-calls".as_slice())
}

/// What `check` says of a text.
#[derive(Drop)]
struct CheckReport {
    status: Status,
    note: Vec<u8>,
}

/// Writes what `check` says of a text to an empty note, and returns its status. Stores the history
/// at which it ends in `last`.
fn put_verdict<'a>(
    alloc: Global,
    text: &'a [u8],
    last: &mut Option<LastHistory<'a>>,
    note: &mut Vec<u8>,
) -> Result<Status, AllocError>
    requires { note.old.items ≡ [] }
    ensures says { IfOk result (λ status. IsNoteOn text.now status note.new.items) }
    ensures kept { IfOk result (λ status. status ≡ Done → IsSome last.new) }
{
    let mut out = Output::new(note);
    let status = check_whole(alloc, text, last, &mut sink(), &mut out);
    let done = out.finish();
    out.into_writer();
    match done {
        Ok(()) => Ok(status),
        Err(_) => Err(AllocError),
    }
}

/// Returns what `check` says of a text, and stores the history at which it ends in `last`.
fn note_on<'a>(
    alloc: Global,
    text: &'a [u8],
    last: &mut Option<LastHistory<'a>>,
) -> Result<CheckReport, AllocError>
    ensures says { IfOk result (λ n. IsNoteOn text.now n.status n.note.items) }
    ensures kept { IfOk result (λ n. n.status ≡ Done → IsSome last.new) }
{
    let mut note = Vec::new(alloc);
    let status = put_verdict(alloc, text, last, &mut note)?;
    Ok(CheckReport { status, note })
}

/// Reports what `check` says of a text, and returns its status.
fn report_as_check<N: Write>(noted: &CheckReport, notes: &mut Output<'_, N>) -> Status
    ensures says { (text : List ℕ) → IsNoteOn text noted.now.status noted.now.note.items
        → SaysAsCheck text result notes.old notes.new }
    ensures status { result ≡ noted.now.status }
    ensures written { IsWrittenOut notes.new }
{
    notes.say(noted.note.as_slice());
    noted.status
}

/// Reports that memory ran out.
fn report_no_memory<N: Write>(notes: &mut Output<'_, N>) -> Status
    ensures status { result ≡ Memory }
    ensures puts { Puts notes.old notes.new (codes "no memory\n") }
    ensures written { IsWrittenOut notes.new }
{
    notes.say(b"no memory\n");
    Status::Memory
}

/// Reports a name that is not declared, after the word for its sort.
fn report_unknown<N: Write>(sort: &[u8], name: &str, notes: &mut Output<'_, N>)
    ensures { IsWrittenOut notes.new }
{
    notes.put(b"no ");
    notes.put(sort);
    notes.put(b" ");
    notes.put(name.as_bytes());
    notes.say(b" is declared\n");
}

/// Returns whether no event is chosen, although a range is.
fn is_empty(view: &CallsView<'_>, count: usize) -> bool
    ensures { IsTrue result → IsSome view.now.from ⊎ IsSome view.now.to }
{
    let is_chosen = view.from.is_some() || view.to.is_some();
    let from = view.from.unwrap_or(0);
    let to = view.to.unwrap_or(usize::MAX);
    is_chosen && (to < from || count <= from)
}

/// Reports that no event is chosen.
fn report_empty<N: Write>(view: &CallsView<'_>, count: usize, notes: &mut Output<'_, N>)
    ensures { IsWrittenOut notes.new }
{
    notes.put(b"no event from ");
    notes.put_number(view.from.unwrap_or(0) as u64);
    match view.to {
        Some(to) => {
            notes.put(b" to ");
            notes.put_number(to as u64);
        }
        None => notes.put(b" on"),
    }
    notes.put(b": the history has ");
    notes.put_number(count as u64);
    notes.say(b" events\n");
}

/// Reports the first thing that is wrong with the choice, and returns whether there is one.
fn report_wrong_choice<N: Write>(
    view: &CallsView<'_>,
    found: &FoundHistory<'_>,
    notes: &mut Output<'_, N>,
) -> bool
    ensures chosen { IsTrue result → Chooses view.now }
    ensures quiet { result ≡ false → notes.new ≡ notes.old }
    ensures written { IsWrittenOut notes.old → IsWrittenOut notes.new }
{
    let heading = found.judged.read.recording.heading();
    if let Some(name) = unknown_worker(heading, view.workers) {
        report_unknown(b"worker", name, notes);
        return true;
    }
    if let Some(name) = unknown_object(heading, view.objects) {
        report_unknown(b"object", name, notes);
        return true;
    }
    let count = found.events().len();
    if is_empty(view, count) {
        report_empty(view, count, notes);
        return true;
    }
    false
}

/// Puts a picture.
fn put_picture(
    alloc: Global,
    view: &CallsView<'_>,
    out: &mut Pen<'_>,
    picture: &Picture<'_>,
) -> PutResult {
    out.put(view.before.as_bytes());
    match view.form {
        Form::Svg => put_svg(alloc, out, picture)?,
        Form::Text => put_plain(alloc, out, picture)?,
    }
    out.put(view.after.as_bytes());
    Ok(())
}

/// A picture, as it is written.
#[derive(Drop)]
struct Drawing {
    bytes: Vec<u8>,
    /// Whether only the last of the events are drawn that are asked for.
    is_cut: bool,
}

/// Returns whether a picture begins after the first event that a view asks for.
fn is_cut(view: &CallsView<'_>, picture: &Picture<'_>) -> bool {
    let usual = usual_from(&picture.evidence, picture.events.len());
    view.from.unwrap_or(usual) < picture.window().from
}

/// Returns the picture of a history, with this note on its text.
fn draw_picture(
    alloc: Global,
    view: &CallsView<'_>,
    note: &[u8],
    found: &FoundHistory<'_>,
) -> Result<Drawing, AllocError> {
    let picture = Picture::of(alloc, view, found, note)?;
    let is_cut = is_cut(view, &picture);
    let mut bytes = Vec::new(alloc);
    let mut out = Output::new(&mut bytes);
    let put = put_picture(alloc, view, &mut out, &picture);
    let done = out.finish();
    out.into_writer();
    put?;
    match done {
        Ok(()) => Ok(Drawing { bytes, is_cut }),
        Err(_) => Err(AllocError),
    }
}

/// Reports that only the last events are drawn, if it is so.
fn report_cut<N: Write>(drawing: &Drawing, notes: &mut Output<'_, N>)
    ensures says { (notes.new ≡ notes.old) ⊎ Puts notes.old notes.new cut_note }
    ensures written { IsWrittenOut notes.old → IsWrittenOut notes.new }
{
    if drawing.is_cut {
        notes.say(b"more than 400 events: only the last 400 are drawn\n");
    }
}

/// Reports what `check` says of the text of a picture, and what is not drawn.
fn report_drawn<N: Write>(
    noted: &CheckReport,
    drawing: &Drawing,
    notes: &mut Output<'_, N>,
) -> Status
    ensures says { (text : List ℕ) → IsNoteOn text noted.now.status noted.now.note.items
        → SaysOfPicture text result notes.old notes.new }
    ensures written { IsWrittenOut notes.new }
{
    let status = report_as_check(noted, notes);
    report_cut(drawing, notes);
    status
}

/// Writes a picture, and reports what `check` says of its text.
fn write_picture<W: Write, N: Write>(
    noted: &CheckReport,
    drawing: &Drawing,
    out: &mut W,
    notes: &mut Output<'_, N>,
) -> Status
    ensures ends { (text : List ℕ) → IsNoteOn text noted.now.status noted.now.note.items
        → WritesOne text result
        (record { out = W.contents out.old; notes = notes.old })
        (record { out = W.contents out.new; notes = notes.new }) }
    ensures written { IsWrittenOut notes.new }
{
    match write_out(out, &drawing.bytes) {
        Ok(()) => report_drawn(noted, drawing, notes),
        Err(_) => {
            notes.say(b"write fault\n");
            Status::InputOutput
        }
    }
}

/// Draws a history of a text, and reports what `check` says of the text.
fn draw_found<W: Write, N: Write>(
    alloc: Global,
    view: &CallsView<'_>,
    noted: &CheckReport,
    found: &FoundHistory<'_>,
    out: &mut W,
    notes: &mut Output<'_, N>,
) -> Status
    ensures ends { (text : List ℕ) → IsNoteOn text noted.now.status noted.now.note.items
        → Draws (Chooses view.now) text result
        (record { out = W.contents out.old; notes = notes.old })
        (record { out = W.contents out.new; notes = notes.new }) }
    ensures written { IsWrittenOut notes.old → IsWrittenOut notes.new }
{
    if report_wrong_choice(view, found, notes) {
        return Status::Usage;
    }
    match draw_picture(alloc, view, &noted.note, found) {
        Ok(drawing) => write_picture(noted, &drawing, out, notes),
        Err(_) => report_no_memory(notes),
    }
}

/// Draws the first history of a text that is rejected or not decided, otherwise the last one.
/// Reports what `check` says of the text.
///
/// Nothing is written before the whole picture is in memory.
pub fn draw_calls<W: Write, N: Write>(
    alloc: Global,
    view: &CallsView<'_>,
    text: &[u8],
    out: &mut W,
    notes: &mut Output<'_, N>,
) -> Status
    ensures ends { Draws (Chooses view.now) text.now result
        (record { out = W.contents out.old; notes = notes.old })
        (record { out = W.contents out.new; notes = notes.new }) }
    ensures written { IsWrittenOut notes.old → IsWrittenOut notes.new }
{
    let mut last = None;
    let Ok(noted) = note_on(alloc, text, &mut last) else {
        return report_no_memory(notes);
    };
    match last {
        Some(judged) => draw_found(alloc, view, &noted, &FoundHistory { judged }, out, notes),
        None => report_as_check(&noted, notes),
    }
}
