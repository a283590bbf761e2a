//! The notes. A failed write of a note is not reported, and no write is tried after it.
ghost use Rattle.std.specs.Prelude.{◌≡◌, ◌++◌, codes, OnOk, OnErr};
ghost use Rattle.ec_text.specs.Puts.{Puts, IsWrittenOut};
ghost use Rattle.calls_report.specs.Sites.{line_of};
ghost use Rattle.calls_report.specs.Notes.{cause_text, kind_text, line_words, kind_words};
ghost use Rattle.calls_report.specs.Notes.{fault_note, first_line, site_of, site_at, refusal_note};
ghost use Rattle.calls_report.specs.Notes.{SaysRefusal, repeated_words, repeated_text};
ghost use Rattle.calls_report.specs.Notes.{overlap_text, undecided_text, unfound_text, from_text};
ghost use Rattle.calls_report.specs.Notes.{undecided_note};

use crate::certificate::{Certificate, certify};
use crate::refusal::Site;
use crate::words::Speaker;
use calls_text::{Cause, FaultKind, Read, Recording, TextFault};
use calls_verdict::{Refusal, Undecided};
use ec_text::Output;
use std::alloc::{AllocError, Global};
use std::io::Write;

/// Returns the text for a kind of fault.
fn kind_text(kind: FaultKind) -> &'static [u8]
    ensures { result.now ≡ kind_text kind }
{
    match kind {
        FaultKind::BadHeader => b"evc-calls 1 is expected",
        FaultKind::BadLine => b"no line of this form may stand here",
        FaultKind::BadName => b"a word is no name",
        FaultKind::NameTaken => b"a name was used before",
        FaultKind::UnknownName => b"a name is not declared",
        FaultKind::BadNumber => b"a number is out of range",
        FaultKind::TooMany => b"a table would pass its bound",
        FaultKind::Hidden => b"the object belongs to a group",
        FaultKind::TwoRoles => b"one stands in both roles",
        FaultKind::NoRight => b"the worker lacks the right",
        FaultKind::BadOrder => b"the from lines are not in the order of the declarations",
        FaultKind::Unfinished => b"the text ends too early",
        FaultKind::Busy => b"the call of the worker is pending",
        FaultKind::Idle => b"the worker has no pending call",
        FaultKind::Unsuited => b"the reply does not suit the call",
        FaultKind::AtLimit => b"the limit is passed",
    }
}

/// Returns the text that says what is wrong with a line.
fn cause_text(kind: FaultKind, cause: Cause) -> &'static [u8]
    ensures { result.now ≡ cause_text kind cause }
{
    match cause {
        Cause::Long => b"more than 8192 bytes",
        Cause::Mark => b"a byte order mark",
        Cause::Return => b"a carriage return at the end",
        Cause::Tab => b"a tab",
        Cause::Empty => b"an empty line",
        Cause::Space => b"a space too many",
        Cause::Trace => b"a trace, for evc check",
        Cause::Script => b"a script, for evc sim",
        Cause::Other => kind_text(kind),
    }
}

/// Puts the number of a line, at the beginning of a note.
fn put_line<W: Write>(out: &mut Output<'_, W>, line: u64)
    ensures { Puts out.old out.new (line_words line) }
{
    out.put(b"line ");
    out.put_number(line);
    out.put(b": ");
}

/// Puts the number and the name of a kind.
fn put_kind<W: Write>(out: &mut Output<'_, W>, kind: FaultKind)
    ensures { Puts out.old out.new (kind_words kind) }
{
    out.put_number(kind.number());
    out.put(b" ");
    out.put(kind.name().as_bytes());
}

/// Puts what is wrong with a line.
fn put_cause<W: Write>(out: &mut Output<'_, W>, kind: FaultKind, cause: Cause)
    ensures { Puts out.old out.new (codes ": " ++ cause_text kind cause ++ codes "\n") }
{
    out.put(b": ");
    out.put(cause_text(kind, cause));
    out.put(b"\n");
}

/// Puts why a text is not a history.
fn put_fault<W: Write>(out: &mut Output<'_, W>, fault: TextFault)
    ensures { Puts out.old out.new (fault_note fault) }
{
    match fault {
        TextFault::Memory => out.put(b"no memory\n"),
        TextFault::At { line, kind, cause } => {
            put_line(out, line);
            put_kind(out, kind);
            put_cause(out, kind, cause);
        }
    }
}

/// Reports why a text is not a history.
pub fn report_fault<N: Write>(notes: &mut Output<'_, N>, fault: TextFault)
    ensures puts { Puts notes.old notes.new (fault_note fault) }
    ensures written { IsWrittenOut notes.new }
{
    put_fault(notes, fault);
    notes.flush();
}

/// Returns the number of the line of the event at position 0.
fn first_line(read: &Read<'_>) -> u64
    ensures { result ≡ first_line read.now.number read.now.recording }
{
    let events = read.recording.events().len() as u64;
    read.number.saturating_sub(1).saturating_sub(events)
}

/// Returns the site of a certificate. `first` is the number of the line of the event at position 0.
fn site_at(recording: &Recording, object: usize, first: u64, at: usize) -> Site<'_>
    ensures { result ≡ site_at recording.now object first at }
{
    Site {
        speaker: Speaker::new(recording.heading(), recording.lists()),
        object,
        first,
        at,
    }
}

/// Returns the site of a certificate in a history that was read.
pub(crate) fn site_of<'a>(read: &'a Read<'_>, object: usize, at: usize) -> Site<'a>
    ensures { result ≡ site_of read.now.number read.now.recording object at }
{
    site_at(&read.recording, object, first_line(read), at)
}

/// Puts the number of the line of the first faulty event.
fn put_site<W: Write>(out: &mut Output<'_, W>, site: &Site<'_>)
    ensures { Puts out.old out.new (codes "line " ++ line_of site.now site.now.at ++ codes ": ") }
{
    out.put(b"line ");
    site.put_line(out, site.at);
    out.put(b": ");
}

/// Puts the note of a certificate.
fn put_refusal<W: Write>(out: &mut Output<'_, W>, site: &Site<'_>, shown: Certificate<'_>)
    ensures { Puts out.old out.new (refusal_note site.now shown.entry) }
{
    put_site(out, site);
    site.put_certificate(out, shown);
    out.put(b"\n");
}

/// Reports why a history has no linearization.
pub fn report_refusal<N: Write>(
    alloc: Global,
    notes: &mut Output<'_, N>,
    read: &Read<'_>,
    refusal: &Refusal,
) -> Result<(), AllocError>
    ensures ok { OnOk result (SaysRefusal read.now.number read.now.recording refusal.now notes.old
        notes.new) }
    ensures written { OnOk result (IsWrittenOut notes.new) }
    ensures err { OnErr result (notes.new ≡ notes.old) }
{
    let shown = certify(alloc, &read.recording, refusal)?;
    let site = site_of(read, refusal.object, refusal.at);
    put_refusal(notes, &site, shown);
    notes.flush();
    Ok(())
}

/// Reports why the calls of an object have no linearization from the event at position `at` on.
///
/// `first` is the number of the line of the event at position 0.
pub fn report_certificate<N: Write>(
    notes: &mut Output<'_, N>,
    recording: &Recording,
    object: usize,
    first: u64,
    at: usize,
    shown: Certificate<'_>,
)
    ensures puts { Puts notes.old notes.new
        (refusal_note (site_at recording.now object first at) shown.entry) }
    ensures written { IsWrittenOut notes.new }
{
    put_refusal(notes, &site_at(recording, object, first, at), shown);
    notes.flush();
}

/// Puts the words on a value that was put or written more than once.
#[tactic(auto, unfolding(crate::specs::Notes::repeated_words))]
fn put_repeated_words<W: Write>(out: &mut Output<'_, W>, site: &Site<'_>)
    ensures { Puts out.old out.new (repeated_words site.now) }
{
    out.put(site.by_store(
        b" was put more than once, and the puts of lines ",
        b" was written more than once, and the writes of lines ",
    ));
}

/// Puts that an object is not decided, and a value.
fn put_undecided<W: Write>(out: &mut Output<'_, W>, site: &Site<'_>, value: usize)
    ensures { Puts out.old out.new (undecided_text site.now value) }
{
    site.put_with(out, b" is not decided:", value);
}

/// Puts that an object is not decided, as a value was put more than once.
fn put_repeated<W: Write>(out: &mut Output<'_, W>, site: &Site<'_>, value: usize)
    ensures { Puts out.old out.new (repeated_text site.now value) }
{
    site.speaker.put_store(out, site.object);
    put_undecided(out, site, value);
    put_repeated_words(out, site);
}

/// Puts the lines of two puts that overlap.
fn put_overlap<W: Write>(out: &mut Output<'_, W>, site: &Site<'_>, cause: &calls_cells::Undecided)
    ensures { Puts out.old out.new (overlap_text site.now cause.now) }
{
    site.put_line(out, cause.first.first);
    out.put(b" and ");
    site.put_line(out, cause.second.first);
    out.put(b" overlap\n");
}

/// Puts that something is not decided from a position on.
fn put_from<W: Write>(out: &mut Output<'_, W>, site: &Site<'_>, position: usize)
    ensures { Puts out.old out.new (from_text site.now position) }
{
    out.put(b" is not decided from line ");
    site.put_line(out, position);
    out.put(b" on\n");
}

/// Puts from where on nothing was found of a buffer.
fn put_unfound<W: Write>(out: &mut Output<'_, W>, site: &Site<'_>, position: usize)
    ensures { Puts out.old out.new (unfound_text site.now position) }
{
    site.speaker.put_store(out, site.object);
    put_from(out, site, position);
}

/// Puts why an object is not decided.
fn put_open<W: Write>(out: &mut Output<'_, W>, site: &Site<'_>, cause: &calls_verdict::Cause)
    ensures { Puts out.old out.new (undecided_note site.now cause.now) }
{
    match cause {
        calls_verdict::Cause::Values(values) => {
            put_repeated(out, site, values.value);
            put_overlap(out, site, values);
        }
        calls_verdict::Cause::Unfound(position) => put_unfound(out, site, *position),
    }
}

/// Reports why a history is not decided.
pub fn report_undecided<N: Write>(notes: &mut Output<'_, N>, read: &Read<'_>, undecided: &Undecided)
    ensures puts { Puts notes.old notes.new (undecided_note (site_of read.now.number
        read.now.recording undecided.now.object 0) undecided.now.cause) }
    ensures written { IsWrittenOut notes.new }
{
    let site = site_of(read, undecided.object, 0);
    put_open(notes, &site, &undecided.cause);
    notes.flush();
}
