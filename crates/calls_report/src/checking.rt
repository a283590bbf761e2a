//! `check`: reads histories of calls, and writes a linearization of each.
ghost use Rattle.std.specs.Prelude.{◌≡◌, ◌<◌, ◌≤◌, ◌↔◌, IsTrue, IfSome, IsSome, IfOk, OnOk, OnErr};
ghost use Rattle.std.specs.Prelude.{IfErr, length};
ghost use Rattle.ec_text.specs.Puts.{Puts, IsWrittenOut};
ghost use Rattle.calls_report.specs.declared.status.Status.TheVariants.{Done};
ghost use Rattle.calls_report.specs.Notes.{fault_note};
ghost use Rattle.calls_report.specs.Remarks.{remarks_text};
ghost use Rattle.calls_report.specs.Checks.{history_text, HasOrder, ChecksText, ChecksWhole};
ghost use Rattle.calls_report.specs.Checks.{Checks};
ghost use Rattle.calls_report.specs.Stops.{StopsAs};
ghost use Rattle.calls_report.specs.kept.Sums.{AreSums};
ghost use Rattle.calls_report.specs.kept.Judging.{PutsOrder, StopsBy, status_by, EndsBy};
ghost use Rattle.calls_report.specs.kept.Judging.{fault_status, Judges, JudgesOne, IsLast};

use crate::notes::{report_fault, report_refusal, report_undecided};
use crate::order::put_order;
use crate::remarks::{remarks_of, report_remarks};
use crate::status::Status;
use crate::sums::Sums;
use crate::totals::Totals;
use crate::words::Speaker;
use calls_core::Order;
use calls_text::{Read as OneRead, Recording, TextFault, read_history};
use calls_verdict::{Verdict, decide};
use ec_text::{Input, Output, read_up_to};
use std::alloc::Global;
use std::io::{Read, Write};

/// The most bytes that a text may have.
pub const TEXT_MAX: usize = 67_108_864;

/// The history at which a check ended, with its verdict.
///
/// It is the first that has no linearization or is not decided, or otherwise the last one of the
/// text.
#[derive(Drop)]
pub struct LastHistory<'a> {
    /// The text from the history's first line on.
    pub text: &'a [u8],
    /// The number of that line.
    pub number: u64,
    pub read: OneRead<'a>,
    pub verdict: Verdict,
}

/// A history that was read, and is not judged yet.
#[derive(Drop)]
struct UnjudgedHistory<'a> {
    /// The text from the history's first line on.
    text: &'a [u8],
    /// The number of that line.
    number: u64,
    read: OneRead<'a>,
}

/// Why no linearization of a history is put.
#[derive(Clone, Copy, Debug, PartialEq, Eq)]
pub(crate) enum Stop {
    /// It has no linearization.
    Refused,
    /// It is not decided.
    NotDecided,
    /// An allocation failed.
    Memory,
}

/// Puts the output for a linearizable history: a linearization, and the totals.
fn put_text<W: Write>(out: &mut Output<'_, W>, recording: &Recording, order: &Order, sums: &Sums)
    requires { AreSums order.now sums.now }
    ensures { Puts out.old out.new (history_text recording.now order.now) }
{
    let speaker = Speaker::new(recording.heading(), recording.lists());
    let totals = Totals { recording, sums };
    out.put(b"evc-order 1\n");
    put_order(out, &speaker, recording.events().len(), order);
    out.put(b"totals\n");
    totals.put(out);
    out.put(b"end\n");
}

/// Returns a linearization of a history, or reports why there is none.
///
/// In the second case `kept` gets the verdict. If memory runs out, nothing is reported or stored.
fn find_order<N: Write>(
    alloc: Global,
    read: &OneRead<'_>,
    kept: &mut Option<Verdict>,
    notes: &mut Output<'_, N>,
) -> Result<Order, Stop>
    ensures ok { IfOk result (λ order. HasOrder read.now.recording order) }
    ensures quiet { OnOk result (notes.new ≡ notes.old) }
    ensures stop { IfErr result (StopsBy read.now.number read.now.recording notes.old notes.new) }
    ensures written { IsWrittenOut notes.old → IsWrittenOut notes.new }
{
    let recording = &read.recording;
    // (there are no more events than a `usize` can say)
    let _count = recording.events().len();
    let Ok(verdict) = decide(alloc, recording.kinds(), recording.events()) else {
        return Err(Stop::Memory);
    };
    match verdict {
        Verdict::Linearizable(order) => Ok(order),
        Verdict::Refused(refusal) => match report_refusal(alloc, notes, read, &refusal) {
            Ok(()) => {
                *kept = Some(Verdict::Refused(refusal));
                Err(Stop::Refused)
            }
            Err(_) => Err(Stop::Memory),
        },
        Verdict::NotDecided(undecided) => {
            report_undecided(notes, read, &undecided);
            *kept = Some(Verdict::NotDecided(undecided));
            Err(Stop::NotDecided)
        }
    }
}

/// Judges a history: puts its linearization and reports the remarks, or reports why there is none.
///
/// `kept` gets the verdict. If memory runs out, nothing is put or reported.
fn judge<W: Write, N: Write>(
    alloc: Global,
    read: &OneRead<'_>,
    kept: &mut Option<Verdict>,
    out: &mut Output<'_, W>,
    notes: &mut Output<'_, N>,
) -> Result<(), Stop>
    ensures ok { OnOk result (PutsOrder read.now.recording out.old out.new) }
    ensures remarks { OnOk result (Puts notes.old notes.new
        (remarks_text read.now.number read.now.recording)) }
    ensures stop { IfErr result (StopsBy read.now.number read.now.recording notes.old notes.new) }
    ensures none { OnErr result (out.new ≡ out.old) }
    ensures kept { OnOk result (IsSome kept.new) }
    ensures written { IsWrittenOut notes.old → IsWrittenOut notes.new }
{
    let order = match find_order(alloc, read, kept, notes) {
        Ok(order) => order,
        Err(stop) => return Err(stop),
    };
    let Ok(sums) = Sums::of(alloc, &order) else {
        return Err(Stop::Memory);
    };
    let Ok(remarks) = remarks_of(alloc, &read.recording) else {
        return Err(Stop::Memory);
    };
    put_text(out, &read.recording, &order, &sums);
    report_remarks(notes, read, &remarks);
    *kept = Some(Verdict::Linearizable(order));
    Ok(())
}

/// Returns the status of a check that was stopped, and reports if memory ran out.
fn end_by<N: Write>(stop: Stop, notes: &mut Output<'_, N>) -> Status
    ensures status { result ≡ status_by stop }
    ensures stops { result ≡ Done → ⊥ }
    ensures notes { EndsBy stop notes.old notes.new }
    ensures written { IsWrittenOut notes.old → IsWrittenOut notes.new }
{
    match stop {
        Stop::Refused => Status::Refused,
        Stop::NotDecided => Status::NotDecided,
        Stop::Memory => {
            notes.say(b"no memory\n");
            Status::Memory
        }
    }
}

/// Returns a linearization of a history, or reports why there is none and returns the status.
pub fn linearize<N: Write>(
    alloc: Global,
    read: &OneRead<'_>,
    notes: &mut Output<'_, N>,
) -> Result<Order, Status>
    ensures ok { IfOk result (λ order. HasOrder read.now.recording order) }
    ensures quiet { OnOk result (notes.new ≡ notes.old) }
    ensures stop { IfErr result
        (StopsAs read.now.number read.now.recording notes.old notes.new) }
    ensures written { IsWrittenOut notes.old → IsWrittenOut notes.new }
{
    match find_order(alloc, read, &mut None, notes) {
        Ok(order) => Ok(order),
        Err(stop) => Err(end_by(stop, notes)),
    }
}

/// Reports why a text is not a history, and returns the status.
pub fn note_unread<N: Write>(fault: TextFault, notes: &mut Output<'_, N>) -> Status
    ensures status { result ≡ fault_status fault }
    ensures stops { result ≡ Done → ⊥ }
    ensures puts { Puts notes.old notes.new (fault_note fault) }
    ensures written { IsWrittenOut notes.new }
{
    report_fault(notes, fault);
    match fault {
        TextFault::At { .. } => Status::Refused,
        TextFault::Memory => Status::Memory,
    }
}

/// Returns the history that was read from a line of a text, with its verdict, if there is one.
fn judged<'a>(
    text: &'a [u8],
    number: u64,
    read: OneRead<'a>,
    verdict: Option<Verdict>,
) -> Option<LastHistory<'a>>
    ensures { IsSome verdict → IsSome result }
{
    Some(LastHistory {
        text,
        number,
        read,
        verdict: verdict?,
    })
}

/// Judges a history that is the last one of its text, and returns the status.
///
/// `kept` gets the verdict.
fn judge_last<W: Write, N: Write>(
    alloc: Global,
    read: &OneRead<'_>,
    kept: &mut Option<Verdict>,
    out: &mut Output<'_, W>,
    notes: &mut Output<'_, N>,
) -> Status
    ensures judges { JudgesOne result read.now.number read.now.recording out.old out.new notes.old
        notes.new }
    ensures kept { result ≡ Done → IsSome kept.new }
    ensures written { IsWrittenOut notes.old → IsWrittenOut notes.new }
{
    match judge(alloc, read, kept, out, notes) {
        Ok(()) => Status::Done,
        Err(stop) => end_by(stop, notes),
    }
}

/// Judges the histories of a text before its last one, up to the first that is faulty, not
/// linearizable or not decided, and returns the last one.
///
/// If it ends before, it returns the status, and `last` gets the history at which it ends, if that
/// was read and has a verdict.
fn judge_earlier<'a, W: Write, N: Write>(
    alloc: Global,
    text: &'a [u8],
    last: &mut Option<LastHistory<'a>>,
    out: &mut Output<'_, W>,
    notes: &mut Output<'_, N>,
) -> Result<UnjudgedHistory<'a>, Status>
    requires { length text.now ≤ TEXT_MAX }
    ensures last { IfOk result (λ h. IsLast text.now h.read.number h.read.recording out.old out.new
        notes.old notes.new) }
    ensures judges { IfErr result (λ status. Judges status text.now out.old out.new notes.old
        notes.new) }
    ensures stops { IfErr result (λ status. status ≡ Done → ⊥) }
    ensures written { IsWrittenOut notes.old → IsWrittenOut notes.new }
{
    let mut number = 1;
    let mut rest = text;
    loop {
        let read = match read_history(alloc, rest, number) {
            Ok(read) => read,
            Err(fault) => return Err(note_unread(fault, notes)),
        };
        if read.rest.is_empty() {
            return Ok(UnjudgedHistory {
                text: rest,
                number,
                read,
            });
        }
        let mut verdict = None;
        if let Err(stop) = judge(alloc, &read, &mut verdict, out, notes) {
            *last = judged(rest, number, read, verdict);
            return Err(end_by(stop, notes));
        }
        number = read.number;
        rest = read.rest;
    }
}

/// Judges the histories of a text, up to the first that is faulty, not linearizable or not decided.
///
/// `last` gets the history at which this ends, if it was read and has a verdict.
fn judge_all<'a, W: Write, N: Write>(
    alloc: Global,
    text: &'a [u8],
    last: &mut Option<LastHistory<'a>>,
    out: &mut Output<'_, W>,
    notes: &mut Output<'_, N>,
) -> Status
    requires { length text.now ≤ TEXT_MAX }
    ensures judges { Judges result text.now out.old out.new notes.old notes.new }
    ensures kept { result ≡ Done → IsSome last.new }
    ensures written { IsWrittenOut notes.old → IsWrittenOut notes.new }
{
    let history = match judge_earlier(alloc, text, last, out, notes) {
        Ok(history) => history,
        Err(status) => return status,
    };
    let mut verdict = None;
    let status = judge_last(alloc, &history.read, &mut verdict, out, notes);
    *last = judged(history.text, history.number, history.read, verdict);
    status
}

/// Judges the histories of a text before its last one, and returns that one without the text, which
/// it frees.
fn judge_and_free<W: Write, N: Write>(
    alloc: Global,
    text: Vec<u8>,
    out: &mut Output<'_, W>,
    notes: &mut Output<'_, N>,
) -> Result<OneRead<'static>, Status>
    requires { length text.items ≤ TEXT_MAX }
    ensures last { IfOk result (λ read. IsLast text.items read.number read.recording out.old out.new
        notes.old notes.new) }
    ensures judges { IfErr result (λ status. Judges status text.items out.old out.new notes.old
        notes.new) }
    ensures written { IsWrittenOut notes.old → IsWrittenOut notes.new }
{
    match judge_earlier(alloc, text.as_slice(), &mut None, out, notes) {
        Ok(
            UnjudgedHistory {
                read: OneRead {
                    recording,
                    number,
                    ..
                },
                ..
            },
        ) => Ok(OneRead {
            recording,
            number,
            rest: b"",
        }),
        Err(status) => Err(status),
    }
}

/// Judges the histories of a text, which is freed before the last one is judged.
fn judge_freely<W: Write, N: Write>(
    alloc: Global,
    text: Vec<u8>,
    out: &mut Output<'_, W>,
    notes: &mut Output<'_, N>,
) -> Status
    requires { length text.items ≤ TEXT_MAX }
    ensures judges { Judges result text.items out.old out.new notes.old notes.new }
    ensures written { IsWrittenOut notes.old → IsWrittenOut notes.new }
{
    match judge_and_free(alloc, text, out, notes) {
        Ok(read) => judge_last(alloc, &read, &mut None, out, notes),
        Err(status) => status,
    }
}

/// Judges the histories of a text within the bound, and writes their linearizations.
///
/// `last` gets the history at which this ends, if it was read and has a verdict.
fn check_text<'a, W: Write, N: Write>(
    alloc: Global,
    text: &'a [u8],
    last: &mut Option<LastHistory<'a>>,
    out: &mut W,
    notes: &mut Output<'_, N>,
) -> Status
    requires { length text.now ≤ TEXT_MAX }
    ensures checks { ChecksText result text.now
        (record { out = W.contents out.old; notes = notes.old })
        (record { out = W.contents out.new; notes = notes.new }) }
    ensures kept { result ≡ Done → IsSome last.new }
    ensures written { IsWrittenOut notes.old → IsWrittenOut notes.new }
{
    let mut texts = Output::new(out);
    let status = judge_all(alloc, text, last, &mut texts, notes);
    let done = texts.finish();
    texts.into_writer();
    match done {
        Ok(()) => status,
        Err(_) => {
            notes.say(b"write fault\n");
            Status::InputOutput
        }
    }
}

/// Returns whether a text is too large.
fn is_too_large(text: &[u8]) -> bool
    ensures { IsTrue result ↔ (TEXT_MAX < length text.now) }
{
    text.len() > TEXT_MAX
}

/// Checks a text that is given at once.
///
/// `last` gets the history at which this ends, if it was read and has a verdict: of a good text its
/// last one. A text of more than `TEXT_MAX` bytes is too large.
pub fn check_whole<'a, W: Write, N: Write>(
    alloc: Global,
    text: &'a [u8],
    last: &mut Option<LastHistory<'a>>,
    out: &mut W,
    notes: &mut Output<'_, N>,
) -> Status
    ensures checks { ChecksWhole result text.now
        (record { out = W.contents out.old; notes = notes.old })
        (record { out = W.contents out.new; notes = notes.new }) }
    ensures kept { result ≡ Done → IsSome last.new }
    ensures written { IsWrittenOut notes.old → IsWrittenOut notes.new }
{
    if is_too_large(text) {
        notes.say(b"too large\n");
        return Status::Refused;
    }
    check_text(alloc, text, last, out, notes)
}

/// Checks a text, which is freed before its last history is judged.
fn check_freely<W: Write, N: Write>(
    alloc: Global,
    text: Vec<u8>,
    out: &mut W,
    notes: &mut Output<'_, N>,
) -> Status
    ensures checks { ChecksWhole result text.items
        (record { out = W.contents out.old; notes = notes.old })
        (record { out = W.contents out.new; notes = notes.new }) }
    ensures written { IsWrittenOut notes.old → IsWrittenOut notes.new }
{
    if is_too_large(text.as_slice()) {
        notes.say(b"too large\n");
        return Status::Refused;
    }
    let mut texts = Output::new(out);
    let status = judge_freely(alloc, text, &mut texts, notes);
    let done = texts.finish();
    texts.into_writer();
    match done {
        Ok(()) => status,
        Err(_) => {
            notes.say(b"write fault\n");
            Status::InputOutput
        }
    }
}

/// Reads histories of calls, and writes a linearization of each.
///
/// It ends at the first history that is faulty, not linearizable or not decided, and a note says
/// why. Before that come the remarks on the histories so far: one for each await that is pending
/// although its threshold was surely reached.
///
/// A text of more than 67108864 bytes is too large, whatever is in it. A read that fails is not
/// tried again.
pub fn check<R: Read, W: Write, N: Write>(
    alloc: Global,
    reader: &mut R,
    out: &mut W,
    notes: &mut Output<'_, N>,
) -> Status
    ensures ends { IfSome (R.remaining reader.old) (λ bytes. Checks bytes (R.remaining reader.new)
        result
        (record { out = W.contents out.old; notes = notes.old })
        (record { out = W.contents out.new; notes = notes.new })) }
    ensures written { IsWrittenOut notes.old → IsWrittenOut notes.new }
{
    match read_up_to(alloc, reader, TEXT_MAX) {
        Ok(Input::Whole(text)) => check_freely(alloc, text, out, notes),
        Ok(Input::CutOff(_)) => {
            notes.say(b"read fault\n");
            Status::InputOutput
        }
        Err(_) => {
            notes.say(b"no memory\n");
            Status::Memory
        }
    }
}
