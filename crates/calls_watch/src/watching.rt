//! `watch`: reads histories of calls, and judges each event when its line comes, or at the end of
//! its history.
ghost use Rattle.std.specs.Prelude.{◌≡◌, ◌≤◌, ◌++◌, List, ℕ, Option, IfSome, Some, length, take, codes};
ghost use Rattle.ec_text.specs.Puts.{Puts, IsWrittenOut};
ghost use Rattle.calls_core.specs.declared.history.Event.{Event};
ghost use Rattle.calls_text.specs.Reading.{Running};
ghost use Rattle.calls_text.specs.Recordings.{RecordingModel};
ghost use Rattle.calls_text.specs.Following.{stage_with_events};
ghost use Rattle.calls_report.specs.declared.status.Status.TheVariants.{Memory};
ghost use Rattle.calls_watch.specs.declared.whole.DecidedHistory.{DecidedHistory};
ghost use Rattle.calls_watch.specs.Loads.{load_text};
ghost use Rattle.calls_watch.specs.Watches.{Watches, line_of_first, refused_note};
ghost use Rattle.calls_watch.specs.kept.Watching.{FedFrom, IsFed, Feeds, Stops};
ghost use Rattle.calls_watch.specs.kept.Endings.{ReadsOn, ReadsAll, WritesLoad, SaysNote};
ghost use Rattle.calls_watch.specs.kept.Endings.{SaysVerdict, SaysStop};

use crate::feeder::Feeder;
use crate::load::Load;
use crate::shown::shown_by;
use crate::stop::Stop;
use crate::watcher::Watcher;
use crate::whole::DecidedHistory;
use arrayvec::ArrayVec;
use calls_core::Event;
use calls_monitor::Refused;
use calls_report::{Status, note_unread, report_certificate, report_refusal, report_undecided};
use calls_verdict::Verdict;
use ec_text::{Output, read_piece};
use std::alloc::Global;
use std::io::{Read, Write};

/// Why a text is not read to its end.
#[derive(Clone, Copy, Debug, PartialEq, Eq)]
pub(crate) enum EarlyEnd {
    /// A read failed.
    Read,
    /// It is not watched further.
    Stop(Stop),
}

/// Feeds the first `n` bytes of the table.
fn feed_prefix(
    alloc: Global,
    table: &ArrayVec<u8, 8192>,
    n: usize,
    feeder: &mut Feeder,
) -> Result<(), Stop>
    requires { n ≤ length table.now.items }
    ensures { (ps : List (List ℕ)) (rest : List ℕ)
        → IsFed ps (take n table.now.items ++ rest) feeder.old → Feeds result ps rest feeder.new }
{
    let bytes = table.as_slice();
    feeder.feed(alloc, &bytes[..n])
}

/// Reads a piece of the text and feeds it. Returns `false` at the end of the text.
fn read_on<R: Read>(
    alloc: Global,
    reader: &mut R,
    table: &mut ArrayVec<u8, 8192>,
    feeder: &mut Feeder,
) -> Result<bool, EarlyEnd>
    requires { length table.old.items ≡ 8192 }
    ensures len { length table.new.items ≡ 8192 }
    ensures reads { (old : Option (List ℕ)) → FedFrom old (R.remaining reader.old) feeder.old
        → ReadsOn old result (R.remaining reader.new) feeder.new }
{
    let Ok(n) = read_piece(reader, table) else {
        return Err(EarlyEnd::Read);
    };
    if n == 0 {
        return match feeder.end(alloc) {
            Ok(()) => Ok(false),
            Err(stop) => Err(EarlyEnd::Stop(stop)),
        };
    }
    match feed_prefix(alloc, table, n, feeder) {
        Ok(()) => Ok(true),
        Err(stop) => Err(EarlyEnd::Stop(stop)),
    }
}

/// Reads a text to its end, piece by piece.
fn read_all<R: Read>(alloc: Global, reader: &mut R, feeder: &mut Feeder) -> Result<(), EarlyEnd>
    ensures { (old : Option (List ℕ)) → FedFrom old (R.remaining reader.old) feeder.old
        → ReadsAll old result feeder.new }
{
    let mut table: ArrayVec<u8, 8192> = ArrayVec::from([0u8; 8192]);
    'pieces: for _piece in 0..u64::MAX {
        if !read_on(alloc, reader, &mut table, feeder)? {
            return Ok(());
        }
    }
    // (so many pieces would take centuries)
    Err(EarlyEnd::Stop(Stop::Memory))
}

/// Writes the line of the load.
fn write_load<W: Write, N: Write>(load: Load, out: &mut W, notes: &mut Output<'_, N>) -> Status
    ensures writes { WritesLoad result (load_text load.histories load.calls load.others)
        (record { out = W.contents out.old; notes = notes.old })
        (record { out = W.contents out.new; notes = notes.new }) }
    ensures written { IsWrittenOut notes.old → IsWrittenOut notes.new }
{
    let mut text = Output::new(out);
    load.put(&mut text);
    let done = text.finish();
    text.into_writer();
    match done {
        Ok(()) => Status::Done,
        Err(_) => {
            notes.say(b"write fault\n");
            Status::InputOutput
        }
    }
}

/// Returns the number of the line of the event at position 0.
///
/// `number` is that of the line after the event at position `at`.
fn line_of_first(number: u64, at: usize) -> u64
    ensures { result ≡ line_of_first number at }
{
    number.saturating_sub(1).saturating_sub(at as u64)
}

/// Reports that memory ran out.
fn report_memory<N: Write>(notes: &mut Output<'_, N>) -> Status
    ensures status { result ≡ Memory }
    ensures puts { Puts notes.old notes.new (codes "no memory\n") }
    ensures written { IsWrittenOut notes.new }
{
    notes.say(b"no memory\n");
    Status::Memory
}

/// Reports that a history has no linearization from an event on.
fn report_refused<N: Write>(
    watcher: &Watcher,
    event: Event,
    refused: Refused,
    notes: &mut Output<'_, N>,
) -> Status
    ensures says { (events : List Event) (r : RecordingModel)
        → stage_with_events events watcher.now.follower ≡ Running r
        → SaysNote result (refused_note watcher.now.number r event refused) notes.old
        notes.new }
    ensures written { IsWrittenOut notes.new }
{
    let Some(recording) = watcher.follower.recording() else {
        notes.flush();
        return Status::Memory;
    };
    let Refused { object, refusal } = refused;
    let shown = shown_by(recording, object, refusal);
    let first = line_of_first(watcher.number, event.at);
    report_certificate(notes, recording, object, first, event.at, shown);
    Status::Refused
}

/// Reports that a history which was decided at its end has no linearization, or is not decided.
fn report_verdict<N: Write>(
    alloc: Global,
    history: &DecidedHistory,
    notes: &mut Output<'_, N>,
) -> Status
    ensures says { SaysVerdict history.now.verdict history.now.read.number
        history.now.read.recording result notes.old notes.new }
    ensures written { IsWrittenOut notes.new }
{
    match &history.verdict {
        Verdict::Refused(refusal) => {
            match report_refusal(alloc, notes, &history.read, refusal) {
                Ok(()) => Status::Refused,
                Err(_) => report_memory(notes),
            }
        }
        Verdict::NotDecided(undecided) => {
            report_undecided(notes, &history.read, undecided);
            Status::NotDecided
        }
        Verdict::Linearizable(_) => report_memory(notes),
    }
}

/// Reports the verdict on the history that was decided at its end, and returns the status.
fn report_decided<N: Write>(
    alloc: Global,
    decided: &Option<DecidedHistory>,
    notes: &mut Output<'_, N>,
) -> Status
    ensures says { (history : DecidedHistory) → decided.now ≡ Some history
        → SaysVerdict history.verdict history.read.number history.read.recording result notes.old
        notes.new }
    ensures written { IsWrittenOut notes.new }
{
    match decided {
        Some(history) => report_verdict(alloc, history, notes),
        None => report_memory(notes),
    }
}

/// Reports why a text is not watched further, and returns the status.
pub fn report_stop<N: Write>(
    alloc: Global,
    watcher: &Watcher,
    stop: Stop,
    notes: &mut Output<'_, N>,
) -> Status
    ensures says { (ps : List (List ℕ)) → Stops stop ps watcher.now
        → SaysStop ps result notes.old notes.new }
    ensures written { IsWrittenOut notes.new }
{
    match stop {
        Stop::Unread(fault) => note_unread(fault, notes),
        Stop::Refused(event, refused) => report_refused(watcher, event, refused, notes),
        Stop::RefusedAtEnd => report_decided(alloc, &watcher.decided, notes),
        Stop::NotDecided => report_decided(alloc, &watcher.decided, notes),
        Stop::TooLarge => {
            notes.say(b"too large\n");
            Status::Refused
        }
        Stop::Memory => report_memory(notes),
    }
}

/// Reads histories of calls, and judges each event when its line comes.
///
/// It ends at the first event with which a history has no linearization, and a note says why. At
/// the end of the text it writes how many histories and calls there were. It also writes how many
/// other calls are pending on average when one is invoked.
///
/// From the first call of a cell, a database, or a buffer that has not one producer and one consumer
/// on, the rest of the history is only read, and at its end the whole history is decided, as by
/// `check`. The text of a history that declares such an object is kept, up to 67108864 bytes. Apart
/// from this and the lists that databases store, the state does not grow with the text. A read that
/// fails is not tried again.
pub fn watch<R: Read, W: Write, N: Write>(
    alloc: Global,
    reader: &mut R,
    out: &mut W,
    notes: &mut Output<'_, N>,
) -> Status
    ensures ends { IfSome (R.remaining reader.old) (λ bytes. Watches bytes result
        (record { out = W.contents out.old; notes = notes.old })
        (record { out = W.contents out.new; notes = notes.new })) }
    ensures written { IsWrittenOut notes.old → IsWrittenOut notes.new }
{
    let mut feeder = Feeder::new(alloc);
    match read_all(alloc, reader, &mut feeder) {
        Ok(()) => write_load(feeder.watcher.load, out, notes),
        Err(EarlyEnd::Read) => {
            notes.say(b"read fault\n");
            Status::InputOutput
        }
        Err(EarlyEnd::Stop(stop)) => report_stop(alloc, &feeder.watcher, stop, notes),
    }
}
