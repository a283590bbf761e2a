//! Which entries keep a trace from having a history of calls.
ghost use Rattle.std.specs.Prelude.{◌≡◌, Some, None, if◌then◌else◌, length, IfSome};
ghost use Rattle.std.specs.List.{list_any};
ghost use Rattle.std.specs.Option.{IfNone};
ghost use Rattle.ec_heading.specs.Groups.{has_event, has_sequencer, has_cell};
ghost use Rattle.ec_text.specs.Puts.{Puts, IsWrittenOut};
ghost use Rattle.calls_extract.specs.Causes.{cause_of, cause_at, IsFirstCause, HasNoneBefore};
ghost use Rattle.calls_extract.specs.Causes.{cause_words, cause_note, name_at};

use ec_core::{Act, Run};
use ec_count::{CellId, EventId, SeqId};
use ec_heading::Group;
use ec_text::Output;
use ec_trace::Spellings;
use std::io::Write;

/// Why an entry cannot be in a history of calls.
#[derive(Clone, Copy, Debug, PartialEq, Eq)]
pub enum Cause {
    /// Its object belongs to a group, and a history has only calls of whole groups.
    OfGroup,
    /// It hands a component over, but the rights of a history don't change.
    HandsOver,
}

/// Returns whether an eventcount belongs to one of the groups.
fn is_event_owned(groups: &[Group], event: EventId) -> bool
    ensures { result ≡ list_any (λ g. has_event g event) groups.now }
{
    groups.iter().any(|group| group.has_event(event))
}

/// Returns whether a sequencer belongs to one of the groups.
fn is_sequencer_owned(groups: &[Group], sequencer: SeqId) -> bool
    ensures { result ≡ list_any (λ g. has_sequencer g sequencer) groups.now }
{
    groups.iter().any(|group| group.has_sequencer(sequencer))
}

/// Returns whether a cell belongs to one of the groups.
fn is_cell_owned(groups: &[Group], cell: CellId) -> bool
    ensures { result ≡ list_any (λ g. has_cell g cell) groups.now }
{
    groups.iter().any(|group| group.has_cell(cell))
}

/// Returns the cause of an entry whose object may belong to a group.
fn of_group(is_owned: bool) -> Option<Cause>
    ensures { result ≡ (if is_owned then Some Cause.OfGroup else None) }
{
    if is_owned { Some(Cause::OfGroup) } else { None }
}

/// Returns why an act cannot be in a history of calls, or `None` if it can.
fn cause_of(groups: &[Group], act: &Act) -> Option<Cause>
    ensures { result ≡ cause_of groups.now act.now }
{
    match *act {
        Act::Advance(event) => of_group(is_event_owned(groups, event)),
        Act::Read(event) => of_group(is_event_owned(groups, event)),
        Act::Await(event, _threshold) => of_group(is_event_owned(groups, event)),
        Act::Ticket(sequencer) => of_group(is_sequencer_owned(groups, sequencer)),
        Act::Put(cell, _value) => of_group(is_cell_owned(groups, cell)),
        Act::Get(cell) => of_group(is_cell_owned(groups, cell)),
        Act::Go => None,
        Act::Hand(_, _) => Some(Cause::HandsOver),
    }
}

/// Returns why the entry at index `place` cannot be in a history of calls.
fn cause_at(groups: &[Group], run: &Run, place: usize) -> Option<Cause>
    ensures { result ≡ cause_at groups.now run.now.entries place }
{
    let entry = run.entry(place)?;
    cause_of(groups, &entry.act)
}

/// Returns the index of the first entry that cannot be in a history of calls, and why.
pub(crate) fn first_cause(groups: &[Group], run: &Run) -> Option<(usize, Cause)>
    ensures some { IfSome result (λ found. IsFirstCause groups.now run.now.entries found.0 found.1) }
    ensures none { IfNone result (HasNoneBefore groups.now run.now.entries
        (length run.now.entries)) }
{
    for place in 0..run.len() {
        if let Some(cause) = cause_at(groups, run, place) {
            return Some((place, cause));
        }
    }
    None
}

/// Returns what a note says about a cause.
fn cause_words(cause: Cause) -> &'static [u8]
    ensures { result.now ≡ cause_words cause }
{
    match cause {
        Cause::OfGroup => b": the object belongs to a group\n",
        Cause::HandsOver => b": a component is handed over\n",
    }
}

/// Writes which entry keeps a trace from having a history of calls, and why.
fn put_cause<N: Write>(notes: &mut Output<'_, N>, worker: &[u8], place: u64, cause: Cause)
    ensures { Puts notes.old notes.new (cause_note worker.now place cause) }
{
    notes.put(b"no history of calls: worker ");
    notes.put(worker);
    notes.put(b" entry ");
    notes.put_number(place);
    notes.put(cause_words(cause));
}

/// Reports why a trace has no history of calls: the entry, with its worker, and the cause.
pub(crate) fn report_cause<N: Write>(
    notes: &mut Output<'_, N>,
    spellings: &Spellings<'_>,
    run: &Run,
    place: usize,
    cause: Cause,
)
    ensures puts { Puts notes.old notes.new (cause_note (name_at spellings.now run.now.entries
        place) place cause) }
    ensures written { IsWrittenOut notes.new }
{
    let worker = match run.entry(place) {
        Some(entry) => spellings.worker(entry.worker),
        None => b"",
    };
    put_cause(notes, worker, place as u64, cause);
    notes.flush();
}
