//! `trace`: reads a history of calls, and writes a trace of steps.
ghost use Rattle.std.specs.Prelude.{◌≡◌, ◌≤◌, length, count_by, IfSome};
ghost use Rattle.ec_text.specs.Puts.{Puts, IsWrittenOut};
ghost use Rattle.calls_text.specs.Rules.{KeepsRules};
ghost use Rattle.calls_replay.specs.Replays.{left_out, left_note, differs_note, is_invocation};
ghost use Rattle.calls_replay.specs.Replays.{ReplaysText, Replays};
ghost use Rattle.calls_replay.specs.Made.{is_made};
ghost use Rattle.calls_replay.specs.kept.Ends.{WritesSteps, ReplaysRead, ReplaysWhole};

use crate::making::{Stop, is_made, replay};
use crate::obstacle::{find_obstacle, report_obstacle};
use calls_core::{Action, Events, Order};
use calls_report::{Status, TEXT_MAX, linearize, note_unread};
use calls_text::{Read as OneRead, read_history, read_is_spelled};
use ec_text::{Input, Output, read_up_to};
use ec_trace::write_trace;
use std::alloc::Global;
use std::io::{Read, Write};

/// Returns how many calls were invoked.
fn count_invoked(events: &Events) -> usize
    ensures { result ≡ count_by (λ e. is_invocation e.action) events.now }
{
    let mut count = 0;
    for i in 0..events.len() {
        if matches!(events.at(i).action, Action::Invoke(_, _)) {
            count += 1;
        }
    }
    count
}

/// Returns how many calls of an order are made.
fn count_made(limit: u64, order: &Order) -> usize
    ensures { result ≡ count_by (λ p. is_made limit p.call) order.now }
{
    let mut count = 0;
    for i in 0..order.len() {
        if is_made(limit, &order.at(i).call) {
            count += 1;
        }
    }
    count
}

/// Returns how many calls leave no step: they timed out, or are pending.
fn left_out(read: &OneRead<'_>, order: &Order) -> usize
    ensures { result ≡ left_out read.now.recording order.now }
{
    let limit = read.recording.heading().setup().limit().get();
    let invoked = count_invoked(read.recording.events());
    invoked.saturating_sub(count_made(limit, order))
}

/// Reports how many calls leave no step, if there are any.
fn report_left_out<N: Write>(notes: &mut Output<'_, N>, count: usize)
    ensures puts { Puts notes.old notes.new (left_note count) }
    ensures written { IsWrittenOut notes.old → IsWrittenOut notes.new }
{
    if count == 0 {
        return;
    }
    if count == 1 {
        notes.say(b"1 call leaves no step: it timed out, or is pending\n");
        return;
    }
    notes.put_number(count as u64);
    notes.say(b" calls leave no step: they timed out, or are pending\n");
}

/// Reports that the kernel does not make a call as it was recorded.
fn report_difference<N: Write>(notes: &mut Output<'_, N>, index: usize)
    ensures puts { Puts notes.old notes.new (differs_note index) }
    ensures written { IsWrittenOut notes.new }
{
    notes.put(b"no trace: the kernel makes call ");
    notes.put_number(index as u64);
    notes.say(b" of the order otherwise\n");
}

/// Makes the calls of a linearization, and writes the trace.
fn write_steps<W: Write, N: Write>(
    alloc: Global,
    read: &OneRead<'_>,
    order: &Order,
    out: &mut W,
    notes: &mut Output<'_, N>,
) -> Status
    requires { KeepsRules read.now.recording }
    ensures ends { WritesSteps read.now.recording order.now result
        (record { out = W.contents out.old; notes = notes.old })
        (record { out = W.contents out.new; notes = notes.new }) }
    ensures written { IsWrittenOut notes.old → IsWrittenOut notes.new }
{
    let heading = read.recording.heading();
    let run = match replay(alloc, heading, order) {
        Ok(run) => run,
        Err(Stop::Memory) => {
            notes.say(b"no memory\n");
            return Status::Memory;
        }
        Err(Stop::Differs(index)) => {
            report_difference(notes, index);
            return Status::Refused;
        }
    };
    run.invariant();
    match write_trace(&run, heading, out) {
        Ok(()) => {
            report_left_out(notes, left_out(read, order));
            Status::Done
        }
        Err(_) => {
            notes.say(b"write fault\n");
            Status::InputOutput
        }
    }
}

/// Writes the trace of a history that was read.
fn replay_read<W: Write, N: Write>(
    alloc: Global,
    read: &OneRead<'_>,
    out: &mut W,
    notes: &mut Output<'_, N>,
) -> Status
    requires { KeepsRules read.now.recording }
    ensures ends { ReplaysRead read.now.number read.now.recording read.now.rest.now result
        (record { out = W.contents out.old; notes = notes.old })
        (record { out = W.contents out.new; notes = notes.new }) }
    ensures written { IsWrittenOut notes.old → IsWrittenOut notes.new }
{
    if let Some(obstacle) = find_obstacle(read) {
        report_obstacle(notes, read, obstacle);
        return Status::Usage;
    }
    match linearize(alloc, read, notes) {
        Ok(order) => write_steps(alloc, read, &order, out, notes),
        Err(status) => status,
    }
}

/// Writes the trace of a text within the bound.
fn replay_text<W: Write, N: Write>(
    alloc: Global,
    text: &[u8],
    out: &mut W,
    notes: &mut Output<'_, N>,
) -> Status
    requires { length text.now ≤ TEXT_MAX }
    ensures ends { ReplaysText result text.now
        (record { out = W.contents out.old; notes = notes.old })
        (record { out = W.contents out.new; notes = notes.new }) }
    ensures written { IsWrittenOut notes.old → IsWrittenOut notes.new }
{
    read_is_spelled();
    match read_history(alloc, text, 1) {
        Ok(read) => replay_read(alloc, &read, out, notes),
        Err(fault) => note_unread(fault, notes),
    }
}

/// Writes the trace of a text that may be too large.
fn replay_whole<W: Write, N: Write>(
    alloc: Global,
    text: &[u8],
    out: &mut W,
    notes: &mut Output<'_, N>,
) -> Status
    ensures ends { ReplaysWhole result text.now
        (record { out = W.contents out.old; notes = notes.old })
        (record { out = W.contents out.new; notes = notes.new }) }
    ensures written { IsWrittenOut notes.old → IsWrittenOut notes.new }
{
    if text.len() > TEXT_MAX {
        notes.say(b"too large\n");
        return Status::Refused;
    }
    replay_text(alloc, text, out, notes)
}

/// Reads a history of calls, and writes a trace of steps with the calls of a linearization.
///
/// The calls come one after another. Notes say what is wrong, and how many calls leave no step.
///
/// A text of more than 67108864 bytes is too large, whatever is in it. The trace may have more
/// bytes than that, and then `evc check` reports that it is too large.
pub fn replay_calls<R: Read, W: Write, N: Write>(
    alloc: Global,
    reader: &mut R,
    out: &mut W,
    notes: &mut Output<'_, N>,
) -> Status
    ensures ends { IfSome (R.remaining reader.old) (λ bytes. Replays bytes (R.remaining reader.new)
        result
        (record { out = W.contents out.old; notes = notes.old })
        (record { out = W.contents out.new; notes = notes.new })) }
    ensures written { IsWrittenOut notes.old → IsWrittenOut notes.new }
{
    match read_up_to(alloc, reader, TEXT_MAX) {
        Ok(Input::Whole(text)) => replay_whole(alloc, text.as_slice(), out, notes),
        Ok(Input::CutOff(_)) => {
            notes.say(b"read fault\n");
            Status::InputOutput
        }
        Err(_) => {
            notes.say(b"no memory\n");
            Status::Memory
        }
    }
}
