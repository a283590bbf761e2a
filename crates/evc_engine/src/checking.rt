//! `check`: reads a trace, and writes a linearization of its calls and the totals.
ghost use Rattle.std.specs.Prelude.{◌≡◌, ℕ, List, IfSome};
ghost use Rattle.ec_core.specs.declared.act.Entry.{Entry};
ghost use Rattle.ec_text.specs.Puts.{Puts, IsWrittenOut};
ghost use Rattle.ec_trace.specs.Reading.{IsOpened};
ghost use Rattle.evc_engine.specs.Checks.{Checks, Writes};
ghost use Rattle.evc_engine.specs.kept.Halts.{IsReadInto};
ghost use Rattle.evc_engine.specs.Notes.{fault_note, fault_status};

use crate::notes::report_fault;
use crate::status::Status;
use crate::text::write_text;
use ec_order::Linearizer;
use ec_text::Output;
use ec_trace::{AuditedWorld, Heading, Lines, TraceFault, TraceOpening, open_trace, read_entries};
use std::alloc::Global;
use std::io::{Read, Write};

/// Reports why a trace was not read, and returns the status of the command.
pub fn note_unread<N: Write>(fault: &TraceFault, notes: &mut Output<'_, N>) -> Status
    ensures status { result ≡ fault_status fault.now }
    ensures note { Puts notes.old notes.new (fault_note fault.now) }
    ensures written { IsWrittenOut notes.new }
{
    report_fault(notes, fault);
    match fault {
        TraceFault::Read => Status::InputOutput,
        TraceFault::Memory => Status::Memory,
        _ => Status::Refused,
    }
}

/// Writes the text of a trace that was read. (It is not inlined, so that its stack frame does not
/// exist while the trace is read.)
#[inline(never)]
fn write_linearization<W: Write, N: Write>(
    heading: &Heading,
    watched: AuditedWorld<Linearizer<'_>>,
    out: &mut W,
    notes: &mut Output<'_, N>,
) -> Status
    ensures ends { (entries : List Entry) → IsReadInto heading.now entries watched.entry.world watched.entry.audit → Writes (record { heading = heading.now; entries = entries }) result
        (record { out = W.contents out.old; notes = notes.old })
        (record { out = W.contents out.new; notes = notes.new }) }
    ensures written { IsWrittenOut notes.old → IsWrittenOut notes.new }
{
    let (world, linearizer) = watched.into_parts();
    let Ok(calls) = linearizer.calls() else {
        return note_unread(&TraceFault::Memory, notes);
    };
    match write_text(out, heading, &world, calls) {
        Ok(()) => Status::Done,
        Err(_) => {
            notes.say(b"write fault\n");
            Status::InputOutput
        }
    }
}

/// Reads the entries of a trace, and writes its text or reports why there is none. (It is not
/// inlined into its caller, which reads the header, for the same reason.)
#[inline(never)]
fn check_entries<R: Read, W: Write, N: Write>(
    alloc: Global,
    heading: &Heading,
    lines: Lines,
    reader: &mut R,
    out: &mut W,
    notes: &mut Output<'_, N>,
) -> Status
    ensures ends { (bytes : List ℕ) → IsOpened bytes (R.remaining reader.old) lines heading.now → Checks bytes (R.remaining reader.new) result
        (record { out = W.contents out.old; notes = notes.old })
        (record { out = W.contents out.new; notes = notes.new }) }
    ensures written { IsWrittenOut notes.old → IsWrittenOut notes.new }
{
    let Ok(linearizer) = Linearizer::open(alloc, heading.setup()) else {
        return note_unread(&TraceFault::Memory, notes);
    };
    let mut watched = AuditedWorld::new(heading.setup().copy(), linearizer);
    if let Err(fault) = read_entries(alloc, lines, reader, heading, &mut watched) {
        return note_unread(&fault, notes);
    }
    write_linearization(heading, watched, out, notes)
}

/// Reads a trace, and writes a linearization of its completed calls and the totals. Notes say what
/// is wrong.
///
/// The trace is streamed once, and no run of it is stored. Nothing is written to `out` before the
/// trace was read to its end.
// (Inlined into its caller, it would share the registers with the other commands.)
#[inline(never)]
pub fn check<R: Read, W: Write, N: Write>(
    alloc: Global,
    reader: &mut R,
    out: &mut W,
    notes: &mut Output<'_, N>,
) -> Status
    ensures ends { IfSome (R.remaining reader.old) (λ bytes. Checks bytes (R.remaining reader.new) result
        (record { out = W.contents out.old; notes = notes.old })
        (record { out = W.contents out.new; notes = notes.new })) }
    ensures written { IsWrittenOut notes.old → IsWrittenOut notes.new }
{
    match open_trace(alloc, reader) {
        Ok(TraceOpening { heading, lines }) => check_entries(
            alloc, &heading, lines, reader, out, notes,
        ),
        Err(fault) => note_unread(&fault, notes),
    }
}
