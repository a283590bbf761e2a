//! `audit`: reads a trace, and writes what the audits of its groups found.
ghost use Rattle.std.specs.Prelude.{◌≡◌, ℕ, List, Option, IfSome, IfOk, IfErr};
ghost use Rattle.ec_core.specs.declared.act.Entry.{Entry};
ghost use Rattle.ec_heading.specs.HeadingModel.{HeadingModel};
ghost use Rattle.ec_trace.specs.Reading.{IsOpened};
ghost use Rattle.ec_text.specs.Puts.{Puts, IsWrittenOut};
ghost use Rattle.evc_engine.specs.kept.Walks.{EachEndsFor};
ghost use Rattle.evc_engine.specs.kept.Halts.{IsOf};
ghost use Rattle.evc_engine.specs.Audits.{AreAudited, IsStop, stop_status, stop_note, Audits};

use crate::audit_result::AuditResult;
use crate::audit_text::write_audit;
use crate::checking::note_unread;
use crate::notes::report_not_followed;
use crate::status::Status;
use crate::walked::{Auditing, open_audits};
use ec_core::AuditFault;
use ec_text::Output;
use ec_trace::{
    AuditedWorld, Group, Heading, Lines, TraceFault, TraceOpening, open_trace, read_entries,
    semaphores_of,
};
use ec_walk::GroupAudits;
use std::alloc::Global;
use std::io::{Read, Write};

/// Why a trace that was read has no text: the fault of the audit of a group.
#[derive(Clone, Copy)]
struct Stop {
    group: usize,
    fault: AuditFault,
}

/// Returns what the audits of groups found, in the order of the groups; or the fault of the first
/// audit that has one.
fn found_by(
    alloc: Global,
    groups: &[Group],
    audits: Vec<Auditing<'_>>,
) -> Result<Vec<AuditResult>, Stop>
    ensures ok { (h : HeadingModel) (entries : List Entry) → groups.now ≡ h.groups → EachEndsFor h entries audits.entry.items → IfOk result (λ found. AreAudited h entries found.items) }
    ensures err { (h : HeadingModel) (entries : List Entry) → groups.now ≡ h.groups → EachEndsFor h entries audits.entry.items → IfErr result (λ stop. IsStop h entries stop.group stop.fault) }
{
    let fault = AuditFault::Memory;
    let mut rest = audits.into_iter();
    let mut found = Vec::new(alloc);
    for group in 0..groups.len() {
        let Some(auditing) = rest.next() else {
            return Err(Stop { group, fault });
        };
        let audited = match auditing.finish() {
            Ok(audited) => audited,
            Err(fault) => return Err(Stop { group, fault }),
        };
        let Ok(()) = found.push(audited) else {
            return Err(Stop { group, fault });
        };
    }
    Ok(found)
}

/// Reports the fault of a group's audit, and returns the status.
fn note_stop<N: Write>(heading: &Heading, stop: Stop, notes: &mut Output<'_, N>) -> Status
    ensures status { result ≡ stop_status stop.fault }
    ensures note { Puts notes.old notes.new (stop_note heading.now stop.group stop.fault) }
    ensures written { IsWrittenOut notes.new }
{
    match &stop.fault {
        AuditFault::NotFollowed { worker, entry } => {
            report_not_followed(notes, heading, stop.group, *worker, *entry);
            Status::Refused
        }
        AuditFault::Memory => note_unread(&TraceFault::Memory, notes),
    }
}

/// Writes what the audits of a trace's groups found, or reports the fault of the first that has one.
fn write_found<W: Write, N: Write>(
    alloc: Global,
    heading: &Heading,
    audits: Vec<Auditing<'_>>,
    out: &mut W,
    notes: &mut Output<'_, N>,
) -> Status
    ensures ends { (bytes : List ℕ) (left : Option (List ℕ)) (entries : List Entry) → IsOf bytes heading.now entries → EachEndsFor heading.now entries audits.entry.items → Audits bytes left result
        (record { out = W.contents out.old; notes = notes.old })
        (record { out = W.contents out.new; notes = notes.new }) }
    ensures written { IsWrittenOut notes.old → IsWrittenOut notes.new }
{
    let found = match found_by(alloc, heading.groups(), audits) {
        Ok(found) => found,
        Err(stop) => return note_stop(heading, stop, notes),
    };
    match write_audit(out, heading, found.as_slice()) {
        Ok(()) => Status::Done,
        Err(_) => {
            notes.say(b"write fault\n");
            Status::InputOutput
        }
    }
}

/// Reads the entries of a trace, passes each to the audits of the groups, and writes what these
/// found, or reports why there is nothing to write.
fn audit_entries<R: Read, W: Write, N: Write>(
    alloc: Global,
    heading: &Heading,
    lines: Lines,
    reader: &mut R,
    out: &mut W,
    notes: &mut Output<'_, N>,
) -> Status
    ensures ends { (bytes : List ℕ) → IsOpened bytes (R.remaining reader.old) lines heading.now → Audits bytes (R.remaining reader.new) result
        (record { out = W.contents out.old; notes = notes.old })
        (record { out = W.contents out.new; notes = notes.new }) }
    ensures written { IsWrittenOut notes.old → IsWrittenOut notes.new }
{
    heading.invariant();
    let groups = heading.groups();
    let Ok(semaphores) = semaphores_of(alloc, groups) else {
        return note_unread(&TraceFault::Memory, notes);
    };
    let Ok(audits) = open_audits(alloc, groups, heading.setup(), semaphores.as_slice()) else {
        return note_unread(&TraceFault::Memory, notes);
    };
    let mut watched = AuditedWorld::new(heading.setup().copy(), GroupAudits::new(groups, audits));
    if let Err(fault) = read_entries(alloc, lines, reader, heading, &mut watched) {
        return note_unread(&fault, notes);
    }
    let (_world, walked) = watched.into_parts();
    write_found(alloc, heading, walked.into_audits(), out, notes)
}

/// Reads a trace, and writes what its buffers, databases and semaphores did, group by group in the
/// order of the declarations. Notes say what is wrong.
///
/// The trace is streamed once, and nothing of its entries is stored except what the audits find.
/// Nothing is written to `out` before the trace was read to its end and each group was audited.
// (Inlined into its caller, it would share the registers with the other commands.)
#[inline(never)]
pub fn audit<R: Read, W: Write, N: Write>(
    alloc: Global,
    reader: &mut R,
    out: &mut W,
    notes: &mut Output<'_, N>,
) -> Status
    ensures ends { IfSome (R.remaining reader.old) (λ bytes. Audits bytes (R.remaining reader.new) result
        (record { out = W.contents out.old; notes = notes.old })
        (record { out = W.contents out.new; notes = notes.new })) }
    ensures written { IsWrittenOut notes.old → IsWrittenOut notes.new }
{
    match open_trace(alloc, reader) {
        Ok(TraceOpening { heading, lines }) => audit_entries(
            alloc, &heading, lines, reader, out, notes,
        ),
        Err(fault) => note_unread(&fault, notes),
    }
}
