//! Remarks on awaits that are pending although their thresholds were surely reached.
ghost use Rattle.std.specs.Prelude.{◌≡◌, [], reverse, IfOk, OnOk};
ghost use Rattle.std.specs.List.{cons_option};
ghost use Rattle.ec_text.specs.Puts.{Puts, IsWrittenOut};
ghost use Rattle.calls_core.specs.Histories.{pending_calls};
ghost use Rattle.calls_report.specs.Notes.{site_of};
ghost use Rattle.calls_report.specs.Remarks.{remark_by, remark_on, remarks_of, remark_text};
ghost use Rattle.calls_report.specs.Remarks.{remark_lines, remarks_text};

use crate::counting::pending_after;
use crate::notes::site_of;
use crate::refusal::Site;
use crate::sure::sure_count;
use calls_core::{Op, Part, PendingCall};
use calls_text::{Read, Recording};
use ec_text::Output;
use std::alloc::{AllocError, Global};
use std::io::Write;

/// A pending await, its threshold, and the count that was surely reached.
#[derive(Clone, Copy, Debug, PartialEq, Eq)]
pub(crate) struct Remark {
    pub(crate) call: PendingCall,
    pub(crate) threshold: usize,
    pub(crate) count: usize,
}

/// Returns the remark on a pending call, if it awaits no more than a count.
fn remark_by(count: usize, call: &PendingCall) -> Option<Remark>
    ensures { cons_option result [] ≡ remark_by count call.now call.now.op }
{
    match call.op {
        Op::Await(threshold) if threshold <= count => Some(Remark {
            call: *call,
            threshold,
            count,
        }),
        _ => None,
    }
}

/// Returns the remark on a pending call, if it is an await whose threshold was surely reached.
fn remark_on(
    alloc: Global,
    recording: &Recording,
    pending: &[PendingCall],
    call: &PendingCall,
) -> Result<Option<Remark>, AllocError>
    requires { pending.now ≡ pending_calls (reverse recording.now.events) }
    ensures { IfOk result (λ m. cons_option m [] ≡ remark_on recording.now call.now) }
{
    if !matches!(call.op, Op::Await(_)) {
        return Ok(None);
    }
    let count = sure_count(alloc, recording, pending, call.object)?;
    Ok(remark_by(count, call))
}

/// Returns the remarks on a history, in the order of the invocations.
pub(crate) fn remarks_of(alloc: Global, recording: &Recording) -> Result<Vec<Remark>, AllocError>
    ensures { IfOk result (λ ms. ms.items ≡ remarks_of recording.now) }
{
    let pending = pending_after(alloc, &Part::whole(recording.events()))?;
    let mut remarks = Vec::new(alloc);
    for call in &pending {
        if let Some(remark) = remark_on(alloc, recording, &pending, call)? {
            remarks.push(remark)?;
        }
    }
    Ok(remarks)
}

/// Puts a remark: the line of the invocation, who awaits what, and the count that was surely
/// reached.
fn put_remark<W: Write>(out: &mut Output<'_, W>, site: &Site<'_>, remark: &Remark)
    ensures { Puts out.old out.new (remark_text site.now remark.now) }
{
    out.put(b"remark: line ");
    site.put_line(out, remark.call.first);
    out.put(b": ");
    site.put_worker(out, remark.call.worker);
    out.put(b" awaits ");
    site.put_event(out, remark.call.object);
    out.put(b" ");
    out.put_number(remark.threshold as u64);
    out.put(b", and the count was surely ");
    out.put_number(remark.count as u64);
    out.put(b"\n");
}

/// Puts remarks.
fn put_remarks<W: Write>(out: &mut Output<'_, W>, site: &Site<'_>, remarks: &[Remark])
    ensures { Puts out.old out.new (remark_lines site.now remarks.now) }
{
    for remark in remarks {
        put_remark(out, site, remark);
    }
}

/// Reports the remarks on a history.
pub(crate) fn report_remarks<N: Write>(
    notes: &mut Output<'_, N>,
    read: &Read<'_>,
    remarks: &[Remark],
)
    ensures puts { Puts notes.old notes.new (remark_lines
        (site_of read.now.number read.now.recording 0 0) remarks.now) }
    ensures written { IsWrittenOut notes.old → IsWrittenOut notes.new }
{
    if remarks.is_empty() {
        return;
    }
    put_remarks(notes, &site_of(read, 0, 0), remarks);
    notes.flush();
}

/// Puts the remarks on a history, as `check` reports them.
pub fn put_remarks_on<W: Write>(
    alloc: Global,
    out: &mut Output<'_, W>,
    read: &Read<'_>,
) -> Result<(), AllocError>
    ensures { OnOk result
        (Puts out.old out.new (remarks_text read.now.number read.now.recording)) }
{
    let remarks = remarks_of(alloc, &read.recording)?;
    report_remarks(out, read, &remarks);
    Ok(())
}
