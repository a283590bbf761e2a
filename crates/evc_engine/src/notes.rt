//! The notes. A write of notes that fails is not reported, and no other is tried after it.
ghost use Rattle.ec_text.specs.Puts.{Puts, IsWrittenOut};
ghost use Rattle.evc_engine.specs.Notes.{fault_note, refused_words, wrong_words, line_words, break_note};
ghost use Rattle.evc_engine.specs.Audits.{not_followed_note};

use crate::audit_text::group_word;
use ec_core::{Refusal, Reply};
use ec_count::WorkerId;
use ec_text::Output;
use ec_trace::{Heading, Spellings, TraceFault, put_reply};
use std::io::Write;

/// Puts the words of a note on a refused act.
pub fn put_refused<W: Write>(out: &mut Output<'_, W>, refusal: Refusal)
    ensures { Puts out.old out.new (refused_words refusal) }
{
    out.put(b"refused ");
    out.put_number(refusal.number());
    out.put(b" ");
    out.put(refusal.name().as_bytes());
}

/// Puts the words of a note on a wrong reply.
fn put_wrong<W: Write>(out: &mut Output<'_, W>, right: &Reply)
    ensures { Puts out.old out.new (wrong_words right.now) }
{
    out.put(b"wrong reply, right is ");
    put_reply(out, right);
}

/// Puts the beginning of a note on a line.
pub fn put_line<W: Write>(out: &mut Output<'_, W>, line: u64)
    ensures { Puts out.old out.new (line_words line) }
{
    out.put(b"line ");
    out.put_number(line);
    out.put(b": ");
}

/// Puts the note on a fault of a trace.
fn put_fault<W: Write>(out: &mut Output<'_, W>, fault: &TraceFault)
    ensures { Puts out.old out.new (fault_note fault.now) }
{
    match *fault {
        TraceFault::BadLine(line) => {
            put_line(out, line);
            out.put(b"bad line\n");
        }
        TraceFault::Refused(line, refusal) => {
            put_line(out, line);
            put_refused(out, refusal);
            out.put(b"\n");
        }
        TraceFault::WrongReply(line, right) => {
            put_line(out, line);
            put_wrong(out, &right);
            out.put(b"\n");
        }
        TraceFault::Unfinished => out.put(b"unfinished\n"),
        TraceFault::TooLarge => out.put(b"too large\n"),
        TraceFault::Read => out.put(b"read fault\n"),
        TraceFault::Memory => out.put(b"no memory\n"),
    }
}

/// Puts the note on an entry that breaks the rules of a group.
fn put_break<W: Write>(out: &mut Output<'_, W>, group: &[u8], worker: &[u8], entry: u64)
    ensures { Puts out.old out.new (break_note group.now worker.now entry) }
{
    out.put(group);
    out.put(b" not followed: worker ");
    out.put(worker);
    out.put(b" entry ");
    out.put_number(entry);
    out.put(b"\n");
}

/// Reports a fault of a trace: puts the note, and writes it out.
pub fn report_fault<W: Write>(notes: &mut Output<'_, W>, fault: &TraceFault)
    ensures puts { Puts notes.old notes.new (fault_note fault.now) }
    ensures written { IsWrittenOut notes.new }
{
    put_fault(notes, fault);
    notes.flush();
}

/// Reports that the workers break the rules of a group. The note has the group's name, the first
/// entry that breaks a rule, and its worker.
pub(crate) fn report_not_followed<W: Write>(
    notes: &mut Output<'_, W>,
    heading: &Heading,
    group: usize,
    worker: WorkerId,
    entry: usize,
)
    ensures puts { Puts notes.old notes.new (not_followed_note heading.now group worker entry) }
    ensures written { IsWrittenOut notes.new }
{
    let spellings = Spellings::new(heading.words());
    put_break(
        notes,
        group_word(heading.names(), group),
        spellings.worker(worker),
        entry as u64,
    );
    notes.flush();
}
