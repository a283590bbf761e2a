//! Reads a whole trace.
ghost use Rattle.std.specs.Prelude.{◌≡◌, ℕ, List, [], Some, None, IfSome, IfOk, IfErr, OnOk, MatchResult, Err};
ghost use Rattle.ec_core.specs.declared.act.Entry.{Entry};
ghost use Rattle.ec_heading.specs.Versions.{can_spell};
ghost use Rattle.ec_trace.specs.Entries.{entry_of};
ghost use Rattle.ec_trace.specs.kept.LineCache.{IsLineCache};
ghost use Rattle.ec_trace.specs.EntrySinks.{history_of};
ghost use Rattle.ec_trace.specs.Outcome.{Returns, fault_at};
ghost use Rattle.ec_trace.specs.Reading.{IsOpened, TakesLine, Recounts};
ghost use Rattle.ec_trace.specs.ReadingLaws.{IsTraceOf, Refuses};

use crate::entry_sink::EntrySink;
use crate::fault::{LineFault, StageFault, TraceFault};
use crate::line_cache::{LineCache, cut_reply, cut_value};
use crate::lines::Lines;
use crate::opening::{TraceOpening, open_trace};
use crate::traced::Traced;
use ec_core::{Act, Entry, Reply, Run, StepFault};
use ec_heading::Heading;
use std::alloc::Global;
use std::io::Read;

/// The most bytes that a trace may have.
pub const TRACE_MAX: usize = 67_108_864;

/// Returns whether a text of the header's version may have the act.
#[inline(always)]
fn can_spell(heading: &Heading, act: &Act) -> bool
    ensures { result ≡ can_spell heading.now.version act.now }
{
    !matches!(*act, Act::Hand(_, _)) || heading.version().has_transfer()
}

/// Returns the fault of a line, with its number.
fn fault_at(number: u64, fault: StageFault) -> TraceFault
    ensures { result ≡ fault_at number fault }
{
    match fault {
        StageFault::Memory => TraceFault::Memory,
        StageFault::Line(LineFault::Bad) => TraceFault::BadLine(number),
        StageFault::Line(LineFault::Refused(refusal)) => TraceFault::Refused(number, refusal),
        StageFault::Line(LineFault::WrongReply(right)) => TraceFault::WrongReply(number, right),
    }
}

/// Makes the step of an entry, and compares its reply with the one in the line. (It is inlined into
/// each caller, so that a cached worker and act are passed in registers.)
#[inline(always)]
fn enter<H: EntrySink>(heading: &Heading, history: &mut H, entry: &Entry) -> Result<(), StageFault>
    ensures { (line : List ℕ) → entry_of heading.now.words line ≡ Some entry.now → TakesLine H.represents heading.now history.old history.new line result }
{
    if !can_spell(heading, &entry.act) {
        return Err(StageFault::Line(LineFault::Bad));
    }
    match history.enter(entry.worker, entry.act) {
        Ok(right) => {
            if right == entry.reply {
                Ok(())
            } else {
                Err(StageFault::Line(LineFault::WrongReply(right)))
            }
        }
        Err(StepFault::Refused(refusal)) => Err(StageFault::Line(LineFault::Refused(refusal))),
        Err(StepFault::Memory) => Err(StageFault::Memory),
    }
}

/// Makes the step of an entry whose line is parsed word by word.
#[cold]
#[inline(never)]
fn enter_parsed<H: EntrySink>(
    heading: &Heading,
    cache: &mut LineCache,
    history: &mut H,
    line: &[u8],
) -> Result<(), StageFault>
    requires { IsLineCache heading.now.words cache.old }
    ensures kept { IsLineCache heading.now.words cache.new }
    ensures takes { TakesLine H.represents heading.now history.old history.new line.now result }
{
    let Some(entry) = cache.parse_entry(heading, line) else {
        return Err(StageFault::Line(LineFault::Bad));
    };
    enter(heading, history, &entry)
}

/// Makes the step of an entry if the prefix of its line is cached; otherwise does nothing.
#[inline(always)]
fn enter_cached<H: EntrySink>(
    heading: &Heading,
    cache: &LineCache,
    history: &mut H,
    line: &[u8],
) -> Option<Result<(), StageFault>>
    requires { IsLineCache heading.now.words cache.now }
    ensures none { result ≡ None → history.new ≡ history.old }
    ensures takes { IfSome result (TakesLine H.represents heading.now history.old history.new line.now) }
{
    let (prefix, reply) = cut_reply(line)?;
    match cut_value(prefix) {
        Some((opening, value)) => {
            let entry = cache.entry_with_value(opening, value, reply)?;
            Some(enter(heading, history, &entry))
        }
        None => {
            let entry = cache.entry_with_reply(prefix, reply)?;
            Some(enter(heading, history, &entry))
        }
    }
}

/// Reads the entries of a trace up to its end or its first fault, and makes the step of each.
///
/// `lines` and `heading` are from `open_trace`, with the same reader. Memory grows only with what
/// the history stores. A failed read is not tried again. If what was read before it has a fault,
/// that is reported instead. After an `Err` the history is of no use.
pub fn read_entries<R: Read, H: EntrySink>(
    alloc: Global,
    mut lines: Lines,
    reader: &mut R,
    heading: &Heading,
    history: &mut H,
) -> Result<(), TraceFault>
    ensures represents { OnOk result ((start : H) → H.represents start history.old (history_of heading.now [])
        → (entries : List Entry)
        × H.represents start history.new (history_of heading.now entries)) }
    ensures recounts { (xs : List ℕ) (start : H) → IsOpened xs (R.remaining reader.old) lines heading.now → H.represents start history.old (history_of heading.now [])
        → Recounts xs (R.remaining reader.new) heading.now (H.represents start history.new) result }
{
    let mut cache = LineCache::none(alloc);
    loop {
        if let Err(fault) = lines.next(reader) {
            return Err(fault);
        }
        let line = lines.line();
        if line == b"end".as_slice() {
            break;
        }
        match enter_cached(heading, &cache, history, line) {
            Some(Ok(())) => {}
            Some(Err(fault)) => return Err(fault_at(lines.number(), fault)),
            None => {
                if let Err(fault) = enter_parsed(heading, &mut cache, history, line) {
                    return Err(fault_at(lines.number(), fault));
                }
            }
        }
    }
    lines.end(reader)
}

/// Reads a trace into a run.
fn read_into_run<R: Read>(alloc: Global, reader: &mut R) -> Result<Traced, TraceFault>
    ensures { IfSome (R.remaining reader.old) (λ bytes. Returns TRACE_MAX bytes (R.remaining reader.new) result) }
{
    let TraceOpening { heading, lines } = match open_trace(alloc, reader) {
        Ok(opened) => opened,
        Err(fault) => return Err(fault),
    };
    let Ok(mut run) = Run::open(alloc, heading.setup().copy()) else {
        return Err(TraceFault::Memory);
    };
    match read_entries(alloc, lines, reader, &heading, &mut run) {
        Ok(()) => Ok(Traced { run, heading }),
        Err(fault) => Err(fault),
    }
}

/// Reads a trace to its end, in pieces of at most 8192 bytes, up to its first fault.
///
/// Memory grows only with the header and the run. A failed read is not tried again. If what was
/// read before it has a fault, that is reported instead.
pub fn read_trace<R: Read>(alloc: Global, reader: &mut R) -> Result<Traced, TraceFault>
    ensures tells { IfSome (R.remaining reader.old) (λ bytes. Returns TRACE_MAX bytes (R.remaining reader.new) result) }
    ensures trace { IfSome (R.remaining reader.old) (λ bytes. IfOk result (IsTraceOf bytes)) }
    ensures refused { IfSome (R.remaining reader.old) (λ bytes. IfErr result (λ fault. Refuses fault bytes)) }
{
    read_into_run(alloc, reader)
}
