//! Writes entries and traces.
ghost use Rattle.std.specs.Prelude.{◌≡◌, ◌∷◌, ◌++◌, codes, decimal, map, slice_get, OnOk, OnErr};
ghost use Rattle.std.specs.Io.KnownBytes.{Appends};
ghost use Rattle.std.specs.List.{join_with_byte};
ghost use Rattle.ec_text.specs.Puts.{Puts, AppendsPrefix};
ghost use Rattle.ec_heading.specs.Spelling.{cell_word, act_words, reply_word, entry_line, lines_text, trace_text};
ghost use Rattle.ec_heading.specs.Recalled.{entry_text, written_text};
ghost use Rattle.ec_heading.specs.HeaderTree.{HeaderTree, IsHeaderTree, heading_of_tree};

use crate::spell::Spellings;
use crate::write_heading::put_opening;
use ec_core::{Act, Entry, Reply, Run};
use ec_count::CellId;
use ec_heading::Heading;
use ec_text::{CachedDecimal, Output, WriteFault};
use std::array;
use std::io::Write;

/// Puts the name of a cell.
#[inline(always)]
pub fn put_cell<W: Write>(out: &mut Output<'_, W>, spellings: &Spellings<'_>, cell: CellId)
    ensures { Puts out.old out.new (cell_word spellings.now cell) }
{
    spellings.put_cell(out, b"", cell);
}

/// How many numbers are cached with their digits.
const KEPT: usize = 64;

/// A cache of numbers that were put recently, each with its digits.
///
/// The slot of a number depends on all its digits but the last. A number usually comes again, or is
/// close to one that was put recently.
#[derive(Drop)]
pub struct DecimalCache {
    numbers: [CachedDecimal; KEPT],
}

impl DecimalCache {
    /// Returns a cache of zeros.
    #[inline(never)]
    pub fn new() -> Self {
        DecimalCache {
            numbers: array::from_fn(|_| CachedDecimal::new(0)),
        }
    }
}

/// Puts bytes and a number, which is then cached.
#[inline(always)]
fn put_next<W: Write>(out: &mut Output<'_, W>, before: &[u8], last: &mut DecimalCache, n: u64)
    ensures { Puts out.old out.new (before.now ++ decimal n) }
{
    let number = &mut last.numbers[(n / 10) as usize % KEPT];
    number.set(n);
    out.put_with_decimal(before, number);
}

/// Puts an act, after a space. Numbers close to the cached ones need little work.
#[inline(always)]
pub fn put_act<W: Write>(
    out: &mut Output<'_, W>,
    spellings: &Spellings<'_>,
    last: &mut DecimalCache,
    act: &Act,
)
    ensures { Puts out.old out.new (32 ∷ join_with_byte 32 (act_words spellings.now act.now)) }
{
    match *act {
        Act::Advance(event) => spellings.put_event(out, b" advance ", event),
        Act::Read(event) => spellings.put_event(out, b" read ", event),
        Act::Await(event, threshold) => {
            spellings.put_event(out, b" await ", event);
            put_next(out, b" ", last, threshold);
        }
        Act::Go => out.put(b" go"),
        Act::Ticket(sequencer) => spellings.put_sequencer(out, b" ticket ", sequencer),
        Act::Put(cell, value) => {
            spellings.put_cell(out, b" put ", cell);
            put_next(out, b" ", last, value);
        }
        Act::Get(cell) => spellings.put_cell(out, b" get ", cell),
        Act::Hand(event, to) => {
            spellings.put_event(out, b" hand ", event);
            spellings.put_worker(out, b" ", to);
        }
    }
}

/// Puts a reply.
#[inline(always)]
pub fn put_reply<W: Write>(out: &mut Output<'_, W>, reply: &Reply)
    ensures { Puts out.old out.new (reply_word reply.now) }
{
    match *reply {
        Reply::Done => out.put(b"done"),
        Reply::Pending => out.put(b"pending"),
        Reply::Number(n) => out.put_number(n),
    }
}

/// Puts a reply, after an equals sign between spaces.
#[inline(always)]
fn put_answer<W: Write>(out: &mut Output<'_, W>, last: &mut DecimalCache, reply: &Reply)
    ensures { Puts out.old out.new (codes " = " ++ reply_word reply.now) }
{
    match *reply {
        Reply::Done => out.put(b" = done"),
        Reply::Pending => out.put(b" = pending"),
        Reply::Number(n) => put_next(out, b" = ", last, n),
    }
}

/// Puts bytes and an entry, without LF. Numbers close to the cached ones need little work.
#[inline(always)]
#[tactic(auto, using(crate::proofs::EntryParts::entry_parts))]
pub fn put_next_entry<W: Write>(
    out: &mut Output<'_, W>,
    before: &[u8],
    spellings: &Spellings<'_>,
    last: &mut DecimalCache,
    entry: &Entry,
)
    ensures { Puts out.old out.new (before.now ++ entry_line spellings.now entry.now) }
{
    spellings.put_worker(out, before, entry.worker);
    put_act(out, spellings, last, &entry.act);
    put_answer(out, last, &entry.reply);
}

/// Puts an entry, without LF.
pub fn put_entry<W: Write>(out: &mut Output<'_, W>, spellings: &Spellings<'_>, entry: &Entry)
    ensures { Puts out.old out.new (entry_line spellings.now entry.now) }
{
    put_next_entry(out, b"", spellings, &mut DecimalCache::new(), entry);
}

/// Writes an entry, without LF, as a trace has it. What has no name is written as no bytes.
///
/// A `WriteFault` is returned only if a write failed or wrote none of its bytes.
pub fn write_entry<W: Write>(
    entry: &Entry,
    heading: &Heading,
    writer: &mut W,
) -> Result<(), WriteFault>
    ensures ok { OnOk result (Appends (W.contents writer.old) (W.contents writer.new) (entry_line heading.now.words entry.now)) }
    ensures err { OnErr result (AppendsPrefix (W.contents writer.old) (W.contents writer.new) (entry_line heading.now.words entry.now)) }
{
    let spellings = Spellings::new(heading.words());
    let mut text = Output::new(writer);
    put_entry(&mut text, &spellings, entry);
    let done = text.finish();
    text.into_writer();
    done
}

/// Puts the line of the entry at a position of a run, if there is one.
fn put_entry_at<W: Write>(
    out: &mut Output<'_, W>,
    spellings: &Spellings<'_>,
    last: &mut DecimalCache,
    run: &Run,
    place: usize,
)
    ensures { Puts out.old out.new (entry_text spellings.now (slice_get run.now.entries place)) }
{
    if let Some(entry) = run.entry(place) {
        put_next_entry(out, b"", spellings, last, &entry);
        out.put_byte(b'\n');
    }
}

/// Puts the lines of a run's entries.
#[tactic(auto, using(crate::proofs::shared::LineParts::one_more_entry))]
fn put_entries<W: Write>(out: &mut Output<'_, W>, spellings: &Spellings<'_>, run: &Run)
    ensures { Puts out.old out.new (lines_text (map (entry_line spellings.now) run.now.entries)) }
{
    let mut last = DecimalCache::new();
    for place in 0..run.len() {
        put_entry_at(out, spellings, &mut last, run, place);
    }
}

/// Puts a trace.
fn put_trace<W: Write>(
    out: &mut Output<'_, W>,
    spellings: &Spellings<'_>,
    heading: &Heading,
    run: &Run,
)
    ensures { Puts out.old out.new (written_text spellings.now heading.now run.now.entries) }
{
    put_opening(out, spellings, heading);
    put_entries(out, spellings, run);
    out.put(b"end\n");
}

/// Writes the trace of a run: its header and all its entries, also those of pending calls.
///
/// The run is on the declarations of the header. Version 1 has no trace of a run with a `hand`:
/// what is written of one is no trace. A `WriteFault` is returned only if a write failed or wrote
/// none of its bytes. Nothing is allocated.
pub fn write_trace<W: Write>(run: &Run, heading: &Heading, writer: &mut W) -> Result<(), WriteFault>
    ensures ok { (o : HeaderTree) → IsHeaderTree o → heading_of_tree o ≡ heading.now → OnOk result (Appends (W.contents writer.old) (W.contents writer.new) (trace_text o run.now.entries)) }
    ensures err { (o : HeaderTree) → IsHeaderTree o → heading_of_tree o ≡ heading.now → OnErr result (AppendsPrefix (W.contents writer.old) (W.contents writer.new) (trace_text o run.now.entries)) }
{
    let spellings = Spellings::new(heading.words());
    let mut text = Output::new(writer);
    put_trace(&mut text, &spellings, heading, run);
    let done = text.finish();
    text.into_writer();
    done
}
