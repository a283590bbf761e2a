//! The text that `check` writes.
ghost use Rattle.std.specs.Prelude.{◌∷◌, List, OnOk, OnErr, map};
ghost use Rattle.std.specs.List.{flat_map};
ghost use Rattle.std.specs.Io.KnownBytes.{Appends};
ghost use Rattle.ec_core.specs.Standing.{StandsFor};
ghost use Rattle.ec_core.specs.declared.act.Entry.{Entry};
ghost use Rattle.ec_text.specs.Puts.{Puts, AppendsPrefix};
ghost use Rattle.ec_heading.specs.Spelling.{lines_text};
ghost use Rattle.evc_engine.specs.Texts.{linearized_line, order_lines};

use crate::totals::put_totals;
use ec_core::World;
use ec_order::{Linearization, LinearizedEntry};
use ec_text::{CachedDecimal, Output, WriteFault};
use ec_trace::{DecimalCache, Heading, Spellings, put_next_entry};
use std::io::Write;

/// Puts LF and the line of a call, and stores its linearization point in `point`. A point is
/// usually that of the line before, or one more, so that few of its digits change.
fn put_linearized<W: Write>(
    out: &mut Output<'_, W>,
    spellings: &Spellings<'_>,
    point: &mut CachedDecimal,
    last: &mut DecimalCache,
    linearized: &LinearizedEntry,
)
    ensures { Puts out.old out.new (10 ∷ linearized_line spellings.now linearized.now) }
{
    point.set(linearized.point as u64);
    out.put_with_decimal(b"\n", point);
    put_next_entry(out, b" ", spellings, last, &linearized.entry);
}

/// Puts the lines of the calls, in order, each after LF.
fn put_order<W: Write>(out: &mut Output<'_, W>, spellings: &Spellings<'_>, calls: Linearization<'_>)
    ensures { Puts out.old out.new
        (flat_map (λ d. 10 ∷ linearized_line spellings.now d) calls.entry) }
{
    let mut point = CachedDecimal::new(0);
    let mut last = DecimalCache::new();
    for linearized in calls {
        put_linearized(out, spellings, &mut point, &mut last, &linearized);
    }
}

/// Puts the whole text.
fn put_text<W: Write>(
    out: &mut Output<'_, W>,
    heading: &Heading,
    world: &World,
    calls: Linearization<'_>,
)
    ensures { (entries : List Entry) → StandsFor world.now entries → Puts out.old out.new (lines_text (order_lines heading.now entries (map (linearized_line heading.now.words) calls.entry))) }
{
    let spellings = Spellings::new(heading.words());
    out.put(b"evc-order 1");
    put_order(out, &spellings, calls);
    out.put(b"\ntotals\n");
    put_totals(out, heading, world);
    out.put(b"end\n");
}

/// Writes the text of `check`; a proper prefix of it if a write fails. (It is not inlined into its
/// caller, which reads the trace, so that each has the registers for itself.)
#[inline(never)]
pub fn write_text<W: Write>(
    out: &mut W,
    heading: &Heading,
    world: &World,
    calls: Linearization<'_>,
) -> Result<(), WriteFault>
    ensures ok { (entries : List Entry) → StandsFor world.now entries → OnOk result (Appends (W.contents out.old) (W.contents out.new) (lines_text (order_lines heading.now entries (map (linearized_line heading.now.words) calls.entry)))) }
    ensures err { (entries : List Entry) → StandsFor world.now entries → OnErr result (AppendsPrefix (W.contents out.old) (W.contents out.new) (lines_text (order_lines heading.now entries (map (linearized_line heading.now.words) calls.entry)))) }
{
    let mut text = Output::new(out);
    put_text(&mut text, heading, world, calls);
    let done = text.finish();
    text.into_writer();
    done
}
