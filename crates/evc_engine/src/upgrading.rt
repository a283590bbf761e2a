//! `upgrade`: reads a trace, and writes the same trace in version 2.
ghost use Rattle.std.specs.Prelude.{IfSome};
ghost use Rattle.evc_engine.specs.Upgrades.{Rewrites, Upgrades};
ghost use Rattle.ec_text.specs.Puts.{IsWrittenOut};

use crate::checking::note_unread;
use crate::status::Status;
use ec_text::Output;
use ec_trace::{Traced, read_trace, write_trace};
use std::alloc::Global;
use std::io::{Read, Write};

/// Writes a trace in version 2.
fn write_upgraded<W: Write, N: Write>(
    traced: Traced,
    out: &mut W,
    notes: &mut Output<'_, N>,
) -> Status
    ensures ends { Rewrites traced result
        (record { out = W.contents out.old; notes = notes.old })
        (record { out = W.contents out.new; notes = notes.new }) }
    ensures written { IsWrittenOut notes.old → IsWrittenOut notes.new }
{
    let traced = traced.upgrade();
    match write_trace(traced.run(), traced.heading(), out) {
        Ok(()) => Status::Done,
        Err(_) => {
            notes.say(b"write fault\n");
            Status::InputOutput
        }
    }
}

/// Reads a trace, and writes the trace with the same declarations and history in version 2. Notes
/// say what is wrong. A trace of version 2 is written unchanged.
///
/// Nothing is written to `out` before the trace was read to its end.
// (Inlined into its caller, its half a megabyte of tables would be on the stack of the other
// commands too.)
#[inline(never)]
#[tactic(auto, using(crate::proofs::UpgradeLemmas::upgraded_so))]
pub fn upgrade<R: Read, W: Write, N: Write>(
    alloc: Global,
    reader: &mut R,
    out: &mut W,
    notes: &mut Output<'_, N>,
) -> Status
    ensures ends { IfSome (R.remaining reader.old) (λ bytes. Upgrades bytes (R.remaining reader.new) result
        (record { out = W.contents out.old; notes = notes.old })
        (record { out = W.contents out.new; notes = notes.new })) }
    ensures written { IsWrittenOut notes.old → IsWrittenOut notes.new }
{
    match read_trace(alloc, reader) {
        Ok(traced) => write_upgraded(traced, out, notes),
        Err(fault) => note_unread(&fault, notes),
    }
}
