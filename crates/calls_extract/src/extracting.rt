//! The command `of`: it reads a trace of steps, and writes the history of its calls.
ghost use Rattle.std.specs.Prelude.{◌≡◌, IfSome};
ghost use Rattle.ec_text.specs.Puts.{IsWrittenOut};
ghost use Rattle.calls_extract.specs.Extracts.{Extracts, WritesCalls};

use crate::cause::{first_cause, report_cause};
use crate::writing::write_calls;
use calls_kernel::calls_of_accepted_histories_are_linearizable;
use ec_text::Output;
use ec_trace::{Spellings, Traced, read_trace};
use evc_engine::{Status, note_unread};
use std::alloc::Global;
use std::io::{Read, Write};

/// Writes the calls of a trace, or notes which entry cannot be in a history of calls.
fn write_calls_of_trace<W: Write, N: Write>(
    traced: &Traced,
    out: &mut W,
    notes: &mut Output<'_, N>,
) -> Status
    ensures ends { WritesCalls traced.now result
        (record { out = W.contents out.old; notes = notes.old })
        (record { out = W.contents out.new; notes = notes.new }) }
    ensures written { IsWrittenOut notes.old → IsWrittenOut notes.new }
{
    let (run, heading) = (traced.run(), traced.heading());
    if let Some((place, cause)) = first_cause(heading.groups(), run) {
        report_cause(notes, &Spellings::new(heading.words()), run, place, cause);
        return Status::Usage;
    }
    run.invariant();
    calls_of_accepted_histories_are_linearizable();
    match write_calls(run, heading, out) {
        Ok(()) => Status::Done,
        Err(_) => {
            notes.say(b"write fault\n");
            Status::InputOutput
        }
    }
}

/// Reads a trace of steps, and writes its calls as a history of calls, which is linearizable.
///
/// A note says what is wrong. Nothing is written to `out` unless the whole trace was read, and all
/// its entries can be in a history of calls.
#[tactic(auto, using(crate::proofs::Ends::extracted_so))]
pub fn extract_calls<R: Read, W: Write, N: Write>(
    alloc: Global,
    reader: &mut R,
    out: &mut W,
    notes: &mut Output<'_, N>,
) -> Status
    ensures ends { IfSome (R.remaining reader.old) (λ bytes. Extracts bytes (R.remaining reader.new)
        result
        (record { out = W.contents out.old; notes = notes.old })
        (record { out = W.contents out.new; notes = notes.new })) }
    ensures written { IsWrittenOut notes.old → IsWrittenOut notes.new }
{
    match read_trace(alloc, reader) {
        Ok(traced) => write_calls_of_trace(&traced, out, notes),
        Err(fault) => note_unread(&fault, notes),
    }
}
