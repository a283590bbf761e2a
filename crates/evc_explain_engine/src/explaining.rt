//! Reads a text, and writes its explanation.
ghost use Rattle.std.specs.Prelude.{◌≡◌, IfSome, codes};
ghost use Rattle.ec_text.specs.Puts.{Puts, IsWrittenOut};
ghost use Rattle.evc_engine.specs.declared.status.Status.TheVariants.{Memory};
ghost use Rattle.evc_explain_engine.specs.Explains.{Explains, ExplainsText, Writes};

use crate::by_format::explain_by_format;
use crate::explanation::Explanation;
use ec_text::{Input, Output, read_up_to};
use ec_trace::TRACE_MAX;
use evc_engine::Status;
use std::alloc::{AllocError, Global};
use std::io::{Read, Write};

/// Reports that memory ran out.
fn report_no_memory<N: Write>(notes: &mut Output<'_, N>) -> Status
    ensures memory { result ≡ Memory }
    ensures puts { Puts notes.old notes.new (codes "no memory\n") }
    ensures written { IsWrittenOut notes.new }
{
    notes.say(b"no memory\n");
    Status::Memory
}

/// Writes an explanation, and returns the status of the program.
fn write_explanation<W: Write, N: Write>(
    explanation: &Explanation,
    out: &mut W,
    notes: &mut Output<'_, N>,
) -> Status
    ensures ends { Writes explanation.now.bytes.items explanation.now.status result
        (record { out = W.contents out.old; notes = notes.old })
        (record { out = W.contents out.new; notes = notes.new }) }
    ensures written { IsWrittenOut notes.old → IsWrittenOut notes.new }
{
    let mut lines = Output::new(out);
    lines.put(explanation.bytes.as_slice());
    let done = lines.finish();
    lines.into_writer();
    match done {
        Ok(()) => explanation.status,
        Err(_) => {
            notes.say(b"write fault\n");
            Status::InputOutput
        }
    }
}

/// Explains a text that was read to its end.
fn explain_text<W: Write, N: Write>(
    alloc: Global,
    text: &[u8],
    out: &mut W,
    notes: &mut Output<'_, N>,
) -> Status
    ensures ends { ExplainsText text.now result
        (record { out = W.contents out.old; notes = notes.old })
        (record { out = W.contents out.new; notes = notes.new }) }
    ensures written { IsWrittenOut notes.old → IsWrittenOut notes.new }
{
    match explain_by_format(alloc, text) {
        Ok(explanation) => write_explanation(&explanation, out, notes),
        Err(AllocError) => report_no_memory(notes),
    }
}

/// Reads a text, and writes what is wrong with it and how to mend it, or that it is good.
///
/// Nothing is written before the input was read to its end. A failed read is not tried again.
pub fn explain<R: Read, W: Write, N: Write>(
    alloc: Global,
    reader: &mut R,
    out: &mut W,
    notes: &mut Output<'_, N>,
) -> Status
    ensures ends { IfSome (R.remaining reader.old) (λ bytes. Explains bytes (R.remaining reader.new)
        result
        (record { out = W.contents out.old; notes = notes.old })
        (record { out = W.contents out.new; notes = notes.new })) }
    ensures written { IsWrittenOut notes.old → IsWrittenOut notes.new }
{
    match read_up_to(alloc, reader, TRACE_MAX) {
        Ok(Input::Whole(text)) => explain_text(alloc, text.as_slice(), out, notes),
        Ok(Input::CutOff(_text)) => {
            notes.say(b"read fault\n");
            Status::InputOutput
        }
        Err(AllocError) => report_no_memory(notes),
    }
}
