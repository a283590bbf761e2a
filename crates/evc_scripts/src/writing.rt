//! The output of `sim` and `run`: a trace, and the outcomes of the workers.
ghost use Rattle.std.specs.Prelude.{◌≡◌, ◌≤◌, true, false, length, codes, if◌then◌else◌};
ghost use Rattle.std.specs.Io.KnownBytes.{Appends};
ghost use Rattle.ec_text.specs.Puts.{Puts, AppendsPrefix, IsWrittenOut};
ghost use Rattle.ec_heading.specs.HeaderTree.{HeaderTree, IsHeaderTree, heading_of_tree};
ghost use Rattle.ec_heading.specs.Spelling.{trace_text};
ghost use Rattle.evc_scripts.specs.OutcomeNotes.{outcomes_note};

use crate::outcomes::note_outcomes;
use ec_core::Run;
use ec_machine::Outcome;
use ec_text::Output;
use ec_trace::{Heading, write_trace};
use std::io::Write;

/// Writes the trace of a run, and then the note on the workers' outcomes; if a write of the trace
/// fails, a note on that instead. Returns whether the whole trace was written.
pub(crate) fn write_run<W: Write, N: Write>(
    heading: &Heading,
    run: &Run,
    outcomes: &[Outcome],
    out: &mut W,
    notes: &mut Output<'_, N>,
) -> bool
    requires { length outcomes.now ≤ 16 }
    ensures all { (o : HeaderTree) → IsHeaderTree o → heading_of_tree o ≡ heading.now → result ≡ true → Appends (W.contents out.old) (W.contents out.new) (trace_text o run.now.entries) }
    ensures prefix { (o : HeaderTree) → IsHeaderTree o → heading_of_tree o ≡ heading.now → result ≡ false → AppendsPrefix (W.contents out.old) (W.contents out.new) (trace_text o run.now.entries) }
    ensures noted { Puts notes.old notes.new (if result then outcomes_note heading.now outcomes.now else codes "write fault\n") }
    ensures written { IsWrittenOut notes.new }
{
    match write_trace(run, heading, out) {
        Ok(()) => {
            note_outcomes(notes, heading, outcomes);
            true
        }
        Err(_) => {
            notes.say(b"write fault\n");
            false
        }
    }
}
