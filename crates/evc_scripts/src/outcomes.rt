//! The notes of the commands on scripts.
ghost use Rattle.std.specs.Prelude.{◌≡◌, ◌≤◌, ◌∷◌, [], ◌++◌, codes, decimal, length, slice_get};
ghost use Rattle.ec_text.specs.Puts.{Puts, IsWrittenOut};
ghost use Rattle.ec_heading.specs.Spelling.{lines_text};
ghost use Rattle.evc_scripts.specs.OutcomeNotes.{outcome_words, outcome_lines, outcomes_note, kind_words, script_note, ended_note};
ghost use Rattle.evc_engine.specs.AuditTexts.{worker_word};
ghost use Rattle.evc_scripts.specs.Runs.{mismatch_words};

use ec_count::WorkerId;
use ec_machine::Outcome;
use ec_script::Kind;
use ec_text::Output;
use ec_trace::{Heading, Spellings};
use evc_engine::{put_line, put_refused};
use std::io::Write;

/// Puts the outcome of a program.
fn put_outcome<W: Write>(out: &mut Output<'_, W>, outcome: &Outcome)
    ensures { Puts out.old out.new (outcome_words outcome.now) }
{
    match *outcome {
        Outcome::Running => out.put(b"running"),
        Outcome::Finished => out.put(b"finished"),
        Outcome::Refused(refusal) => put_refused(out, refusal),
        Outcome::ValueTooLarge => out.put(b"value too large"),
        Outcome::Stopped => out.put(b"stopped"),
        Outcome::OutOfTurns => out.put(b"out of turns"),
        Outcome::Memory => out.put(b"no memory"),
    }
}

/// Puts the line of a worker's outcome, with its LF.
fn put_outcome_line<W: Write>(
    out: &mut Output<'_, W>,
    spellings: &Spellings<'_>,
    worker: WorkerId,
    outcome: &Outcome,
)
    ensures { Puts out.old out.new (lines_text (outcome_lines spellings.now worker (outcome.now ∷ []))) }
{
    out.put(b"outcome ");
    out.put(spellings.worker(worker));
    out.put(b" ");
    put_outcome(out, outcome);
    out.put_byte(b'\n');
}

fn outcome_at(outcomes: &[Outcome], place: usize) -> Option<Outcome>
    ensures { result ≡ slice_get outcomes.now place }
{
    outcomes.get(place).copied()
}

/// Puts a line for each worker.
fn put_outcomes<W: Write>(out: &mut Output<'_, W>, spellings: &Spellings<'_>, outcomes: &[Outcome])
    requires { length outcomes.now ≤ 16 }
    ensures { Puts out.old out.new (lines_text (outcome_lines spellings.now 0 outcomes.now)) }
{
    for place in 0..outcomes.len() {
        let worker = WorkerId::new(place).unwrap();
        let Some(outcome) = outcome_at(outcomes, place) else {
            unreachable!();
        };
        put_outcome_line(out, spellings, worker, &outcome);
    }
}

/// Writes the note on the outcomes of the workers' programs.
pub(crate) fn note_outcomes<N: Write>(
    notes: &mut Output<'_, N>,
    heading: &Heading,
    outcomes: &[Outcome],
)
    requires { length outcomes.now ≤ 16 }
    ensures puts { Puts notes.old notes.new (outcomes_note heading.now outcomes.now) }
    ensures written { IsWrittenOut notes.new }
{
    let spellings = Spellings::new(heading.words());
    put_outcomes(notes, &spellings, outcomes);
    notes.flush();
}

/// Puts the number and the name of a kind.
fn put_kind<W: Write>(out: &mut Output<'_, W>, kind: Kind)
    ensures { Puts out.old out.new (kind_words kind) }
{
    out.put_number(kind.number());
    out.put(b" ");
    out.put(kind.name().as_bytes());
}

/// Puts the note on a faulty line of a script.
fn put_script_fault<W: Write>(out: &mut Output<'_, W>, line: u64, kind: Kind)
    ensures { Puts out.old out.new (script_note line kind) }
{
    put_line(out, line);
    put_kind(out, kind);
    out.put(b"\n");
}

/// Writes the note on the first faulty line of a script.
pub(crate) fn note_kind<N: Write>(notes: &mut Output<'_, N>, line: u64, kind: Kind)
    ensures puts { Puts notes.old notes.new (script_note line kind) }
    ensures written { IsWrittenOut notes.new }
{
    put_script_fault(notes, line, kind);
    notes.flush();
}

/// Puts the note on a place of a schedule that names a worker that has ended.
fn put_ended<W: Write>(out: &mut Output<'_, W>, place: u64, worker: &[u8])
    ensures { Puts out.old out.new (codes "schedule place " ++ decimal place ++ codes ": worker " ++ worker.now ++ codes " has ended\n") }
{
    out.put(b"schedule place ");
    out.put_number(place);
    out.put(b": worker ");
    out.put(worker);
    out.put(b" has ended\n");
}

/// Writes the note on a place of the schedule, counted from 0, that names a worker that has ended.
pub(crate) fn note_ended<N: Write>(
    notes: &mut Output<'_, N>,
    heading: &Heading,
    place: usize,
    worker: WorkerId,
)
    ensures puts { Puts notes.old notes.new (ended_note heading.now place worker) }
    ensures written { IsWrittenOut notes.new }
{
    let spellings = Spellings::new(heading.words());
    put_ended(notes, place as u64, spellings.worker(worker));
    notes.flush();
}

/// Writes the note on a worker whose summary does not fit the run. No run is known to need it; the
/// function is public so that a test can write the note.
pub fn note_mismatch<N: Write>(notes: &mut Output<'_, N>, heading: &Heading, worker: WorkerId)
    ensures puts { Puts notes.old notes.new (mismatch_words (worker_word heading.now.words worker)) }
    ensures written { IsWrittenOut notes.new }
{
    let spellings = Spellings::new(heading.words());
    notes.put(b"mismatch ");
    notes.put(spellings.worker(worker));
    notes.put(b"\n");
    notes.flush();
}
