//! The functions on whole texts.
ghost use Rattle.std.specs.Prelude.{◌≡◌, ◌≤◌, ℕ, List, [], length, take, drop};
ghost use Rattle.evc_engine.specs.Checks.{Checks};
ghost use Rattle.evc_engine.specs.Audits.{Audits};
ghost use Rattle.evc_engine.specs.Upgrades.{Upgrades};
ghost use Rattle.evc_cli.specs.declared.choice.Task.TheVariants.{Run};
ghost use Rattle.evc_scripts.specs.Sims.{Sims};
ghost use Rattle.evc_scripts.specs.Tasks.{Does};
ghost use Rattle.evc_c.specs.Answers.{Answers, CallsAnswers, IsCode, outputs};
ghost use Rattle.evc_c.specs.Rooms.{FillsBy};
ghost use Rattle.evc_c.specs.Versions.{IsVersionOf};

use crate::room::{NotesRoom, Room, copy_prefix};
use arrayvec::ArrayVec;
use ec_text::Output;
use evc_cli::{Task, VERSION};
use evc_engine::Status;
use evc_scripts::engine_without_threads;
use std::alloc::Global;

/// The most bytes of notes of a call on a trace, a script or a monitor. Its notes have less than a
/// thousand bytes.
const NOTES_MAX: usize = 1024;

/// The notes of a call on a trace, a script or a monitor.
pub(crate) type Noted = ArrayVec<u8, NOTES_MAX>;

/// How many bytes were written of the text and of the notes.
#[repr(C)]
pub struct EvcWritten {
    pub text: usize,
    pub notes: usize,
}

/// Copies into the caller's buffer as much of the notes as fits, stores how many bytes of the text
/// and of the notes were written, and returns the status that the caller gets. It is 4 if notes were
/// cut off before the caller's buffer for them was full, since memory ran out.
fn write_lengths(
    out: &Room<'_>,
    code: u8,
    is_cut: bool,
    note_text: &[u8],
    notes: &mut [u8],
    written: &mut EvcWritten,
) -> u8
    ensures code { IsCode result code is_cut (length note_text.now) (length notes.old) }
    ensures text { written.new.text ≡ out.now.len }
    ensures within { written.new.notes ≤ length notes.new }
    ensures long { length notes.new ≡ length notes.old }
    ensures notes { take written.new.notes notes.new ≡ take (length notes.old) note_text.now }
    ensures rest { drop written.new.notes notes.new ≡ drop written.new.notes notes.old }
{
    written.text = out.len;
    written.notes = copy_prefix(notes, note_text);
    if is_cut && note_text.len() < notes.len() {
        4
    } else {
        code
    }
}

/// Does a task without threads on bytes, and writes the text to a buffer.
#[tactic(auto, using(crate::proofs::Grown::task_grows, crate::proofs::Grown::fills))]
fn write_text(
    alloc: Global,
    task: Task,
    input: &[u8],
    out: &mut Room<'_>,
    notes: &mut Output<'_, Noted>,
) -> Status
    requires empty { out.old.len ≡ 0 }
    requires alone { (turns : ℕ) → task ≡ Run turns → ⊥ }
    ensures same { out.new.bytes.ghost_name ≡ out.old.bytes.ghost_name }
    ensures fills { FillsBy outputs (Does task) input.now result out.old out.new notes.old notes.new }
{
    let mut reader = input;
    match engine_without_threads(alloc, task, &mut reader, out, notes) {
        Ok(status) => status,
        Err(_) => unreachable!(),
    }
}

/// Does a task without threads on bytes, and writes the text and the notes to the caller's buffers.
#[tactic(auto, using(crate::proofs::Grown::answers))]
fn answer(
    alloc: Global,
    task: Task,
    input: &[u8],
    text: &mut [u8],
    notes: &mut [u8],
    written: &mut EvcWritten,
) -> u8
    requires { (turns : ℕ) → task ≡ Run turns → ⊥ }
    ensures answers { Answers (Does task) input.now result (take written.new.text text.new) (take written.new.notes notes.new) (length notes.old) }
    ensures text { written.new.text ≤ length text.new }
    ensures notes { written.new.notes ≤ length notes.new }
    ensures rest { drop written.new.notes notes.new ≡ drop written.new.notes notes.old }
{
    let mut out = Room::new(text);
    let mut bytes = Noted::new();
    let mut note_text = Output::new(&mut bytes);
    let status = write_text(alloc, task, input, &mut out, &mut note_text);
    let is_cut = note_text.has_failed();
    let noted = note_text.into_writer().as_slice();
    write_lengths(&out, status.code(), is_cut, noted, notes, written)
}

/// Checks a trace: a linearization of its completed calls, and the totals, are the text.
///
/// The status is that of `evc check`. It is 3 if the buffer was too small for the text: then a
/// proper prefix of the text was written.
#[unsafe(no_mangle)]
pub extern "C" fn evc_check(
    alloc: Global,
    trace: &[u8],
    text: &mut [u8],
    notes: &mut [u8],
    written: &mut EvcWritten,
) -> u8
    ensures answers { Answers Checks trace.now result (take written.new.text text.new) (take written.new.notes notes.new) (length notes.old) }
    ensures text { written.new.text ≤ length text.new }
    ensures notes { written.new.notes ≤ length notes.new }
    ensures rest { drop written.new.notes notes.new ≡ drop written.new.notes notes.old }
{
    answer(alloc, Task::Check, trace, text, notes, written)
}

/// Audits the groups of a trace: what the audits found is the text.
#[unsafe(no_mangle)]
pub extern "C" fn evc_audit(
    alloc: Global,
    trace: &[u8],
    text: &mut [u8],
    notes: &mut [u8],
    written: &mut EvcWritten,
) -> u8
    ensures answers { Answers Audits trace.now result (take written.new.text text.new) (take written.new.notes notes.new) (length notes.old) }
    ensures text { written.new.text ≤ length text.new }
    ensures notes { written.new.notes ≤ length notes.new }
    ensures rest { drop written.new.notes notes.new ≡ drop written.new.notes notes.old }
{
    answer(alloc, Task::Audit, trace, text, notes, written)
}

/// Writes a trace in version 2 of the format: the text is as long as the trace.
#[unsafe(no_mangle)]
pub extern "C" fn evc_upgrade(
    alloc: Global,
    trace: &[u8],
    text: &mut [u8],
    notes: &mut [u8],
    written: &mut EvcWritten,
) -> u8
    ensures answers { Answers Upgrades trace.now result (take written.new.text text.new) (take written.new.notes notes.new) (length notes.old) }
    ensures text { written.new.text ≤ length text.new }
    ensures notes { written.new.notes ≤ length notes.new }
    ensures rest { drop written.new.notes notes.new ≡ drop written.new.notes notes.old }
{
    answer(alloc, Task::Upgrade, trace, text, notes, written)
}

/// Plays the schedule of a script: the trace is the text, and the notes say how each worker ended.
#[unsafe(no_mangle)]
pub extern "C" fn evc_sim(
    alloc: Global,
    script: &[u8],
    text: &mut [u8],
    notes: &mut [u8],
    written: &mut EvcWritten,
) -> u8
    ensures answers { Answers Sims script.now result (take written.new.text text.new) (take written.new.notes notes.new) (length notes.old) }
    ensures text { written.new.text ≤ length text.new }
    ensures notes { written.new.notes ≤ length notes.new }
    ensures rest { drop written.new.notes notes.new ≡ drop written.new.notes notes.old }
{
    answer(alloc, Task::Sim, script, text, notes, written)
}

/// Stores the note for memory that ran out before anything was read, and returns the status.
fn answer_no_memory(notes: &mut [u8], written: &mut EvcWritten) -> u8
    ensures answers { (calls : List ℕ) → CallsAnswers calls result [] (take written.new.notes notes.new) (length notes.old) }
    ensures text { written.new.text ≡ 0 }
    ensures notes { written.new.notes ≤ length notes.new }
    ensures rest { drop written.new.notes notes.new ≡ drop written.new.notes notes.old }
{
    written.text = 0;
    written.notes = copy_prefix(notes, b"no memory\n");
    calls_report::Status::Memory.code()
}

/// Checks histories of calls: a linearization of each is the text. The notes have the remarks on
/// them, and then the note on what ended the check, if there is one.
///
/// The status is that of `evc-calls check`. It is 3 if the buffer was too small for the text: then
/// a proper prefix of the text was written.
#[unsafe(no_mangle)]
pub extern "C" fn evc_calls_check(
    alloc: Global,
    calls: &[u8],
    text: &mut [u8],
    notes: &mut [u8],
    written: &mut EvcWritten,
) -> u8
    ensures answers { CallsAnswers calls.now result (take written.new.text text.new) (take written.new.notes notes.new) (length notes.old) }
    ensures text { written.new.text ≤ length text.new }
    ensures notes { written.new.notes ≤ length notes.new }
    ensures rest { drop written.new.notes notes.new ≡ drop written.new.notes notes.old }
{
    let Ok(mut bytes) = NotesRoom::new(alloc, notes.len()) else {
        return answer_no_memory(notes, written);
    };
    let mut out = Room::new(text);
    let mut note_text = Output::new(&mut bytes);
    let mut reader = calls;
    let status = calls_report::check(alloc, &mut reader, &mut out, &mut note_text);
    let is_cut = note_text.has_failed();
    let noted = note_text.into_writer().as_slice();
    write_lengths(&out, status.code(), is_cut, noted, notes, written)
}

/// Returns the version: a thousand times its first number, plus its second. `evc --version` writes
/// the same numbers.
#[unsafe(no_mangle)]
pub extern "C" fn evc_version() -> u32
    ensures value { result ≡ 2 }
    ensures returned { IsVersionOf VERSION.now result }
{
    2
}
