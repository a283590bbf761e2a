//! The tasks of the command line.
ghost use Rattle.std.specs.Prelude.{◌≡◌, IfErr, IfOk, IfSome, ℕ};
ghost use Rattle.evc_cli.specs.declared.choice.Task.TheVariants.{Run};
ghost use Rattle.evc_scripts.specs.Tasks.{Does};
ghost use Rattle.ec_text.specs.Puts.{IsWrittenOut};

use crate::running::run;
use crate::simulating::sim;
use ec_text::Output;
use evc_cli::Task;
use evc_engine::{Status, audit, check, upgrade};
use std::alloc::Global;
use std::io::{Read, Write};
use std::sync::Wait;
use std::thread::Threads;

/// Does a task that needs no threads: it reads the input from `reader`, and writes the text to
/// `out` and the notes to `notes`. By its type it never waits.
///
/// Returns `Err` with the turns of a `Task::Run`, the only task that needs threads; then nothing
/// was read or written.
pub fn engine_without_threads<R: Read, W: Write, N: Write>(
    alloc: Global,
    task: Task,
    reader: &mut R,
    out: &mut W,
    notes: &mut Output<'_, N>,
) -> Result<Status, u64>
    ensures ends { IfOk result (λ status. IfSome (R.remaining reader.old) (λ bytes. Does task bytes (R.remaining reader.new) status
        (record { out = W.contents out.old; notes = notes.old })
        (record { out = W.contents out.new; notes = notes.new }))) }
    ensures written { IsWrittenOut notes.old → IsWrittenOut notes.new }
    ensures run { IfErr result (λ turns. task ≡ Run turns) }
    ensures others { IfOk result (λ _. (turns : ℕ) → task ≡ Run turns → ⊥) }
    ensures kept { IfErr result (λ _. (reader.new ≡ reader.old) × (out.new ≡ out.old) × (notes.new ≡ notes.old)) }
{
    match task {
        Task::Check => Ok(check(alloc, reader, out, notes)),
        Task::Audit => Ok(audit(alloc, reader, out, notes)),
        Task::Upgrade => Ok(upgrade(alloc, reader, out, notes)),
        Task::Sim => Ok(sim(alloc, reader, out, notes)),
        Task::Run(turns) => Err(turns),
    }
}

/// Does a task: it reads the input from `reader`, and writes the text to `out` and the notes to
/// `notes`.
///
/// By its type it may wait, since one of the tasks is `run`. `engine_without_threads`, which does
/// the others, never waits.
pub fn engine<H: Threads + Wait + Sync, R: Read, W: Write, N: Write>(
    rt: &H,
    alloc: Global,
    task: Task,
    reader: &mut R,
    out: &mut W,
    notes: &mut Output<'_, N>,
) -> Status
    ensures ends { IfSome (R.remaining reader.old) (λ bytes. Does task bytes (R.remaining reader.new) result
        (record { out = W.contents out.old; notes = notes.old })
        (record { out = W.contents out.new; notes = notes.new })) }
    ensures written { IsWrittenOut notes.old → IsWrittenOut notes.new }
{
    match engine_without_threads(alloc, task, reader, out, notes) {
        Ok(status) => status,
        Err(turns) => run(rt, alloc, turns, reader, out, notes),
    }
}
