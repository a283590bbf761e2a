//! Answers questions about a run.
ghost use Rattle.std.specs.Prelude.{All, IsTrue};
ghost use Rattle.ec_core.specs.Silence.{IsSilent};

use crate::fault::Fault;
use crate::kernel::ask::{Ask, worker};
use crate::kernel::worlds::tell_world;
use crate::kernel::writing::tell_entry;
use crate::line::tell;
use ec_core::Run;
use ec_count::WorkerId;

/// Returns whether two runs have the same entries, in sequence and by index.
pub fn is_same(run: &Run, other: &Run) -> bool {
    for (place, entry) in run.entries().enumerate() {
        if other.entry(place) != Some(entry) {
            return false;
        }
    }
    run.len() == other.len()
}

/// Returns whether each of these workers is read-only.
pub fn are_silent(run: &Run, workers: &[WorkerId]) -> bool
    ensures { IsTrue result → All (λ w. IsSilent run.now.setup run.now.entries w) workers.now }
{
    for worker in workers {
        if !run.is_silent(*worker) {
            return false;
        }
    }
    true
}

/// Writes all entries.
fn tell_entries(run: &Run, ask: &mut Ask<'_>) -> Result<(), Fault> {
    for entry in run.entries() {
        tell_entry(Some(entry), ask)?;
    }
    Ok(())
}

/// Answers a question about a run, if the line is one.
pub fn answer_look(run: &Run, ask: &mut Ask<'_>) -> Result<(), Fault> {
    match ask.verb {
        "length" => tell(run.len(), ask.out),
        "count" => tell(run.entries().count(), ask.out),
        "entries" => tell_entries(run, ask),
        "entry" => tell_entry(run.entry(ask.size()?), ask),
        "silent" => tell(run.is_silent(worker(ask)?), ask.out),
        _ => Err(Fault::Line),
    }
}

/// Writes what can be asked of a run: its length, its last entry, the one after it, and its world.
pub fn tell_run(run: &Run, ask: &mut Ask<'_>) -> Result<(), Fault> {
    let many = run.len();
    tell(many, ask.out)?;
    tell_entry(run.entry(many.saturating_sub(1)), ask)?;
    tell_entry(run.entry(many), ask)?;
    tell_world(run.world(), ask)
}
