//! The logs of the workers: the entries of each.
ghost use Rattle.std.specs.Prelude.{◌≡◌, IfOk, map, Vec};
ghost use Rattle.std.specs.declared.alloc.Global.{Global};
ghost use Rattle.ec_core.specs.declared.act.Entry.{Entry};
ghost use Rattle.ec_machine.specs.Steps.{own};
ghost use Rattle.ec_runner.specs.Reported.{AreLogs};

use ec_core::{Entry, Run};
use ec_count::WorkerId;
use std::alloc::{AllocError, Global};

/// Returns the entries of a worker in order.
fn log_of(alloc: Global, run: &Run, worker: WorkerId) -> Result<Vec<Entry>, AllocError>
    ensures { IfOk result (λ log. log.items ≡ own worker run.now.entries) }
{
    let mut log = Vec::new(alloc);
    for entry in run.entries() {
        if entry.is_of(worker) {
            log.push(Entry {
                worker: entry.worker,
                act: entry.act,
                reply: entry.reply,
            })?;
        }
    }
    Ok(log)
}

/// Returns the entries of each declared worker in order.
pub(crate) fn logs_of(alloc: Global, run: &Run) -> Result<Vec<Vec<Entry>>, AllocError>
    ensures { IfOk result (λ logs. AreLogs run.now.setup.workers run.now.entries (map (λ (log : Vec Entry Global). log.items) logs.items)) }
{
    let mut logs = Vec::new(alloc);
    for place in 0..run.setup().workers() {
        let worker = WorkerId::new(place).unwrap();
        let log = log_of(alloc, run, worker)?;
        logs.push(log)?;
    }
    Ok(logs)
}
