//! Runs without their read-only workers.
ghost use Rattle.std.specs.Prelude.{◌≡◌, [], ◌∷◌, ◌++◌, reverse, All, Ok, IfOk, OnOk};
ghost use Rattle.ec_count.specs.Members.{is_member};
ghost use Rattle.ec_core.specs.Acceptance.{answer_of};
ghost use Rattle.ec_core.specs.Silence.{IsSilent, without};

use crate::{Entry, Run};
use ec_count::WorkerId;
use std::alloc::AllocError;

/// Makes the step of an entry again, which gets the same reply.
fn repeat(run: &mut Run, entry: Entry) -> Result<(), AllocError>
    requires { answer_of run.old.setup (reverse run.old.entries) entry.worker entry.act ≡ Ok entry.reply }
    ensures { OnOk result (run.new ≡ record run.old { entries = run.old.entries ++ entry ∷ [] }) }
{
    match run.step(entry.worker, entry.act) {
        Ok(_) => Ok(()),
        Err(_) => Err(AllocError),
    }
}

/// Returns the run without the entries of some read-only workers, on the same declarations.
///
/// As a run it is accepted: the other entries keep their replies. `Run::is_silent` tests which
/// workers are read-only.
pub fn without(run: &Run, silent: &[WorkerId]) -> Result<Run, AllocError>
    requires { All (λ w. IsSilent run.now.setup run.now.entries w) silent.now }
    ensures { IfOk result (λ rest. rest ≡ record run.now { entries = without (λ w. is_member w silent.now) run.now.entries }) }
{
    let mut rest = Run::open(run.allocator(), run.setup().copy())?;
    run.invariant();
    for entry in run.entries() {
        if !silent.contains(&entry.worker) {
            repeat(&mut rest, entry)?;
        }
    }
    Ok(rest)
}
