//! Whether a history follows programs.
ghost use Rattle.std.specs.Prelude.{◌≡◌, ◌≢◌, ◌<◌, ◌↔◌, ◌==◌, ℕ, true, false, List, [], ◌∷◌, reverse, Some, IsTrue, MatchOption};
ghost use Rattle.ec_core.specs.declared.act.Entry.{Entry};
ghost use Rattle.ec_core.specs.Procedures.{IsReply};
ghost use Rattle.ec_machine.specs.declared.command.Command.{Command};
ghost use Rattle.ec_machine.specs.Follows.{Follows, IsFirstOff, program_at};
ghost use Rattle.ec_machine.specs.Runs.{IsRunOf, next_act};
ghost use Rattle.ec_machine.specs.Standing.{StandsFor, is_refused};
ghost use Rattle.ec_machine.specs.Steps.{own};

use crate::remaining::Remaining;
use crate::{Machine, Program};
use ec_core::{Act, Entry, Run, replies_fit_their_acts};
use ec_count::WorkerId;

fn is_same_act(act: &Act, other: &Act) -> bool
    ensures { IsTrue result ↔ (act.now ≡ other.now) }
{
    act == other
}

/// Passes the reply of a step to the interpreter, if its act is the one that is due. Returns
/// whether it is.
fn goes_with(machine: &mut Machine<'_>, entry: &Entry) -> bool
    requires { IsReply entry.now.act entry.now.reply }
    ensures yes { (cs : List Command) (past : List Entry) → StandsFor cs machine.old past → is_refused machine.old ≡ false → result ≡ true
        → StandsFor cs machine.new (entry.now ∷ past) × (is_refused machine.new ≡ false) }
    ensures no { (cs : List Command) (past : List Entry) → StandsFor cs machine.old past → is_refused machine.old ≡ false → result ≡ false
        → next_act cs past ≢ Some entry.now.act }
{
    let Some(act) = machine.next() else {
        return false;
    };
    if !is_same_act(&act, &entry.act) {
        return false;
    }
    machine.take(entry.reply);
    true
}

/// Returns an interpreter at the start of a worker's program; a missing one is empty.
fn machine_for(programs: &[Program], place: usize) -> Machine<'_>
    ensures represents { StandsFor (program_at programs.now place) result [] }
    ensures unset { is_refused result ≡ false }
{
    match programs.get(place) {
        Some(program) => Machine::new(program),
        None => Machine::at_start(Remaining::new(&[])),
    }
}

/// Returns whether the worker's entries are a run of its program, perhaps incomplete.
fn follows_one(run: &Run, programs: &[Program], worker: WorkerId) -> bool
    ensures { IsTrue result ↔ Follows programs.now run.now.entries worker }
{
    run.invariant();
    replies_fit_their_acts();
    let mut machine = machine_for(programs, worker.get());
    for entry in run.entries() {
        if !entry.is_of(worker) {
            continue;
        }
        if !goes_with(&mut machine, &entry) {
            return false;
        }
    }
    true
}

/// Returns the first worker whose entries are no run of its program, or `None` if each worker's are
/// one. A run may be incomplete. The programs are those of the workers in order of declaration; a
/// missing one is empty. Allocates nothing.
pub fn follows(run: &Run, programs: &[Program]) -> Option<WorkerId>
    ensures { MatchOption result
        ((w : ℕ) → w < run.now.setup.workers → Follows programs.now run.now.entries w)
        (λ w. (w < run.now.setup.workers) × IsFirstOff programs.now run.now.entries w) }
{
    for place in 0..run.setup().workers() {
        let worker = WorkerId::new(place).unwrap();
        if !follows_one(run, programs, worker) {
            return Some(worker);
        }
    }
    None
}
