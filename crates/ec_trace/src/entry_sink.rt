//! What receives the steps of a trace.
ghost use Rattle.std.specs.Prelude.{◌≡◌, List, [], reverse, length};
ghost use Rattle.ec_core.specs.Acceptance.{answer_of};
ghost use Rattle.ec_core.specs.Faults.{IsFaultOf};
ghost use Rattle.ec_core.specs.RunModel.{RunModel};
ghost use Rattle.ec_core.specs.Standing.{StandsFor};
ghost use Rattle.ec_core.specs.declared.act.Entry.{Entry};
ghost use Rattle.ec_trace.specs.EntrySinks.{Enters};

use ec_core::{Act, Audit, Entry, Reply, Run, Step, StepFault, World};
use ec_count::{Setup, WorkerId};

/// What represents a history, and makes its next step.
///
/// A `Run` stores the history, an `AuditedWorld` doesn't.
pub trait EntrySink {
    // Whether a state represents a history, given the state at the start.
    ghost represents: { Self → Self → RunModel → Type 0 };

    /// Makes a step, and returns its reply after the history so far.
    ///
    /// The state then represents the history with this entry. After an error it represents the same
    /// history as before. `Memory` is returned only for a step that is not refused.
    fn enter(&mut self, worker: WorkerId, act: Act) -> Result<Reply, StepFault>
        ensures { (start : Self) (h : RunModel) → represents start self.old h → Enters (represents start self.new) h worker act result };
}

impl EntrySink for Run {
    ghost represents = { λ start now h. now ≡ h };

    #[inline(always)]
    fn enter(&mut self, worker: WorkerId, act: Act) -> Result<Reply, StepFault> {
        self.step(worker, act)
    }
}

/// A world, and an audit to which each entry is passed. It stores no entries.
#[derive(Drop)]
pub struct AuditedWorld<A> {
    world: World,
    place: usize,
    audit: A,
}

impl<A: Audit> AuditedWorld<A> {
    /// Returns the state before the first step on these declarations.
    pub fn new(setup: Setup, audit: A) -> Self
        requires { A.represents audit audit [] }
        ensures audit { result.audit ≡ audit }
        ensures first { ⟦<AuditedWorld<A> as EntrySink>⟧.represents result result (record { setup = setup; entries = [] }) }
    {
        AuditedWorld {
            world: World::open(setup),
            place: 0,
            audit,
        }
    }

    /// Returns the world after the last step, and the audit after all entries.
    pub fn into_parts(self) -> (World, A)
        ensures world { result.0 ≡ self.world }
        ensures audit { result.1 ≡ self.audit }
    {
        (self.world, self.audit)
    }
}

/// Returns why a step is not made after as many as can be counted. (It is a function of its own, so
/// that `enter` is small enough to be inlined.)
#[cold]
#[inline(never)]
fn refusal_at_limit(world: &World, worker: WorkerId, act: Act) -> StepFault
    ensures { (h : List Entry) → StandsFor world.now h
        → IsFaultOf result (answer_of world.now.setup (reverse h) worker act) }
{
    match world.answer(worker, &act) {
        Ok(_) => StepFault::Memory,
        Err(refusal) => StepFault::Refused(refusal),
    }
}

impl<A: Audit> EntrySink for AuditedWorld<A> {
    ghost represents = { λ start now h. StandsFor now.world h.entries × (now.world.setup ≡ h.setup) × (now.place ≡ length h.entries) × A.represents start.audit now.audit (reverse h.entries) };

    #[inline(always)]
    fn enter(&mut self, worker: WorkerId, act: Act) -> Result<Reply, StepFault> {
        let Some(next) = self.place.checked_add(1) else {
            return Err(refusal_at_limit(&self.world, worker, act));
        };
        let asked = act;
        let Step { op, reply } = match self.world.step_of_call(worker, asked) {
            Ok(step) => step,
            Err(refusal) => return Err(StepFault::Refused(refusal)),
        };
        let entry = Entry { worker, act, reply };
        self.audit.take(self.place, &op, &entry);
        self.place = next;
        Ok(reply)
    }
}
