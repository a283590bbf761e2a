//! Recorded runs.
ghost use Rattle.std.specs.Prelude.{IsTrue, ◌↔◌, ◌≡◌, ◌<◌, ◌^◌, List, [], ◌∷◌, ◌++◌, length, reverse, slice_get, Ok, IfOk, OnOk, OnErr, MatchResult};
ghost use Rattle.ec_count.specs.Tables.{IsDeclared};
ghost use Rattle.ec_core.specs.Acceptance.{answer_of, IsAccepted};
ghost use Rattle.ec_core.specs.Silence.{IsSilent, hands_to};
ghost use Rattle.ec_core.specs.Standing.{StandsFor};
ghost use Rattle.ec_core.specs.Values.{TellsAtMost};
ghost use Rattle.ec_core.specs.Procedures.{IsReply};

use crate::segments::Segments;
use crate::{Act, Entries, Entry, Refusal, Reply, VALUE_MAX, World};
use ec_count::{Setup, WorkerId};
use std::alloc::{AllocError, Global};
use std::marker::Model;
use thiserror::Error;

/// Returns whether the act transfers a component to the worker.
fn hands_to(act: &Act, worker: WorkerId) -> bool
    ensures { result ≡ hands_to worker act.now }
{
    match *act {
        Act::Hand(_, to) => to.get() == worker.get(),
        _ => false,
    }
}

/// Why a run made no step. In both cases nothing has changed.
#[derive(Clone, Copy, Debug, PartialEq, Eq, Error)]
pub enum StepFault {
    /// The step is refused.
    #[error("the step is refused: {0}")]
    Refused(Refusal),
    /// The step is not refused, and an allocation for its entry failed.
    #[error("there was no memory for the step's entry")]
    Memory,
}

/// A world and the accepted history that it represents.
///
/// The entries are stored in segments, so a step that is recorded moves none of them. Only the
/// numbers of the last segment may move, if they need more room.
#[derive(Drop)]
pub struct Run {
    world: World,
    entries: Segments,
}

impl Model for Run {
    ghost use Rattle.ec_core.specs.RunModel.{RunModel};

    ghost Value = { RunModel };

    ghost use Rattle.ec_core.specs.Standing.{StandsFor};

    ghost view = { λ r. record { setup = r.world.setup; entries = r.entries } };

    ghost invariant = { λ r. StandsFor r.world r.entries };
}

impl Run {
    ghost use Rattle.ec_core.specs.Faults.{IsFaultOf};

    /// Makes a run without entries on these declarations, which are dropped if an allocation fails.
    pub fn open(alloc: Global, setup: Setup) -> Result<Self, AllocError>
        ensures { IfOk result (λ run. run ≡ record { setup = setup; entries = [] }) }
    {
        let entries = Segments::open(alloc)?;
        Ok(Run {
            world: World::open(setup),
            entries,
        })
    }

    /// States what is true of a run: it is on sound declarations, and its history is accepted.
    pub fn invariant(&self)
        ensures declared { IsDeclared self.now.setup }
        ensures accepted { IsAccepted self.now.setup (reverse self.now.entries) }
    {
        let _ = &self.world;
    }

    /// Returns the declarations that the run is on.
    pub fn setup(&self) -> &Setup
        ensures { result.now ≡ self.now.setup }
    {
        self.world.setup()
    }

    /// Returns the state after its entries.
    pub fn world(&self) -> &World
        ensures represents { StandsFor result.now self.now.entries }
        ensures setup { result.now.setup ≡ self.now.setup }
    {
        &self.world
    }

    /// Returns how many entries it has.
    pub fn len(&self) -> usize
        ensures { result ≡ length self.now.entries }
    {
        self.entries.len()
    }

    /// Returns the entry at a position, counted from 0.
    #[inline(always)]
    pub fn entry(&self, i: usize) -> Option<Entry>
        ensures { result ≡ slice_get self.now.entries i }
    {
        self.entries.get(i)
    }

    /// Returns its entries in order.
    pub fn entries(&self) -> Entries<'_>
        ensures items { result ≡ self.now.entries }
        ensures small { length self.now.entries < 2 ^ 64 }
    {
        let _count = self.len();
        self.entries.entries()
    }

    /// Returns whether the worker is declared and is read-only at each moment of the run.
    ///
    /// Then it signals no eventcount at any moment, takes from no sequencer and writes no cell.
    pub fn is_silent(&self, worker: WorkerId) -> bool
        ensures { IsTrue result ↔ IsSilent self.now.setup self.now.entries worker }
    {
        self.invariant();
        if !self.setup().is_silent(worker) {
            return false;
        }
        for entry in self.entries() {
            if hands_to(&entry.act, worker) {
                return false;
            }
        }
        true
    }

    /// Returns a copy of the run: the same entries on the same declarations.
    pub fn copy(&self) -> Result<Self, AllocError>
        ensures { IfOk result (λ run. run ≡ self.now) }
    {
        let entries = self.entries.copy()?;
        Ok(Run {
            world: self.world.copy(),
            entries,
        })
    }

    /// Returns the allocator that the run was opened with.
    pub(crate) fn allocator(&self) -> Global {
        self.entries.allocator()
    }

    /// Makes one step and adds its entry, or returns a fault and changes nothing.
    ///
    /// A step is refused as a step of the world is. Memory is allocated only if it is not refused,
    /// and before anything is changed.
    #[inline(always)]
    pub fn step(&mut self, worker: WorkerId, act: Act) -> Result<Reply, StepFault>
        ensures answer { MatchResult result
            (λ reply. answer_of self.old.setup (reverse self.old.entries) worker act ≡ Ok reply)
            (λ fault. IsFaultOf fault (answer_of self.old.setup (reverse self.old.entries) worker act)) }
        ensures ok { IfOk result (λ reply. self.new ≡ record self.old { entries = self.old.entries ++ record { worker = worker; act = act; reply = reply } ∷ [] }) }
        ensures small { IfOk result (TellsAtMost VALUE_MAX) }
        ensures kind { IfOk result (IsReply act) }
        ensures err { OnErr result (self.new ≡ self.old) }
    {
        let effect = match self.world.plan(worker, &act) {
            Ok(effect) => effect,
            Err(refusal) => return Err(StepFault::Refused(refusal)),
        };
        let reply = effect.reply();
        let entry = Entry { worker, act, reply };
        if self.entries.push(entry).is_err() {
            return Err(StepFault::Memory);
        }
        self.world.apply(worker, &effect);
        Ok(reply)
    }
}
