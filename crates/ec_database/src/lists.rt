//! The call lists of the workers on a database.
ghost use Rattle.std.specs.Prelude.{◌≡◌, ℕ, ◌+◌, ◌<◌, List, [], ◌∷◌, ◌++◌, length, if◌then◌else◌};
ghost use Rattle.ec_core.specs.CallLists.{reply_number};
ghost use Rattle.ec_core.specs.declared.act.Act.{Act};
ghost use Rattle.ec_core.specs.declared.act.Act.TheVariants.{Read, Ticket, Get};
ghost use Rattle.ec_core.specs.Following.{CompletedCall};
ghost use Rattle.ec_database.specs.Following.{is_on, writes, rules};
ghost use Rattle.ec_database.specs.Auditing.{ArePlaced};
ghost use Rattle.ec_database.specs.SnapshotPhases.{list_progress};

use crate::DatabaseShape;
use crate::places::{try_at, write_at};
use ec_core::{Act, ListProgress, Protocol, Reply, is_due};
use ec_count::{Setup, WorkerId};

/// The call lists of a database's writers and readers, as they are declared in a setup.
#[derive(Drop)]
pub(crate) struct Lists<'a> {
    pub(crate) shape: &'a DatabaseShape,
    pub(crate) setup: &'a Setup,
    /// Which workers are writers; it is looked up for each entry of a run.
    writers: [bool; 16],
    ghost known: { ArePlaced (writes setup.now shape.now) 16 writers },
}

/// Returns whether an act names an object of the database.
pub fn is_on(shape: &DatabaseShape, act: &Act) -> bool
    ensures { result ≡ is_on shape.now act.now }
{
    match act {
        Act::Advance(event) | Act::Read(event) | Act::Await(event, _) | Act::Hand(event, _) => {
            *event == shape.start() || *event == shape.done()
        }
        Act::Go => false,
        Act::Ticket(sequencer) => *sequencer == shape.turn(),
        Act::Put(cell, _) | Act::Get(cell) => shape.is_cell(*cell),
    }
}

impl<'a> Lists<'a> {
    pub(crate) fn new(shape: &'a DatabaseShape, setup: &'a Setup) -> Self
        ensures shape { result.shape.now ≡ shape.now }
        ensures setup { result.setup.now ≡ setup.now }
    {
        let mut writers = [false; 16];
        for number in 0..16 {
            let worker = WorkerId::new(number).unwrap();
            writers[number] = setup.component_of(shape.start(), worker).is_some();
        }
        Lists {
            shape,
            setup,
            writers,
        }
    }

    /// Returns whether the worker is a writer.
    pub(crate) fn writes(&self, worker: WorkerId) -> bool
        ensures { result ≡ writes self.now.setup.now self.now.shape.now worker }
    {
        self.writers[worker.get()]
    }

    /// Returns whether an act begins the call that the worker's list has next.
    #[inline(always)]
    fn is_next(&self, worker: WorkerId, kept: &ListProgress, act: &Act) -> bool
        ensures { (calls : List CompletedCall) → kept.now ≡ list_progress calls → result ≡ (rules self.now.shape.now (writes self.now.setup.now self.now.shape.now) worker).fits calls act.now }
    {
        if self.writes(worker) {
            is_due(&write_at(self.shape, kept.at, kept.second, 0), act)
        } else {
            is_due(&try_at(self.shape, kept.at, kept.first), act)
        }
    }

    /// Returns the index of the last call of the worker's list.
    fn last(&self, worker: WorkerId) -> usize
        ensures { result ≡ (if writes self.now.setup.now self.now.shape.now worker then self.now.shape.now.cells + 3 else self.now.shape.now.cells + 2) }
    {
        if self.writes(worker) {
            self.shape.cells() + 3
        } else {
            self.shape.cells() + 2
        }
    }
}

impl Protocol for Lists<'_> {
    ghost rules = { λ s. rules s.shape.now (writes s.setup.now s.shape.now) };

    ghost keeps = { λ s. list_progress };

    fn start(&self) -> ListProgress {
        ListProgress {
            at: 0,
            first: 0,
            second: 0,
        }
    }

    fn is_right(&self, worker: WorkerId, kept: &ListProgress, act: &Act) -> bool {
        // (the call that is next is checked first, since in a run that follows most calls are that)
        self.is_next(worker, kept, act) || !is_on(self.shape, act)
    }

    fn after(&self, worker: WorkerId, kept: &ListProgress, op: &Act, reply: Reply) -> ListProgress {
        if reply.is_pending() || !is_on(self.shape, op) {
            return *kept;
        }
        if kept.at >= self.last(worker) {
            return self.start();
        }
        with_number(kept, reply.number())
    }
}

/// Returns the progress after one more call, which returned this number.
fn with_number(kept: &ListProgress, number: u64) -> ListProgress
    requires { kept.now.at < usize.MAX }
    ensures { (calls : List CompletedCall) (c : CompletedCall) → kept.now ≡ list_progress calls → number ≡ reply_number c.reply → result ≡ list_progress (calls ++ c ∷ []) }
{
    ListProgress {
        at: kept.at + 1,
        first: if kept.at == 0 { number } else { kept.first },
        second: if kept.at == 1 { number } else { kept.second },
    }
}
