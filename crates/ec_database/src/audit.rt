//! The accepted tries of a run.
ghost use Rattle.std.specs.Prelude.{◌≡◌, ◌<◌, ◌≤◌, ℕ, false, List, [], ◌∷◌, ◌++◌, option_to_list, length, map, take, reverse, slice_get, slice_set, Some, IfOk, OnOk, IfErr};
ghost use Rattle.std.specs.Option.{option_map};
ghost use Rattle.ec_core.specs.declared.act.Entry.{Entry};
ghost use Rattle.ec_core.specs.Audits.{IsAuditFault};
ghost use Rattle.ec_core.specs.Ending.{EndsAt};
ghost use Rattle.ec_core.specs.Following.{block};
ghost use Rattle.ec_database.specs.Following.{writes, database_rules, FollowsDatabase};
ghost use Rattle.ec_database.specs.Tries.{ended_at, accepted_tries, ListsTries, AreUndisturbed};
ghost use Rattle.ec_database.specs.Auditing.{accepted_try, completed_call, found_in, rows_after, try_ended, HasRow, HoldsGot, ReadsOn, RepresentsVersions};

use crate::DatabaseShape;
use crate::lists::{Lists, is_on};
use crate::tries::{Accepted, AcceptedTries, TryView};
use ec_core::{Act, Audit, AuditFault, Entry, ListProgress, Run, Tracker, walk};
use ec_count::{Setup, WorkerId, filled};
use std::alloc::{AllocError, Global};
use std::marker::Model;

/// A call on the database that a reader has completed: its index in the reader's try, the version
/// that the try read first, and the number that the call returned.
#[derive(Clone, Copy)]
struct ReaderCall {
    worker: WorkerId,
    at: usize,
    version: u64,
    number: u64,
}

/// Returns the call of a reader on the database that an entry completes, if it completes one.
fn completed_call(lists: &Lists, kept: &ListProgress, op: &Act, entry: &Entry) -> Option<ReaderCall>
    ensures { result ≡ completed_call lists.now.shape.now (writes lists.now.setup.now lists.now.shape.now entry.now.worker) kept.now op.now entry.now }
{
    if lists.writes(entry.worker) || entry.reply.is_pending() || !is_on(lists.shape, op) {
        return None;
    }
    Some(ReaderCall {
        worker: entry.worker,
        at: kept.at,
        version: kept.first,
        number: entry.reply.number(),
    })
}

/// The values that the readers got in the tries that they are in, by reader and index of the cell.
#[derive(Drop)]
struct Got {
    rows: [[u64; 256]; 16],
}

impl Got {
    fn new() -> Self
        ensures { (w : ℕ) → w < 16 → HasRow result.rows w [] }
    {
        Got {
            rows: filled(filled(0)),
        }
    }

    /// Stores the value that a reader's call returned, if the call is a get.
    fn keep(&mut self, cells: usize, call: &ReaderCall)
        requires { cells ≤ 256 }
        ensures { (row : List ℕ) → slice_get self.old.rows call.now.worker ≡ Some row → self.new.rows ≡ rows_after cells self.old.rows row call.now }
    {
        if 2 <= call.at && call.at < cells + 2 {
            self.rows[call.worker.get()][call.at - 2] = call.number;
        }
    }

    /// Adds the accepted try that a reader's call ends, if it ends one.
    fn add(
        &self,
        cells: usize,
        call: &ReaderCall,
        tries: &mut AcceptedTries,
    ) -> Result<(), AllocError>
        requires few { cells ≤ 256 }
        requires cells { tries.old.cells ≡ cells }
        ensures cells { tries.new.cells ≡ tries.old.cells }
        ensures added { OnOk result ((row : List ℕ) → slice_get self.now.rows call.now.worker ≡ Some row → tries.new.list ≡ tries.old.list ++ option_to_list (try_ended cells row call.now)) }
    {
        if call.at != cells + 2 || call.number != call.version {
            return Ok(());
        }
        let row = &self.rows[call.worker.get()];
        tries.push(call.worker, call.version, &row[..cells])
    }

    /// Processes the next entry of a run, given the progress of its worker and the act that began
    /// its call, and adds the accepted try that it ends, unless an allocation has failed before.
    /// Returns whether one has failed.
    fn add_fails(
        &mut self,
        out_of_memory: bool,
        lists: &Lists,
        kept: &ListProgress,
        op: &Act,
        entry: &Entry,
        tries: &mut AcceptedTries,
    ) -> bool
        requires { tries.old.cells ≡ lists.now.shape.now.cells }
        ensures cells { tries.new.cells ≡ tries.old.cells }
        ensures before { result ≡ false → out_of_memory ≡ false }
        ensures held { result ≡ false → (past : List Entry) → ReadsOn lists.now.setup.now lists.now.shape.now kept.now op.now entry.now past
            → HoldsGot lists.now.shape.now (writes lists.now.setup.now lists.now.shape.now) self.old.rows past
            → HoldsGot lists.now.shape.now (writes lists.now.setup.now lists.now.shape.now) self.new.rows (entry.now ∷ past) }
        ensures tries { result ≡ false → (past : List Entry) → ReadsOn lists.now.setup.now lists.now.shape.now kept.now op.now entry.now past
            → HoldsGot lists.now.shape.now (writes lists.now.setup.now lists.now.shape.now) self.old.rows past
            → tries.old.list ≡ accepted_tries lists.now.shape.now (writes lists.now.setup.now lists.now.shape.now) past
            → tries.new.list ≡ accepted_tries lists.now.shape.now (writes lists.now.setup.now lists.now.shape.now) (entry.now ∷ past) }
    {
        if out_of_memory {
            return true;
        }
        let _reader = entry.worker.get();
        let Some(call) = completed_call(lists, kept, op, entry) else {
            return false;
        };
        let cells = lists.shape.cells();
        self.keep(cells, &call);
        self.add(cells, &call, tries).is_err()
    }
}

/// The audit of a database in a pass over a run. An entry whose call is not on the database may be
/// left out.
#[derive(Drop)]
pub struct VersionAudit<'a> {
    lists: Lists<'a>,
    tracker: Tracker,
    got: Got,
    tries: AcceptedTries,
    out_of_memory: bool,
}

impl<'a> Model for VersionAudit<'a> {
    ghost use Rattle.std.specs.Prelude.{◌≡◌};
    ghost use Rattle.ec_database.specs.Auditing.{VersionAuditModel};

    ghost Value = { VersionAuditModel };

    ghost view = { λ s. record { shape = s.lists.shape.now; setup = s.lists.setup.now; tracked = s.tracker; rows = s.got.rows; list = s.tries.list; out_of_memory = s.out_of_memory } };

    ghost invariant = { λ s. s.tries.cells ≡ s.lists.shape.now.cells };
}

impl<'a> Audit for VersionAudit<'a> {
    ghost use Rattle.ec_database.specs.Auditing.{VersionsOn};

    ghost represents = { VersionsOn };

    #[inline(never)]
    fn take(&mut self, place: usize, op: &Act, entry: &Entry) {
        let VersionAudit {
            lists,
            tracker,
            got,
            tries,
            out_of_memory,
        } = self;
        let kept = tracker.list_progress(entry.worker);
        *out_of_memory = got.add_fails(*out_of_memory, lists, &kept, op, entry, tries);
        tracker.take(lists, place, op, entry);
    }
}

impl<'a> VersionAudit<'a> {
    /// Makes the audit before the first entry of a run on this setup. Allocates nothing.
    pub fn new(alloc: Global, shape: &'a DatabaseShape, setup: &'a Setup) -> Self
        ensures shape { result.shape ≡ shape.now }
        ensures setup { result.setup ≡ setup.now }
        ensures first { RepresentsVersions result [] }
    {
        let lists = Lists::new(shape, setup);
        let tracker = Tracker::new(&lists);
        VersionAudit {
            lists,
            tracker,
            got: Got::new(),
            tries: AcceptedTries::new(alloc, shape.cells()),
            out_of_memory: false,
        }
    }

    /// Returns how many calls of its current list a worker has completed, after the entries so far.
    pub fn completed_count(&self, worker: WorkerId) -> usize
        ensures { (past : List Entry) → RepresentsVersions self.now past → result ≡ length (block (database_rules self.now.setup self.now.shape worker) worker past) }
    {
        self.tracker.list_progress(worker).at
    }

    /// Returns how many accepted tries there are so far, or `None` if there was no memory for one.
    pub fn accepted_count(&self) -> Option<usize>
        ensures { result ≡ found_in self.now }
    {
        if self.out_of_memory {
            None
        } else {
            Some(self.tries.len())
        }
    }

    /// Returns the accepted try at this index among those so far, if there are so many.
    pub fn accepted_at(&self, place: usize) -> Option<TryView<'_>>
        ensures { result ≡ slice_get self.now.list place }
    {
        self.tries.get(place)
    }

    /// Returns the accepted tries after the entries so far, as `versions` lists them.
    pub fn finish(self) -> Result<AcceptedTries, AuditFault>
        ensures followed { (h : List Entry) → EndsAt self.entry.setup (RepresentsVersions self.entry) h → OnOk result (FollowsDatabase self.entry.setup self.entry.shape (reverse h)) }
        ensures tries { (h : List Entry) → EndsAt self.entry.setup (RepresentsVersions self.entry) h → IfOk result (λ tries. ListsTries self.entry.setup self.entry.shape h tries.list) }
        ensures undisturbed { (h : List Entry) → EndsAt self.entry.setup (RepresentsVersions self.entry) h → IfOk result (λ tries. AreUndisturbed self.entry.setup self.entry.shape h tries.list) }
        ensures err { (h : List Entry) → EndsAt self.entry.setup (RepresentsVersions self.entry) h → IfErr result (IsAuditFault (database_rules self.entry.setup self.entry.shape) h) }
    {
        self.lists.shape.invariant();
        self.tracker.finding()?;
        if self.out_of_memory {
            return Err(AuditFault::Memory);
        }
        Ok(self.tries)
    }

    /// Returns the accepted tries after all entries of a run, as `versions` lists them.
    pub fn versions(self, run: &Run) -> Result<AcceptedTries, AuditFault>
        requires setup { self.setup ≡ run.now.setup }
        requires represents { RepresentsVersions self (reverse run.now.entries) }
        ensures followed { OnOk result (FollowsDatabase run.now.setup self.entry.shape (reverse run.now.entries)) }
        ensures tries { IfOk result (λ tries. ListsTries run.now.setup self.entry.shape run.now.entries tries.list) }
        ensures undisturbed { IfOk result (λ tries. AreUndisturbed run.now.setup self.entry.shape run.now.entries tries.list) }
        ensures err { IfErr result (IsAuditFault (database_rules run.now.setup self.entry.shape) run.now.entries) }
    {
        run.invariant();
        self.finish()
    }
}

/// Returns the accepted tries of a database in a run, in the order of their last steps. If the
/// workers don't follow the database's call lists, the error has the first entry that breaks them.
pub fn versions(
    alloc: Global,
    run: &Run,
    shape: &DatabaseShape,
) -> Result<Vec<Accepted>, AuditFault>
    ensures followed { OnOk result (FollowsDatabase run.now.setup shape.now (reverse run.now.entries)) }
    ensures tries { IfOk result (λ list. ListsTries run.now.setup shape.now run.now.entries (map accepted_try list.items)) }
    ensures undisturbed { IfOk result (λ list. AreUndisturbed run.now.setup shape.now run.now.entries (map accepted_try list.items)) }
    ensures err { IfErr result (IsAuditFault (database_rules run.now.setup shape.now) run.now.entries) }
{
    let mut audit = VersionAudit::new(alloc, shape, run.setup());
    walk(run, &mut audit);
    let tries = audit.versions(run)?;
    let Ok(list) = tries.to_list(alloc) else {
        return Err(AuditFault::Memory);
    };
    Ok(list)
}
