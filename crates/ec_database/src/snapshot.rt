//! Snapshots of all cells.
ghost use Rattle.std.specs.Prelude.{◌≡◌, ◌+◌, ◌-◌, ◌≤◌, ◌<◌, ◌↔◌, true, false, List, [], ◌∷◌, Some, None, IsSome};
ghost use Rattle.arrayvec.specs.ArrayVec.{array_vec_len};
ghost use Rattle.ec_core.specs.declared.act.Act.{Act};
ghost use Rattle.ec_core.specs.Calls.{is_pending};
ghost use Rattle.ec_core.specs.Following.{CompletedCall};
ghost use Rattle.ec_core.specs.Procedures.{IsReplyTo, next_of};
ghost use Rattle.ec_database.specs.Snapshots.{snapshot_call, snapshot_end};

use crate::places::try_at;
use crate::{DatabaseShape, SnapshotEnd};
use arrayvec::ArrayVec;
use ec_core::{Act, Procedure, Reply};

/// The procedure that reads all cells of a database, in tries. A try reads how many writes were
/// started, waits until that many are done, gets each cell, and reads again how many were started.
/// If both reads agree it is accepted, and in a history that follows the database its values are
/// those of one version. Otherwise the next try begins, until none is left.
#[derive(Debug, Drop)]
pub struct Snapshot {
    shape: DatabaseShape,
    left: usize,
    at: usize,
    version: u64,
    values: ArrayVec<u64, 256>,
    agreed: bool,
    going: bool,
    ghost few: { at ≤ shape.cells + 3 },
    ghost kept: { array_vec_len values ≤ at - 2 },
    ghost waits: { going ≡ true → at ≤ shape.cells + 2 },
}

impl Snapshot {
    ghost use Rattle.ec_database.specs.Standing.{try_place, ending};
    ghost use Rattle.ec_database.specs.SnapshotPhases.{next_phase};

    /// Makes a snapshot of at most so many tries, from 1 to 1000.
    pub fn new(shape: DatabaseShape, tries: usize) -> Self
        requires some { 1 ≤ tries }
        requires few { tries ≤ 1000 }
        ensures whole { (calls : List CompletedCall) → ⟦<Snapshot as Procedure>⟧.rest result calls ≡ snapshot_call shape tries calls }
        ensures fresh { ⟦<Snapshot as Procedure>⟧.is_going result ≡ false }
        ensures ends { (calls : List CompletedCall)
            → ending result calls ≡ snapshot_end shape tries calls }
    {
        Snapshot {
            shape,
            left: tries,
            at: 0,
            version: 0,
            values: ArrayVec::new(),
            agreed: false,
            going: false,
        }
    }

    /// Takes the number that the current call returned.
    fn take_reply(&mut self, number: u64)
        requires { self.old.at ≤ self.old.shape.cells + 2 }
        ensures place { try_place self.new ≡ next_phase self.old.shape (try_place self.old) number }
        ensures going { self.new.going ≡ false }
        ensures same { self.new.shape ≡ self.old.shape }
    {
        self.going = false;
        if self.at == 0 {
            self.version = number;
            self.at = 1;
        } else if self.at == 1 {
            self.at = 2;
        } else if self.at < self.shape.cells() + 2 {
            self.values.push(number);
            self.at += 1;
        } else if number != self.version && self.left > 1 {
            self.left -= 1;
            self.at = 0;
            self.values.clear();
        } else {
            self.agreed = number == self.version;
            self.at += 1;
        }
    }

    /// Returns how it has ended, or `None` while `next` is `Some`.
    pub fn end(&self) -> Option<SnapshotEnd>
        ensures value { result ≡ ending self.now [] }
        ensures next { IsSome result ↔ (next_of (⟦<Snapshot as Procedure>⟧.is_going self.now) (⟦<Snapshot as Procedure>⟧.rest self.now []) ≡ None) }
    {
        if self.at < self.shape.cells() + 3 {
            return None;
        }
        if self.agreed {
            Some(SnapshotEnd::Accepted(self.version, self.values.clone().unwrap()))
        } else {
            Some(SnapshotEnd::Disturbed)
        }
    }
}

impl Procedure for Snapshot {
    ghost use Rattle.ec_database.specs.SnapshotPhases.{snapshot_rest};
    ghost use Rattle.ec_database.specs.Standing.{try_place, ending};

    ghost rest = { λ s calls. snapshot_rest s.shape (try_place s) calls };

    ghost is_going = { λ s. s.going };

    fn next(&self) -> Option<Act> {
        if self.going {
            Some(Act::Go)
        } else {
            try_at(&self.shape, self.at, self.version)
        }
    }

    fn take(&mut self, reply: Reply)
        requires { IsReplyTo (next_of (⟦<Snapshot as Procedure>⟧.is_going self.old) (⟦<Snapshot as Procedure>⟧.rest self.old [])) reply }
        ensures going { ⟦<Snapshot as Procedure>⟧.is_going self.new ≡ is_pending reply }
        ensures pending { is_pending reply ≡ true → (calls : List CompletedCall)
            → ⟦<Snapshot as Procedure>⟧.rest self.new calls ≡ ⟦<Snapshot as Procedure>⟧.rest self.old calls }
        ensures returned { is_pending reply ≡ false → (op : Act) → ⟦<Snapshot as Procedure>⟧.rest self.old [] ≡ Some op → (calls : List CompletedCall)
            → ⟦<Snapshot as Procedure>⟧.rest self.new calls ≡ ⟦<Snapshot as Procedure>⟧.rest self.old (record { op = op; reply = reply } ∷ calls) }
        ensures ends_pending { is_pending reply ≡ true → (calls : List CompletedCall) → ending self.new calls ≡ ending self.old calls }
        ensures ends_told { is_pending reply ≡ false → (op : Act) → (calls : List CompletedCall)
            → ending self.new calls ≡ ending self.old (record { op = op; reply = reply } ∷ calls) }
    {
        if reply.is_pending() {
            self.going = true;
            return;
        }
        self.take_reply(reply.number());
    }
}
