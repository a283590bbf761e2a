//! The state of a pass over a run for one group.
ghost use Rattle.std.specs.Prelude.{◌≡◌, ℕ, List, [], ◌∷◌, length, reverse};
ghost use Rattle.ec_core.specs.declared.act.Entry.{Entry};
ghost use Rattle.ec_core.specs.declared.protocol.ListProgress.{ListProgress};
ghost use Rattle.ec_core.specs.Calls.{under_way, is_pending};
ghost use Rattle.ec_core.specs.Following.{CompletedCall, Rule, opening_act, block};
ghost use Rattle.ec_core.specs.Scanning.{IsFinding, IsTrackerModel, Finds};

use crate::{Act, AuditFault, Entry, ListProgress, Protocol};
use ec_count::{WorkerId, filled};
use std::marker::Model;

/// The progress of each worker in the call lists of a group, and the first violation.
///
/// An entry whose call is not on the group changes neither, so it may be left out.
#[derive(Drop)]
pub struct Tracker {
    kept: [ListProgress; 16],
    fault: Option<AuditFault>,
}

impl Model for Tracker {
    ghost use Rattle.ec_core.specs.Scanning.{TrackerModel};

    ghost Value = { TrackerModel };

    ghost view = { λ s. record { kept = s.kept; fault = s.fault } };
}

impl Tracker {
    /// Returns the state before the first entry.
    pub fn new<P: Protocol>(protocol: &P) -> Self
        ensures { IsTrackerModel (P.rules protocol.now) (P.keeps protocol.now) result [] }
    {
        Tracker {
            kept: filled(protocol.start()),
            fault: None,
        }
    }

    /// Returns the progress of the worker in its current call list.
    #[inline(always)]
    pub fn list_progress(&self, worker: WorkerId) -> ListProgress
        ensures { (rules : ℕ → Rule) (keeps : List CompletedCall → ListProgress) (past : List Entry) → IsTrackerModel rules keeps self.now past
            → result ≡ keeps (block (rules worker) worker past) }
    {
        self.kept[worker.get()]
    }

    /// Returns whether the entries so far conform to the call lists.
    ///
    /// `Err` is `NotFollowed` with the first violation.
    pub fn finding(&self) -> Result<(), AuditFault>
        ensures { (rules : ℕ → Rule) (keeps : List CompletedCall → ListProgress) (entries : List Entry) → IsTrackerModel rules keeps self.now (reverse entries)
            → Finds rules entries result }
    {
        match self.fault {
            None => Ok(()),
            Some(fault) => Err(fault),
        }
    }

    /// Adds an entry, given its position in the run and the act that began its call.
    #[inline(always)]
    pub fn take<P: Protocol>(&mut self, protocol: &P, place: usize, op: &Act, entry: &Entry)
        ensures { (past : List Entry) → place ≡ length past → op.now ≡ opening_act entry.now.act (under_way entry.now.worker past)
            → IsTrackerModel (P.rules protocol.now) (P.keeps protocol.now) self.old past
            → IsTrackerModel (P.rules protocol.now) (P.keeps protocol.now) self.new
            (entry.now ∷ past) }
    {
        let kept = self.list_progress(entry.worker);
        find(protocol, &mut self.fault, &kept, place, entry);
        if entry.reply.is_pending() {
            return;
        }
        self.kept[entry.worker.get()] = protocol.after(entry.worker, &kept, op, entry.reply);
    }
}

/// Records one more entry as the first violation, if it is that.
#[inline(always)]
fn find<P: Protocol>(
    protocol: &P,
    fault: &mut Option<AuditFault>,
    kept: &ListProgress,
    place: usize,
    entry: &Entry,
)
    ensures { (past : List Entry) → place ≡ length past
        → kept.now ≡ P.keeps protocol.now (block (P.rules protocol.now entry.now.worker) entry.now.worker past)
        → IsFinding (P.rules protocol.now) fault.old past → IsFinding (P.rules protocol.now) fault.new (entry.now ∷ past) }
{
    if fault.is_some() {
        return;
    }
    if !protocol.is_right(entry.worker, kept, &entry.act) {
        *fault = Some(AuditFault::NotFollowed {
            worker: entry.worker,
            entry: place,
        });
    }
}
