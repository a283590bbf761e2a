//! The pairs of tickets that a run draws.
ghost use Rattle.std.specs.Prelude.{◌≡◌, ℕ, Bool, false, List, [], ◌∷◌, ◌++◌, option_to_list, reverse, IsOk, IfOk, IfErr};
ghost use Rattle.std.specs.List.{AllPairs};
ghost use Rattle.ec_count.specs.Tables.{Tables, IsDeclared};
ghost use Rattle.ec_core.specs.declared.act.Entry.{Entry};
ghost use Rattle.ec_core.specs.Acceptance.{IsAccepted};
ghost use Rattle.ec_core.specs.Audits.{IsAuditFault};
ghost use Rattle.ec_core.specs.Ending.{EndsAt};
ghost use Rattle.ec_core.specs.Following.{CompletedCall, block, Follow};
ghost use Rattle.ec_semaphore.specs.Auditing.{RepresentsPairs};
ghost use Rattle.ec_semaphore.specs.Both.{is_semaphore_sequencer, both_rule, both_rules};
ghost use Rattle.ec_semaphore.specs.Completing.{IsDrawn, AreLatestTickets, drawn_after};
ghost use Rattle.ec_semaphore.specs.InOrder.{ArePairs};
ghost use Rattle.ec_semaphore.specs.Keeping.{list_progress_of_both};
ghost use Rattle.ec_semaphore.specs.Pairs.{IsEarlier, pair_with, pairs_of};
ghost use Rattle.ec_semaphore.specs.Shapes.{Semaphore};

use crate::critical_sections::CriticalSections;
use crate::{Pair, SemaphoreShape};
use ec_core::{Act, Audit, AuditFault, Entry, ListProgress, Run, Tracker, walk};
use ec_count::SeqId;
use std::alloc::Global;
use std::marker::Model;

/// A ticket, and the sequencer that it was drawn from.
#[derive(Clone, Copy, Debug)]
struct LatestTicket {
    line: SeqId,
    number: u64,
}

/// Returns the latest ticket of an entry's worker after the entry.
fn drawn_after(before: LatestTicket, entry: &Entry) -> LatestTicket
    ensures { result ≡ drawn_after before entry.now entry.now.act }
{
    match entry.act {
        Act::Ticket(line) => LatestTicket {
            line,
            number: entry.reply.number(),
        },
        _ => before,
    }
}

/// Returns the pair that an entry completes, given the latest ticket of its worker.
fn complete_pair(kept: &ListProgress, latest: LatestTicket, entry: &Entry) -> Option<Pair>
    ensures { (calls : List CompletedCall) → kept.now ≡ list_progress_of_both calls → IsDrawn latest calls → result ≡ pair_with calls entry.now }
{
    match entry.act {
        Act::Ticket(line) if kept.at == 3 => Some(Pair {
            worker: entry.worker,
            first: latest.line,
            first_ticket: latest.number,
            second: line,
            second_ticket: entry.reply.number(),
        }),
        _ => None,
    }
}

/// Returns the pair that an entry completes, and updates the latest ticket of its worker.
fn note_ticket(kept: &ListProgress, entry: &Entry, latest: &mut [LatestTicket; 16]) -> Option<Pair>
    ensures { (c : Semaphore) (lines : ℕ → Bool) (t : Tables) (past : List Entry)
        → kept.now ≡ list_progress_of_both (block (both_rule c lines) entry.now.worker past)
        → IsDeclared t
        → IsAccepted t (entry.now ∷ past) → Follow (both_rules c lines) (entry.now ∷ past) → AreLatestTickets c lines latest.old past
        → (result ≡ pair_with (block (both_rule c lines) entry.now.worker past) entry.now) × AreLatestTickets c lines latest.new (entry.now ∷ past) }
{
    let worker = entry.worker.get();
    let pair = complete_pair(kept, latest[worker], entry);
    latest[worker] = drawn_after(latest[worker], entry);
    pair
}

/// Adds a pair, if there is one, unless an allocation has failed before. Returns whether one has
/// failed.
fn add_fails(out_of_memory: bool, pairs: &mut Vec<Pair>, pair: Option<Pair>) -> bool
    ensures before { result ≡ false → out_of_memory ≡ false }
    ensures pairs { result ≡ false → pairs.new.items ≡ pairs.old.items ++ option_to_list pair }
{
    if out_of_memory {
        return true;
    }
    match pair {
        Some(pair) => pairs.push(pair).is_err(),
        None => false,
    }
}

/// The audit of the critical sections of P on two of these semaphores, in a pass over a run. It
/// needs the entries of all calls, since within a critical section a worker makes no other call.
#[derive(Drop)]
pub struct PairAudit<'a> {
    sections: CriticalSections<'a>,
    tracker: Tracker,
    latest: [LatestTicket; 16],
    pairs: Vec<Pair>,
    out_of_memory: bool,
}

impl<'a> Model for PairAudit<'a> {
    ghost use Rattle.ec_semaphore.specs.Auditing.{PairAuditModel};

    ghost Value = { PairAuditModel };

    ghost view = { λ s. record { common = s.sections.common; shapes = s.sections.shapes.now; tracked = s.tracker; latest = s.latest; pairs = s.pairs.items; out_of_memory = s.out_of_memory } };
}

impl<'a> Audit for PairAudit<'a> {
    ghost use Rattle.ec_semaphore.specs.Auditing.{PairsOn};

    ghost represents = { PairsOn };

    #[inline(never)]
    fn take(&mut self, place: usize, op: &Act, entry: &Entry) {
        let kept = self.tracker.list_progress(entry.worker);
        let pair = note_ticket(&kept, entry, &mut self.latest);
        self.out_of_memory = add_fails(self.out_of_memory, &mut self.pairs, pair);
        self.tracker.take(&self.sections, place, op, entry);
    }
}

impl<'a> PairAudit<'a> {
    /// Makes the audit before the first entry.
    pub fn new(alloc: Global, common: SemaphoreShape, shapes: &'a [SemaphoreShape]) -> Self
        ensures common { result.common ≡ common }
        ensures shapes { result.shapes ≡ shapes.now }
        ensures first { RepresentsPairs result [] }
    {
        let sections = CriticalSections::new(common, shapes);
        let tracker = Tracker::new(&sections);
        let none = LatestTicket {
            line: SeqId::new(0).unwrap(),
            number: 0,
        };
        let pairs = Vec::new(alloc);
        PairAudit {
            sections,
            tracker,
            latest: [none; 16],
            pairs,
            out_of_memory: false,
        }
    }

    /// Returns the pairs after the entries so far, if the workers follow the critical sections. If
    /// they don't, the error has the first entry that breaks the call lists.
    pub fn finish(self) -> Result<Vec<Pair>, AuditFault>
        ensures followed { (t : Tables) (h : List Entry) → EndsAt t (RepresentsPairs self.entry) h → IsOk result → Follow (both_rules self.entry.common (is_semaphore_sequencer self.entry.common self.entry.shapes)) (reverse h) }
        ensures pairs { (t : Tables) (h : List Entry) → EndsAt t (RepresentsPairs self.entry) h → IfOk result (λ ps. ps.items ≡ pairs_of self.entry.common self.entry.shapes h) }
        ensures drawn { (t : Tables) (h : List Entry) → EndsAt t (RepresentsPairs self.entry) h → IfOk result (λ ps. ArePairs self.entry.common (is_semaphore_sequencer self.entry.common self.entry.shapes) h ps.items) }
        ensures ordered { (t : Tables) (h : List Entry) → EndsAt t (RepresentsPairs self.entry) h → IfOk result (λ ps. AllPairs IsEarlier ps.items) }
        ensures err { (t : Tables) (h : List Entry) → EndsAt t (RepresentsPairs self.entry) h → IfErr result (IsAuditFault (both_rules self.entry.common (is_semaphore_sequencer self.entry.common self.entry.shapes)) h) }
    {
        self.tracker.finding()?;
        if self.out_of_memory {
            return Err(AuditFault::Memory);
        }
        Ok(self.pairs)
    }

    /// Returns the pairs after all entries of a run whose workers follow the critical sections. If
    /// they don't, the error has the first entry that breaks the call lists.
    pub fn pairs(self, run: &Run) -> Result<Vec<Pair>, AuditFault>
        requires { RepresentsPairs self (reverse run.now.entries) }
        ensures followed { IsOk result → Follow (both_rules self.entry.common (is_semaphore_sequencer self.entry.common self.entry.shapes)) (reverse run.now.entries) }
        ensures pairs { IfOk result (λ ps. ps.items ≡ pairs_of self.entry.common self.entry.shapes run.now.entries) }
        ensures drawn { IfOk result (λ ps. ArePairs self.entry.common (is_semaphore_sequencer self.entry.common self.entry.shapes) run.now.entries ps.items) }
        ensures ordered { IfOk result (λ ps. AllPairs IsEarlier ps.items) }
        ensures err { IfErr result (IsAuditFault (both_rules self.entry.common (is_semaphore_sequencer self.entry.common self.entry.shapes)) run.now.entries) }
    {
        run.invariant();
        self.finish()
    }
}

/// Returns the pairs of tickets that the P on two of these semaphores draw in a run whose workers
/// follow the critical sections of a common one. There is one pair for each P that has drawn both,
/// in the order in which the first tickets were drawn. The error is `NotFollowed`, with the first
/// entry that breaks the call lists, or, if no entry does, `Memory`.
///
/// A semaphore is identified by its sequencer here: two shapes with one sequencer are one
/// semaphore, and a shape with the sequencer of the common one is none of the two. The shapes
/// should fit the run's declarations, and the common one should have initial value 1, but the
/// contract holds for any.
pub fn pairs(
    alloc: Global,
    run: &Run,
    common: &SemaphoreShape,
    shapes: &[SemaphoreShape],
) -> Result<Vec<Pair>, AuditFault>
    ensures followed { IsOk result → Follow (both_rules common.now (is_semaphore_sequencer common.now shapes.now)) (reverse run.now.entries) }
    ensures pairs { IfOk result (λ ps. ps.items ≡ pairs_of common.now shapes.now run.now.entries) }
    ensures drawn { IfOk result (λ ps. ArePairs common.now (is_semaphore_sequencer common.now shapes.now) run.now.entries ps.items) }
    ensures ordered { IfOk result (λ ps. AllPairs IsEarlier ps.items) }
    ensures err { IfErr result (IsAuditFault (both_rules common.now (is_semaphore_sequencer common.now shapes.now)) run.now.entries) }
{
    let mut audit = PairAudit::new(alloc, *common, shapes);
    walk(run, &mut audit);
    audit.pairs(run)
}
