//! The balance of a semaphore.
ghost use Rattle.std.specs.Prelude.{◌≡◌, ◌↔◌, ℕ, ◌+◌, ◌^◌, ◌<◌, ◌≤◌, ◌&&◌, not, if◌then◌else◌, List, [], reverse, IsOk, IfOk, IfErr, pos, ◌≤ℤ◌};
ghost use Rattle.ec_count.specs.Tables.{Tables};
ghost use Rattle.ec_core.specs.declared.act.Entry.{Entry};
ghost use Rattle.ec_core.specs.Audits.{IsFirstBreak};
ghost use Rattle.ec_core.specs.Calls.{is_pending};
ghost use Rattle.ec_core.specs.Counts.{past_at, is_advance};
ghost use Rattle.ec_core.specs.Ending.{EndsAt};
ghost use Rattle.ec_core.specs.Following.{Follow};
ghost use Rattle.ec_semaphore.specs.declared.shape.TheConstants.{INITIAL_MAX};
ghost use Rattle.ec_semaphore.specs.Auditing.{RepresentsBalance};
ghost use Rattle.ec_semaphore.specs.Balances.{is_await, balance_of, balance_parts};
ghost use Rattle.ec_semaphore.specs.Uses.{use_rules};

use crate::{Balance, SemaphoreShape};
use ec_core::{Act, Audit, AuditFault, Entry, Reply, Run, Tracker, walk};
use std::marker::Model;

/// Returns whether an entry ends an await of the semaphore's eventcount, given the act that began
/// its call.
fn is_down(shape: &SemaphoreShape, op: &Act, reply: Reply) -> bool
    ensures { result ≡ (is_await shape.now.count op.now && not (is_pending reply)) }
{
    matches!(op, Act::Await(event, _) if *event == shape.count()) && !reply.is_pending()
}

/// Returns whether an act advances the semaphore's eventcount.
fn is_up(shape: &SemaphoreShape, act: &Act) -> bool
    ensures { result ≡ is_advance shape.now.count act.now }
{
    matches!(act, Act::Advance(event) if *event == shape.count())
}

/// Adds one if `holds`, up to `u64::MAX`.
#[inline(always)]
fn count(count: &mut u64, holds: bool)
    ensures { count.old + 1 < 2 ^ 64 → count.new ≡ count.old + (if holds then 1 else 0) }
{
    if holds && *count < u64::MAX {
        *count += 1;
    }
}

/// The audit of a semaphore in a pass over a run. An entry whose call is not on the semaphore may
/// be left out.
#[derive(Drop)]
pub struct BalanceAudit {
    shape: SemaphoreShape,
    tracker: Tracker,
    downs: u64,
    ups: u64,
}

impl Model for BalanceAudit {
    ghost use Rattle.ec_semaphore.specs.Auditing.{BalanceAuditModel};

    ghost Value = { BalanceAuditModel };

    ghost view = { λ s. record { shape = s.shape; tracked = s.tracker; downs = s.downs; ups = s.ups } };
}

impl Audit for BalanceAudit {
    ghost use Rattle.ec_semaphore.specs.Auditing.{BalancesOn};

    ghost represents = { BalancesOn };

    #[inline(never)]
    fn take(&mut self, place: usize, op: &Act, entry: &Entry) {
        count(&mut self.downs, is_down(&self.shape, op, entry.reply));
        count(&mut self.ups, is_up(&self.shape, &entry.act));
        self.tracker.take(&self.shape, place, op, entry);
    }
}

impl BalanceAudit {
    /// Makes the audit before the first entry.
    pub fn new(shape: SemaphoreShape) -> Self
        ensures shape { result.shape ≡ shape }
        ensures first { RepresentsBalance result [] }
    {
        BalanceAudit {
            shape,
            tracker: Tracker::new(&shape),
            downs: 0,
            ups: 0,
        }
    }

    /// Returns the parts of the balance after the entries so far, whether these follow the
    /// semaphore or not.
    pub fn so_far(&self) -> Balance
        ensures value { result ≡ record { initial = self.now.shape.initial; downs = self.now.downs; ups = self.now.ups } }
        ensures small { self.now.shape.initial ≤ INITIAL_MAX }
    {
        Balance {
            initial: self.shape.initial(),
            downs: self.downs,
            ups: self.ups,
        }
    }

    /// Returns the parts of the balance after the entries so far, if the workers follow the
    /// semaphore. The error is `NotFollowed`, with the first entry that breaks the call lists.
    pub fn finish(&self) -> Result<Balance, AuditFault>
        ensures ok { (t : Tables) (h : List Entry) → EndsAt t (RepresentsBalance self.now) h → IsOk result ↔ Follow (use_rules self.now.shape) (reverse h) }
        ensures parts { (t : Tables) (h : List Entry) → EndsAt t (RepresentsBalance self.now) h → IfOk result (λ b. b ≡ balance_parts self.now.shape (reverse h)) }
        ensures never_negative { (t : Tables) (h : List Entry) → EndsAt t (RepresentsBalance self.now) h → IsOk result → (k : ℕ) → pos 0 ≤ℤ balance_of self.now.shape (past_at k h) }
        ensures few { (t : Tables) (h : List Entry) → EndsAt t (RepresentsBalance self.now) h → IfOk result (λ b. b.downs ≤ b.initial + b.ups) }
        ensures small { (t : Tables) (h : List Entry) → EndsAt t (RepresentsBalance self.now) h → IfOk result (λ b. b.initial + b.ups < 2 ^ 64) }
        ensures err { (t : Tables) (h : List Entry) → EndsAt t (RepresentsBalance self.now) h → IfErr result (IsFirstBreak (use_rules self.now.shape) h) }
    {
        self.tracker.finding()?;
        Ok(self.so_far())
    }

    /// Returns the parts of the balance after all entries of a run whose workers follow the
    /// semaphore. The error is `NotFollowed`, with the first entry that breaks the call lists.
    pub fn balance(&self, run: &Run) -> Result<Balance, AuditFault>
        requires { RepresentsBalance self.now (reverse run.now.entries) }
        ensures ok { IsOk result ↔ Follow (use_rules self.now.shape) (reverse run.now.entries) }
        ensures parts { IfOk result (λ b. b
            ≡ balance_parts self.now.shape (reverse run.now.entries)) }
        ensures never_negative { IsOk result → (k : ℕ) → pos 0 ≤ℤ balance_of self.now.shape (past_at k run.now.entries) }
        ensures few { IfOk result (λ b. b.downs ≤ b.initial + b.ups) }
        ensures small { IfOk result (λ b. b.initial + b.ups < 2 ^ 64) }
        ensures err { IfErr result (IsFirstBreak (use_rules self.now.shape) run.now.entries) }
    {
        run.invariant();
        self.finish()
    }
}

/// Returns the parts of a semaphore's balance after all entries of a run whose workers follow it.
/// The error is `NotFollowed`, with the first entry that breaks the call lists. Allocates nothing.
///
/// The shape should fit the run's declarations, but the contract holds for any.
pub fn balance(run: &Run, shape: &SemaphoreShape) -> Result<Balance, AuditFault>
    ensures ok { IsOk result ↔ Follow (use_rules shape.now) (reverse run.now.entries) }
    ensures parts { IfOk result (λ b. b ≡ balance_parts shape.now (reverse run.now.entries)) }
    ensures never_negative { IsOk result → (k : ℕ) → pos 0 ≤ℤ balance_of shape.now (past_at k run.now.entries) }
    ensures few { IfOk result (λ b. b.downs ≤ b.initial + b.ups) }
    ensures small { IfOk result (λ b. b.initial + b.ups < 2 ^ 64) }
    ensures err { IfErr result (IsFirstBreak (use_rules shape.now) run.now.entries) }
{
    let mut audit = BalanceAudit::new(*shape);
    walk(run, &mut audit);
    audit.balance(run)
}
