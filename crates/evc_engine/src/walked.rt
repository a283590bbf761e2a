//! The audits of a trace's groups, in one pass over its entries.
ghost use Rattle.std.specs.Prelude.{◌≡◌, ◌+◌, ◌^◌, ◌<◌, List, [], IfOk, MatchResult};
ghost use Rattle.ec_core.specs.declared.act.Entry.{Entry};
ghost use Rattle.ec_core.specs.Audits.{IsAuditFault};
ghost use Rattle.ec_heading.specs.HeadingModel.{HeadingModel};
ghost use Rattle.ec_heading.specs.Rules.{group_rules};
ghost use Rattle.ec_heading.specs.declared.group.Group.{Group};
ghost use Rattle.evc_engine.specs.AuditTexts.{balance_of};
ghost use Rattle.evc_engine.specs.Audits.{IsAudited};
ghost use Rattle.evc_engine.specs.kept.Walks.{AuditRepresents, EachRepresents, EndsFor};

use crate::audit_result::AuditResult;
use ec_buffer::DeliveryAudit;
use ec_core::{Act, Audit, AuditFault, Entry};
use ec_count::Setup;
use ec_database::VersionAudit;
use ec_semaphore::{Balance, BalanceAudit, PairAudit, SemaphoreShape, is_on};
use ec_trace::Group;
use ec_walk::GroupAudit;
use std::alloc::{AllocError, Global};

/// Returns the balance of its parts: the initial units and the ups, without the downs.
fn balance_of(parts: &Balance) -> u64
    ensures { parts.now.initial + parts.now.ups < 2 ^ 64 → result ≡ balance_of parts.now }
{
    parts
        .initial
        .saturating_add(parts.ups)
        .saturating_sub(parts.downs)
}

/// The audits of `both`: of its common semaphore, and of its critical sections.
#[derive(Drop)]
pub(crate) struct BothAudit<'a> {
    pub(crate) common: SemaphoreShape,
    pub(crate) balance: BalanceAudit,
    pub(crate) pairs: PairAudit<'a>,
}

impl<'a> BothAudit<'a> {
    /// Returns what the audits found of the entries so far: the pairs, by the rules of `both`, and
    /// the balance.
    fn finish(self) -> Result<AuditResult, AuditFault>
        ensures { (h : HeadingModel) (entries : List Entry) (g : Group) → EndsFor h entries g (Auditing.Both self.entry)
            → MatchResult result (λ a. IsAudited h entries g a) (λ fault. IsAuditFault (group_rules h.setup h.groups g) entries fault) }
    {
        let BothAudit { balance, pairs, .. } = self;
        let list = pairs.finish()?;
        let parts = balance.so_far();
        Ok(AuditResult::Pairs(parts, balance_of(&parts), list))
    }
}

impl<'a> Audit for BothAudit<'a> {
    ghost use Rattle.evc_engine.specs.kept.Walks.{BothOn};

    ghost represents = { BothOn };

    fn take(&mut self, place: usize, op: &Act, entry: &Entry) {
        // (An entry whose call is not on the common semaphore leaves the audit of it as it is.)
        if is_on(&self.common, op) {
            self.balance.take(place, op, entry);
        }
        self.pairs.take(place, op, entry);
    }
}

/// The audit of a group.
#[derive(Drop)]
pub(crate) enum Auditing<'a> {
    /// Of a buffer.
    Deliveries(DeliveryAudit<'a>),
    /// Of a database.
    Versions(VersionAudit<'a>),
    /// Of a semaphore.
    Balance(BalanceAudit),
    /// Of `both`.
    Both(BothAudit<'a>),
}

impl<'a> Auditing<'a> {
    /// Returns the audit of a group before the first entry of a run with this setup, if these are
    /// all semaphores.
    fn new(
        alloc: Global,
        group: &'a Group,
        setup: &'a Setup,
        semaphores: &'a [SemaphoreShape],
    ) -> Self
        ensures { AuditRepresents setup.now semaphores.now group.now result [] }
    {
        match group {
            Group::Buffer(shape) => Auditing::Deliveries(DeliveryAudit::new(alloc, shape, setup)),
            Group::Database(shape) => Auditing::Versions(VersionAudit::new(alloc, shape, setup)),
            Group::Semaphore(shape) => Auditing::Balance(BalanceAudit::new(*shape)),
            Group::Both(shape) => Auditing::Both(BothAudit {
                common: *shape,
                balance: BalanceAudit::new(*shape),
                pairs: PairAudit::new(alloc, *shape, semaphores),
            }),
        }
    }

    /// Returns what the audit found of the entries so far, or the first of them that breaks the
    /// group's rules.
    pub(crate) fn finish(self) -> Result<AuditResult, AuditFault>
        ensures { (h : HeadingModel) (entries : List Entry) (g : Group)
            → EndsFor h entries g self.entry
            → MatchResult result (λ a. IsAudited h entries g a) (λ fault. IsAuditFault (group_rules h.setup h.groups g) entries fault) }
    {
        match self {
            Auditing::Deliveries(audit) => Ok(AuditResult::Deliveries(audit.finish()?)),
            Auditing::Versions(audit) => Ok(AuditResult::Versions(audit.finish()?)),
            Auditing::Balance(audit) => {
                let parts = audit.finish()?;
                Ok(AuditResult::Balances(parts, balance_of(&parts)))
            }
            Auditing::Both(audit) => audit.finish(),
        }
    }
}

impl<'a> Audit for Auditing<'a> {
    ghost use Rattle.evc_engine.specs.kept.Walks.{AuditsOn};

    ghost represents = { AuditsOn };

    #[inline(always)]
    fn take(&mut self, place: usize, op: &Act, entry: &Entry) {
        match self {
            Auditing::Deliveries(audit) => audit.take(place, op, entry),
            Auditing::Versions(audit) => audit.take(place, op, entry),
            Auditing::Balance(audit) => audit.take(place, op, entry),
            Auditing::Both(audit) => audit.take(place, op, entry),
        }
    }
}

impl<'a> GroupAudit for Auditing<'a> {
    ghost use Rattle.evc_engine.specs.kept.Walks.{group_of};
    ghost use Rattle.evc_engine.specs.kept.LeftOut.{audits_off, audits_stay};

    ghost group = { group_of };

    ghost passes = { audits_off };

    ghost stays = { audits_stay };
}

/// Returns the audits of groups before the first entry, if these are all semaphores.
pub(crate) fn open_audits<'a>(
    alloc: Global,
    groups: &'a [Group],
    setup: &'a Setup,
    semaphores: &'a [SemaphoreShape],
) -> Result<Vec<Auditing<'a>>, AllocError>
    ensures { IfOk result (λ audits. EachRepresents setup.now semaphores.now groups.now audits.items []) }
{
    let mut audits = Vec::new(alloc);
    for number in 0..groups.len() {
        audits.push(Auditing::new(alloc, &groups[number], setup, semaphores))?;
    }
    Ok(audits)
}
