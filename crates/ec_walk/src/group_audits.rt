//! The audits of all groups, in one pass over the entries.
ghost use Rattle.std.specs.Prelude.{◌≡◌, ℕ, ◌+◌, ◌<◌, ◌^◌, Bool, true, false, List, [], ◌∷◌, reverse};
ghost use Rattle.ec_core.specs.declared.act.Entry.{Entry};
ghost use Rattle.ec_core.specs.Calls.{under_way, is_intermediate};
ghost use Rattle.ec_core.specs.Following.{opening_act};
ghost use Rattle.ec_heading.specs.declared.group.Group.{Group};
ghost use Rattle.ec_walk.specs.Walks.{is_on, sees_every_call, passes_at, is_asked_at, Covers, CoversAct, DispatchesTo, DispatchesAmong, DispatchesOn, AreIndependent, AreHanded, IsTable};

use crate::group_table::{GroupTable, Span, names, sees_every_call};
use ec_core::{Act, Audit, Entry, Reply, Run, walk};
use ec_heading::Group;
use std::marker::Model;

/// The audit of a group, which may skip the entries that do not concern the group.
///
/// These are the entries whose calls are not on the group, and the gos that end no call.
pub trait GroupAudit: Audit {
    // The group that it is the audit of.
    ghost group: { Self → Group };

    // An entry whose call is not on the group leaves it unchanged.
    ghost passes: { (start now : Self) (entry : Entry) (past : List Entry) → is_on (group start) (opening_act entry.act (under_way entry.worker past)) ≡ false
        → Self.represents start now past → Self.represents start now (entry ∷ past) };

    // A go that ends no call leaves it unchanged, too.
    ghost stays: { (start now : Self) (entry : Entry) (past : List Entry) → is_intermediate entry ≡ true
        → Self.represents start now past → Self.represents start now (entry ∷ past) };
}

/// The audits of groups, as one audit for a pass over the entries.
///
/// Each is passed exactly the entries whose calls are on its group, except the gos that end no
/// call. Its result is that of a pass over all entries.
#[derive(Drop)]
pub struct GroupAudits<'a, A> {
    groups: &'a [Group],
    table: GroupTable,
    audits: Vec<A>,
    ghost tabled: { IsTable groups.now table },
}

impl<'a, A> Model for GroupAudits<'a, A> {
    ghost use Rattle.ec_walk.specs.Walks.{GroupAuditsModel};

    ghost Value = { GroupAuditsModel A };

    ghost view = { λ s. record { groups = s.groups.now; audits = s.audits.items } };
}

/// Returns whether an entry continues a call, and does not end it.
#[inline(always)]
fn is_intermediate(entry: &Entry) -> bool
    ensures { result ≡ is_intermediate entry.now }
{
    matches!(entry.act, Act::Go) && matches!(entry.reply, Reply::Pending)
}

/// Returns whether there is a group with this number, and it is wide.
///
/// All wide groups are in the span `among`.
#[inline(always)]
fn is_wide_at(groups: &[Group], among: Span, number: usize) -> bool
    requires { Covers groups.now sees_every_call among }
    ensures { result ≡ passes_at groups.now sees_every_call number }
{
    if number < among.first || among.end <= number {
        return false;
    }
    match groups.get(number) {
        Some(group) => sees_every_call(group),
        None => false,
    }
}

/// Returns whether there is a group with this number, and it is selected.
///
/// If `wide`, the wide groups are selected; otherwise the other groups of which the act names an
/// object. All wide groups are in the span `among`.
fn is_asked_at(groups: &[Group], among: Span, wide: bool, op: &Act, number: usize) -> bool
    requires { Covers groups.now sees_every_call among }
    ensures { result ≡ is_asked_at groups.now wide op.now number }
{
    if wide {
        return is_wide_at(groups, among, number);
    }
    match groups.get(number) {
        Some(group) => !sees_every_call(group) && names(group, op),
        None => false,
    }
}

/// Passes an entry to the audit with this number, if there is one.
#[inline(always)]
fn dispatch_to<A: Audit>(audits: &mut [A], number: usize, place: usize, op: &Act, entry: &Entry)
    requires place { place + 1 < 2 ^ 64 }
    ensures { DispatchesTo A.represents number place op.now entry.now audits.old audits.new }
{
    if number < audits.len() {
        audits[number].take(place, op, entry);
    }
}

/// Passes an entry to the audits of the groups of a span that `is_asked_at` selects.
#[inline(never)]
fn dispatch_among<A: Audit>(
    groups: &[Group],
    audits: &mut [A],
    among: Span,
    wide: bool,
    span: Span,
    place: usize,
    op: &Act,
    entry: &Entry,
)
    requires place { place + 1 < 2 ^ 64 }
    requires among { Covers groups.now sees_every_call among }
    ensures { DispatchesAmong A.represents groups.now wide span.first span.end place op.now
        entry.now
        audits.old audits.new }
{
    for number in span.first..span.end {
        if is_asked_at(groups, among, wide, op, number) {
            dispatch_to(audits, number, place, op, entry);
        }
    }
}

/// Passes an entry to the audits of the groups of which its call names an object, except the wide
/// ones.
///
/// Usually it is one group.
#[inline(always)]
fn dispatch_named<A: Audit>(
    groups: &[Group],
    audits: &mut [A],
    named: Span,
    wide: Span,
    place: usize,
    op: &Act,
    entry: &Entry,
)
    requires place { place + 1 < 2 ^ 64 }
    requires named { CoversAct groups.now op.now named }
    requires wide { Covers groups.now sees_every_call wide }
    ensures { DispatchesAmong A.represents groups.now false named.first named.end place op.now
        entry.now
        audits.old audits.new }
{
    if !named.is_one() {
        dispatch_among(groups, audits, wide, false, named, place, op, entry);
    } else if !is_wide_at(groups, wide, named.first) {
        dispatch_to(audits, named.first, place, op, entry);
    }
}

/// Passes an entry to the audits of the groups that its call is on: those of which it names an
/// object, then the wide ones.
#[inline(always)]
fn dispatch_all<A: Audit>(
    groups: &[Group],
    audits: &mut [A],
    named: Span,
    wide: Span,
    place: usize,
    op: &Act,
    entry: &Entry,
)
    requires place { place + 1 < 2 ^ 64 }
    requires named { CoversAct groups.now op.now named }
    requires wide { Covers groups.now sees_every_call wide }
    ensures { DispatchesOn A.represents groups.now place op.now entry.now audits.old audits.new }
{
    dispatch_named(groups, audits, named, wide, place, op, entry);
    if !wide.is_empty() {
        dispatch_among(groups, audits, wide, true, wide, place, op, entry);
    }
}

impl<'a, A: GroupAudit> GroupAudits<'a, A> {
    /// Makes the state before the first entry, of the audits of the groups, in order.
    pub fn new(groups: &'a [Group], audits: Vec<A>) -> Self
        ensures groups { result.groups ≡ groups.now }
        ensures audits { result.audits ≡ audits.items }
    {
        let table = GroupTable::new(groups);
        GroupAudits {
            groups,
            table,
            audits,
        }
    }

    /// Returns the audits after the entries so far, in the order of the groups.
    pub fn into_audits(self) -> Vec<A>
        ensures { result.items ≡ self.entry.audits }
    {
        self.audits
    }
}

impl<'a, A: GroupAudit> Audit for GroupAudits<'a, A> {
    ghost use Rattle.ec_walk.specs.Walks.{WalksOn};

    ghost represents = { WalksOn A.group A.represents };

    #[inline(always)]
    fn take(&mut self, place: usize, op: &Act, entry: &Entry) {
        if self.groups.is_empty() {
            return;
        }
        if is_intermediate(entry) {
            return;
        }
        let named = self.table.of(op);
        let wide = self.table.wide();
        if named.is_empty() && wide.is_empty() {
            return;
        }
        // Copies, so that an entry that is passed to no audit need not be in memory.
        let (op, entry) = (*op, *entry);
        let audits = self.audits.as_mut_slice();
        dispatch_all(self.groups, audits, named, wide, place, &op, &entry);
    }
}

/// Returns the audits of groups after one pass over the entries of a run.
///
/// Each was passed exactly the entries whose calls are on its group, except the gos that end no
/// call. The audits are in the same order, and none is added or removed. Without groups there is no
/// pass.
pub fn walk_groups<A: GroupAudit>(run: &Run, groups: &[Group], audits: Vec<A>) -> Vec<A>
    requires { AreIndependent A.group A.represents groups.now audits.items audits.items [] }
    ensures walked { AreIndependent A.group A.represents groups.now audits.items result.items
        (reverse run.now.entries) }
    ensures handed { AreHanded A.represents groups.now audits.items result.items
        (reverse run.now.entries) }
{
    if groups.is_empty() {
        return audits;
    }
    let mut walked = GroupAudits::new(groups, audits);
    walk(run, &mut walked);
    walked.into_audits()
}
