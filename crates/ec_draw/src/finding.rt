//! What the audits of groups find, in one pass over the entries of a run.
ghost use Rattle.std.specs.Prelude.{◌≡◌, ◌++◌, [], IfOk, OnOk, map, reverse};
ghost use Rattle.std.specs.List.{flat_map};
ghost use Rattle.ec_semaphore.specs.Auditing.{RepresentsPairs};
ghost use Rattle.ec_semaphore.specs.Both.{is_semaphore_sequencer, both_rules};
ghost use Rattle.ec_semaphore.specs.Uses.{use_rules};
ghost use Rattle.ec_heading.specs.declared.group.Group.TheVariants as groups;
ghost use Rattle.ec_draw.specs.Arrows.{arrows, group_arrows};
ghost use Rattle.ec_draw.specs.Balances.{balance_curve, balance_lines, group_line, curve_if};
ghost use Rattle.ec_draw.specs.Curves.{curve_model};
ghost use Rattle.ec_draw.specs.Following.{follows};
ghost use Rattle.ec_draw.specs.kept.Findings.{AddsGroup, BothFor, BalanceStateFor, EachFinds, FindsFor};
ghost use Rattle.ec_draw.specs.kept.Findings.{MovesFor, TriesFor};
ghost use Rattle.ec_draw.specs.Shades.{group_shades, shade_model, shades};

use crate::arrow::{Moves, add_buffer};
use crate::balance::{BalanceState, BothState, add_if};
use crate::shade::{Tries, add_database};
use crate::{Arrow, Curve, Shade, Window};
use ec_buffer::BufferShape;
use ec_core::{Act, Audit, AuditFault, Entry, Run};
use ec_count::Setup;
use ec_database::DatabaseShape;
use ec_heading::{Group, semaphores_of};
use ec_semaphore::{PairAudit, SemaphoreShape};
use ec_walk::{GroupAudit, walk_groups};
use std::alloc::{AllocError, Global};

/// The state of one group in a pass over a run.
#[derive(Drop)]
pub(crate) enum GroupState<'a> {
    /// Of a semaphore.
    Balance(BalanceState),
    /// Of `both`.
    Both(BothState<'a>),
    /// Of a database.
    Tries(Tries<'a>),
    /// Of a buffer.
    Moves(Moves<'a>),
}

/// What the states of all groups have in common.
#[derive(Clone, Copy)]
struct PassContext<'a> {
    setup: &'a Setup,
    semaphores: &'a [SemaphoreShape],
    window: Window,
}

impl<'a> GroupState<'a> {
    /// Returns the state before the first entry.
    fn new(alloc: Global, group: &'a Group, asked: &PassContext<'a>) -> Self
        ensures { FindsFor asked.now.setup.now asked.now.semaphores.now asked.now.window group.now
            result [] }
    {
        match group {
            Group::Buffer(shape) => GroupState::Moves(Moves::new(alloc, shape, asked.setup)),
            Group::Database(shape) => {
                GroupState::Tries(Tries::new(alloc, shape, asked.setup, asked.window))
            }
            Group::Semaphore(shape) => GroupState::Balance(BalanceState::new(
                alloc,
                *shape,
                asked.window,
            )),
            Group::Both(shape) => GroupState::Both(BothState {
                state: BalanceState::new(alloc, *shape, asked.window),
                pairs: PairAudit::new(alloc, *shape, asked.semaphores),
            }),
        }
    }
}

impl<'a> Audit for GroupState<'a> {
    ghost use Rattle.ec_draw.specs.Following.{follows};
    ghost use Rattle.ec_draw.specs.kept.Findings.{FindsOn};

    ghost represents = { FindsOn };

    fn take(&mut self, place: usize, op: &Act, entry: &Entry) {
        match self {
            GroupState::Balance(state) => state.take(place, op, entry),
            GroupState::Both(both) => both.take(place, op, entry),
            GroupState::Tries(tries) => tries.take(place, op, entry),
            GroupState::Moves(moves) => moves.take(place, op, entry),
        }
    }
}

impl<'a> GroupAudit for GroupState<'a> {
    ghost use Rattle.ec_draw.specs.Following.{follows};
    ghost use Rattle.ec_draw.specs.kept.Findings.{group_of};
    ghost use Rattle.ec_draw.specs.kept.LeftOut.{finds_off, finds_stay};

    ghost group = { group_of };

    ghost passes = { finds_off };

    ghost stays = { finds_stay };
}

/// Returns the states of groups before the first entry.
fn open_findings<'a>(
    alloc: Global,
    groups: &'a [Group],
    asked: &PassContext<'a>,
) -> Result<Vec<GroupState<'a>>, AllocError>
    ensures { IfOk result
        (λ list. EachFinds asked.now.setup.now asked.now.semaphores.now asked.now.window groups.now
        list.items []) }
{
    let mut list = Vec::new(alloc);
    for number in 0..groups.len() {
        list.push(GroupState::new(alloc, &groups[number], asked))?;
    }
    Ok(list)
}

/// Returns the states of groups after all entries of a run, in one pass over them.
fn find_all<'a>(
    alloc: Global,
    run: &'a Run,
    groups: &'a [Group],
    asked: &PassContext<'a>,
) -> Result<Vec<GroupState<'a>>, AllocError>
    ensures { IfOk result
        (λ list. EachFinds asked.now.setup.now asked.now.semaphores.now asked.now.window groups.now
        list.items (reverse run.now.entries)) }
{
    let list = open_findings(alloc, groups, asked)?;
    Ok(walk_groups(run, groups, list))
}

/// What the audits of groups find, and the window shows. It has nothing of a group whose workers
/// don't follow its rules.
#[derive(Drop)]
pub(crate) struct Findings {
    /// The curves of balances.
    pub(crate) curves: Vec<Curve>,
    /// The shades over accepted tries.
    pub(crate) shades: Vec<Shade>,
    /// The arrows of deliveries.
    pub(crate) arrows: Vec<Arrow>,
}

/// Adds what the audit found of a semaphore.
fn add_semaphore(
    curves: &mut Vec<Curve>,
    run: &Run,
    shape: &SemaphoreShape,
    window: Window,
    finding: GroupState<'_>,
) -> Result<(), AllocError>
    requires { BalanceStateFor window shape.now finding (reverse run.now.entries) }
    ensures { OnOk result (map curve_model curves.new.items ≡ map curve_model curves.old.items
        ++ curve_if (follows (use_rules shape.now) (reverse run.now.entries))
        (balance_curve window run.now.entries shape.now)) }
{
    let _ = window;
    match finding {
        GroupState::Balance(state) => {
            let follows = state.follows(run);
            add_if(curves, run, follows, shape, state)
        }
        GroupState::Both(_) => unreachable!(),
        GroupState::Tries(_) => unreachable!(),
        GroupState::Moves(_) => unreachable!(),
    }
}

/// Returns whether the workers follow the rules of `both`, after all entries of a run.
fn follows_both(run: &Run, pairs: PairAudit<'_>) -> Result<bool, AllocError>
    requires { RepresentsPairs pairs (reverse run.now.entries) }
    ensures { IfOk result
        (λ b. b ≡ follows
        (both_rules pairs.entry.common (is_semaphore_sequencer pairs.entry.common pairs.entry.shapes))
        (reverse run.now.entries)) }
{
    match pairs.pairs(run) {
        Ok(_pairs) => Ok(true),
        Err(AuditFault::NotFollowed { .. }) => Ok(false),
        Err(AuditFault::Memory) => Err(AllocError),
    }
}

/// Adds what the audits found of `both`.
fn add_both(
    curves: &mut Vec<Curve>,
    run: &Run,
    shape: &SemaphoreShape,
    asked: &PassContext<'_>,
    finding: GroupState<'_>,
) -> Result<(), AllocError>
    requires { BothFor asked.now.semaphores.now asked.now.window shape.now finding
        (reverse run.now.entries) }
    ensures { OnOk result (map curve_model curves.new.items ≡ map curve_model curves.old.items
        ++ curve_if (follows (both_rules shape.now (is_semaphore_sequencer shape.now asked.now.semaphores.now))
        (reverse run.now.entries)) (balance_curve asked.now.window run.now.entries shape.now)) }
{
    let _ = asked;
    match finding {
        GroupState::Balance(_) => unreachable!(),
        GroupState::Both(BothState { state, pairs }) => {
            let follows = follows_both(run, pairs)?;
            add_if(curves, run, follows, shape, state)
        }
        GroupState::Tries(_) => unreachable!(),
        GroupState::Moves(_) => unreachable!(),
    }
}

/// Adds what the audit found of a database.
fn add_tries(
    shades: &mut Vec<Shade>,
    run: &Run,
    shape: &DatabaseShape,
    window: Window,
    finding: GroupState<'_>,
) -> Result<(), AllocError>
    requires { TriesFor run.now.setup window shape.now finding (reverse run.now.entries) }
    ensures { OnOk result (map shade_model shades.new.items ≡ map shade_model shades.old.items
        ++ group_shades run.now.setup window run.now.entries (groups.Database shape.now)) }
{
    let _ = window;
    match finding {
        GroupState::Balance(_) => unreachable!(),
        GroupState::Both(_) => unreachable!(),
        GroupState::Tries(tries) => add_database(shades, run, shape, tries),
        GroupState::Moves(_) => unreachable!(),
    }
}

/// Adds what the audit found of a buffer.
fn add_moves(
    arrows: &mut Vec<Arrow>,
    run: &Run,
    shape: &BufferShape,
    window: Window,
    finding: GroupState<'_>,
) -> Result<(), AllocError>
    requires { MovesFor run.now.setup shape.now finding (reverse run.now.entries) }
    ensures { OnOk result
        (arrows.new.items ≡ arrows.old.items ++ group_arrows run.now.setup window run.now.entries
        (groups.Buffer shape.now)) }
{
    match finding {
        GroupState::Balance(_) => unreachable!(),
        GroupState::Both(_) => unreachable!(),
        GroupState::Tries(_) => unreachable!(),
        GroupState::Moves(moves) => add_buffer(arrows, run, shape, moves, window),
    }
}

/// Adds what the audits found of a group.
fn add_group(
    found: &mut Findings,
    run: &Run,
    group: &Group,
    asked: &PassContext<'_>,
    finding: GroupState<'_>,
) -> Result<(), AllocError>
    requires { FindsFor run.now.setup asked.now.semaphores.now asked.now.window group.now finding
        (reverse run.now.entries) }
    ensures { OnOk result
        (AddsGroup run.now.setup asked.now.semaphores.now asked.now.window run.now.entries group.now
        found.old found.new) }
{
    let Findings {
        curves,
        shades,
        arrows,
    } = found;
    match group {
        Group::Buffer(shape) => add_moves(arrows, run, shape, asked.window, finding),
        Group::Database(shape) => add_tries(shades, run, shape, asked.window, finding),
        Group::Semaphore(shape) => add_semaphore(curves, run, shape, asked.window, finding),
        Group::Both(shape) => add_both(curves, run, shape, asked, finding),
    }
}

/// Adds what the audits found of groups.
fn add_groups(
    found: &mut Findings,
    run: &Run,
    groups: &[Group],
    asked: &PassContext<'_>,
    list: Vec<GroupState<'_>>,
) -> Result<(), AllocError>
    requires { EachFinds run.now.setup asked.now.semaphores.now asked.now.window groups.now
        list.items (reverse run.now.entries) }
    ensures curves { OnOk result
        (map curve_model found.new.curves.items ≡ map curve_model found.old.curves.items
        ++ flat_map (group_line asked.now.semaphores.now asked.now.window run.now.entries)
        groups.now) }
    ensures shades { OnOk result (map shade_model found.new.shades.items
        ≡ map shade_model found.old.shades.items
        ++ shades run.now.setup groups.now asked.now.window run.now.entries) }
    ensures arrows { OnOk result
        (found.new.arrows.items ≡ found.old.arrows.items ++ arrows run.now.setup groups.now
        asked.now.window run.now.entries) }
{
    let mut rest = list.into_iter();
    for number in 0..groups.len() {
        let group = &groups[number];
        let Some(finding) = rest.next() else {
            unreachable!();
        };
        add_group(found, run, group, asked, finding)?;
    }
    Ok(())
}

/// Returns what the audits find of the groups whose workers follow their rules, in one pass over
/// the run.
pub(crate) fn findings_of(
    alloc: Global,
    run: &Run,
    groups: &[Group],
    window: Window,
) -> Result<Findings, AllocError>
    ensures curves { IfOk result
        (λ f. map curve_model f.curves.items ≡ balance_lines groups.now window run.now.entries) }
    ensures shades { IfOk result
        (λ f. map shade_model f.shades.items ≡ shades run.now.setup groups.now window run.now.entries) }
    ensures arrows { IfOk result
        (λ f. f.arrows.items ≡ arrows run.now.setup groups.now window run.now.entries) }
{
    let semaphores = semaphores_of(alloc, groups)?;
    let asked = PassContext {
        setup: run.setup(),
        semaphores: semaphores.as_slice(),
        window,
    };
    let list = find_all(alloc, run, groups, &asked)?;
    let mut found = Findings {
        curves: Vec::new(alloc),
        shades: Vec::new(alloc),
        arrows: Vec::new(alloc),
    };
    add_groups(&mut found, run, groups, &asked, list)?;
    Ok(found)
}
