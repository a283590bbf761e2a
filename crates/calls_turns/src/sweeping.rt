//! Takes turns as late as may be: when something is due. A turn goes to the taker of its item who
//! is due first or, if there is none, to a taker of any item. A spare turn goes to a taker who is
//! due.
ghost use Rattle.std.specs.Prelude.{◌≡◌, ℕ, ◌+◌, ◌<◌, ◌≤◌, true, false, List, length, nat_lt, IfOk};
ghost use Rattle.std.specs.Prelude.{IfSome, IfNone, MatchOption, slice_index};
ghost use Rattle.std.specs.List.{Contains};
ghost use Rattle.std.specs.List.Sorted.{IsNonDecreasingBy};
ghost use Rattle.calls_core.specs.Lists.{Each};
ghost use Rattle.calls_turns.specs.declared.turn.Turn.{Turn};
ghost use Rattle.calls_turns.specs.declared.turn.Taker.{Taker};
ghost use Rattle.calls_turns.specs.declared.demand.Demand.{Demand};
ghost use Rattle.calls_turns.specs.declared.demand.Target.{Target};
ghost use Rattle.calls_turns.specs.Sweeps.{taker_at, AreFilled, CantBeTaken};
ghost use Rattle.calls_turns.specs.Swept.{IsDemand, IsTarget, HaveTurns, HaveTakers, AreDemands};
ghost use Rattle.calls_turns.specs.Swept.{is_met, IsSplit, HasCome, AreDueFrom, AreLater, IsAt};
ghost use Rattle.calls_turns.specs.Swept.{free_at, IsChoice, IsChosen, NobodyChosen, IsDueBy};
ghost use Rattle.calls_turns.specs.Swept.{NobodyDue, IsSuited, NobodySuited, IsNext, IsStuck};

use crate::demand::{Demand, Fill, Target};
use crate::turn::{Taker, Turn};
use std::alloc::{AllocError, Global};

/// Turns that are taken, up to a position.
#[derive(Drop)]
pub(crate) struct Sweep {
    /// The index of the first taker who may not take a turn yet.
    next: usize,
    /// The indices of those before it who take none.
    free: Vec<usize>,
    /// Who takes which turn.
    pub(crate) fills: Vec<Fill>,
}

impl Sweep {
    /// Returns a sweep that has not begun.
    pub(crate) fn new(alloc: Global) -> Sweep
        ensures next { result.next ≡ 0 }
        ensures free { length result.free.items ≡ 0 }
        ensures fills { length result.fills.items ≡ 0 }
    {
        Sweep {
            next: 0,
            free: Vec::new(alloc),
            fills: Vec::new(alloc),
        }
    }
}

/// Lists the turns that are due before the end.
fn due_turns(alloc: Global, end: usize, turns: &[Turn]) -> Result<Vec<Demand>, AllocError>
    ensures each { (takers : List Taker) → IfOk result
        (λ v. Each (IsDemand end turns.now takers) v.items) }
    ensures all { IfOk result (λ v. HaveTurns end turns.now (length turns.now) v.items) }
{
    let mut demands = Vec::new(alloc);
    for i in 0..turns.len() {
        let at = turns[i].by;
        if at < end {
            demands.push(Demand {
                at,
                target: Target::Turn(i),
            })?;
        }
    }
    Ok(demands)
}

/// Adds the takers who are due before the end.
fn add_takers(demands: &mut Vec<Demand>, end: usize, takers: &[Taker]) -> Result<(), AllocError>
    ensures each { (turns : List Turn) → Each (IsDemand end turns takers.now) demands.old.items
        → IfOk result (λ _. Each (IsDemand end turns takers.now) demands.new.items) }
    ensures kept { (d : Demand) → Contains demands.old.items d
        → IfOk result (λ _. Contains demands.new.items d) }
    ensures all { IfOk result (λ _. HaveTakers end takers.now (length takers.now)
        demands.new.items) }
{
    for i in 0..takers.len() {
        let by = takers[i].by;
        if by < end {
            demands.push(Demand {
                at: by,
                target: Target::Taker(i),
            })?;
        }
    }
    Ok(())
}

/// Lists what is due before the end, in order.
pub(crate) fn demands_of(
    alloc: Global,
    end: usize,
    turns: &[Turn],
    takers: &[Taker],
) -> Result<Vec<Demand>, AllocError>
    ensures { IfOk result (λ v. AreDemands end turns.now takers.now v.items) }
{
    let mut demands = due_turns(alloc, end, turns)?;
    add_takers(&mut demands, end, takers)?;
    demands.sort_by_key(|demand| demand.at)?;
    Ok(demands)
}

/// Adds the takers who may take turns by a position.
fn admit(takers: &[Taker], sweep: &mut Sweep, at: usize) -> Result<(), AllocError>
    requires sorted { IsNonDecreasingBy (λ (x : Taker). x.from) takers.now }
    requires split { IsSplit takers.now sweep.old }
    requires come { HasCome takers.now sweep.old.fills.items sweep.old.next at }
    ensures split { IfOk result (λ _. IsSplit takers.now sweep.new) }
    ensures come { IfOk result (λ _. HasCome takers.now sweep.new.fills.items sweep.new.next at) }
    ensures later { IfOk result (λ _. AreLater takers.now sweep.new.next at) }
    ensures fills { IfOk result (λ _. sweep.new.fills.items ≡ sweep.old.fills.items) }
{
    while sweep.next < takers.len() && takers[sweep.next].from <= at {
        sweep.free.push(sweep.next)?;
        sweep.next += 1;
    }
    Ok(())
}

/// Returns whether a taker is due before the one at this place, if there is one.
fn is_better(takers: &[Taker], free: &[usize], taker: &Taker, best: Option<usize>) -> bool
    requires within { (i : ℕ) → i < length free.now → slice_index free.now i < length takers.now }
    requires place { IfSome best (λ k. k < length free.now) }
    ensures { MatchOption best (result ≡ true)
        (λ k. result ≡ nat_lt taker.now.by (free_at takers.now free.now k).by) }
{
    match best {
        Some(k) => taker.by < takers[free[k]].by,
        None => true,
    }
}

/// Returns the place of the taker who is due first, of those of an item or of any.
fn first_due(takers: &[Taker], free: &[usize], item: Option<usize>) -> Option<usize>
    requires { (i : ℕ) → i < length free.now → slice_index free.now i < length takers.now }
    ensures { IsChoice takers.now free.now item (length free.now) result }
{
    let mut best: Option<usize> = None;
    for i in 0..free.len() {
        let taker = takers[free[i]];
        if taker.item == item && is_better(takers, free, &taker, best) {
            best = Some(i);
        }
    }
    best
}

/// Returns the place of the taker who takes a turn of an item: one of the item if there is one,
/// else one of any item.
fn chosen(takers: &[Taker], free: &[usize], item: usize) -> Option<usize>
    requires { (i : ℕ) → i < length free.now → slice_index free.now i < length takers.now }
    ensures { MatchOption result (NobodyChosen takers.now free.now item)
        (λ place. IsChosen takers.now free.now item place) }
{
    match first_due(takers, free, Some(item)) {
        Some(place) => Some(place),
        None => first_due(takers, free, None),
    }
}

/// Returns the place of a taker who is due by a position, if there is one.
fn due_by(takers: &[Taker], free: &[usize], at: usize) -> Option<usize>
    requires { (i : ℕ) → i < length free.now → slice_index free.now i < length takers.now }
    ensures { MatchOption result (NobodyDue takers.now free.now at)
        (λ place. IsDueBy takers.now free.now at place) }
{
    for i in 0..free.len() {
        if takers[free[i]].by <= at {
            return Some(i);
        }
    }
    None
}

/// Returns the place of the taker who takes a turn at a position: a turn of an item, or a spare
/// one.
fn suited(takers: &[Taker], free: &[usize], at: usize, item: Option<usize>) -> Option<usize>
    requires { (i : ℕ) → i < length free.now → slice_index free.now i < length takers.now }
    ensures { MatchOption result (NobodySuited takers.now free.now at item)
        (λ place. IsSuited takers.now free.now at item place) }
{
    match item {
        Some(item) => chosen(takers, free, item),
        None => due_by(takers, free, at),
    }
}

/// Returns the place of the taker who takes the next turn at a position, if that can be done.
fn next_place(turns: &[Turn], takers: &[Taker], sweep: &Sweep, at: usize) -> Option<usize>
    requires { IsAt turns.now takers.now sweep.now at }
    ensures some { IfSome result (λ place. IsNext turns.now takers.now sweep.now at place) }
    ensures none { (end : ℕ) → AreFilled end turns.now takers.now sweep.now.fills.items
        → IfNone result (CantBeTaken turns.now takers.now sweep.now.fills.items at
        (length sweep.now.fills.items)) }
{
    let k = sweep.fills.len();
    if k < turns.len() && turns[k].from <= at {
        suited(takers, &sweep.free, at, turns[k].item)
    } else {
        None
    }
}

/// Takes the next turn for a demand, if that can be done.
fn take_next(
    turns: &[Turn],
    takers: &[Taker],
    sweep: &mut Sweep,
    demand: Demand,
) -> Result<bool, AllocError>
    requires at { IsAt turns.now takers.now sweep.old demand.at }
    requires target { IsTarget turns.now takers.now demand.at demand.target }
    requires unmet { is_met sweep.old.fills.items demand.target ≡ false }
    ensures at { IfOk result (λ _. IsAt turns.now takers.now sweep.new demand.at) }
    ensures kept { (t : Target) → is_met sweep.old.fills.items t ≡ true
        → IfOk result (λ _. is_met sweep.new.fills.items t ≡ true) }
    ensures more { IfOk result (λ b. b ≡ true
        → length sweep.new.fills.items ≡ length sweep.old.fills.items + 1) }
    ensures within { IfOk result (λ b. b ≡ true
        → length sweep.old.fills.items < length turns.now) }
    ensures filled { (end : ℕ) → AreFilled end turns.now takers.now sweep.old.fills.items
        → demand.at < end
        → IfOk result (λ _. AreFilled end turns.now takers.now sweep.new.fills.items) }
    ensures stuck { (end : ℕ) → AreFilled end turns.now takers.now sweep.old.fills.items
        → demand.at < end
        → IfOk result (λ b. b ≡ false
        → IsStuck end turns.now takers.now sweep.new.fills.items demand) }
{
    match next_place(turns, takers, sweep, demand.at) {
        Some(place) => {
            let taker = sweep.free.swap_remove(place);
            sweep.fills.push(Fill { taker, demand })?;
            Ok(true)
        }
        None => Ok(false),
    }
}

/// Returns whether a demand is met.
fn is_met_by(takers: &[Taker], sweep: &Sweep, target: Target) -> bool
    requires { IsSplit takers.now sweep.now }
    ensures { result ≡ is_met sweep.now.fills.items target }
{
    match target {
        Target::Turn(k) => k < sweep.fills.len(),
        Target::Taker(j) => j < sweep.next && !sweep.free.contains(&j),
    }
}

/// Takes turns until a demand is met. Returns whether that can be done.
pub(crate) fn meet(
    turns: &[Turn],
    takers: &[Taker],
    sweep: &mut Sweep,
    demand: Demand,
) -> Result<bool, AllocError>
    requires sorted { IsNonDecreasingBy (λ (x : Taker). x.from) takers.now }
    requires split { IsSplit takers.now sweep.old }
    requires come { HasCome takers.now sweep.old.fills.items sweep.old.next demand.at }
    requires due { AreDueFrom turns.now takers.now sweep.old.fills.items demand.at }
    requires target { IsTarget turns.now takers.now demand.at demand.target }
    ensures split { IfOk result (λ _. IsSplit takers.now sweep.new) }
    ensures come { IfOk result
        (λ _. HasCome takers.now sweep.new.fills.items sweep.new.next demand.at) }
    ensures kept { (t : Target) → is_met sweep.old.fills.items t ≡ true
        → IfOk result (λ _. is_met sweep.new.fills.items t ≡ true) }
    ensures met { IfOk result (λ b. b ≡ true → is_met sweep.new.fills.items demand.target ≡ true) }
    ensures filled { (end : ℕ) → AreFilled end turns.now takers.now sweep.old.fills.items
        → demand.at < end
        → IfOk result (λ _. AreFilled end turns.now takers.now sweep.new.fills.items) }
    ensures stuck { (end : ℕ) → AreFilled end turns.now takers.now sweep.old.fills.items
        → demand.at < end
        → IfOk result (λ b. b ≡ false
        → IsStuck end turns.now takers.now sweep.new.fills.items demand) }
{
    admit(takers, sweep, demand.at)?;
    while !is_met_by(takers, sweep, demand.target) {
        if !take_next(turns, takers, sweep, demand)? {
            return Ok(false);
        }
    }
    Ok(true)
}
