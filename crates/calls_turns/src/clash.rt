//! Why not so many turns can be taken.
ghost use Rattle.std.specs.Prelude.{◌≡◌, ℕ, ◌<◌, ◌≤◌, ◌&&◌, true, false, not, length, IfOk};
ghost use Rattle.std.specs.Prelude.{IsSome};
ghost use Rattle.calls_turns.specs.Turns.{OthersNotDue, SparesLast};
ghost use Rattle.calls_turns.specs.Steps.{has_none, known, IsNotOpen, Refute};
ghost use Rattle.calls_turns.specs.Sweeps.{taker_at, turn_at, fill_at, filler, IsTakerDue, IsUnmet};
ghost use Rattle.calls_turns.specs.Sweeps.{AreFilled, IsLacking};
ghost use Rattle.calls_turns.specs.Chains.{AreThere};
ghost use Rattle.calls_turns.specs.Swept.{IsStuck};
ghost use Rattle.calls_turns.specs.Shortages.{is_listed, IsCounted, IsLack};

use crate::chaining::{steps_of, steps_to};
use crate::counting::{count_known, count_others, count_takers, count_turns, has_item};
use crate::demand::{Demand, Fill, Target};
use crate::sharing::{Load, load_of};
use crate::turn::{Clash, Crowd, Reason, Shortage, Step, Taker, Turn};
use std::alloc::{AllocError, Global};

/// What is missing.
#[derive(Drop)]
struct Lack {
    /// What is missing, for each of some items.
    shortages: Vec<Shortage>,
    /// Whether one of these is of a turn: of each turn that was taken.
    needed: Vec<bool>,
}

/// Why turns can't be taken.
#[derive(Drop)]
pub(crate) struct Refutation {
    /// The steps, the last one first.
    pub(crate) steps: Vec<Step>,
    /// How they end.
    pub(crate) clash: Clash,
}

/// Returns whether a turn is of one of the items of a list.
fn is_listed(shortages: &[Shortage], item: Option<usize>) -> bool
    ensures { result ≡ is_listed shortages.now item }
{
    shortages
        .iter()
        .any(|shortage| has_item(item, shortage.item))
}

/// Counts the turns of an item up to one of them, and who may take them by a position.
fn shortage_of(turns: &[Turn], takers: &[Taker], at: usize, turn: usize) -> Shortage
    requires there { turn < length turns.now }
    requires known { IsSome (turn_at turns.now turn).item }
    ensures { IsCounted turns.now takers.now at turn result }
{
    let item = turns[turn].item.unwrap();
    Shortage {
        at,
        turn,
        item,
        turns: count_turns(turns, item, turn + 1),
        takers: count_takers(takers, item, at),
    }
}

/// Returns whether a taker of any item took this turn, of an item that is not listed yet.
fn is_new(
    turns: &[Turn],
    takers: &[Taker],
    fills: &[Fill],
    shortages: &[Shortage],
    k: usize,
) -> bool
    requires there { AreThere turns.now takers.now fills.now (length fills.now) }
    requires within { k < length fills.now }
    ensures { result ≡ (has_none (filler takers.now fills.now k).item
        && not (is_listed shortages.now (turn_at turns.now k).item)) }
{
    takers[fills[k].taker].item.is_none() && !is_listed(shortages, turns[k].item)
}

/// Lists what is missing: of the item of the turn that can't be taken by a position, and of each
/// item for which a taker of any item took a turn.
fn lack_of(
    alloc: Global,
    end: usize,
    turns: &[Turn],
    takers: &[Taker],
    fills: &[Fill],
    at: usize,
) -> Result<Lack, AllocError>
    requires filled { AreFilled end turns.now takers.now fills.now }
    requires known { length fills.now ≤ known turns.now }
    requires until { (k : ℕ) → k < length fills.now → (fill_at fills.now k).demand.at ≤ at }
    requires lacking { IsLacking turns.now takers.now fills.now at (length fills.now) }
    ensures { IfOk result (λ lack. IsLack turns.now takers.now fills.now at lack) }
{
    let mut k = fills.len();
    let mut lack = Lack {
        shortages: vec![in alloc; shortage_of(turns, takers, at, k)]?,
        needed: vec![in alloc; false; k]?,
    };
    while 0 < k {
        k -= 1;
        if is_new(turns, takers, fills, &lack.shortages, k) {
            let shortage = shortage_of(turns, takers, fills[k].demand.at, k);
            lack.shortages.push(shortage)?;
            lack.needed[k] = true;
        }
    }
    Ok(lack)
}

/// Shows that there are too few takers.
fn few(
    alloc: Global,
    end: usize,
    turns: &[Turn],
    takers: &[Taker],
    fills: &[Fill],
    demand: Demand,
) -> Result<Refutation, AllocError>
    requires filled { AreFilled end turns.now takers.now fills.now }
    requires others { OthersNotDue end takers.now }
    requires known { length fills.now ≤ known turns.now }
    requires unmet { IsUnmet end turns.now takers.now fills.now (length fills.now) demand }
    requires until { (k : ℕ) → k < length fills.now → (fill_at fills.now k).demand.at ≤ demand.at }
    requires lacking { IsLacking turns.now takers.now fills.now demand.at (length fills.now) }
    ensures { IfOk result (λ r. Refute end turns.now takers.now r.steps.items r.clash) }
{
    let Lack { shortages, needed } = lack_of(alloc, end, turns, takers, fills, demand.at)?;
    let steps = steps_of(alloc, end, turns, takers, fills, demand, needed)?;
    let others = count_others(takers, demand.at);
    let clash = Clash::Few { shortages, others };
    Ok(Refutation { steps, clash })
}

/// Shows that a turn that is not spare, or the first spare one, is needed too early.
fn closed(
    alloc: Global,
    end: usize,
    turns: &[Turn],
    takers: &[Taker],
    fills: &[Fill],
    demand: Demand,
) -> Result<Refutation, AllocError>
    requires filled { AreFilled end turns.now takers.now fills.now }
    requires others { OthersNotDue end takers.now }
    requires known { length fills.now ≤ known turns.now }
    requires unmet { IsUnmet end turns.now takers.now fills.now (length fills.now) demand }
    requires closed { IsNotOpen turns.now demand.at (length fills.now) }
    ensures { IfOk result (λ r. Refute end turns.now takers.now r.steps.items r.clash) }
{
    let turn = fills.len();
    let needed = vec![in alloc; false; turn]?;
    let steps = steps_of(alloc, end, turns, takers, fills, demand, needed)?;
    let clash = Clash::Closed(turn);
    Ok(Refutation { steps, clash })
}

/// Shows that a taker can't take a turn, who comes after he is due.
fn late(
    alloc: Global,
    end: usize,
    turns: &[Turn],
    takers: &[Taker],
    at: usize,
    taker: usize,
) -> Result<Refutation, AllocError>
    requires others { OthersNotDue end takers.now }
    requires before { at < end }
    requires there { taker < length takers.now }
    requires late { at < (taker_at takers.now taker).from }
    requires due { (taker_at takers.now taker).by ≤ at }
    ensures { IfOk result (λ r. Refute end turns.now takers.now r.steps.items r.clash) }
{
    let turn = turns.len();
    let step = Step {
        at,
        count: turn + 1,
        reason: Reason::Takers {
            item: takers[taker].item.unwrap(),
            after: Some(at),
            takers: 1,
        },
    };
    let steps = vec![in alloc; step]?;
    let clash = Clash::Closed(turn);
    Ok(Refutation { steps, clash })
}

/// Shows that too many takers need spare turns: those who took some, and one who can't.
fn full(
    alloc: Global,
    end: usize,
    turns: &[Turn],
    takers: &[Taker],
    fills: &[Fill],
    demand: Demand,
    taker: usize,
) -> Result<Refutation, AllocError>
    requires filled { AreFilled end turns.now takers.now fills.now }
    requires others { OthersNotDue end takers.now }
    requires spares { SparesLast end turns.now }
    requires known { known turns.now ≤ length fills.now }
    requires due { IsTakerDue takers.now fills.now (length fills.now) demand.at taker }
    requires before { demand.at < end }
    requires until { (k : ℕ) → k < length fills.now → (fill_at fills.now k).demand.at ≤ demand.at }
    requires closed { IsNotOpen turns.now demand.at (length fills.now) }
    ensures { IfOk result (λ r. Refute end turns.now takers.now r.steps.items r.clash) }
{
    let known = count_known(turns);
    let mut seeking = Vec::from_slice(alloc, fills)?;
    seeking.push(Fill { taker, demand })?;
    let Load { shares, needed } = load_of(alloc, end, turns, takers, &seeking, demand.at, known)?;
    let steps = steps_to(alloc, end, turns, takers, fills, needed)?;
    let clash = Clash::Full(Crowd {
        turn: fills.len(),
        at: demand.at,
        known,
        shares,
    });
    Ok(Refutation { steps, clash })
}

/// Shows that a demand for a spare turn can't be met.
fn spare(
    alloc: Global,
    end: usize,
    turns: &[Turn],
    takers: &[Taker],
    fills: &[Fill],
    demand: Demand,
) -> Result<Refutation, AllocError>
    requires filled { AreFilled end turns.now takers.now fills.now }
    requires others { OthersNotDue end takers.now }
    requires spares { SparesLast end turns.now }
    requires known { known turns.now ≤ length fills.now }
    requires stuck { IsStuck end turns.now takers.now fills.now demand }
    ensures { IfOk result (λ r. Refute end turns.now takers.now r.steps.items r.clash) }
{
    match demand.target {
        Target::Taker(j) => {
            if demand.at < takers[j].from {
                late(alloc, end, turns, takers, demand.at, j)
            } else {
                full(alloc, end, turns, takers, fills, demand, j)
            }
        }
        Target::Turn(_) => unreachable!(),
    }
}

/// Returns whether a turn may be taken by a position.
fn is_open(turns: &[Turn], turn: usize, at: usize) -> bool
    ensures there { result ≡ true → turn < length turns.now }
    ensures from { result ≡ true → (turn_at turns.now turn).from ≤ at }
    ensures not { result ≡ false → IsNotOpen turns.now at turn }
{
    turn < turns.len() && turns[turn].from <= at
}

/// Shows that a demand can't be met.
pub(crate) fn refute(
    alloc: Global,
    end: usize,
    turns: &[Turn],
    takers: &[Taker],
    fills: &[Fill],
    demand: Demand,
) -> Result<Refutation, AllocError>
    requires filled { AreFilled end turns.now takers.now fills.now }
    requires others { OthersNotDue end takers.now }
    requires spares { SparesLast end turns.now }
    requires stuck { IsStuck end turns.now takers.now fills.now demand }
    ensures { IfOk result (λ r. Refute end turns.now takers.now r.steps.items r.clash) }
{
    let turn = fills.len();
    let first = count_known(turns);
    if is_open(turns, turn, demand.at) {
        if turn < first {
            return few(alloc, end, turns, takers, fills, demand);
        }
    } else if turn <= first {
        return closed(alloc, end, turns, takers, fills, demand);
    }
    spare(alloc, end, turns, takers, fills, demand)
}
