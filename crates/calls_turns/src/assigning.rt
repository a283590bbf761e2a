//! Decides who takes which turn.
ghost use Rattle.std.specs.Prelude.{◌≡◌, ℕ, ◌<◌, ◌≤◌, length, IfOk};
ghost use Rattle.std.specs.List.Sorted.{IsPermutation, IsNonDecreasingBy};
ghost use Rattle.calls_turns.specs.declared.turn.Taker.{Taker};
ghost use Rattle.calls_turns.specs.Turns.{OthersNotDue, SparesLast};
ghost use Rattle.calls_turns.specs.Outcomes.{IsOutcome};
ghost use Rattle.calls_turns.specs.Sweeps.{fill_at};
ghost use Rattle.calls_turns.specs.Swept.{fillers};

use crate::clash::{Refutation, refute};
use crate::demand::Fill;
use crate::sweeping::{Sweep, demands_of, meet};
use crate::turn::{Clash, Step, Taker, Turn};
use std::alloc::{AllocError, Global};

/// Who takes which turn.
#[derive(Debug, Drop)]
pub enum Outcome {
    /// The turns are taken by these takers, in their order.
    Assigned(Vec<Taker>),
    /// They can't be.
    Refuted {
        /// Each of these steps follows from those before it.
        steps: Vec<Step>,
        /// Together they need more than can be taken.
        clash: Clash,
    },
}

/// Lists takers by when they may take turns.
fn sorted_takers(alloc: Global, takers: &[Taker]) -> Result<Vec<Taker>, AllocError>
    ensures all { IfOk result (λ v. IsPermutation takers.now v.items) }
    ensures sorted { IfOk result (λ v. IsNonDecreasingBy (λ (x : Taker). x.from) v.items) }
{
    let mut sorted = Vec::from_slice(alloc, takers)?;
    sorted.sort_by_key(|taker| taker.from)?;
    Ok(sorted)
}

/// Lists the takers in the order of their turns.
fn order_of(alloc: Global, takers: &[Taker], fills: &[Fill]) -> Result<Vec<Taker>, AllocError>
    requires { (k : ℕ) → k < length fills.now → (fill_at fills.now k).taker < length takers.now }
    ensures { IfOk result (λ v. v.items ≡ fillers takers.now fills.now) }
{
    let mut order = Vec::new(alloc);
    for fill in fills {
        order.push(takers[fill.taker])?;
    }
    Ok(order)
}

/// Decides who takes which turn, of takers who are sorted by when they may.
fn assign_sorted(
    alloc: Global,
    end: usize,
    turns: &[Turn],
    takers: &[Taker],
) -> Result<Outcome, AllocError>
    requires sorted { IsNonDecreasingBy (λ (x : Taker). x.from) takers.now }
    requires others { OthersNotDue end takers.now }
    requires spares { SparesLast end turns.now }
    ensures { IfOk result (IsOutcome end turns.now takers.now) }
{
    let demands = demands_of(alloc, end, turns, takers)?;
    let mut sweep = Sweep::new(alloc);
    for demand in &demands {
        if !meet(turns, takers, &mut sweep, *demand)? {
            let Refutation { mut steps, clash } = refute(
                alloc,
                end,
                turns,
                takers,
                &sweep.fills,
                *demand,
            )?;
            steps.reverse();
            return Ok(Outcome::Refuted { steps, clash });
        }
    }
    let order = order_of(alloc, takers, &sweep.fills)?;
    Ok(Outcome::Assigned(order))
}

/// Decides who takes which turn. Turns are taken as late as may be, and each goes to the taker of
/// its item who is due first or, if there is none, to a taker of any item. A spare turn goes to a
/// taker who is due. What is due at `end` or later need not be done.
pub fn assign(
    alloc: Global,
    end: usize,
    turns: &[Turn],
    takers: &[Taker],
) -> Result<Outcome, AllocError>
    requires others { OthersNotDue end takers.now }
    requires spares { SparesLast end turns.now }
    ensures { IfOk result (IsOutcome end turns.now takers.now) }
{
    let sorted = sorted_takers(alloc, takers)?;
    assign_sorted(alloc, end, turns, &sorted)
}
