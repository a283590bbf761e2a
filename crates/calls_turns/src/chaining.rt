//! Steps that show why a turn has to be taken by a position.
ghost use Rattle.std.specs.Prelude.{◌≡◌, ◌<◌, ◌≤◌, length, IfOk, IfSome};
ghost use Rattle.calls_turns.specs.Turns.{OthersNotDue};
ghost use Rattle.calls_turns.specs.Steps.{known};
ghost use Rattle.calls_turns.specs.Sweeps.{IsTakerDue, AreFilled, IsUnmet};
ghost use Rattle.calls_turns.specs.Chains.{AreThere, position_of, IsStretch, IsLink, marked};
ghost use Rattle.calls_turns.specs.Chains.{IsAdded, HasOneMore, Leads, IsSized, AreReaching};
ghost use Rattle.calls_turns.specs.Chains.{EndsAs, IsLead};

use crate::demand::{Demand, Fill, Target};
use crate::turn::{Reason, Step, Taker, Turn};
use std::alloc::{AllocError, Global};

/// The turns before one that takers of an item need.
#[derive(Clone, Copy)]
pub(crate) struct Stretch {
    /// The last turn of the item before them that was taken by somebody who is due later.
    pub(crate) barrier: Option<usize>,
    /// How many takers there are, with the one who is due.
    pub(crate) takers: usize,
}

/// A step, which is found before the one that it follows from.
#[derive(Clone, Copy)]
struct Link {
    /// The step.
    step: Step,
    /// The turn that an earlier step has to reach.
    needs: Option<usize>,
}

/// Steps that are found from the last one back.
#[derive(Drop)]
struct Lead {
    /// The steps, the last one first.
    steps: Vec<Step>,
    /// Whether a step has to reach a turn: of each of the first turns, none of which is spare.
    needed: Vec<bool>,
}

/// Returns how many takers of an item are due by a position, back to a turn of somebody due later.
pub(crate) fn stretch_of(
    turns: &[Turn],
    takers: &[Taker],
    fills: &[Fill],
    item: usize,
    at: usize,
    turn: usize,
) -> Stretch
    requires there { AreThere turns.now takers.now fills.now turn }
    requires within { turn ≤ length fills.now }
    ensures { IsStretch turns.now takers.now fills.now item at turn result }
{
    let mut count = 1;
    let mut k = turn;
    while 0 < k {
        if turns[k - 1].item == Some(item) {
            if at < takers[fills[k - 1].taker].by {
                return Stretch {
                    barrier: Some(k - 1),
                    takers: count,
                };
            }
            count += 1;
        }
        k -= 1;
    }
    Stretch {
        barrier: None,
        takers: count,
    }
}

/// Returns when a turn was taken.
pub(crate) fn position_of(fills: &[Fill], turn: Option<usize>) -> Option<usize>
    requires { IfSome turn (λ k. k < length fills.now) }
    ensures { result ≡ position_of fills.now turn }
{
    turn.map(|k| fills[k].demand.at)
}

/// Returns the step of takers of an item, of whom one was due and took no turn when this turn was
/// next.
fn takers_link(
    end: usize,
    turns: &[Turn],
    takers: &[Taker],
    fills: &[Fill],
    at: usize,
    turn: usize,
    taker: usize,
) -> Link
    requires filled { AreFilled end turns.now takers.now fills.now }
    requires others { OthersNotDue end takers.now }
    requires within { turn ≤ length fills.now }
    requires known { turn ≤ known turns.now }
    requires before { at < end }
    requires due { IsTakerDue takers.now fills.now turn at taker }
    ensures { IsLink end turns.now takers.now fills.now turn at result }
{
    let item = takers[taker].item.unwrap();
    let stretch = stretch_of(turns, takers, fills, item, at, turn);
    Link {
        step: Step {
            at,
            count: turn + 1,
            reason: Reason::Takers {
                item,
                after: position_of(fills, stretch.barrier),
                takers: stretch.takers,
            },
        },
        needs: stretch.barrier,
    }
}

/// Returns a step to a demand that was not met when this turn was next.
fn link_of(
    end: usize,
    turns: &[Turn],
    takers: &[Taker],
    fills: &[Fill],
    demand: Demand,
    turn: usize,
) -> Link
    requires filled { AreFilled end turns.now takers.now fills.now }
    requires others { OthersNotDue end takers.now }
    requires within { turn ≤ length fills.now }
    requires known { turn ≤ known turns.now }
    requires unmet { IsUnmet end turns.now takers.now fills.now turn demand }
    ensures { IsLink end turns.now takers.now fills.now turn demand.at result }
{
    match demand.target {
        Target::Turn(n) => Link {
            step: Step {
                at: demand.at,
                count: n + 1,
                reason: Reason::Due,
            },
            needs: None,
        },
        Target::Taker(j) => takers_link(end, turns, takers, fills, demand.at, turn, j),
    }
}

/// Adds a step, unless it is due and the last one already.
fn add_step(steps: &mut Vec<Step>, step: Step) -> Result<(), AllocError>
    ensures { IfOk result (λ _. IsAdded steps.old.items step steps.new.items) }
{
    if step.reason != Reason::Due || steps.last() != Some(&step) {
        steps.push(step)?;
    }
    Ok(())
}

/// Marks a turn, if there is one.
pub(crate) fn mark(marks: &mut [bool], turn: Option<usize>)
    requires { IfSome turn (λ k. k < length marks.now) }
    ensures { marks.new ≡ marked marks.old turn }
{
    if let Some(k) = turn {
        marks[k] = true;
    }
}

/// Adds the step to a demand that was not met when this turn was next.
fn add_link(
    end: usize,
    turns: &[Turn],
    takers: &[Taker],
    fills: &[Fill],
    demand: Demand,
    turn: usize,
    lead: &mut Lead,
) -> Result<(), AllocError>
    requires filled { AreFilled end turns.now takers.now fills.now }
    requires others { OthersNotDue end takers.now }
    requires sized { IsSized turns.now fills.now lead.old.needed.items }
    requires within { turn ≤ length lead.old.needed.items }
    requires unmet { IsUnmet end turns.now takers.now fills.now turn demand }
    ensures { IfOk result (λ _. HasOneMore end turns.now takers.now fills.now turn demand.at
        lead.old lead.new) }
{
    let link = link_of(end, turns, takers, fills, demand, turn);
    mark(&mut lead.needed, link.needs);
    add_step(&mut lead.steps, link.step)
}

/// Adds the steps to the turns that are needed, and returns all of them, the last one first. Each
/// turn that is needed, at the beginning or by a later step, has one step.
fn all_steps(
    end: usize,
    turns: &[Turn],
    takers: &[Taker],
    fills: &[Fill],
    begun: Lead,
) -> Result<Vec<Step>, AllocError>
    requires filled { AreFilled end turns.now takers.now fills.now }
    requires others { OthersNotDue end takers.now }
    requires sized { IsSized turns.now fills.now begun.needed.items }
    requires leads { Leads end turns.now takers.now fills.now (length begun.needed.items)
        begun.needed.items begun.steps.items }
    ensures reaching { IfOk result (λ steps. AreReaching end turns.now takers.now fills.now
        begun.needed.items steps.items) }
    ensures last { IfOk result (λ steps. EndsAs begun.steps.items steps.items) }
{
    let mut lead = begun;
    let mut k = lead.needed.len();
    while 0 < k {
        k -= 1;
        if lead.needed[k] {
            add_link(end, turns, takers, fills, fills[k].demand, k, &mut lead)?;
        }
    }
    Ok(lead.steps)
}

/// Lists the steps to the turns that are needed, the last one first.
pub(crate) fn steps_to(
    alloc: Global,
    end: usize,
    turns: &[Turn],
    takers: &[Taker],
    fills: &[Fill],
    needed: Vec<bool>,
) -> Result<Vec<Step>, AllocError>
    requires filled { AreFilled end turns.now takers.now fills.now }
    requires others { OthersNotDue end takers.now }
    requires sized { IsSized turns.now fills.now needed.items }
    ensures { IfOk result (λ steps. AreReaching end turns.now takers.now fills.now needed.items
        steps.items) }
{
    let lead = Lead {
        steps: Vec::new(alloc),
        needed,
    };
    all_steps(end, turns, takers, fills, lead)
}

/// Lists the steps to a demand that can't be met and to the turns that are needed, the last one
/// first.
pub(crate) fn steps_of(
    alloc: Global,
    end: usize,
    turns: &[Turn],
    takers: &[Taker],
    fills: &[Fill],
    demand: Demand,
    needed: Vec<bool>,
) -> Result<Vec<Step>, AllocError>
    requires filled { AreFilled end turns.now takers.now fills.now }
    requires others { OthersNotDue end takers.now }
    requires known { length fills.now ≤ known turns.now }
    requires unmet { IsUnmet end turns.now takers.now fills.now (length fills.now) demand }
    requires sized { length needed.items ≡ length fills.now }
    ensures { IfOk result (λ steps. IsLead end turns.now takers.now fills.now demand.at
        needed.items steps.items) }
{
    let mut lead = Lead {
        steps: Vec::new(alloc),
        needed,
    };
    add_link(end, turns, takers, fills, demand, fills.len(), &mut lead)?;
    all_steps(end, turns, takers, fills, lead)
}
