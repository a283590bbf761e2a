//! Decides whether the calls of a cell are linearizable.
ghost use Rattle.std.specs.Prelude.{◌≡◌, ◌<◌, ◌≤◌, ◌+◌, length, reverse, IfOk, IfSome};
ghost use Rattle.calls_core.specs.declared.history.Kind.{Kind};
ghost use Rattle.calls_core.specs.Histories.{clock};
ghost use Rattle.calls_core.specs.Beginnings.{past_at};
ghost use Rattle.calls_core.specs.Outcomes.{IsFirstFault};
ghost use Rattle.calls_distinct.specs.Cells.{IsStore, IsStoreHistory, IsDistinctHistory, Shows};
ghost use Rattle.calls_distinct.specs.Outcomes.{IsOutcome};
ghost use Rattle.calls_distinct.specs.kept.Verdicts.{IsFaultOf, IsRepeatedIn};

use crate::groups::{group_calls, groups_of};
use crate::history::calls_in;
use crate::searching::{events_up_to, next_between};
use crate::testing::repeated_value;
use crate::verdict::{Verdict, calls_of, judge};
use crate::{Fault, Outcome};
use calls_core::{Call, Op, Part};
use std::alloc::{AllocError, Global};

/// Finds a fault that the first n events show.
fn fault_of_beginning(
    alloc: Global,
    events: &Part<'_>,
    n: usize,
) -> Result<Option<Fault>, AllocError>
    requires store { IsStoreHistory (reverse events.now) }
    requires distinct { IsDistinctHistory (reverse events.now) }
    requires room { clock (reverse events.now) ≤ usize.MAX }
    requires some { 0 < n }
    requires within { n ≤ length events.now }
    ensures { IfOk result (IsFaultOf (past_at n events.now)) }
{
    let end = events.at(n - 1).at + 1;
    let beginning = events.first(n);
    let calls = calls_in(alloc, &beginning, end)?;
    let groups = groups_of(alloc, &calls)?;
    let zs = group_calls(alloc, &calls, &groups)?;
    match judge(alloc, &zs, end)? {
        Verdict::Ordered(_) => Ok(None),
        Verdict::Faulty(fault) => Ok(Some(fault)),
    }
}

/// Returns the position at which the value of a call is known: that of the invocation of a put.
fn known_at(call: &Call) -> usize {
    match call.op {
        Op::Put(_) => call.first,
        _ => call.last,
    }
}

/// Returns the last position that a fault names.
fn latest(fault: &Fault) -> usize {
    match fault {
        Fault::Nowhere(call) => call.last,
        Fault::Stale(first, second) => first.last.max(second.last),
        Fault::Alternate(a, b, c, d) => {
            let ended = a.last.max(c.last);
            ended.max(known_at(b)).max(known_at(d))
        }
    }
}

/// Finds the first event with which a prefix shows a fault.
///
/// The whole history shows `fault`. What a fault names and bisection take turns.
fn first_fault(alloc: Global, events: &Part<'_>, fault: Fault) -> Result<(usize, Fault), AllocError>
    requires store { IsStoreHistory (reverse events.now) }
    requires distinct { IsDistinctHistory (reverse events.now) }
    requires room { clock (reverse events.now) ≤ usize.MAX }
    requires shows { Shows (reverse events.now) fault }
    ensures { IfOk result (λ p. (kind : Kind) → IsStore kind
        → IsFirstFault (λ past. Shows past p.1) kind events.now p.0) }
{
    let mut fault = fault;
    let mut low: usize = 0;
    let mut high = events.len();
    let mut halves = false;
    while 1 < high - low {
        let named = events_up_to(events, latest(&fault));
        let n = next_between(low, high, named, halves);
        match fault_of_beginning(alloc, events, n)? {
            None => {
                low = n;
                halves = false;
            }
            Some(earlier) => {
                high = n;
                halves = !halves;
                fault = earlier;
            }
        }
    }
    Ok((low, fault))
}

/// Finds a value that the events show to be repeated, and the position of a put of it.
fn repeated_in(
    alloc: Global,
    events: &Part<'_>,
    end: usize,
) -> Result<Option<(usize, usize)>, AllocError>
    ensures { IfOk result (λ found. IfSome found (IsRepeatedIn (reverse events.now))) }
{
    let calls = calls_in(alloc, events, end)?;
    let groups = groups_of(alloc, &calls)?;
    let zs = group_calls(alloc, &calls, &groups)?;
    Ok(repeated_value(&zs))
}

/// Decides whether the calls of one cell, or of one database, have a linearization.
///
/// It returns `Repeated` if a value was got that was put twice, or 0 was put and got. The events
/// are those of its calls, in order, and `end` is a position after all of them.
pub fn decide(alloc: Global, events: &Part<'_>, end: usize) -> Result<Outcome, AllocError>
    requires history { IsStoreHistory (reverse events.now) }
    requires end { clock (reverse events.now) ≤ end }
    ensures { IfOk result (IsOutcome events.now end) }
{
    // (where values repeat, mostly a beginning shows it)
    let beginning = events.first(events.len() / 64);
    if let Some((value, position)) = repeated_in(alloc, &beginning, end)? {
        return Ok(Outcome::Repeated(value, position));
    }
    let calls = calls_in(alloc, events, end)?;
    let groups = groups_of(alloc, &calls)?;
    let zs = group_calls(alloc, &calls, &groups)?;
    if let Some((value, position)) = repeated_value(&zs) {
        return Ok(Outcome::Repeated(value, position));
    }
    let verdict = judge(alloc, &zs, end)?;
    // (the lists that come next take as much memory)
    drop(zs);
    drop(groups);
    match verdict {
        Verdict::Ordered(order) => Ok(Outcome::Ordered(calls_of(alloc, &order)?)),
        Verdict::Faulty(fault) => {
            let (index, fault) = first_fault(alloc, events, fault)?;
            Ok(Outcome::Refused(index, fault))
        }
    }
}
