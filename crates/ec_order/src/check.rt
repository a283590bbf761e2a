//! The check of an order.
ghost use Rattle.std.specs.Prelude.{◌≡◌, ◌<◌, true, false, Some, length, reverse, slice_get, IfOk, MatchOption};
ghost use Rattle.std.specs.List.{All, AllPairs, Contains};
ghost use Rattle.std.specs.Bool.{Decides};
ghost use Rattle.ec_order.specs.Verdicts.{IsLinearizationWithPoints, IsVerdict};

use crate::index::{index, point};
use crate::numbers::Numbers;
use crate::{Call, Placed, Verdict, calls};
use ec_core::Run;
use std::alloc::{AllocError, Global};

fn same_call(a: &Call, b: &Call) -> bool
    ensures { Decides result (a.now ≡ b.now) }
{
    *a == *b
}

/// Returns the place of a call among calls that are in order of their responses.
fn find(calls: &[Call], call: &Call) -> Option<usize>
    requires { AllPairs (λ (a b : Call). a.last < b.last) calls.now }
    ensures { MatchOption result (Contains calls.now call.now → ⊥)
        (λ j. slice_get calls.now j ≡ Some call.now) }
{
    match calls.binary_search_by_key(&call.last, |c| c.last) {
        Ok(j) => {
            if same_call(&calls[j], call) {
                Some(j)
            } else {
                None
            }
        }
        Err(_) => None,
    }
}

/// Returns n marks that are not set.
fn unset(alloc: Global, n: usize) -> Result<Vec<bool>, AllocError>
    ensures { IfOk result (λ v. (length v.items ≡ n) × All (λ m. m ≡ false) v.items) }
{
    vec![in alloc; false; n]
}

/// Returns the place of the first mark that is not set.
fn first_unset(marks: &[bool]) -> Option<usize>
    ensures { MatchOption result (All (λ m. m ≡ true) marks.now)
        (λ j. slice_get marks.now j ≡ Some false) }
{
    for (j, mark) in marks.iter().enumerate() {
        if !*mark {
            return Some(j);
        }
    }
    None
}

/// Returns the first fault, in one pass over the places. Each call is looked up among the completed
/// calls by its response, marked there, and run on the sequential object.
fn judge(alloc: Global, run: &Run, placed: &[Placed]) -> Result<Verdict, AllocError>
    ensures { IfOk result (λ v.
        IsVerdict run.now.setup (reverse run.now.entries) placed.now v) }
{
    run.invariant();
    let calls = calls(alloc, run)?;
    let lists = index(alloc, run)?;
    let mut seen = unset(alloc, calls.len())?;
    let mut latest = 0;
    let mut numbers = Numbers::zeros();
    for i in 0..placed.len() {
        let place = placed[i];
        let call = place.call;
        let Some(j) = find(&calls, &call) else {
            return Ok(Verdict::Missing(i));
        };
        if seen[j] {
            return Ok(Verdict::Repeated(i));
        }
        if call.last < latest {
            return Ok(Verdict::OutOfOrder(i));
        }
        if !numbers.is_answer(&call) {
            return Ok(Verdict::WrongReply(i));
        }
        if place.point != point(&lists, &call) {
            return Ok(Verdict::WrongPoint(i));
        }
        seen[j] = true;
        latest = latest.max(call.first);
        numbers.apply(call.op, i);
    }
    match first_unset(&seen) {
        Some(_) => Ok(Verdict::Missing(placed.len())),
        None => Ok(Verdict::Good),
    }
}

/// Returns `Good` if a list is a linearization of the completed calls of a run, each with its
/// point. Otherwise it returns the first fault. It fails only when out of memory.
pub fn verify(alloc: Global, run: &Run, placed: &[Placed]) -> Result<Verdict, AllocError>
    ensures verdict { IfOk result (λ v.
        IsVerdict run.now.setup (reverse run.now.entries) placed.now v) }
    ensures only { IfOk result (λ v.
        IsLinearizationWithPoints run.now.setup (reverse run.now.entries) placed.now → v ≡ Verdict.Good) }
{
    run.invariant();
    let verdict = judge(alloc, run, placed)?;
    Ok(verdict)
}
