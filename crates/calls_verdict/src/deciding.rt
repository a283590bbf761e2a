//! A verdict on a whole history.
ghost use Rattle.std.specs.Prelude.{◌≡◌, ◌<◌, ◌^◌, ◌↔◌, reverse, IfOk, IsTrue};
ghost use Rattle.calls_core.specs.Histories.{IsHistory, clock};
ghost use Rattle.calls_verdict.specs.Verdicts.{IsVerdict};

use crate::findings::{Findings, add, conclude};
use crate::objects::decide_object;
use crate::splitting::split;
use crate::verdict::Verdict;
use calls_core::{Events, Kind, Order};
use std::alloc::{AllocError, Global};

/// Returns the first position after the events.
fn end_of(events: &Events) -> usize
    requires { clock (reverse events.now) < 2 ^ 64 }
    ensures { result ≡ clock (reverse events.now) }
{
    let n = events.len();
    if n == 0 {
        return 0;
    }
    events.at(n - 1).at + 1
}

/// Returns whether the first position after the events fits a `usize`, as `decide` requires.
pub fn has_room(events: &Events) -> bool
    ensures { IsTrue result ↔ (clock (reverse events.now) < 2 ^ 64) }
{
    let n = events.len();
    if n == 0 {
        return true;
    }
    events.at(n - 1).at < usize::MAX
}

/// Decides whether a history has a linearization.
///
/// It returns one with its points, or a faulty event (`Refusal`), or a cell, a database or a buffer
/// that isn't decided.
pub fn decide(alloc: Global, kinds: &[Kind], events: &Events) -> Result<Verdict, AllocError>
    requires history { IsHistory kinds.now (reverse events.now) }
    requires room { clock (reverse events.now) < 2 ^ 64 }
    ensures { IfOk result (IsVerdict kinds.now (reverse events.now)) }
{
    let end = end_of(events);
    let parts = split(alloc, kinds, events)?;
    let mut found = Findings {
        placed: Order::new(alloc),
        refusal: None,
        undecided: None,
    };
    for (object, kind) in kinds.iter().enumerate() {
        let own = parts[object].part(events);
        let decision = decide_object(alloc, kind, &own, end)?;
        add(&mut found, object, &own, decision)?;
    }
    conclude(found)
}
