//! Gets of values that were never put, whether or not the values are distinct.
ghost use Rattle.std.specs.Prelude.{◌≡◌, ◌||◌, ℕ, nat_eq, IfOk, OnOk, MatchOption, reverse};
ghost use Rattle.std.specs.HashSet.{contains};
ghost use Rattle.calls_core.specs.Beginnings.{past_at};
ghost use Rattle.calls_distinct.specs.Cells.{IsStoreHistory};
ghost use Rattle.calls_distinct.specs.Outcomes.{AreAllPut, IsFirstNowhere};
ghost use Rattle.calls_distinct.specs.kept.Nowhere.{invokes_put, is_nowhere};

use crate::history::follow;
use crate::reading::{is_put, value};
use calls_core::{Action, Call, Event, Op, Part};
use std::alloc::{AllocError, Global};
use std::collections::HashSet;

/// Adds the value of the put that an event invokes.
fn note_put(put: &mut HashSet<usize>, x: &Event) -> Result<(), AllocError>
    ensures { OnOk result ((v : ℕ) → contains nat_eq put.new v ≡ (invokes_put v x.now.action
        || contains nat_eq put.old v)) }
{
    if let Action::Invoke(_, Op::Put(v)) = x.action {
        put.insert(v)?;
    }
    Ok(())
}

/// Returns whether this is a get of a value, other than 0, that is not in the set.
fn is_nowhere(put: &HashSet<usize>, call: &Call) -> bool
    ensures { result ≡ is_nowhere (contains nat_eq put.now) call.now }
{
    (!is_put(call.op) && value(call) != 0) && !put.contains(&value(call))
}

/// Finds the first response of a get of a value that was never put until then.
///
/// It returns the index of that event, and the call. The values may be put twice.
pub fn first_nowhere(alloc: Global, events: &Part<'_>) -> Result<Option<(usize, Call)>, AllocError>
    requires history { IsStoreHistory (reverse events.now) }
    ensures { IfOk result (λ r. MatchOption r ((j : ℕ) → AreAllPut (past_at j events.now))
        (λ w. IsFirstNowhere events.now w.0 w.1)) }
{
    let mut put = HashSet::new(alloc);
    let mut pending = Vec::new(alloc);
    for i in 0..events.len() {
        let x = events.at(i);
        let ended = follow(&mut pending, &x)?;
        note_put(&mut put, &x)?;
        if let Some(call) = ended {
            if is_nowhere(&put, &call) {
                return Ok(Some((i, call)));
            }
        }
    }
    Ok(None)
}
