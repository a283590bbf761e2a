//! The decisions on the objects, collected into a verdict.
ghost use Rattle.std.specs.Prelude.{IfOk, OnOk};
ghost use Rattle.calls_verdict.specs.kept.Findings.{HasRoom, IsAddedTo, IsEarlier, Gives};

use crate::verdict::{Decision, Refusal, Undecided, Verdict};
use calls_core::{Order, Part};
use std::alloc::AllocError;

/// The decisions on the objects so far.
#[derive(Debug, Drop)]
pub struct Findings {
    /// The ordered calls of each object, with their linearization points.
    pub placed: Order,
    /// The refusal with the least position, if there is any.
    pub refusal: Option<Refusal>,
    /// The first object that isn't decided.
    pub undecided: Option<Undecided>,
}

/// Returns the refusal with the lesser position.
fn earlier(kept: Option<Refusal>, next: Refusal) -> Refusal
    ensures { IsEarlier kept next result }
{
    match kept {
        Some(old) => { if old.at <= next.at { old } else { next } }
        None => next,
    }
}

/// Adds the decision on an object, whose events are `own`.
pub fn add(
    found: &mut Findings,
    object: usize,
    own: &Part<'_>,
    decision: Decision,
) -> Result<(), AllocError>
    requires { HasRoom own.now decision }
    ensures { OnOk result (IsAddedTo object own.now decision found.old found.new) }
{
    match decision {
        Decision::Ordered(calls) => {
            calls.append_to(&mut found.placed)?;
            Ok(())
        }
        Decision::Refused(i, fault) => {
            let at = own.at(i).at;
            let next = Refusal { at, object, fault };
            found.refusal = Some(earlier(found.refusal.take(), next));
            Ok(())
        }
        Decision::Open(_, cause) => {
            if found.undecided.is_none() {
                found.undecided = Some(Undecided { object, cause });
            }
            Ok(())
        }
    }
}

/// Returns the verdict from the decisions on all objects.
pub fn conclude(found: Findings) -> Result<Verdict, AllocError>
    ensures { IfOk result (Gives found) }
{
    let Findings {
        mut placed,
        refusal,
        undecided,
    } = found;
    if let Some(refusal) = refusal {
        return Ok(Verdict::Refused(refusal));
    }
    if let Some(undecided) = undecided {
        return Ok(Verdict::NotDecided(undecided));
    }
    placed.sort()?;
    Ok(Verdict::Linearizable(placed))
}
