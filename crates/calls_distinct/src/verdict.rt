//! Whether the calls of a history of the distinct class have a linearization.
ghost use Rattle.std.specs.Prelude.{◌≡◌, ◌≤◌, List, IfOk};
ghost use Rattle.calls_core.specs.declared.history.Event.{Event};
ghost use Rattle.calls_core.specs.Histories.{clock};
ghost use Rattle.calls_distinct.specs.Cells.{IsStoreHistory, IsDistinctHistory};
ghost use Rattle.calls_distinct.specs.kept.Zones.{zone_calls};
ghost use Rattle.calls_distinct.specs.kept.Verdicts.{AreGroupedOf, IsVerdict};

use crate::Fault;
use crate::crossing::{crossing, crossing_fault};
use crate::testing::first_lacking;
use crate::zone::{GroupedCall, Zone};
use crate::zones::sort_zones;
use calls_core::CallList;
use std::alloc::{AllocError, Global};

/// Zones in the order of a linearization, or the fault that shows that there is none.
#[derive(Debug, Drop)]
pub(crate) enum Verdict<'a> {
    /// The calls of these zones, in their order, are a linearization.
    Ordered(Vec<Zone<'a>>),
    /// The calls show this fault.
    Faulty(Fault),
}

/// Lists the calls of the zones, in their order.
pub(crate) fn calls_of(alloc: Global, zs: &[Zone]) -> Result<CallList, AllocError>
    ensures { IfOk result (λ v. v ≡ zone_calls zs.now) }
{
    let mut calls = CallList::new(alloc);
    for z in zs {
        calls.push(*z.call)?;
    }
    Ok(calls)
}

/// Orders the zones of the calls, or finds a fault.
pub(crate) fn judge<'a>(
    alloc: Global,
    zs: &[GroupedCall<'_, 'a>],
    end: usize,
) -> Result<Verdict<'a>, AllocError>
    ensures { IfOk result (λ v. (past : List Event) → IsStoreHistory past → clock past ≤ end
        → IsDistinctHistory past → AreGroupedOf past end zs.now → IsVerdict past end v) }
{
    if let Some(z) = first_lacking(zs) {
        return Ok(Verdict::Faulty(Fault::Nowhere(*z.call)));
    }
    let order = sort_zones(alloc, zs, end)?;
    match crossing(&order) {
        Some((x, z)) => Ok(Verdict::Faulty(crossing_fault(x, z))),
        None => Ok(Verdict::Ordered(order)),
    }
}
