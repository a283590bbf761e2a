//! The calls that take effect, in the order of their zones.
ghost use Rattle.std.specs.Prelude.{◌≡◌, ◌++◌, IfOk, take, map};
ghost use Rattle.std.specs.List.Sorted.{IsPermutation};
ghost use Rattle.calls_core.specs.Lists.{EachPair};
ghost use Rattle.calls_distinct.specs.kept.Zones.{key, rank, zone_cmp, NotAfter};
ghost use Rattle.calls_distinct.specs.kept.Groups.{takes_effect, zone_of, zones_of};

use crate::reading::{gets, is_put, value};
use crate::zone::{GroupedCall, Zone};
use calls_core::Call;
use std::alloc::{AllocError, Global};
use std::cmp::Ordering;

/// Returns the key of a zone: the earlier of its first response and its last invocation.
///
/// The key of a get of 0 is 0.
fn key(call: &Call, early: &Call, late: &Call) -> usize
    ensures { result ≡ key (record { call = call.now; early = early.now; late = late.now }) }
{
    if gets(0, call) {
        0
    } else {
        early.last.min(late.first)
    }
}

/// Returns the rank of a call in its zone: the put is first, then the gets by invocations.
fn rank(call: &Call) -> usize
    ensures { result ≡ rank call.now }
{
    if is_put(call.op) {
        0
    } else {
        call.first.max(1)
    }
}

/// Compares two calls by the keys and values of their zones, then by their ranks in one zone.
fn compare(x: &Zone, y: &Zone) -> Ordering
    ensures { result ≡ zone_cmp x.now y.now }
{
    match x.key.cmp(&y.key) {
        Ordering::Equal => {
            let by_value = value(x.call).cmp(&value(y.call));
            by_value.then(rank(x.call).cmp(&rank(y.call)))
        }
        by_key => by_key,
    }
}

/// Returns whether this is a completed call, or a pending put of a value that was got.
fn takes_effect(end: usize, z: &GroupedCall) -> bool
    ensures { result ≡ takes_effect end z.now }
{
    let group = z.group;
    z.call.last < end || group.got
}

/// Returns the zone of a call.
fn zone_of<'a>(z: &GroupedCall<'_, 'a>) -> Zone<'a>
    ensures { result ≡ zone_of z.now }
{
    let group = z.group;
    let early = if group.got { group.early } else { z.call };
    let late = if group.got { group.late } else { z.call };
    Zone {
        key: key(z.call, early, late),
        call: z.call,
        early,
        late,
    }
}

/// Lists the calls that take effect, with their zones.
fn zones<'a>(
    alloc: Global,
    zs: &[GroupedCall<'_, 'a>],
    end: usize,
) -> Result<Vec<Zone<'a>>, AllocError>
    ensures { IfOk result (λ v. v.items ≡ zones_of end zs.now) }
{
    let mut out = Vec::new(alloc);
    for z in zs {
        if takes_effect(end, z) {
            out.push(zone_of(z))?;
        }
    }
    Ok(out)
}

/// Lists the calls that take effect, in the order of their zones.
pub(crate) fn sort_zones<'a>(
    alloc: Global,
    zs: &[GroupedCall<'_, 'a>],
    end: usize,
) -> Result<Vec<Zone<'a>>, AllocError>
    ensures moved { IfOk result (λ v. IsPermutation (zones_of end zs.now) v.items) }
    ensures sorted { IfOk result (λ v. EachPair NotAfter v.items) }
{
    let mut order = zones(alloc, zs, end)?;
    order.sort_unstable_by(|x, y| compare(x, y));
    Ok(order)
}
