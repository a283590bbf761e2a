//! Finds calls that are sorted after calls that they precede.
ghost use Rattle.std.specs.Prelude.{◌≡◌, ◌↔◌, IsTrue, option_copied, option_map};
ghost use Rattle.calls_core.specs.Linearizations.{Precedes};
ghost use Rattle.calls_core.specs.Lists.{EachPair};
ghost use Rattle.calls_distinct.specs.kept.Zones.{NotAfter, crossing_fault, IsCrossing, latest};

use crate::Fault;
use crate::reading::gets;
use crate::zone::Zone;

/// Returns the fault that two calls show if z is after x in the list, and precedes it.
pub(crate) fn crossing_fault(x: &Zone, z: &Zone) -> Fault
    ensures { result ≡ crossing_fault x.now z.now }
{
    if gets(0, x.call) {
        Fault::Stale(*z.call, *x.call)
    } else {
        Fault::Alternate(*x.early, *z.late, *z.call, *x.call)
    }
}

/// Returns the zone whose call has the later invocation.
fn latest<'z, 'a>(x: Option<&'z Zone<'a>>, z: &'z Zone<'a>) -> &'z Zone<'a>
    ensures { result.now ≡ latest (option_copied x.entry) z.now }
{
    match x {
        Some(x) => if x.call.first < z.call.first { z } else { x },
        None => z,
    }
}

/// Returns whether the call of z precedes that of x.
fn precedes(z: &Zone, x: &Zone) -> bool
    ensures { IsTrue result ↔ Precedes z.now.call x.now.call }
{
    z.call.last < x.call.first
}

/// Finds a call that precedes one before it in the list, and returns that one first.
pub(crate) fn crossing<'z, 'a>(zs: &'z [Zone<'a>]) -> Option<(&'z Zone<'a>, &'z Zone<'a>)>
    requires { EachPair NotAfter zs.now }
    ensures { IsCrossing zs.now (option_map (λ p. (p.0.now, p.1.now)) result) }
{
    let mut late: Option<&Zone> = None;
    for z in zs {
        if let Some(x) = late {
            if precedes(z, x) {
                return Some((x, z));
            }
        }
        late = Some(latest(late, z));
    }
    None
}
