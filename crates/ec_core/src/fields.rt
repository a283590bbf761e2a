//! What a step reads of a setup and of the arrays of a world, and how it changes them.
ghost use Rattle.std.specs.Prelude.{◌≡◌, ℕ, false, ◌<◌, ◌≤◌, slice_get, Some};
ghost use Rattle.ec_count.specs.CountModel.{count_up};
ghost use Rattle.ec_count.specs.Tables.{signallers};
ghost use Rattle.ec_core.specs.Acceptance.{is_too_large};
ghost use Rattle.ec_core.specs.Rounds.{component_count};
ghost use Rattle.ec_core.specs.Counts.{sum_to};
ghost use Rattle.ec_core.specs.Standing.{count_at};
ghost use Rattle.ec_core.specs.kept.Fields.{count_value, map_at};

use crate::{Act, VALUE_MAX};
use ec_count::{Count, EventId, Members, Setup};

/// Returns the declared signallers of an eventcount.
fn signallers_of_event(setup: &Setup, event: EventId) -> Members
    ensures { result ≡ signallers setup.now event }
{
    setup.invariant();
    Members::new(setup.signallers(event))
}

/// Returns the declared signallers of each eventcount.
pub(crate) fn declared_signallers(setup: &Setup) -> [Members; 32]
    ensures { (e : ℕ) → e < 32 → slice_get result e ≡ Some (signallers setup.now e) }
{
    let mut signal: [Members; 32] = Default::default();
    for e in 0..32 {
        if let Some(event) = EventId::new(e) {
            signal[e] = signallers_of_event(setup, event);
        }
    }
    signal
}

/// Returns whether a put or a threshold is above the greatest value.
pub(crate) fn is_too_large(act: &Act) -> bool
    ensures { result ≡ is_too_large act.now }
{
    match *act {
        Act::Await(_, value) | Act::Put(_, value) => value > VALUE_MAX,
        Act::Advance(_) | Act::Read(_) | Act::Go | Act::Ticket(_) | Act::Get(_) | Act::Hand(_, _) =>
            false,
    }
}

/// Returns how many components the eventcount has; 0 if it is not declared.
pub(crate) fn component_count(setup: &Setup, event: EventId) -> usize
    ensures value { result ≡ component_count setup.now event }
    ensures few { result ≤ 16 }
{
    setup.components(event).unwrap_or(0)
}

/// Returns the count of a component of an eventcount.
pub(crate) fn count_in(counts: &[[Count; 16]; 32], event: usize, component: usize) -> Count
    requires event { event < 32 }
    requires component { component < 16 }
    ensures { count_at counts.now event component ≡ Some result }
{
    let row = &counts[event];
    row[component]
}

/// Adds one to the count at a position, if there is one and it is below its limit.
pub(crate) fn raise_at(counts: &mut [Count], place: usize)
    ensures { counts.new ≡ map_at count_up counts.old place }
{
    if place < counts.len() {
        let count = &mut counts[place];
        let _ = count.advance();
    }
}

/// Adds one to a component of an eventcount, if it is below its limit.
pub(crate) fn raise_in(counts: &mut [[Count; 16]; 32], event: usize, component: usize)
    requires { event < 32 }
    ensures { counts.new ≡ map_at (λ row. map_at count_up row component) counts.old event }
{
    let row = &mut counts[event];
    raise_at(row, component);
}

/// Returns the count of a sequencer.
pub(crate) fn ticket_count(counts: &[Count; 32], sequencer: usize) -> Count
    requires { sequencer < 32 }
    ensures { slice_get counts.now sequencer ≡ Some result }
{
    counts[sequencer]
}

/// Returns the sum of the first `width` components of an eventcount.
pub(crate) fn component_sum(counts: &[[Count; 16]; 32], event: usize, width: usize) -> u64
    requires event { event < 32 }
    requires width { width ≤ 16 }
    ensures { result ≡ sum_to (λ c. count_value (count_at counts.now event c)) width }
{
    let mut sum = 0u64;
    for component in 0..width {
        let count = count_in(counts, event, component);
        sum += count.value();
    }
    sum
}

/// Returns a copy of the array.
pub(crate) fn same_again<T: Copy, const N: usize>(xs: &[T; N]) -> [T; N]
    ensures { result ≡ xs.now }
{
    *xs
}
