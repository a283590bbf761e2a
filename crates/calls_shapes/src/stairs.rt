//! Stairs: numbers that rise by one with each call that a certificate counts.
ghost use Rattle.std.specs.Prelude.{◌≡◌, ℕ, ◌==◌, IfOk};
ghost use Rattle.std.specs.List.{list_any};
ghost use Rattle.std.specs.List.Sorted.{IsPermutation, IsNonDecreasing};
ghost use Rattle.calls_shapes.specs.declared.stairs.Portion.TheVariants.{Called, CalledBy};
ghost use Rattle.calls_shapes.specs.Stairs.{has_completed, has_pending, rises_of, responses_in};
ghost use Rattle.calls_shapes.specs.Stairs.{gave_up, given_up, is_called_by, invocations_by};
ghost use Rattle.calls_shapes.specs.Stairs.{IsStair};

use crate::tallies::{CountFilter, counts, invokes_counted_call, is_counted};
use calls_core::{Call, Event, Part, PendingCall, Reply};
use calls_report::completed_call;
use calls_verdict::follow;
use std::alloc::{AllocError, Global};

/// Which of the counted calls raise a stair, and when.
#[derive(Clone, Copy, Debug, PartialEq, Eq)]
pub enum Portion {
    /// With each at its invocation.
    Called,
    /// With each at its response.
    Returned,
    /// At its response with each that was called at the first position or later and returned
    /// before the second.
    Between(usize, usize),
    /// At its invocation with each that was called up to a position and did not give up.
    CalledBy(usize),
    /// At its response with each that returned up to a position.
    ReturnedBy(usize),
}

/// Where a stair begins and ends, and what it counts.
#[derive(Clone, Copy, Debug, PartialEq, Eq)]
pub struct StairSpan {
    /// Which calls are counted.
    pub counted: CountFilter,
    /// With which of them it rises.
    pub portion: Portion,
    /// The position where it begins.
    pub from: usize,
    /// The number there.
    pub base: usize,
    /// The position where it ends.
    pub to: usize,
}

/// A number that rises by ones.
#[derive(Debug, Drop)]
pub struct Stair {
    /// Where it begins and ends.
    pub span: StairSpan,
    /// The positions at which it rises by one, in ascending order.
    pub rises: Vec<usize>,
}

impl StairSpan {
    /// Returns whether it rises with a completed call.
    pub fn has_completed(&self, call: &Call) -> bool
        ensures { result ≡ has_completed self.now.counted self.now.portion call.now }
    {
        if !is_counted(self.counted, call) {
            return false;
        }
        match self.portion {
            Portion::Called | Portion::Returned => true,
            Portion::Between(from, before) => from <= call.first && call.last < before,
            Portion::CalledBy(by) => call.first <= by,
            Portion::ReturnedBy(by) => call.last <= by,
        }
    }

    /// Returns whether it rises with a pending call.
    pub fn has_pending(&self, call: &PendingCall) -> bool
        ensures { result ≡ has_pending self.now.counted self.now.portion call.now }
    {
        match self.portion {
            Portion::Called => counts(self.counted, call.object, call.op),
            Portion::CalledBy(by) => call.first <= by && counts(self.counted, call.object, call.op),
            Portion::Returned | Portion::Between(_, _) | Portion::ReturnedBy(_) => false,
        }
    }
}

/// Returns the positions of the invocations of counted calls.
fn invocations_of(
    alloc: Global,
    events: &Part<'_>,
    counted: CountFilter,
) -> Result<Vec<usize>, AllocError>
    ensures { IfOk result (λ v. v.items ≡ rises_of counted Called events.now) }
{
    let mut positions = Vec::new(alloc);
    for i in 0..events.len() {
        let event = events.at(i);
        if invokes_counted_call(counted, &event) {
            positions.push(event.at)?;
        }
    }
    Ok(positions)
}

/// Returns the positions of the responses of the completed calls with which a course rises.
fn responses_of(alloc: Global, events: &Part<'_>, span: StairSpan) -> Result<Vec<usize>, AllocError>
    ensures { IfOk result (λ v. v.items ≡ responses_in span.counted span.portion events.now) }
{
    let mut pending = Vec::new(alloc);
    let mut positions = Vec::new(alloc);
    for i in 0..events.len() {
        let event = events.at(i);
        if let Some(call) = completed_call(&pending, &event) {
            if span.has_completed(&call) {
                positions.push(call.last)?;
            }
        }
        let _object = follow(&mut pending, &event)?;
    }
    Ok(positions)
}

/// Returns whether a completed call gave up that would be counted otherwise.
fn gave_up(counted: CountFilter, call: &Call) -> bool
    ensures { result ≡ gave_up counted call.now }
{
    counts(counted, call.object, call.op) && matches!(call.reply, Reply::Timeout)
}

/// Returns the positions of the invocations of the calls that gave up.
fn given_up(
    alloc: Global,
    events: &Part<'_>,
    counted: CountFilter,
) -> Result<Vec<usize>, AllocError>
    ensures { IfOk result (λ v. v.items ≡ given_up counted events.now) }
{
    let mut pending = Vec::new(alloc);
    let mut positions = Vec::new(alloc);
    for i in 0..events.len() {
        let event = events.at(i);
        if let Some(call) = completed_call(&pending, &event) {
            if gave_up(counted, &call) {
                positions.push(call.first)?;
            }
        }
        let _object = follow(&mut pending, &event)?;
    }
    Ok(positions)
}

/// Sorts positions.
fn in_order(mut positions: Vec<usize>) -> Result<Vec<usize>, AllocError>
    ensures all { IfOk result (λ v. IsPermutation positions.items v.items) }
    ensures sorted { IfOk result (λ v. IsNonDecreasing v.items) }
{
    positions.sort_by_key(|at| *at)?;
    Ok(positions)
}

/// Returns whether one of these positions, in order, is this one.
fn is_among(positions: &[usize], at: usize) -> bool
    requires { IsNonDecreasing positions.now }
    ensures { result ≡ list_any (λ (n : ℕ). n == at) positions.now }
{
    positions.binary_search(&at).is_ok()
}

/// Returns whether an event up to a position is the invocation of a counted call, except for those
/// at the other positions, in order.
fn is_called_by(counted: CountFilter, by: usize, others: &[usize], event: &Event) -> bool
    requires { IsNonDecreasing others.now }
    ensures { result ≡ is_called_by counted by others.now event.now }
{
    invokes_counted_call(counted, event) && event.at <= by && !is_among(others, event.at)
}

/// Returns the positions up to one of the invocations of counted calls, except for the others, in
/// order.
fn invocations_by(
    alloc: Global,
    events: &Part<'_>,
    counted: CountFilter,
    by: usize,
    others: &[usize],
) -> Result<Vec<usize>, AllocError>
    requires { IsNonDecreasing others.now }
    ensures { IfOk result (λ v. v.items ≡ invocations_by counted by others.now events.now) }
{
    let mut positions = Vec::new(alloc);
    for i in 0..events.len() {
        let event = events.at(i);
        if is_called_by(counted, by, others, &event) {
            positions.push(event.at)?;
        }
    }
    Ok(positions)
}

/// Returns the positions of the invocations of calls up to one that did not give up.
fn called_by(
    alloc: Global,
    events: &Part<'_>,
    counted: CountFilter,
    by: usize,
) -> Result<Vec<usize>, AllocError>
    ensures { IfOk result (λ v. v.items ≡ rises_of counted (CalledBy by) events.now) }
{
    let others = in_order(given_up(alloc, events, counted)?)?;
    invocations_by(alloc, events, counted, by, &others)
}

/// Returns the stair of a course over these events.
pub fn stair_of(alloc: Global, events: &Part<'_>, span: StairSpan) -> Result<Stair, AllocError>
    ensures { IfOk result (IsStair events.now span) }
{
    let rises = match span.portion {
        Portion::Called => invocations_of(alloc, events, span.counted)?,
        Portion::Returned => responses_of(alloc, events, span)?,
        Portion::Between(_, _) => responses_of(alloc, events, span)?,
        Portion::CalledBy(by) => called_by(alloc, events, span.counted, by)?,
        Portion::ReturnedBy(_) => responses_of(alloc, events, span)?,
    };
    Ok(Stair { span, rises })
}
