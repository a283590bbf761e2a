//! The decision, by one pass over the events.
ghost use Rattle.std.specs.Prelude.{◌≡◌, ◌≤◌, ◌++◌, [], ◌∷◌, reverse, IfOk};
ghost use Rattle.calls_core.specs.declared.history.Kind.TheVariants.{Cell};
ghost use Rattle.calls_core.specs.Histories.{IsHistoryOf, clock};
ghost use Rattle.calls_serial.specs.kept.Stages.{stage_view, helds, held_calls, all_calls};
ghost use Rattle.calls_serial.specs.kept.Stages.{first_stage};
ghost use Rattle.calls_serial.specs.kept.Passing.{Invokes, TakesIn};
ghost use Rattle.calls_serial.specs.Outcomes.{IsOutcome};

use crate::changes::open_stage;
use crate::outcome::Outcome;
use crate::responses::respond;
use crate::search::{pending_put, put_value};
use crate::stage::{Pass, Stage, Stop};
use calls_core::{Action, CallList, Event, Part, PendingCall, take_pending};
use std::alloc::{AllocError, Global};

/// Adds an invocation, or returns two puts that overlap.
fn invoke(
    alloc: Global,
    pass: &mut Pass,
    call: PendingCall,
    end: usize,
) -> Result<Option<Stop>, AllocError>
    ensures { IfOk result (Invokes end pass.old pass.new call) }
{
    let other = pending_put(&pass.pending);
    pass.pending.push(call)?;
    let Some(value) = put_value(call.op) else {
        return Ok(None);
    };
    if let Some(put) = other {
        return Ok(Some(Stop::Overlaps(put, call)));
    }
    open_stage(alloc, &mut pass.stages, call, value, end)?;
    Ok(None)
}

/// Adds an event, or returns why the pass ends with it.
fn take_in(
    alloc: Global,
    pass: &mut Pass,
    event: Event,
    end: usize,
) -> Result<Option<Stop>, AllocError>
    ensures { IfOk result (TakesIn end pass.old pass.new event) }
{
    match event.action {
        Action::Invoke(object, op) => {
            invoke(alloc, pass, PendingCall::new(event, object, op), end)
        }
        Action::Respond(reply) => {
            let Some(pending) = take_pending(&mut pass.pending, event.worker) else {
                return Ok(None);
            };
            let call = pending.complete(reply, event.at);
            match respond(alloc, pass, call)? {
                Some(fault) => Ok(Some(Stop::Fails(fault))),
                None => Ok(None),
            }
        }
    }
}

/// Returns the pass over no events, which has the stage of the initial value.
fn begin(alloc: Global) -> Result<Pass, AllocError>
    ensures pending { IfOk result (λ pass. pass.pending.items ≡ []) }
    ensures stages { IfOk result (λ pass. helds pass.stages.items ≡ first_stage ∷ []) }
    ensures links { IfOk result (λ pass. pass.links.items ≡ []) }
{
    let mut stages = Vec::new(alloc);
    stages.push(Stage {
        put: None,
        value: 0,
        moment: 0,
        link: None,
        gets: Vec::new(alloc),
    })?;
    Ok(Pass {
        pending: Vec::new(alloc),
        stages,
        links: Vec::new(alloc),
    })
}

/// Appends the calls of a stage: its put, then its gets.
fn add_calls(calls: &mut CallList, stage: &Stage) -> Result<(), AllocError>
    ensures { IfOk result (λ _. calls.new ≡ calls.old ++ held_calls (stage_view stage.now)) }
{
    if let Some(put) = stage.put {
        calls.push(put)?;
    }
    for get in &stage.gets {
        calls.push(get.call(stage.value))?;
    }
    Ok(())
}

/// Returns the calls of the stages in their order.
fn order(alloc: Global, stages: &[Stage]) -> Result<CallList, AllocError>
    ensures { IfOk result (λ v. v ≡ all_calls (helds stages.now)) }
{
    let mut calls = CallList::new(alloc);
    for stage in stages {
        add_calls(&mut calls, stage)?;
    }
    Ok(calls)
}

/// Decides whether a history of a cell has a linearization.
///
/// It returns one, or why there is none. If two of the puts overlap, it may return these instead.
/// In a linearization a pending put has its response at `end`.
pub fn decide(alloc: Global, events: &Part<'_>, end: usize) -> Result<Outcome, AllocError>
    requires history { IsHistoryOf Cell (reverse events.now) }
    requires late { clock (reverse events.now) ≤ end }
    ensures { IfOk result (IsOutcome Cell events.now end) }
{
    let mut pass = begin(alloc)?;
    for i in 0..events.len() {
        let event = events.at(i);
        if let Some(stop) = take_in(alloc, &mut pass, event, end)? {
            match stop {
                Stop::Fails(fault) => return Ok(Outcome::Refused(i, fault)),
                Stop::Overlaps(put, other) => return Ok(Outcome::Overlapping(put, other)),
            }
        }
    }
    Ok(Outcome::Ordered(order(alloc, &pass.stages)?))
}
