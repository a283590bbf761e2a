//! Answers questions about a world, and makes calls of one that is not in a run.
use crate::fault::Fault;
use crate::kernel::ask::{Ask, act, cell, event, sequencer, worker};
use crate::kernel::writing::{pending, put_entry, tell_entry, tell_reply, tell_worker};
use crate::line::{tell, tell_if};
use crate::output::TestOutput;
use ec_core::{Entry, Step, World};
use ec_count::{CellId, EventId, SeqId, WorkerId};

/// Writes the pending call of a worker: its act, the next component, and the sum so far.
fn tell_pending(world: &World, worker: WorkerId, ask: &mut Ask<'_>) -> Result<(), Fault> {
    match world.under_way(worker) {
        Some(call) => {
            put_entry(&pending(worker, call.op()), ask)?;
            writeln!(ask.out, ", component {}, sum {}", call.index(), call.sum())
        }
        None => tell("-", ask.out),
    }
}

/// Answers a question about an eventcount.
pub fn answer_event(world: &World, ask: &mut Ask<'_>) -> Result<(), Fault> {
    let event = event(ask)?;
    match ask.verb {
        "total" => tell_if(world.total(event), ask.out),
        "component" => tell_if(world.component(event, ask.size()?), ask.out),
        "signaller" => tell_worker(world.signaller(event, ask.size()?), ask),
        _ => tell_if(world.component_of(event, worker(ask)?), ask.out),
    }
}

/// Answers another question about a world.
pub fn answer_state(world: &World, ask: &mut Ask<'_>) -> Result<(), Fault> {
    match ask.verb {
        "issued" => tell_if(world.issued(sequencer(ask)?), ask.out),
        "value" => tell_if(world.cell(cell(ask)?), ask.out),
        _ => {
            let worker = worker(ask)?;
            tell_pending(world, worker, ask)
        }
    }
}

/// Makes a call of a world that is not in a run, if the line is one: `would` asks for the answer to
/// a step, and `call` makes a step, and writes the operation of its call with the reply.
pub fn answer_world(world: &mut World, ask: &mut Ask<'_>) -> Result<(), Fault> {
    let (worker, act) = (worker(ask)?, act(ask)?);
    if ask.verb == "would" {
        return match world.answer(worker, &act) {
            Ok(reply) => tell_reply(reply, ask),
            Err(refusal) => tell(refusal.name(), ask.out),
        };
    }
    match world.step_of_call(worker, act) {
        Ok(Step { op: act, reply }) => tell_entry(Some(Entry { worker, act, reply }), ask),
        Err(refusal) => tell(refusal.name(), ask.out),
    }
}

/// Writes all that can be asked of an eventcount.
fn tell_event(world: &World, event: EventId, ask: &mut Ask<'_>) -> Result<(), Fault> {
    tell_if(world.total(event), ask.out)?;
    for place in 0..16 {
        tell_if(world.component(event, place), ask.out)?;
        tell_worker(world.signaller(event, place), ask)?;
    }
    Ok(())
}

/// Writes all that can be asked of the objects and workers of a world, by numbers below the size of
/// the largest table.
pub fn tell_world(world: &World, ask: &mut Ask<'_>) -> Result<(), Fault> {
    let setup = world.setup();
    let most = setup.events().max(setup.sequencers());
    for n in 0..most.max(setup.cells()).max(setup.workers()) {
        if let Some(event) = EventId::new(n) {
            tell_event(world, event, ask)?;
        }
        if let Some(line) = SeqId::new(n) {
            tell_if(world.issued(line), ask.out)?;
        }
        if let Some(cell) = CellId::new(n) {
            tell_if(world.cell(cell), ask.out)?;
        }
        if let Some(worker) = WorkerId::new(n) {
            tell_pending(world, worker, ask)?;
        }
    }
    Ok(())
}
