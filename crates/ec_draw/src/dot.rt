//! The dots of entries.
ghost use Rattle.std.specs.Prelude.{◌≡◌, IfOk, List, length, option_and_then, reverse, take};
ghost use Rattle.ec_core.specs.declared.act.Entry.{Entry};
ghost use Rattle.ec_core.specs.Rounds.{read_event};
ghost use Rattle.ec_core.specs.Standing.{StandsFor};
ghost use Rattle.ec_draw.specs.Dots.{component_in, dot_of, dots_of, held_in, number_in, op_in};

use crate::Window;
use ec_core::{Act, Entry, Run, UnderWay, World};
use ec_count::WorkerId;
use std::alloc::{AllocError, Global};

/// An entry: its worker, its call, its position, and the component that it read or raised.
#[derive(Clone, Copy, Debug, PartialEq, Eq)]
pub struct Dot {
    pub worker: WorkerId,
    /// The act that began the entry's call.
    pub op: Act,
    pub position: usize,
    pub component: Option<usize>,
    /// The number that it read in the component.
    pub number: Option<u64>,
}

/// Returns the act that began the call of which an act in a world is a step.
fn op_in(world: &World, worker: WorkerId, act: Act) -> Act
    ensures { (h : List Entry) → StandsFor world.now h
        → result ≡ op_in worker (reverse h) act }
{
    match act {
        Act::Go => match world.under_way(worker) {
            Some(call) => call.op(),
            None => Act::Go,
        },
        _ => act,
    }
}

/// Returns the component that an act reads or raises in a world, `None` if it does neither.
fn component_in(world: &World, worker: WorkerId, act: Act) -> Option<usize>
    ensures { (h : List Entry) → StandsFor world.now h
        → result ≡ component_in world.now.setup worker (reverse h) act }
{
    match act {
        Act::Advance(event) => world.component_of(event, worker),
        Act::Read(_) | Act::Await(_, _) => Some(0),
        Act::Go => match world.under_way(worker) {
            Some(call) => Some(call.index()),
            None => None,
        },
        Act::Ticket(_) | Act::Put(_, _) | Act::Get(_) | Act::Hand(_, _) => None,
    }
}

/// Returns what a go of a call reads in a world.
fn read_by_go(world: &World, call: &UnderWay) -> Option<u64>
    ensures { (h : List Entry) → StandsFor world.now h
        → result ≡ option_and_then (λ e. held_in world.now.setup e call.now.index (reverse h))
        (read_event call.now.op) }
{
    match call.op() {
        Act::Read(event) | Act::Await(event, _) => world.component(event, call.index()),
        _ => None,
    }
}

/// Returns what an act reads of its component in a world, `None` if it reads none.
fn number_in(world: &World, worker: WorkerId, act: Act) -> Option<u64>
    ensures { (h : List Entry) → StandsFor world.now h
        → result ≡ number_in world.now.setup worker (reverse h) act }
{
    match act {
        Act::Read(event) | Act::Await(event, _) => world.component(event, 0),
        Act::Go => match world.under_way(worker) {
            Some(call) => read_by_go(world, &call),
            None => None,
        },
        Act::Advance(_) | Act::Ticket(_) | Act::Put(_, _) | Act::Get(_) | Act::Hand(_, _) => None,
    }
}

/// Returns the dot of the next entry in a world.
fn dot_of(world: &World, position: usize, entry: &Entry) -> Dot
    ensures { (h : List Entry) → StandsFor world.now h → position ≡ length (reverse h)
        → result ≡ dot_of world.now.setup (reverse h) entry.now }
{
    Dot {
        worker: entry.worker,
        op: op_in(world, entry.worker, entry.act),
        position,
        component: component_in(world, entry.worker, entry.act),
        number: number_in(world, entry.worker, entry.act),
    }
}

/// Returns the dots of the entries of a run that are shown, in order, given the state before the
/// first of them.
pub(crate) fn dots(
    alloc: Global,
    run: &Run,
    mut world: World,
    window: Window,
) -> Result<Vec<Dot>, AllocError>
    requires setup { world.setup ≡ run.now.setup }
    requires represents { StandsFor world (take window.from run.now.entries) }
    ensures { IfOk result
        (λ ds. ds.items ≡ dots_of run.now.setup window (reverse run.now.entries)) }
{
    run.invariant();
    let mut dots = Vec::new(alloc);
    for position in window.from..window.to.min(run.len()) {
        if let Some(entry) = run.entry(position) {
            dots.push(dot_of(&world, position, &entry))?;
            let _reply = world.step(entry.worker, entry.act);
        }
    }
    Ok(dots)
}
