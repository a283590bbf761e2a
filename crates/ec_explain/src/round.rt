//! What a read or an await has read in its round.
ghost use Rattle.std.specs.Prelude.{◌≡◌, ◌++◌, ◌∷◌, [], List, IfOk, OnOk, Ok, length, reverse};
ghost use Rattle.ec_core.specs.declared.act.Entry.{Entry};
ghost use Rattle.ec_core.specs.Acceptance.{answer_of};
ghost use Rattle.ec_core.specs.Standing.{StandsFor};
ghost use Rattle.ec_explain.specs.Rounds.{KeepsRound, look_at, looks_after, looks_with, next_look};

use ec_core::{Act, Entry, Run, World};
use ec_count::{EventId, WorkerId};
use std::alloc::{AllocError, Global};

/// What an entry found when it read a component.
#[derive(Clone, Copy, Debug, PartialEq, Eq)]
pub struct Look {
    /// The number of the component, from 0.
    pub component: usize,
    /// The count of the component.
    pub number: u64,
    /// The worker that signalled it.
    pub signaller: Option<WorkerId>,
    /// The position of the entry in the history.
    pub position: usize,
    /// The total of the eventcount.
    pub total: u64,
}

/// Returns what an entry that reads a component finds in a world.
fn look_at(world: &World, event: EventId, component: usize, position: usize) -> Look
    ensures { (h : List Entry) → StandsFor world.now h → position ≡ length (reverse h)
        → result ≡ look_at world.now.setup event component (reverse h) }
{
    Look {
        component,
        number: world.component(event, component).unwrap_or(0),
        signaller: world.signaller(event, component),
        position,
        total: world.total(event).unwrap_or(0),
    }
}

/// Returns what an act of a worker finds in a world.
fn next_look(world: &World, worker: WorkerId, act: &Act, position: usize) -> Option<Look>
    ensures { (h : List Entry) → StandsFor world.now h → position ≡ length (reverse h)
        → result ≡ next_look world.now.setup worker (reverse h) act.now }
{
    match *act {
        Act::Go => match world.under_way(worker) {
            Some(call) => {
                let event = call.op().event();
                Some(look_at(world, event, call.index(), position))
            }
            None => None,
        },
        _ => Some(look_at(world, act.event(), 0, position)),
    }
}

/// Adds what an act found, in place of what was found of its component and of later ones; drops all
/// if it found nothing.
fn add_look(looks: &mut Vec<Look>, look: Option<Look>) -> Result<(), AllocError>
    ensures { OnOk result (looks.new.items ≡ looks_after look looks.old.items) }
{
    match look {
        Some(look) => {
            looks.truncate(look.component);
            looks.extend_from_slice(&[look])
        }
        None => {
            looks.clear();
            Ok(())
        }
    }
}

/// Makes the step of an entry.
fn enter(world: &mut World, entry: &Entry)
    ensures represents { (h : List Entry) → StandsFor world.old h
        → answer_of world.old.setup (reverse h) entry.now.worker entry.now.act ≡ Ok entry.now.reply
        → StandsFor world.new (h ++ entry.now ∷ []) }
    ensures setup { world.new.setup ≡ world.old.setup }
{
    let _reply = world.step(entry.worker, entry.act);
}

/// Makes the step of an entry, and adds what it finds, if it is one of this worker.
fn take(
    looks: &mut Vec<Look>,
    world: &mut World,
    worker: WorkerId,
    entry: &Entry,
    position: usize,
) -> Result<(), AllocError>
    ensures represents { (h : List Entry) → StandsFor world.old h
        → answer_of world.old.setup (reverse h) entry.now.worker entry.now.act ≡ Ok entry.now.reply
        → StandsFor world.new (h ++ entry.now ∷ []) }
    ensures setup { world.new.setup ≡ world.old.setup }
    ensures looks { (h : List Entry) → StandsFor world.old h
        → answer_of world.old.setup (reverse h) entry.now.worker entry.now.act ≡ Ok entry.now.reply
        → position ≡ length (reverse h)
        → KeepsRound world.old.setup worker (reverse h) looks.old.items
        → OnOk result (KeepsRound world.old.setup worker (entry.now ∷ reverse h) looks.new.items) }
{
    if !entry.is_of(worker) {
        enter(world, entry);
        return Ok(());
    }
    let look = next_look(world, worker, &entry.act, position);
    enter(world, entry);
    add_look(looks, look)
}

/// Returns what the round of a worker has found, with its act at the end of a run.
///
/// The act is a read or an await, or a `go` of one.
pub fn looks_with(
    alloc: Global,
    run: &Run,
    worker: WorkerId,
    act: &Act,
) -> Result<Vec<Look>, AllocError>
    ensures { IfOk result (λ looks. looks.items ≡ looks_with run.now.setup worker
        (reverse run.now.entries) act.now) }
{
    run.invariant();
    let mut world = World::open(run.setup().copy());
    let mut looks = Vec::new(alloc);
    for position in 0..run.len() {
        if let Some(entry) = run.entry(position) {
            take(&mut looks, &mut world, worker, &entry, position)?;
        }
    }
    let look = next_look(run.world(), worker, act, run.len());
    add_look(&mut looks, look)?;
    Ok(looks)
}
