//! Which right the act of a line needs, and who has it.
ghost use Rattle.std.specs.Prelude.{◌≡◌, ◌<◌, ◌++◌, ◌∷◌, [], IfOk, OnOk, reverse, if◌then◌else◌};
ghost use Rattle.ec_core.specs.Acceptance.{has_right};
ghost use Rattle.ec_explain.specs.Rights.{parse_act, asked_in, holders};

use crate::words::{is_among, is_same, word_at};
use ec_core::{Act, Run};
use ec_count::WorkerId;
use ec_heading::Heading;
use std::alloc::{AllocError, Global};

/// A worker, and the right that it needs.
#[derive(Clone, Copy, Debug, PartialEq, Eq)]
pub struct Asked {
    pub worker: WorkerId,
    /// An act that needs the same right.
    pub act: Act,
}

/// Returns the act of a verb on what a word names, or one that needs the same right.
fn parse_act(heading: &Heading, verb: &[u8], word: &[u8]) -> Option<Act>
    ensures { result ≡ parse_act heading.now.words verb.now word.now }
{
    if is_same(verb, b"go".as_slice()) {
        return Some(Act::Go);
    }
    if is_among(&["advance", "hand"], verb) {
        return Some(Act::Advance(heading.event(word)?));
    }
    if is_among(&["read", "await"], verb) {
        return Some(Act::Read(heading.event(word)?));
    }
    if is_same(verb, b"ticket".as_slice()) {
        return Some(Act::Ticket(heading.sequencer(word)?));
    }
    if is_same(verb, b"put".as_slice()) {
        return Some(Act::Put(heading.cell(word)?, 0));
    }
    if is_same(verb, b"get".as_slice()) {
        return Some(Act::Get(heading.cell(word)?));
    }
    None
}

/// Returns the worker of a line, and the right that its act needs.
#[tactic(auto, unfolding(crate::specs::Rights::asked_in))]
pub fn asked_in(heading: &Heading, line: &[u8]) -> Option<Asked>
    ensures { result ≡ asked_in heading.now line.now }
{
    let worker = heading.worker(word_at(0, line))?;
    let act = parse_act(heading, word_at(1, line), word_at(2, line))?;
    Some(Asked { worker, act })
}

/// Returns whether a worker has the right to an act at the end of a run.
fn has_right(run: &Run, worker: WorkerId, act: &Act) -> bool
    ensures { result ≡ has_right run.now.setup (reverse run.now.entries) worker act.now }
{
    match *act {
        Act::Advance(event) | Act::Hand(event, _) => {
            run.world().component_of(event, worker).is_some()
        }
        Act::Read(event) | Act::Await(event, _) => run.setup().may_observe(event, worker),
        Act::Go => true,
        Act::Ticket(sequencer) => run.setup().may_take(sequencer, worker),
        Act::Put(cell, _) => run.setup().may_write(cell, worker),
        Act::Get(cell) => run.setup().may_read(cell, worker),
    }
}

/// Adds a worker, by its number, if it has the right to an act at the end of a run.
fn add_holder(
    workers: &mut Vec<WorkerId>,
    run: &Run,
    act: &Act,
    number: usize,
) -> Result<(), AllocError>
    requires { number < 16 }
    ensures { OnOk result (workers.new.items ≡ workers.old.items ++ (if has_right run.now.setup
        (reverse run.now.entries) number act.now then number ∷ [] else [])) }
{
    let Some(worker) = WorkerId::new(number) else {
        return Ok(());
    };
    if has_right(run, worker, act) {
        workers.extend_from_slice(&[worker])?;
    }
    Ok(())
}

/// Returns the workers that have the right to an act at the end of a run, in the order of their
/// declaration.
#[tactic(auto, using(crate::proofs::Holding::no_holder, crate::proofs::Holding::more_holders))]
pub fn holders(alloc: Global, run: &Run, act: &Act) -> Result<Vec<WorkerId>, AllocError>
    ensures { IfOk result (λ ws. ws.items ≡ holders run.now.setup (reverse run.now.entries)
        act.now) }
{
    run.setup().invariant();
    let mut workers = Vec::new(alloc);
    for number in 0..run.setup().workers() {
        add_holder(&mut workers, run, act, number)?;
    }
    Ok(workers)
}
