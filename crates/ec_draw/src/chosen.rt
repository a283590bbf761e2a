//! Which workers and objects are drawn.
ghost use Rattle.std.specs.Prelude.{◌≡◌, ◌≤◌, ◌++◌, ◌∷◌, [], IfOk, OnOk};
ghost use Rattle.std.specs.List.{list_any};
ghost use Rattle.ec_heading.specs.Spelling.{cell_in};
ghost use Rattle.ec_draw.specs.Chosen.{chosen_targets, draws, draws_arrow, draws_cell, draws_curve};
ghost use Rattle.ec_draw.specs.Chosen.{draws_event, draws_object, draws_sequencer, draws_shade};
ghost use Rattle.ec_draw.specs.Chosen.{draws_worker, is_chosen, is_drawn, is_name_of};
ghost use Rattle.ec_draw.specs.Shades.{shade_model};

use crate::{Arrow, Counter, CurveSource, Shade};
use ec_core::Act;
use ec_count::{CellId, EventId, SeqId, SymbolTable, Target, WorkerId};
use std::alloc::{AllocError, Global};
use std::marker::Model;

/// The names of the workers and of the objects to draw. If a list is empty, all are drawn.
#[derive(Clone, Copy, Debug)]
pub struct NameFilter<'a> {
    pub workers: &'a [&'a str],
    pub objects: &'a [&'a str],
}

/// The workers and the objects that are drawn.
#[derive(Drop)]
pub struct Selection {
    targets: Vec<Target>,
}

impl Model for Selection {
    ghost use Rattle.std.specs.Prelude.{List};
    ghost use Rattle.ec_count.specs.declared.target.Target.{Target};

    ghost Value = { List Target };

    ghost view = { λ c. c.targets.items };
}

/// Returns whether a name chooses a word: it is the word, or that of the word's group, as `B` is of
/// `B.in`.
fn is_name_of(word: &[u8], name: &[u8]) -> bool
    ensures { result ≡ is_name_of word.now name.now }
{
    if !word.starts_with(name) {
        return false;
    }
    match word.get(name.len()) {
        None => true,
        Some(byte) => *byte == b'.',
    }
}

/// Returns whether a name chooses a word.
fn is_named(word: &[u8], name: &str) -> bool
    ensures { result ≡ is_name_of word.now name.now }
{
    is_name_of(word, name.as_bytes())
}

/// Returns whether some name chooses a word.
fn any_named(names: &[&str], word: &[u8]) -> bool
    ensures { result ≡ list_any (λ name. is_name_of word.now name.now) names.now }
{
    names.iter().any(|name| is_named(word, name))
}

/// Returns whether a word is chosen by names. If there are none, all words are.
fn is_chosen(names: &[&str], word: &[u8]) -> bool
    ensures { result ≡ is_chosen names.now word.now }
{
    names.is_empty() || any_named(names, word)
}

/// Returns whether the target of a word is drawn.
fn is_drawn(choice: &NameFilter<'_>, word: &[u8], target: &Target) -> bool
    ensures { result ≡ is_drawn choice.now (word.now, target.now) }
{
    match *target {
        Target::Worker(_) => is_chosen(choice.workers, word),
        _ => is_chosen(choice.objects, word),
    }
}

/// Adds the target of a word, if it is drawn.
fn add_drawn(
    targets: &mut Vec<Target>,
    choice: &NameFilter<'_>,
    word: &[u8],
    target: &Target,
) -> Result<(), AllocError>
    ensures { OnOk result
        (targets.new.items ≡ targets.old.items
        ++ chosen_targets choice.now ((word.now, target.now) ∷ [])) }
{
    if is_drawn(choice, word, target) {
        targets.extend_from_slice(&[*target])?;
    }
    Ok(())
}

/// Returns whether a cell is in the block that a target is.
fn cell_in(cell: usize, target: &Target) -> bool
    ensures { result ≡ cell_in cell target.now }
{
    match *target {
        Target::Cells(first, n) => first.get() <= cell && cell - first.get() < n,
        _ => false,
    }
}

impl Selection {
    /// Returns the targets of a symbol table that are drawn.
    pub fn new(
        alloc: Global,
        choice: &NameFilter<'_>,
        words: &SymbolTable,
    ) -> Result<Selection, AllocError>
        ensures { IfOk result (λ c. c ≡ chosen_targets choice.now words.now) }
    {
        let mut targets = Vec::new(alloc);
        for place in 0..words.len() {
            if let Some((word, target)) = words.at(place) {
                add_drawn(&mut targets, choice, word, &target)?;
            }
        }
        Ok(Selection { targets })
    }

    /// Returns whether a worker is drawn.
    pub fn draws_worker(&self, worker: WorkerId) -> bool
        ensures { result ≡ draws_worker self.now worker }
    {
        self.targets.as_slice().contains(&Target::Worker(worker))
    }

    /// Returns how many of the first `number` workers are drawn.
    pub fn workers_before(&self, number: usize) -> usize
        ensures { result ≤ 16 }
    {
        let drawn = (0..number).filter(|worker| match WorkerId::new(*worker) {
            Some(worker) => self.draws_worker(worker),
            None => false,
        });
        drawn.count().min(16)
    }

    /// Returns whether an eventcount is drawn.
    fn draws_event(&self, event: EventId) -> bool
        ensures { result ≡ draws_event self.now event }
    {
        self.targets.as_slice().contains(&Target::Event(event))
    }

    /// Returns whether a sequencer is drawn.
    fn draws_sequencer(&self, sequencer: SeqId) -> bool
        ensures { result ≡ draws_sequencer self.now sequencer }
    {
        let targets = self.targets.as_slice();
        targets.contains(&Target::Sequencer(sequencer))
    }

    /// Returns whether a cell is drawn.
    fn draws_cell(&self, cell: CellId) -> bool
        ensures { result ≡ draws_cell self.now cell }
    {
        let number = cell.get();
        let targets = self.targets.as_slice();
        targets.iter().any(|target| cell_in(number, target))
    }

    /// Returns whether the object of an act is drawn; `true` for a go.
    pub fn draws_object(&self, act: &Act) -> bool
        ensures { result ≡ draws_object self.now act.now }
    {
        match *act {
            Act::Advance(event) | Act::Read(event) | Act::Await(event, _) | Act::Hand(event, _) => {
                self.draws_event(event)
            }
            Act::Go => true,
            Act::Ticket(sequencer) => self.draws_sequencer(sequencer),
            Act::Put(cell, _) | Act::Get(cell) => self.draws_cell(cell),
        }
    }

    /// Returns whether a call of a worker is drawn: the worker and the object are.
    pub fn draws(&self, worker: WorkerId, act: &Act) -> bool
        ensures { result ≡ draws self.now worker act.now }
    {
        self.draws_worker(worker) && self.draws_object(act)
    }

    /// Returns whether a curve is drawn. That of a balance is drawn if its semaphore's eventcount
    /// is.
    pub fn draws_curve(&self, object: &CurveSource) -> bool
        ensures { result ≡ draws_curve self.now object.now }
    {
        match *object {
            CurveSource::Count(Counter::Event(event)) => self.draws_event(event),
            CurveSource::Count(Counter::Sequencer(sequencer)) => self.draws_sequencer(sequencer),
            CurveSource::Balance(event) => self.draws_event(event),
        }
    }

    /// Returns whether a shade is drawn: its reader is, and so is its database's eventcount of
    /// starts.
    pub fn draws_shade(&self, shade: &Shade) -> bool
        ensures { result ≡ draws_shade self.now (shade_model shade.now) }
    {
        self.draws_worker(shade.accepted.worker) && self.draws_event(shade.count)
    }

    /// Returns whether an arrow is drawn: its producer and its consumer are, and so is its buffer's
    /// eventcount of puts.
    pub fn draws_arrow(&self, arrow: &Arrow) -> bool
        ensures { result ≡ draws_arrow self.now arrow.now }
    {
        let ends = self.draws_worker(arrow.delivery.producer)
            && self.draws_worker(arrow.delivery.consumer);
        ends && self.draws_event(arrow.count)
    }
}
