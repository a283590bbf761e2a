//! Sums over a linearization.
ghost use Rattle.std.specs.Prelude.{ℕ, List, ◌≡◌, ◌+◌, ◌<◌, ◌∷◌, ◌++◌, [], IfOk, OnOk, length};
ghost use Rattle.std.specs.Prelude.{slice_index_or};
ghost use Rattle.calls_report.specs.Totals.{is_effect};
ghost use Rattle.calls_report.specs.kept.Sums.{IsSetAt, AreSums, AddsEffect, AddsUnits, AddsPair};
ghost use Rattle.calls_report.specs.kept.Sums.{list_at, IsLonger, AddsItem};

use calls_core::{Call, Op, Order, Placed, Reply};
use std::alloc::{AllocError, Global};

/// The sums over a linearization. A number that is not stored is 0.
#[derive(Drop)]
pub(crate) struct Sums {
    /// For each object how many advances, tickets and puts of it there are.
    pub(crate) effects: Vec<usize>,
    /// For each object the value that was put last.
    pub(crate) values: Vec<usize>,
    /// For each group how many units were added.
    pub(crate) added: Vec<usize>,
    /// For each group how many units were taken.
    pub(crate) taken: Vec<usize>,
    /// How many times units of two semaphores were taken at once.
    pub(crate) pairs: usize,
    /// For each object the items that were put into it, in order.
    pub(crate) produced: Vec<Vec<usize>>,
    /// For each object how many items were taken out of it.
    pub(crate) consumed: Vec<usize>,
}

/// Returns the number at an index, 0 if none is stored.
pub(crate) fn number_at(numbers: &[usize], i: usize) -> usize
    ensures { result ≡ slice_index_or numbers.now i 0 }
{
    match numbers.get(i) {
        Some(n) => *n,
        None => 0,
    }
}

/// Extends the numbers by zeros, so that there is one at an index.
fn reach(numbers: &mut Vec<usize>, i: usize) -> Result<(), AllocError>
    ensures room { OnOk result (i < length numbers.new.items) }
    ensures same { (j : ℕ) → slice_index_or numbers.new.items j 0 ≡ slice_index_or numbers.old.items
        j 0 }
{
    while numbers.len() <= i {
        numbers.push(0)?;
    }
    Ok(())
}

/// Sets the number at an index.
fn set(numbers: &mut Vec<usize>, i: usize, n: usize) -> Result<(), AllocError>
    ensures { OnOk result (IsSetAt i n numbers.old.items numbers.new.items) }
{
    reach(numbers, i)?;
    numbers[i] = n;
    Ok(())
}

/// Adds one to the number at an index.
fn add_one(numbers: &mut Vec<usize>, i: usize) -> Result<(), AllocError>
    ensures { OnOk result (IsSetAt i (slice_index_or numbers.old.items i 0 + 1) numbers.old.items
        numbers.new.items) }
{
    let Some(n) = number_at(numbers, i).checked_add(1) else {
        return Err(AllocError);
    };
    set(numbers, i, n)
}

/// Extends the lists by empty ones, so that there is one at an index.
fn reach_list(alloc: Global, lists: &mut Vec<Vec<usize>>, i: usize) -> Result<(), AllocError>
    ensures room { OnOk result (i < length lists.new.items) }
    ensures same { (j : ℕ) → list_at lists.new.items j ≡ list_at lists.old.items j }
{
    while lists.len() <= i {
        lists.push(Vec::new(alloc))?;
    }
    Ok(())
}

/// Adds a number to the list at an index.
fn push_at(alloc: Global, lists: &mut Vec<Vec<usize>>, i: usize, n: usize) -> Result<(), AllocError>
    ensures { OnOk result (IsLonger i (n ∷ []) lists.old.items lists.new.items) }
{
    reach_list(alloc, lists, i)?;
    lists[i].push(n)?;
    Ok(())
}

/// Returns whether the operation is an advance, a ticket or a put.
fn is_effect(op: Op) -> bool
    ensures { result ≡ is_effect op }
{
    matches!(op, Op::Advance | Op::Ticket | Op::Put(_))
}

impl Sums {
    /// Returns the sums over no calls.
    fn none(alloc: Global) -> Sums
        ensures { AreSums [] result }
    {
        Sums {
            effects: Vec::new(alloc),
            values: Vec::new(alloc),
            added: Vec::new(alloc),
            taken: Vec::new(alloc),
            pairs: 0,
            produced: Vec::new(alloc),
            consumed: Vec::new(alloc),
        }
    }

    /// Adds what a call does to its object.
    fn add_effect(&mut self, call: &Call) -> Result<(), AllocError>
        ensures { OnOk result (AddsEffect call.now self.old self.new) }
    {
        if is_effect(call.op) {
            add_one(&mut self.effects, call.object)?;
        }
        if let Op::Put(value) = call.op {
            set(&mut self.values, call.object, value)?;
        }
        Ok(())
    }

    /// Adds a unit taken of each of two semaphores at once.
    fn add_pair(&mut self, i: usize, j: usize) -> Result<(), AllocError>
        ensures { OnOk result (AddsPair i j self.old self.new) }
    {
        add_one(&mut self.taken, i)?;
        if i != j {
            add_one(&mut self.taken, j)?;
        }
        let Some(pairs) = self.pairs.checked_add(1) else {
            return Err(AllocError);
        };
        self.pairs = pairs;
        Ok(())
    }

    /// Adds the units that a call takes or adds.
    fn add_units(&mut self, call: &Call) -> Result<(), AllocError>
        ensures { OnOk result (AddsUnits call.now self.old self.new) }
    {
        match (call.op, call.reply) {
            (Op::V(i), _) => add_one(&mut self.added, i),
            (Op::P(i), Reply::Done) => add_one(&mut self.taken, i),
            (Op::PBoth(i, j), Reply::Done) => self.add_pair(i, j),
            _ => Ok(()),
        }
    }

    /// Adds the item that a call puts or takes.
    fn add_item(&mut self, alloc: Global, call: &Call) -> Result<(), AllocError>
        ensures { OnOk result (AddsItem call.now self.old self.new) }
    {
        match (call.op, call.reply) {
            (Op::Produce(item), Reply::Done) => {
                push_at(alloc, &mut self.produced, call.object, item)
            }
            (Op::Consume, Reply::Number(_)) => add_one(&mut self.consumed, call.object),
            _ => Ok(()),
        }
    }

    /// Adds a call.
    fn add(&mut self, alloc: Global, placed: &Placed) -> Result<(), AllocError>
        ensures { OnOk result ((order : List Placed) → AreSums order self.old → AreSums
            (order ++ placed.now ∷ []) self.new) }
    {
        self.add_effect(&placed.call)?;
        self.add_units(&placed.call)?;
        self.add_item(alloc, &placed.call)
    }

    /// Returns the sums over a linearization.
    pub(crate) fn of(alloc: Global, order: &Order) -> Result<Sums, AllocError>
        ensures { IfOk result (AreSums order.now) }
    {
        let mut sums = Sums::none(alloc);
        for i in 0..order.len() {
            sums.add(alloc, &order.at(i))?;
        }
        Ok(sums)
    }
}
