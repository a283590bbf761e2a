//! The objects of a buffer.
ghost use Rattle.std.specs.Prelude.{◌≡◌, ℕ, ◌+◌, ◌%◌, ◌≤◌, ◌<◌, ◌↔◌, IsTrue, List, length, None, IfOk, OnOk, OnErr};
ghost use Rattle.std.specs.Result.{result_err};
ghost use Rattle.ec_count.specs.Tables.{IsDeclared};
ghost use Rattle.ec_buffer.specs.Follows.{is_cell};
ghost use Rattle.ec_buffer.specs.Shapes.{IsShape, DeclaresBuffer, Fits, buffer_fault, with_buffer, next_buffer};

use ec_count::{CellId, EventId, SeqId, Setup, SetupFault, WorkerId, concat, shares_worker};
use std::marker::Model;

/// The objects of a buffer: they are declared together, by `declare_buffer`.
#[derive(Clone, Copy, Debug, PartialEq, Eq)]
pub struct BufferShape {
    in_count: EventId,
    out_count: EventId,
    put_seq: SeqId,
    take_seq: SeqId,
    first_cell: CellId,
    cells: u16,
}

impl Model for BufferShape {
    ghost use Rattle.ec_buffer.specs.Shapes.{Buffer, IsShape};

    ghost Value = { Buffer };

    ghost view = { λ b. record { in_count = b.in_count; out_count = b.out_count; put_seq = b.put_seq; take_seq = b.take_seq; first_cell = b.first_cell; cells = b.cells } };

    ghost invariant = { λ b. IsShape (record { in_count = b.in_count; out_count = b.out_count; put_seq = b.put_seq; take_seq = b.take_seq; first_cell = b.first_cell; cells = b.cells }) };

    ghost inverse = { λ b. record { in_count = b.in_count; out_count = b.out_count; put_seq = b.put_seq; take_seq = b.take_seq; first_cell = b.first_cell; cells = b.cells } };
}

impl BufferShape {
    /// States what is true of a shape: the eventcounts differ, and so do the sequencers; and there
    /// are cells.
    pub fn invariant(&self)
        ensures { IsShape self.now }
    {
        let _ = &self.in_count;
    }

    /// Returns the eventcount that the producers advance, once for each put.
    pub fn in_count(&self) -> EventId
        ensures { result ≡ self.now.in_count }
    {
        self.in_count
    }

    /// Returns the eventcount that the consumers advance, once for each get.
    pub fn out_count(&self) -> EventId
        ensures { result ≡ self.now.out_count }
    {
        self.out_count
    }

    /// Returns the sequencer of the producers.
    pub fn put_seq(&self) -> SeqId
        ensures { result ≡ self.now.put_seq }
    {
        self.put_seq
    }

    /// Returns the sequencer of the consumers.
    pub fn take_seq(&self) -> SeqId
        ensures { result ≡ self.now.take_seq }
    {
        self.take_seq
    }

    /// Returns the first cell; the others follow it.
    pub fn first_cell(&self) -> CellId
        ensures { result ≡ self.now.first_cell }
    {
        self.first_cell
    }

    /// Returns the number of cells, from 1 to 256.
    pub fn cells(&self) -> usize
        ensures value { result ≡ self.now.cells }
        ensures some { 0 < result }
        ensures room { self.now.first_cell + result ≤ 256 }
    {
        self.cells as usize
    }

    /// Returns whether this is one of the cells.
    pub(crate) fn is_cell(&self, cell: CellId) -> bool
        ensures { result ≡ is_cell self.now cell }
    {
        let first = self.first_cell.get();
        first <= cell.get() && cell.get() < first + self.cells()
    }

    /// Returns the cell of an item, by its number.
    pub(crate) fn cell_of(&self, number: u64) -> CellId
        ensures { result ≡ self.now.first_cell + number % self.now.cells }
    {
        let place = self.first_cell.get() + (number % self.cells() as u64) as usize;
        CellId::new(place).unwrap()
    }

    /// Returns whether the objects are declared there, with the rights of a buffer. The components
    /// of the eventcounts are not transferable, and producers and consumers share no worker.
    pub fn fits(&self, setup: &Setup) -> bool
        ensures { IsTrue result ↔ Fits self.now setup.now }
    {
        setup.invariant();
        let produce = setup.signallers(self.in_count);
        let consume = setup.signallers(self.out_count);
        let both = concat(produce, consume);
        let observe = both.as_slice();
        setup.declares_fixed_event(self.in_count, produce, observe)
            && setup.declares_fixed_event(self.out_count, consume, observe)
            && setup.declares_sequencer(self.put_seq, produce)
            && setup.declares_sequencer(self.take_seq, consume)
            && setup.declares_cells(self.first_cell, self.cells(), produce, consume)
            && !shares_worker(produce, consume)
    }
}

/// Declares a buffer of n cells for these producers and consumers. Reports `TooMany` if a table has
/// no room for 2 more eventcounts, 2 more sequencers or n more cells, or if a list has more than 16
/// entries. Reports `Empty` if there is no producer or no consumer, or n is 0. Reports `TwoRoles`
/// if a worker is in both lists.
pub fn declare_buffer(
    setup: &mut Setup,
    n: usize,
    produce: &[WorkerId],
    consume: &[WorkerId],
) -> Result<BufferShape, SetupFault>
    ensures fault { result_err result ≡ buffer_fault setup.old n produce.now consume.now }
    ensures shape { IfOk result (λ b. b ≡ next_buffer setup.old n) }
    ensures ok { OnOk result (setup.new ≡ with_buffer setup.old n produce.now consume.now) }
    ensures fits { IfOk result (λ b. DeclaresBuffer b setup.new produce.now consume.now) }
    ensures err { OnErr result (setup.new ≡ setup.old) }
{
    setup.invariant();
    let full = setup.events() + 2 > 32 || setup.sequencers() + 2 > 32 || n > 256 - setup.cells();
    if let Some(fault) = setup.roles_fault(full, produce, consume, n == 0) {
        return Err(fault);
    }
    Ok(add_buffer(setup, n, produce, consume))
}

fn add_buffer(
    setup: &mut Setup,
    n: usize,
    produce: &[WorkerId],
    consume: &[WorkerId],
) -> BufferShape
    requires declared { IsDeclared setup.old }
    requires free { buffer_fault setup.old n produce.now consume.now ≡ None }
    ensures shape { result ≡ next_buffer setup.old n }
    ensures after { setup.new ≡ with_buffer setup.old n produce.now consume.now }
{
    let both = concat(produce, consume);
    let in_count = setup.add_fixed_event(produce, both.as_slice()).unwrap();
    let out_count = setup.add_fixed_event(consume, both.as_slice()).unwrap();
    let put_seq = setup.add_sequencer(produce).unwrap();
    let take_seq = setup.add_sequencer(consume).unwrap();
    let first_cell = setup.add_cells(n, produce, consume).unwrap();
    BufferShape {
        in_count,
        out_count,
        put_seq,
        take_seq,
        first_cell,
        cells: n as u16,
    }
}
