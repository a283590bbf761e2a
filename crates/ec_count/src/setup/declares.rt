//! What is declared at an id.
ghost use Rattle.std.specs.Prelude.{IsTrue, ◌↔◌, ◌≡◌};
ghost use Rattle.ec_count.specs.Declares.{DeclaresFixedEvent, DeclaresSequencer, DeclaresCells};
ghost use Rattle.ec_count.specs.kept.Rows.{has_fixed_event_row, has_sequencer_row, has_cell_row};

use super::Setup;
use crate::{CellId, EventId, SeqId, WorkerId};

impl Setup {
    /// Returns whether this is a fixed eventcount with exactly these signallers and observers.
    ///
    /// The signallers are in order of component, the observers in order of declaration.
    pub fn declares_fixed_event(
        &self,
        event: EventId,
        signal: &[WorkerId],
        observe: &[WorkerId],
    ) -> bool
        ensures { IsTrue result ↔ DeclaresFixedEvent self.now event signal.now observe.now }
    {
        self.has_fixed_event_row(event.get(), signal, observe)
    }

    /// Returns whether this is a sequencer with exactly these takers, in order of declaration.
    pub fn declares_sequencer(&self, sequencer: SeqId, take: &[WorkerId]) -> bool
        ensures { IsTrue result ↔ DeclaresSequencer self.now sequencer take.now }
    {
        self.has_sequencer_row(sequencer.get(), take)
    }

    /// Returns whether the n cells from this one on have exactly these writers and readers.
    ///
    /// Both are in order of declaration.
    pub fn declares_cells(
        &self,
        first: CellId,
        n: usize,
        write: &[WorkerId],
        read: &[WorkerId],
    ) -> bool
        ensures { IsTrue result ↔ DeclaresCells self.now first n write.now read.now }
    {
        self.invariant();
        if n > self.cells() {
            return false;
        }
        for k in 0..n {
            if !self.has_cell_row(first.get() + k, write, read) {
                return false;
            }
        }
        true
    }

    fn has_fixed_event_row(&self, event: usize, signal: &[WorkerId], observe: &[WorkerId]) -> bool
        ensures { result ≡ has_fixed_event_row self.now event signal.now observe.now }
    {
        match self.events.as_slice().get(event) {
            Some(row) => {
                row.signal.as_slice() == signal && row.observe.as_slice() == observe && row.fixed
            }
            None => false,
        }
    }

    fn has_sequencer_row(&self, sequencer: usize, take: &[WorkerId]) -> bool
        ensures { result ≡ has_sequencer_row self.now sequencer take.now }
    {
        match self.takers.as_slice().get(sequencer) {
            Some(row) => row.as_slice() == take,
            None => false,
        }
    }

    fn has_cell_row(&self, cell: usize, write: &[WorkerId], read: &[WorkerId]) -> bool
        ensures { result ≡ has_cell_row self.now cell write.now read.now }
    {
        match self.cells.as_slice().get(cell) {
            Some(row) => row.write.as_slice() == write && row.read.as_slice() == read,
            None => false,
        }
    }
}
