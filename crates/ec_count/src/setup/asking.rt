//! What is declared: how many of each object, who has which right, and who is read-only.
ghost use Rattle.std.specs.Prelude.{◌≡◌, ◌≤◌, ◌<◌, length, IfSome};
ghost use Rattle.ec_count.specs.Lists.{observers, takers, writers, readers};
ghost use Rattle.ec_count.specs.Tables.{component_of, components, signaller, signallers, is_silent, signals_any, takes_any, writes_any, may_observe, may_hand, may_take, may_write, may_read};

use super::Setup;
use crate::{CellId, EventId, Limit, SeqId, WorkerId};

impl Setup {
    /// Returns the limit of each component and each sequencer.
    #[inline(always)]
    pub fn limit(&self) -> Limit
        ensures { result ≡ self.now.limit }
    {
        self.limit
    }

    /// Returns how many workers are declared.
    #[inline(always)]
    pub fn workers(&self) -> usize
        ensures value { result ≡ self.now.workers }
        ensures few { result ≤ 16 }
    {
        self.workers
    }

    /// Returns how many eventcounts are declared.
    #[inline(always)]
    pub fn events(&self) -> usize
        ensures { result ≡ length self.now.events }
    {
        self.events.len()
    }

    /// Returns how many sequencers are declared.
    #[inline(always)]
    pub fn sequencers(&self) -> usize
        ensures { result ≡ length self.now.takers }
    {
        self.takers.len()
    }

    /// Returns how many cells are declared.
    #[inline(always)]
    pub fn cells(&self) -> usize
        ensures { result ≡ length self.now.cells }
    {
        self.cells.len()
    }

    /// Returns how many components an eventcount has; `None` if it is not declared.
    #[inline(always)]
    pub fn components(&self, event: EventId) -> Option<usize>
        ensures value { result ≡ components self.now event }
        ensures few { IfSome result (λ n. n ≤ 16) }
    {
        let row = self.events.as_slice().get(event.get())?;
        Some(row.signal.len())
    }

    /// Returns the component of an eventcount that the worker is declared to signal.
    ///
    /// That is its position among the signallers, counted from 0. It is `None` if the worker
    /// signals none, and so if either is not declared.
    pub fn component_of(&self, event: EventId, worker: WorkerId) -> Option<usize>
        ensures value { result ≡ component_of self.now event worker }
        ensures few { IfSome result (λ c. c < 16) }
    {
        let row = self.events.as_slice().get(event.get())?;
        row.signal.place(worker)
    }

    /// Returns the worker that is declared to signal a component; `None` if there is no such
    /// component.
    pub fn signaller(&self, event: EventId, component: usize) -> Option<WorkerId>
        ensures { result ≡ signaller self.now event component }
    {
        let row = self.events.as_slice().get(event.get())?;
        row.signal.get(component)
    }

    /// Returns whether the worker may read and await the eventcount.
    #[inline(always)]
    pub fn may_observe(&self, event: EventId, worker: WorkerId) -> bool
        ensures { result ≡ may_observe self.now event worker }
    {
        let row = self.events.as_slice().get(event.get());
        row.map_or(false, |row| row.observe.contains(worker))
    }

    /// Returns whether the eventcount is declared, and its components are transferable.
    ///
    /// That is so if `add_event` added it, but not if `add_fixed_event` did.
    #[inline(always)]
    pub fn may_hand(&self, event: EventId) -> bool
        ensures { result ≡ may_hand self.now event }
    {
        let row = self.events.as_slice().get(event.get());
        row.map_or(false, |row| !row.fixed)
    }

    /// Returns whether the worker may draw tickets of the sequencer.
    #[inline(always)]
    pub fn may_take(&self, sequencer: SeqId, worker: WorkerId) -> bool
        ensures { result ≡ may_take self.now sequencer worker }
    {
        let row = self.takers.as_slice().get(sequencer.get());
        row.map_or(false, |take| take.contains(worker))
    }

    /// Returns whether the worker may put into the cell.
    #[inline(always)]
    pub fn may_write(&self, cell: CellId, worker: WorkerId) -> bool
        ensures { result ≡ may_write self.now cell worker }
    {
        let row = self.cells.as_slice().get(cell.get());
        row.map_or(false, |access| access.write.contains(worker))
    }

    /// Returns whether the worker may get the cell's value.
    #[inline(always)]
    pub fn may_read(&self, cell: CellId, worker: WorkerId) -> bool
        ensures { result ≡ may_read self.now cell worker }
    {
        let row = self.cells.as_slice().get(cell.get());
        row.map_or(false, |access| access.read.contains(worker))
    }

    /// Returns whether the worker is declared and read-only.
    ///
    /// Then it signals no eventcount, takes from no sequencer and writes no cell.
    pub fn is_silent(&self, worker: WorkerId) -> bool
        ensures { result ≡ is_silent self.now worker }
    {
        worker.get() < self.workers()
            && !self.signals_any(worker)
            && !self.takes_any(worker)
            && !self.writes_any(worker)
    }

    fn signals_any(&self, worker: WorkerId) -> bool
        ensures { result ≡ signals_any self.now worker }
    {
        let rows = self.events.as_slice();
        rows.iter().any(|row| row.signal.contains(worker))
    }

    fn takes_any(&self, worker: WorkerId) -> bool
        ensures { result ≡ takes_any self.now worker }
    {
        let lists = self.takers.as_slice();
        lists.iter().any(|take| take.contains(worker))
    }

    fn writes_any(&self, worker: WorkerId) -> bool
        ensures { result ≡ writes_any self.now worker }
    {
        let rows = self.cells.as_slice();
        rows.iter().any(|access| access.write.contains(worker))
    }

    /// Returns the signallers of an eventcount in order of component; none if it is not declared.
    pub fn signallers(&self, event: EventId) -> &[WorkerId]
        ensures { result.now ≡ signallers self.now event }
    {
        let row = self.events.as_slice().get(event.get());
        row.map_or(&[], |rights| rights.signal.as_slice())
    }

    /// Returns the observers of an eventcount as they were declared; none if it is not declared.
    pub fn observers(&self, event: EventId) -> &[WorkerId]
        ensures { result.now ≡ observers self.now event }
    {
        let row = self.events.as_slice().get(event.get());
        row.map_or(&[], |rights| rights.observe.as_slice())
    }

    /// Returns the takers of a sequencer, as they were declared; none if it is not declared.
    pub fn takers(&self, sequencer: SeqId) -> &[WorkerId]
        ensures { result.now ≡ takers self.now sequencer }
    {
        let row = self.takers.as_slice().get(sequencer.get());
        row.map_or(&[], |take| take.as_slice())
    }

    /// Returns the writers of a cell, as they were declared; none if it is not declared.
    pub fn writers(&self, cell: CellId) -> &[WorkerId]
        ensures { result.now ≡ writers self.now cell }
    {
        let row = self.cells.as_slice().get(cell.get());
        row.map_or(&[], |access| access.write.as_slice())
    }

    /// Returns the readers of a cell, as they were declared; none if it is not declared.
    pub fn readers(&self, cell: CellId) -> &[WorkerId]
        ensures { result.now ≡ readers self.now cell }
    {
        let row = self.cells.as_slice().get(cell.get());
        row.map_or(&[], |access| access.read.as_slice())
    }
}
