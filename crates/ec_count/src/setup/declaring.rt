//! Adds declarations.
ghost use Rattle.std.specs.Prelude.{None, nat_lt, replicate, if◌then◌else◌, ◌≡◌, ◌≤◌, ◌+◌, false, List, [], ◌∷◌, ◌++◌, length, OnOk, OnErr, IfOk, nat_le, Some, ◌==◌};
ghost use Rattle.std.specs.Result.{result_err};
ghost use Rattle.ec_count.specs.Members.{has_repeat};
ghost use Rattle.ec_count.specs.Tables.{event_fault, list_fault, cells_fault, with_rights, with_event, with_fixed_event, with_cells};

use super::{Access, Rights, Setup, SetupFault, names_unknown};
use crate::members::has_repeat;
use crate::{CellId, EventId, Members, SeqId, WorkerId};
use arrayvec::ArrayVec;

impl Setup {
    /// Declares one more worker.
    pub fn add_worker(&mut self) -> Result<WorkerId, SetupFault>
        ensures fault { result_err result ≡ (if nat_lt self.old.workers 16 then None else Some SetupFault.TooMany) }
        ensures id { IfOk result (λ w. w ≡ self.old.workers) }
        ensures ok { OnOk result (self.new ≡ record self.old { workers = self.old.workers + 1 }) }
        ensures err { OnErr result (self.new ≡ self.old) }
    {
        let id = WorkerId::new(self.workers).ok_or(SetupFault::TooMany)?;
        self.workers += 1;
        Ok(id)
    }

    /// Adds an eventcount with these signallers, one for each component, and these observers.
    ///
    /// Its components are transferable.
    pub fn add_event(
        &mut self,
        signal: &[WorkerId],
        observe: &[WorkerId],
    ) -> Result<EventId, SetupFault>
        ensures fault { result_err result ≡ event_fault self.old signal.now observe.now }
        ensures id { IfOk result (λ e. e ≡ length self.old.events) }
        ensures ok { OnOk result (self.new ≡ with_event self.old signal.now observe.now) }
        ensures err { OnErr result (self.new ≡ self.old) }
    {
        self.add_rights(signal, observe, false)
    }

    /// Adds a fixed eventcount: as `add_event`, but its components are not transferable.
    ///
    /// The eventcounts of a group are fixed.
    pub fn add_fixed_event(
        &mut self,
        signal: &[WorkerId],
        observe: &[WorkerId],
    ) -> Result<EventId, SetupFault>
        ensures fault { result_err result ≡ event_fault self.old signal.now observe.now }
        ensures id { IfOk result (λ e. e ≡ length self.old.events) }
        ensures ok { OnOk result (self.new ≡ with_fixed_event self.old signal.now observe.now) }
        ensures err { OnErr result (self.new ≡ self.old) }
    {
        self.add_rights(signal, observe, true)
    }

    fn add_rights(
        &mut self,
        signal: &[WorkerId],
        observe: &[WorkerId],
        fixed: bool,
    ) -> Result<EventId, SetupFault>
        ensures fault { result_err result ≡ event_fault self.old signal.now observe.now }
        ensures id { IfOk result (λ e. e ≡ length self.old.events) }
        ensures ok { OnOk result (self.new ≡ with_rights self.old (record { signal = signal.now; observe = observe.now; fixed = fixed })) }
        ensures err { OnErr result (self.new ≡ self.old) }
    {
        if let Some(fault) = self.event_fault(signal, observe) {
            return Err(fault);
        }
        let Some(id) = EventId::new(self.events()) else {
            return Err(SetupFault::TooMany);
        };
        self.events.push(Rights {
            signal: Members::new(signal),
            observe: Members::new(observe),
            fixed,
        });
        Ok(id)
    }

    /// Adds a sequencer from which these workers may draw tickets.
    pub fn add_sequencer(&mut self, take: &[WorkerId]) -> Result<SeqId, SetupFault>
        ensures fault { result_err result ≡ list_fault self.old (nat_le 32 (length self.old.takers)) take.now (length take.now == 0) }
        ensures id { IfOk result (λ q. q ≡ length self.old.takers) }
        ensures ok { OnOk result (self.new ≡ record self.old { takers = self.old.takers ++ take.now ∷ [] }) }
        ensures err { OnErr result (self.new ≡ self.old) }
    {
        if let Some(fault) = self.list_fault(self.takers.is_full(), take, take.is_empty()) {
            return Err(fault);
        }
        let Some(id) = SeqId::new(self.sequencers()) else {
            return Err(SetupFault::TooMany);
        };
        self.takers.push(Members::new(take));
        Ok(id)
    }

    /// Adds n cells with these writers and readers.
    pub fn add_cells(
        &mut self,
        n: usize,
        write: &[WorkerId],
        read: &[WorkerId],
    ) -> Result<CellId, SetupFault>
        ensures fault { result_err result ≡ cells_fault self.old n write.now read.now }
        ensures id { IfOk result (λ x. x ≡ length self.old.cells) }
        ensures ok { OnOk result (self.new ≡ with_cells self.old n write.now read.now) }
        ensures err { OnErr result (self.new ≡ self.old) }
    {
        if let Some(fault) = self.cells_fault(n, write, read) {
            return Err(fault);
        }
        let Some(id) = CellId::new(self.cells()) else {
            return Err(SetupFault::TooMany);
        };
        push_cells(&mut self.cells, n, write, read);
        Ok(id)
    }

    fn event_fault(&self, signal: &[WorkerId], observe: &[WorkerId]) -> Option<SetupFault>
        ensures { result ≡ event_fault self.now signal.now observe.now }
    {
        if self.events.is_full() || signal.len() > 16 || observe.len() > 16 {
            return Some(SetupFault::TooMany);
        }
        if names_unknown(self.workers, signal) || names_unknown(self.workers, observe) {
            return Some(SetupFault::UnknownWorker);
        }
        if has_repeat(signal) || has_repeat(observe) {
            return Some(SetupFault::Repeated);
        }
        if signal.is_empty() {
            return Some(SetupFault::Empty);
        }
        None
    }

    fn list_fault(&self, full: bool, list: &[WorkerId], none: bool) -> Option<SetupFault>
        ensures { result ≡ list_fault self.now full list.now none }
    {
        if full || list.len() > 16 {
            return Some(SetupFault::TooMany);
        }
        if names_unknown(self.workers, list) {
            return Some(SetupFault::UnknownWorker);
        }
        if has_repeat(list) {
            return Some(SetupFault::Repeated);
        }
        if none {
            return Some(SetupFault::Empty);
        }
        None
    }

    fn cells_fault(&self, n: usize, write: &[WorkerId], read: &[WorkerId]) -> Option<SetupFault>
        ensures { result ≡ cells_fault self.now n write.now read.now }
    {
        if n > self.cells.remaining_capacity() || write.len() > 16 || read.len() > 16 {
            return Some(SetupFault::TooMany);
        }
        if names_unknown(self.workers, write) || names_unknown(self.workers, read) {
            return Some(SetupFault::UnknownWorker);
        }
        if has_repeat(write) || has_repeat(read) {
            return Some(SetupFault::Repeated);
        }
        if n == 0 || write.is_empty() {
            return Some(SetupFault::Empty);
        }
        None
    }
}

/// Adds n cells with these writers and readers to the table.
fn push_cells(cells: &mut ArrayVec<Access, 256>, n: usize, write: &[WorkerId], read: &[WorkerId])
    requires room { length cells.old.items + n ≤ 256 }
    requires few { (length write.now ≤ 16) × (length read.now ≤ 16) }
    requires different { (has_repeat write.now ≡ false) × (has_repeat read.now ≡ false) }
    ensures { cells.new.items ≡ cells.old.items ++ replicate n (record { write = write.now; read = read.now }) }
{
    for _made in 0..n {
        cells.push(Access {
            write: Members::new(write),
            read: Members::new(read),
        });
    }
}
