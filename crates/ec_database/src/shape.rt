//! The objects of a database.
ghost use Rattle.std.specs.Prelude.{◌≡◌, ℕ, ◌+◌, ◌≤◌, ◌<◌, ◌↔◌, IsTrue, List, length, None, IfOk, OnOk, OnErr};
ghost use Rattle.std.specs.Result.{result_err};
ghost use Rattle.ec_count.specs.Tables.{IsDeclared};
ghost use Rattle.ec_database.specs.Following.{is_cell};
ghost use Rattle.ec_database.specs.Shapes.{DeclaresDatabase, Fits, IsShape, database_fault, with_database, next_database};

use ec_count::{CellId, EventId, SeqId, Setup, SetupFault, WorkerId, concat, shares_worker};
use std::marker::Model;

/// The objects of a database: they are declared together, by `declare_database`.
#[derive(Clone, Copy, Debug, PartialEq, Eq)]
pub struct DatabaseShape {
    start: EventId,
    done: EventId,
    turn: SeqId,
    first_cell: CellId,
    cells: u16,
}

impl Model for DatabaseShape {
    ghost use Rattle.ec_database.specs.Shapes.{Database, IsShape};

    ghost Value = { Database };

    ghost view = { λ d. record { start = d.start; done = d.done; turn = d.turn; first_cell = d.first_cell; cells = d.cells } };

    ghost invariant = { λ d. IsShape (record { start = d.start; done = d.done; turn = d.turn; first_cell = d.first_cell; cells = d.cells }) };

    ghost inverse = { λ d. record { start = d.start; done = d.done; turn = d.turn; first_cell = d.first_cell; cells = d.cells } };
}

impl DatabaseShape {
    /// Returns the eventcount of the writes that were started: a writer advances it before it
    /// writes.
    pub fn start(&self) -> EventId
        ensures { result ≡ self.now.start }
    {
        self.start
    }

    /// Returns the eventcount of the writes that are done: a writer advances it when it has
    /// written.
    pub fn done(&self) -> EventId
        ensures { result ≡ self.now.done }
    {
        self.done
    }

    /// Returns the sequencer that gives the writers their turns.
    pub fn turn(&self) -> SeqId
        ensures { result ≡ self.now.turn }
    {
        self.turn
    }

    /// Returns the first cell; the others follow it.
    pub fn first_cell(&self) -> CellId
        ensures { result ≡ self.now.first_cell }
    {
        self.first_cell
    }

    /// Returns the number of cells, from 1 to 256.
    pub fn cells(&self) -> usize
        ensures value { result ≡ self.now.cells }
        ensures some { 0 < result }
        ensures room { self.now.first_cell + result ≤ 256 }
    {
        self.cells as usize
    }

    /// States what is true of a shape.
    pub fn invariant(&self)
        ensures { IsShape self.now }
    {
        let _cells = self.cells;
    }

    /// Returns a cell by its index, counted from 0.
    pub(crate) fn cell_at(&self, place: usize) -> CellId
        requires { place < self.now.cells }
        ensures { result ≡ self.now.first_cell + place }
    {
        CellId::new(self.first_cell.get() + place).unwrap()
    }

    /// Returns whether this is one of the cells.
    pub(crate) fn is_cell(&self, cell: CellId) -> bool
        ensures { result ≡ is_cell self.now cell }
    {
        let first = self.first_cell.get();
        first <= cell.get() && cell.get() < first + self.cells()
    }

    /// Returns whether the objects are declared there, with the rights of a database. The
    /// components of the eventcounts are not transferable. Writers and readers share no worker, and
    /// there is one of each at least.
    pub fn fits(&self, setup: &Setup) -> bool
        ensures { IsTrue result ↔ Fits self.now setup.now }
    {
        setup.invariant();
        let write = setup.signallers(self.start);
        let read = setup.observers(self.start);
        let both = concat(write, read);
        setup.declares_fixed_event(self.start, write, read)
            && setup.declares_fixed_event(self.done, write, both.as_slice())
            && setup.declares_sequencer(self.turn, write)
            && setup.declares_cells(self.first_cell, self.cells(), write, read)
            && !read.is_empty()
            && !shares_worker(write, read)
    }
}

/// Declares a database of n cells for these writers and readers. Reports `TooMany` if a table has
/// no room for 2 more eventcounts, a sequencer or n more cells, or if a list has more than 16
/// entries. Reports `Empty` if there is no writer or no reader, or n is 0. Reports `UnknownWorker`
/// if a list names a worker that is not declared, `Repeated` if a list names one twice, and
/// `TwoRoles` if a worker is in both lists.
pub fn declare_database(
    setup: &mut Setup,
    n: usize,
    write: &[WorkerId],
    read: &[WorkerId],
) -> Result<DatabaseShape, SetupFault>
    ensures fault { result_err result ≡ database_fault setup.old n write.now read.now }
    ensures shape { IfOk result (λ d. d ≡ next_database setup.old n) }
    ensures ok { OnOk result (setup.new ≡ with_database setup.old n write.now read.now) }
    ensures fits { IfOk result (λ d. DeclaresDatabase d setup.new write.now read.now) }
    ensures err { OnErr result (setup.new ≡ setup.old) }
{
    setup.invariant();
    let full = setup.events() + 2 > 32 || setup.sequencers() + 1 > 32 || n > 256 - setup.cells();
    if let Some(fault) = setup.roles_fault(full, write, read, n == 0) {
        return Err(fault);
    }
    Ok(add_database(setup, n, write, read))
}

fn add_database(setup: &mut Setup, n: usize, write: &[WorkerId], read: &[WorkerId]) -> DatabaseShape
    requires declared { IsDeclared setup.old }
    requires free { database_fault setup.old n write.now read.now ≡ None }
    ensures shape { result ≡ next_database setup.old n }
    ensures after { setup.new ≡ with_database setup.old n write.now read.now }
{
    let both = concat(write, read);
    let start = setup.add_fixed_event(write, read).unwrap();
    let done = setup.add_fixed_event(write, both.as_slice()).unwrap();
    let turn = setup.add_sequencer(write).unwrap();
    let first_cell = setup.add_cells(n, write, read).unwrap();
    DatabaseShape {
        start,
        done,
        turn,
        first_cell,
        cells: n as u16,
    }
}
