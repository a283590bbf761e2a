//! Accepted tries, and the rows in which they are stored.
ghost use Rattle.std.specs.Prelude.{◌≡◌, ◌≤◌, [], ◌∷◌, ◌++◌, length, map, take, slice_get, IfOk, OnOk, OnErr};
ghost use Rattle.ec_database.specs.Auditing.{accepted_try};

use ec_count::WorkerId;
use ec_numbers::NumberList;
use std::alloc::{AllocError, Global};
use std::marker::Model;

/// An accepted try: the two reads of its count of starts agree.
#[derive(Debug, PartialEq, Eq, Drop)]
pub struct Accepted {
    /// The reader.
    pub worker: WorkerId,
    /// The version that both reads returned.
    pub version: u64,
    /// The values of the cells, in order.
    pub values: Vec<u64>,
}

/// An accepted try in the rows in which it is stored.
#[derive(Drop)]
pub struct TryView<'a> {
    worker: WorkerId,
    version: u64,
    numbers: &'a NumberList,
    /// Where its values begin.
    first: usize,
    cells: usize,
}

impl<'a> Model for TryView<'a> {
    ghost use Rattle.std.specs.Prelude.{take, drop};
    ghost use Rattle.ec_database.specs.Tries.{AcceptedTry};
    ghost use Rattle.ec_database.specs.kept.Rows.{AreWithin};

    ghost Value = { AcceptedTry };

    ghost view = { λ s. record { worker = s.worker; version = s.version; values = take s.cells (drop s.first s.numbers.now.list) } };

    ghost invariant = { λ s. AreWithin s.first s.cells s.numbers.now.list };
}

impl<'a> TryView<'a> {
    /// Returns the reader.
    pub fn worker(&self) -> WorkerId
        ensures { result ≡ self.now.worker }
    {
        self.worker
    }

    /// Returns the version that both reads returned.
    pub fn version(&self) -> u64
        ensures { result ≡ self.now.version }
    {
        self.version
    }

    /// Returns how many cells were read.
    pub fn cells(&self) -> usize
        ensures { result ≡ length self.now.values }
    {
        self.cells
    }

    /// Returns the value of a cell, by its index.
    pub fn value(&self, place: usize) -> Option<u64>
        ensures { result ≡ slice_get self.now.values place }
    {
        if place < self.cells {
            Some(self.numbers.at(self.first + place))
        } else {
            None
        }
    }

    /// Returns the values of all cells.
    fn values(&self, alloc: Global) -> Result<Vec<u64>, AllocError>
        ensures { IfOk result (λ values. values.items ≡ self.now.values) }
    {
        let cells = self.cells();
        let mut values = Vec::with_capacity(alloc, cells)?;
        for place in 0..cells {
            if let Some(value) = self.value(place) {
                values.push(value)?;
            }
        }
        Ok(values)
    }

    /// Returns a copy of the try that owns its values.
    pub fn to_accepted(&self, alloc: Global) -> Result<Accepted, AllocError>
        ensures { IfOk result (λ accepted. accepted_try accepted ≡ self.now) }
    {
        Ok(Accepted {
            worker: self.worker(),
            version: self.version(),
            values: self.values(alloc)?,
        })
    }
}

/// The accepted tries of a database, in order, as rows of numbers, one after another. A row has the
/// reader, the version and the value of each cell.
#[derive(Drop)]
pub struct AcceptedTries {
    cells: usize,
    count: usize,
    numbers: NumberList,
}

impl Model for AcceptedTries {
    ghost use Rattle.ec_database.specs.Tries.{TryTable};
    ghost use Rattle.ec_database.specs.kept.Rows.{tries_in, AreRows};

    ghost Value = { TryTable };

    ghost view = { λ s. record { cells = s.cells; list = tries_in s.cells s.numbers.list s.count } };

    ghost invariant = { λ s. AreRows s.cells s.numbers.list s.count };
}

/// Adds the numbers of a row, or a proper prefix of them if an allocation fails.
fn add_prefix(
    numbers: &mut NumberList,
    reader: u64,
    version: u64,
    values: &[u64],
) -> Result<(), AllocError>
    ensures ok { OnOk result (numbers.new.list ≡ numbers.old.list ++ reader ∷ version ∷ values.now) }
    ensures prefix { take (length numbers.old.list) numbers.new.list ≡ numbers.old.list }
{
    numbers.push(reader)?;
    numbers.push(version)?;
    for value in values {
        numbers.push(*value)?;
    }
    Ok(())
}

/// Adds the numbers of a row, or changes nothing if an allocation fails.
fn add_row(
    numbers: &mut NumberList,
    reader: u64,
    version: u64,
    values: &[u64],
) -> Result<(), AllocError>
    ensures ok { OnOk result (numbers.new.list ≡ numbers.old.list ++ reader ∷ version ∷ values.now) }
    ensures err { OnErr result (numbers.new.list ≡ numbers.old.list) }
{
    let before = numbers.len();
    if add_prefix(numbers, reader, version, values).is_err() {
        numbers.truncate(before);
        return Err(AllocError);
    }
    Ok(())
}

impl AcceptedTries {
    /// Makes an empty list of tries, of a database with so many cells. Allocates nothing.
    pub(crate) fn new(alloc: Global, cells: usize) -> Self
        requires { cells ≤ 256 }
        ensures { result ≡ record { cells = cells; list = [] } }
    {
        AcceptedTries {
            cells,
            count: 0,
            numbers: NumberList::new(alloc),
        }
    }

    /// Returns how many tries there are.
    pub fn len(&self) -> usize
        ensures { result ≡ length self.now.list }
    {
        self.count
    }

    /// Returns the try at an index, counted from 0.
    pub fn get(&self, place: usize) -> Option<TryView<'_>>
        ensures { result ≡ slice_get self.now.list place }
    {
        let _size = self.numbers.len();
        if place >= self.count {
            return None;
        }
        let first = place * (self.cells + 2);
        Some(TryView {
            worker: WorkerId::new(self.numbers.at(first) as usize).unwrap(),
            version: self.numbers.at(first + 1),
            numbers: &self.numbers,
            first: first + 2,
            cells: self.cells,
        })
    }

    /// Adds a try at the end, or changes nothing if an allocation fails.
    pub(crate) fn push(
        &mut self,
        worker: WorkerId,
        version: u64,
        values: &[u64],
    ) -> Result<(), AllocError>
        requires { length values.now ≡ self.old.cells }
        ensures cells { self.new.cells ≡ self.old.cells }
        ensures ok { OnOk result (self.new.list ≡ self.old.list ++ record { worker = worker; version = version; values = values.now } ∷ []) }
        ensures err { OnErr result (self.new.list ≡ self.old.list) }
    {
        let AcceptedTries { count, numbers, .. } = self;
        add_row(numbers, worker.get() as u64, version, values)?;
        let _size = numbers.len();
        *count += 1;
        Ok(())
    }

    /// Returns a copy of each try, in order.
    pub fn to_list(&self, alloc: Global) -> Result<Vec<Accepted>, AllocError>
        ensures { IfOk result (λ list. map accepted_try list.items ≡ self.now.list) }
    {
        let mut list = Vec::with_capacity(alloc, self.len())?;
        for place in 0..self.len() {
            if let Some(accepted) = self.get(place) {
                list.push(accepted.to_accepted(alloc)?)?;
            }
        }
        Ok(list)
    }
}
