//! The totals of the objects after the calls of a linearization, as text.
ghost use Rattle.std.specs.Prelude.{◌≡◌, ◌+◌, ◌<◌, length, List, slice_get, slice_index_or};
ghost use Rattle.std.specs.Prelude.{[], Some, None, if◌then◌else◌, nat_lt};
ghost use Rattle.std.specs.Option.{option_map_or};
ghost use Rattle.ec_text.specs.Puts.{Puts};
ghost use Rattle.calls_core.specs.declared.history.Placed.{Placed};
ghost use Rattle.calls_text.specs.Recordings.{first_group};
ghost use Rattle.calls_report.specs.Totals.{effects, group_event, group_sequencer, group_cell};
ghost use Rattle.calls_report.specs.Totals.{final_numbers, event_total, sequencer_total};
ghost use Rattle.calls_report.specs.Totals.{produced, consumed, last_item};
ghost use Rattle.calls_report.specs.Totals.{cell_total, count_line, cell_line, cell_lines};
ghost use Rattle.calls_report.specs.Totals.{word_totals, totals_text, totals_at};
ghost use Rattle.calls_report.specs.kept.Sums.{AreSums};

use crate::sums::{Sums, number_at};
use calls_text::{Recording, first_cell, first_group, first_sequencer};
use ec_count::{CellId, EventId, SeqId, SymbolTable, Target};
use ec_heading::Group;
use ec_text::Output;
use std::io::Write;

/// A history, and the sums over a linearization.
#[derive(Drop)]
pub(crate) struct Totals<'a> {
    pub(crate) recording: &'a Recording,
    pub(crate) sums: &'a Sums,
}

/// Returns the cell at index `i` of a block, if there is one.
fn cell_at(first: CellId, i: usize) -> Option<CellId>
    ensures { result ≡ (if nat_lt (first + i) 256 then Some (first + i) else None) }
{
    CellId::new(first.get().checked_add(i)?)
}

/// Returns the last item whose number is `i` modulo `n`, 0 if there is none.
fn last_item(items: &[usize], n: usize, i: usize) -> usize
    requires { 0 < n }
    ensures { result ≡ last_item items.now n i }
{
    let mut count = items.len();
    while count > 0 {
        count -= 1;
        if count % n == i {
            return items[count];
        }
    }
    0
}

impl<'a> Totals<'a> {
    /// Returns the index of the object that a group is. `place` is its index among the groups.
    fn object_of(&self, place: usize) -> usize
        requires { place < length self.now.recording.now.heading.groups }
        ensures { result ≡ first_group self.now.recording.now.heading + place }
    {
        // there is a kind for each group, so the sum fits
        let _kinds = self.recording.kinds().len();
        first_group(self.recording.heading()) + place
    }

    /// Returns how many writes of a database there are. `place` is its index among the groups.
    fn writes(&self, place: usize) -> usize
        requires { place < length self.now.recording.now.heading.groups }
        ensures { (order : List Placed) → AreSums order self.now.sums.now → result ≡ effects order
            (first_group self.now.recording.now.heading + place) }
    {
        number_at(&self.sums.effects, self.object_of(place))
    }

    /// Returns the items that were put into a buffer. `place` is its index among the groups.
    fn items(&self, place: usize) -> &[usize]
        requires { place < length self.now.recording.now.heading.groups }
        ensures { (order : List Placed) → AreSums order self.now.sums.now → result.now ≡ produced
            order (first_group self.now.recording.now.heading + place) }
    {
        match self.sums.produced.get(self.object_of(place)) {
            Some(items) => items.as_slice(),
            None => &[],
        }
    }

    /// Returns how many items were put into a buffer, or else how many were taken out of it.
    fn moved(&self, place: usize, is_put: bool) -> usize
        requires { place < length self.now.recording.now.heading.groups }
        ensures { (order : List Placed) → AreSums order self.now.sums.now → result
            ≡ (if is_put then length (produced order
            (first_group self.now.recording.now.heading + place)) else consumed order
            (first_group self.now.recording.now.heading + place)) }
    {
        if is_put {
            self.items(place).len()
        } else {
            number_at(&self.sums.consumed, self.object_of(place))
        }
    }

    /// Returns the count of an eventcount by the calls of a group, if it belongs to the group.
    fn of_group_event(&self, event: EventId, place: usize, group: &Group) -> Option<usize>
        requires { place < length self.now.recording.now.heading.groups }
        ensures { (order : List Placed) → AreSums order self.now.sums.now → result ≡ group_event
            self.now.recording.now.heading order event place group.now }
    {
        if !group.has_event(event) {
            return None;
        }
        match *group {
            Group::Buffer(shape) => Some(self.moved(place, shape.in_count() == event)),
            Group::Database(_) => Some(self.writes(place)),
            Group::Semaphore(_) => Some(number_at(&self.sums.added, place)),
            Group::Both(_) => Some(self.sums.pairs),
        }
    }

    /// Returns how many numbers the calls of a group drew, if the sequencer belongs to the group.
    fn of_group_sequencer(&self, sequencer: SeqId, place: usize, group: &Group) -> Option<usize>
        requires { place < length self.now.recording.now.heading.groups }
        ensures { (order : List Placed) → AreSums order self.now.sums.now → result ≡ group_sequencer
            self.now.recording.now.heading order sequencer place group.now }
    {
        if !group.has_sequencer(sequencer) {
            return None;
        }
        match *group {
            Group::Buffer(shape) => Some(self.moved(place, shape.put_seq() == sequencer)),
            Group::Database(_) => Some(self.writes(place)),
            Group::Semaphore(_) => Some(number_at(&self.sums.taken, place)),
            Group::Both(_) => Some(self.sums.pairs),
        }
    }

    /// Returns the final number of cell `i` of a database. `place` is its index among the groups.
    fn of_database_cell(&self, place: usize, cells: usize, i: usize) -> u64
        requires { place < length self.now.recording.now.heading.groups }
        ensures { (order : List Placed) → AreSums order self.now.sums.now → result ≡ slice_index_or
            (final_numbers self.now.recording.now order place cells) i 0 }
    {
        let value = number_at(&self.sums.values, self.object_of(place));
        if value == 0 {
            return 0;
        }
        match self.recording.lists().get(value - 1) {
            Some(list) => list.get(i).copied().unwrap_or(0),
            None => 0,
        }
    }

    /// Returns the final number of a cell of a group, if it belongs to the group.
    fn of_group_cell(&self, cell: CellId, place: usize, group: &Group) -> Option<u64>
        requires { place < length self.now.recording.now.heading.groups }
        ensures { (order : List Placed) → AreSums order self.now.sums.now → result ≡ group_cell
            self.now.recording.now order cell place group.now }
    {
        if !group.has_cell(cell) {
            return None;
        }
        match *group {
            Group::Buffer(shape) => {
                let i = cell.get() - shape.first_cell().get();
                Some(last_item(self.items(place), shape.cells(), i) as u64)
            }
            Group::Database(shape) => {
                let i = cell.get() - shape.first_cell().get();
                Some(self.of_database_cell(place, shape.cells(), i))
            }
            _ => None,
        }
    }

    /// Returns the final count of an eventcount.
    fn of_event(&self, event: EventId) -> u64
        ensures { (order : List Placed) → AreSums order self.now.sums.now → result ≡ event_total
            self.now.recording.now order event }
    {
        for (place, group) in self.recording.heading().groups().iter().enumerate() {
            if let Some(n) = self.of_group_event(event, place, group) {
                return n as u64;
            }
        }
        let own = number_at(&self.sums.effects, event.get());
        self.recording.start(event).saturating_add(own as u64)
    }

    /// Returns how many numbers of a sequencer were drawn.
    fn of_sequencer(&self, sequencer: SeqId) -> u64
        ensures { (order : List Placed) → AreSums order self.now.sums.now → result ≡ sequencer_total
            self.now.recording.now order sequencer }
    {
        let heading = self.recording.heading();
        for (place, group) in heading.groups().iter().enumerate() {
            if let Some(n) = self.of_group_sequencer(sequencer, place, group) {
                return n as u64;
            }
        }
        heading.setup().invariant();
        number_at(
            &self.sums.effects,
            first_sequencer(heading) + sequencer.get(),
        ) as u64
    }

    /// Returns the final number of a cell.
    fn of_cell(&self, cell: CellId) -> u64
        ensures { (order : List Placed) → AreSums order self.now.sums.now → result ≡ cell_total
            self.now.recording.now order cell }
    {
        let heading = self.recording.heading();
        for (place, group) in heading.groups().iter().enumerate() {
            if let Some(n) = self.of_group_cell(cell, place, group) {
                return n;
            }
        }
        heading.setup().invariant();
        number_at(&self.sums.values, first_cell(heading) + cell.get()) as u64
    }

    /// Puts the line of a cell.
    fn put_cell<W: Write>(&self, out: &mut Output<'_, W>, word: &[u8], i: usize, cell: CellId)
        ensures { (order : List Placed) → AreSums order self.now.sums.now → Puts out.old out.new
            (cell_line word.now i (cell_total self.now.recording.now order cell)) }
    {
        out.put(b"cell ");
        out.put(word);
        out.put(b"[");
        out.put_number(i as u64);
        out.put(b"] ");
        out.put_number(self.of_cell(cell));
        out.put(b"\n");
    }

    /// Puts the line of a cell, if there is one.
    fn put_spot<W: Write>(
        &self,
        out: &mut Output<'_, W>,
        word: &[u8],
        i: usize,
        cell: Option<CellId>,
    )
        ensures { (order : List Placed) → AreSums order self.now.sums.now → Puts out.old out.new
            (option_map_or (λ x. cell_line word.now i (cell_total self.now.recording.now order x))
            cell []) }
    {
        if let Some(cell) = cell {
            self.put_cell(out, word, i, cell);
        }
    }

    /// Puts the lines of a block of cells.
    fn put_cells<W: Write>(&self, out: &mut Output<'_, W>, word: &[u8], first: CellId, n: usize)
        ensures { (order : List Placed) → AreSums order self.now.sums.now → Puts out.old out.new
            (cell_lines self.now.recording.now order word.now first 0 n) }
    {
        for i in 0..n {
            self.put_spot(out, word, i, cell_at(first, i));
        }
    }

    /// Puts the line of an eventcount or a sequencer.
    fn put_count<W: Write>(&self, out: &mut Output<'_, W>, sort: &[u8], word: &[u8], n: u64)
        ensures { Puts out.old out.new (count_line sort.now word.now n) }
    {
        out.put(sort);
        out.put(word);
        out.put(b" ");
        out.put_number(n);
        out.put(b"\n");
    }

    /// Puts the lines of the objects that a word names.
    fn put_word<W: Write>(&self, out: &mut Output<'_, W>, word: &[u8], target: Target)
        ensures { (order : List Placed) → AreSums order self.now.sums.now → Puts out.old out.new
            (word_totals self.now.recording.now order word.now target) }
    {
        match target {
            Target::Event(event) => {
                self.put_count(out, b"eventcount ", word, self.of_event(event));
            }
            Target::Sequencer(sequencer) => {
                self.put_count(out, b"sequencer ", word, self.of_sequencer(sequencer));
            }
            Target::Cells(first, n) => self.put_cells(out, word, first, n),
            Target::Worker(_) | Target::Group(_) => {}
        }
    }

    /// Puts the lines of the objects that the word at an index names, if there is one.
    fn put_place<W: Write>(&self, out: &mut Output<'_, W>, words: &SymbolTable, place: usize)
        ensures { (order : List Placed) → AreSums order self.now.sums.now → Puts out.old out.new
            (totals_at self.now.recording.now order (slice_get words.now place)) }
    {
        if let Some((word, target)) = words.at(place) {
            self.put_word(out, word, target);
        }
    }

    /// Puts the totals.
    pub(crate) fn put<W: Write>(&self, out: &mut Output<'_, W>)
        ensures { (order : List Placed) → AreSums order self.now.sums.now → Puts out.old out.new
            (totals_text self.now.recording.now order) }
    {
        let words = self.recording.heading().words();
        for place in 0..words.len() {
            self.put_place(out, words, place);
        }
    }
}
