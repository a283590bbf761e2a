//! Calls and replies, as text.
ghost use Rattle.std.specs.Prelude.{◌≡◌, ◌-◌, [], nat_lt, replicate, slice_index_or};
ghost use Rattle.ec_text.specs.Puts.{Puts};
ghost use Rattle.calls_text.specs.Recordings.{first_sequencer, first_group};
ghost use Rattle.calls_text.specs.Spelling.{worker_word, event_word, sequencer_word, cell_name};
ghost use Rattle.calls_text.specs.Spelling.{group_word, store_word, numbers_of_list};
ghost use Rattle.calls_text.specs.Spelling.{numbers_of_value, numbers_after_spaces, put_word};
ghost use Rattle.calls_text.specs.Spelling.{get_word, call_text, returned_value, spaced_reply};
ghost use Rattle.calls_report.specs.kept.Speakers.{IsStoreOp, IsItemOp};

use calls_core::{Op, Reply};
use calls_text::{Lists, first_cell, first_group, first_sequencer, numbers_of};
use ec_count::{CellId, EventId, SeqId, Target, WorkerId};
use ec_heading::Heading;
use ec_text::Output;
use ec_trace::WordTables;
use std::io::Write;
use std::marker::Model;

/// What the text of calls depends on: the words of workers and objects, and the lists of numbers.
#[derive(Drop)]
pub struct Speaker<'a> {
    pub(crate) heading: &'a Heading,
    lists: &'a Lists,
    words: WordTables<'a>,
}

impl<'a> Model for Speaker<'a> {
    ghost use Rattle.std.specs.Prelude.{◌≡◌};
    ghost use Rattle.calls_report.specs.kept.Speakers as speakers;

    ghost Value = { speakers.SpeakerModel };

    ghost view = { λ s. record { heading = s.heading.now; lists = s.lists.now } };

    ghost invariant = { λ s. s.words ≡ s.heading.now.words };
}

impl<'a> Speaker<'a> {
    /// Returns the words of a header, and these lists.
    pub fn new(heading: &'a Heading, lists: &'a Lists) -> Speaker<'a>
        ensures heading { result.heading ≡ heading.now }
        ensures lists { result.lists ≡ lists.now }
    {
        Speaker {
            heading,
            lists,
            words: WordTables::new(heading.words()),
        }
    }

    /// Puts the name of a worker.
    pub fn put_worker<W: Write>(&self, out: &mut Output<'_, W>, worker: usize)
        ensures { Puts out.old out.new (worker_word self.now.heading worker) }
    {
        if let Some(worker) = WorkerId::new(worker) {
            out.put(self.words.worker(worker));
        }
    }

    /// Puts the name of an eventcount.
    pub fn put_event<W: Write>(&self, out: &mut Output<'_, W>, event: usize)
        ensures { Puts out.old out.new (event_word self.now.heading event) }
    {
        if let Some(event) = EventId::new(event) {
            out.put(self.words.event(event));
        }
    }

    /// Puts the name of a sequencer.
    pub fn put_sequencer<W: Write>(&self, out: &mut Output<'_, W>, sequencer: usize)
        ensures { Puts out.old out.new (sequencer_word self.now.heading sequencer) }
    {
        if let Some(sequencer) = SeqId::new(sequencer) {
            out.put(self.words.sequencer(sequencer));
        }
    }

    /// Puts the name of a cell.
    pub fn put_cell<W: Write>(&self, out: &mut Output<'_, W>, cell: usize)
        ensures { Puts out.old out.new (cell_name self.now.heading cell) }
    {
        if let Some(cell) = CellId::new(cell) {
            self.words.put_cell(out, cell);
        }
    }

    /// Puts the name of a group.
    pub fn put_group<W: Write>(&self, out: &mut Output<'_, W>, place: usize)
        ensures { Puts out.old out.new (group_word self.now.heading place) }
    {
        match self.heading.names().name_of(Target::Group(place)) {
            Some(name) => out.put(name.as_bytes()),
            None => out.put(b"both"),
        }
    }

    /// Puts the name of the sequencer with this index among the objects.
    pub fn put_sequencer_of<W: Write>(&self, out: &mut Output<'_, W>, object: usize)
        ensures { Puts out.old out.new (sequencer_word self.now.heading
            (object - first_sequencer self.now.heading)) }
    {
        self.put_sequencer(out, object.saturating_sub(first_sequencer(self.heading)));
    }

    /// Returns whether the object is a cell, if it is a cell or a database.
    pub fn is_cell(&self, object: usize) -> bool
        ensures { result ≡ nat_lt object (first_group self.now.heading) }
    {
        object < first_group(self.heading)
    }

    /// Puts the word of a cell or a database.
    pub fn put_store<W: Write>(&self, out: &mut Output<'_, W>, object: usize)
        ensures { Puts out.old out.new (store_word self.now.heading object) }
    {
        let first = first_group(self.heading);
        if object < first {
            self.put_cell(out, object.saturating_sub(first_cell(self.heading)));
        } else {
            self.put_group(out, object - first);
        }
    }

    /// Puts each number of a list after a space.
    fn put_spaced<W: Write>(&self, out: &mut Output<'_, W>, numbers: &[u64])
        ensures { Puts out.old out.new (numbers_after_spaces numbers.now) }
    {
        for n in numbers {
            out.put(b" ");
            out.put_number(*n);
        }
    }

    /// Puts `count` zeros, each after a space.
    fn put_zeros<W: Write>(&self, out: &mut Output<'_, W>, count: usize)
        ensures { Puts out.old out.new (numbers_after_spaces (replicate count 0)) }
    {
        for _zero in 0..count {
            self.put_spaced(out, &[0]);
        }
    }

    /// Puts each number of the list at an index after a space, nothing if there is no such list.
    fn put_list<W: Write>(&self, out: &mut Output<'_, W>, index: usize)
        ensures { Puts out.old out.new
            (numbers_after_spaces (slice_index_or self.now.lists index [])) }
    {
        match self.lists.get(index) {
            Some(list) => self.put_spaced(out, list),
            None => {}
        }
    }

    /// Puts each number of a value after a space.
    pub fn put_value<W: Write>(&self, out: &mut Output<'_, W>, object: usize, n: usize)
        ensures { Puts out.old out.new (numbers_after_spaces (numbers_of_value self.now.heading self.now.lists object n)) }
    {
        if object < first_group(self.heading) {
            self.put_spaced(out, &[n as u64]);
            return;
        }
        if n == 0 {
            self.put_zeros(out, numbers_of(self.heading, object));
            return;
        }
        self.put_list(out, n - 1);
    }

    /// Puts a call of an object.
    pub fn put_call<W: Write>(&self, out: &mut Output<'_, W>, object: usize, op: Op)
        ensures { Puts out.old out.new (call_text self.now.heading self.now.lists object op) }
    {
        match op {
            Op::Advance => {
                out.put(b"advance ");
                self.put_event(out, object);
            }
            Op::Read => {
                out.put(b"read ");
                self.put_event(out, object);
            }
            Op::Await(n) => {
                out.put(b"await ");
                self.put_event(out, object);
                out.put(b" ");
                out.put_number(n as u64);
            }
            Op::Ticket => {
                out.put(b"ticket ");
                self.put_sequencer_of(out, object);
            }
            Op::P(i) => {
                out.put(b"p ");
                self.put_group(out, i);
            }
            Op::V(i) => {
                out.put(b"v ");
                self.put_group(out, i);
            }
            Op::PBoth(i, j) => {
                out.put(b"pboth ");
                self.put_group(out, i);
                out.put(b" ");
                self.put_group(out, j);
            }
            Op::Put(_) | Op::Get => self.put_store_call(out, object, op),
            Op::Produce(_) | Op::Consume => self.put_item_call(out, object, op),
        }
    }

    /// Puts a call of a cell or a database.
    fn put_store_call<W: Write>(&self, out: &mut Output<'_, W>, object: usize, op: Op)
        requires { IsStoreOp op }
        ensures { Puts out.old out.new (call_text self.now.heading self.now.lists object op) }
    {
        let is_cell = object < first_group(self.heading);
        match op {
            Op::Put(n) => {
                out.put(if is_cell { b"put " } else { b"write " });
                self.put_store(out, object);
                self.put_value(out, object, n);
            }
            _ => {
                out.put(if is_cell { b"get " } else { b"snapshot " });
                self.put_store(out, object);
            }
        }
    }

    /// Puts the name of the group with this index among the objects.
    fn put_group_of<W: Write>(&self, out: &mut Output<'_, W>, object: usize)
        ensures { Puts out.old out.new (group_word self.now.heading
            (object - first_group self.now.heading)) }
    {
        self.put_group(out, object.saturating_sub(first_group(self.heading)));
    }

    /// Puts a call of a buffer.
    fn put_item_call<W: Write>(&self, out: &mut Output<'_, W>, object: usize, op: Op)
        requires { IsItemOp op }
        ensures { Puts out.old out.new (call_text self.now.heading self.now.lists object op) }
    {
        match op {
            Op::Produce(item) => {
                out.put(b"produce ");
                self.put_group_of(out, object);
                out.put(b" ");
                out.put_number(item as u64);
            }
            _ => {
                out.put(b"consume ");
                self.put_group_of(out, object);
            }
        }
    }

    /// Puts a reply to a call of an object, after a space.
    pub fn put_reply<W: Write>(&self, out: &mut Output<'_, W>, object: usize, op: Op, reply: Reply)
        ensures { Puts out.old out.new (spaced_reply self.now.heading self.now.lists object op
            reply) }
    {
        match (reply, op) {
            (Reply::Done, _) => out.put(b" done"),
            (Reply::Timeout, _) => out.put(b" timeout"),
            (Reply::Number(n), Op::Get) => self.put_value(out, object, n),
            (Reply::Number(n), _) => self.put_spaced(out, &[n as u64]),
        }
    }
}
