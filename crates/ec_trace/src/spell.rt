//! Tables of the words for workers and objects.
ghost use Rattle.std.specs.Prelude.{◌≡◌, ℕ, ◌+◌, ◌<◌, ◌-◌, ◌==◌, ◌&&◌, [], ◌∷◌, ◌++◌, List, length, Some, slice_get, nat_le, nat_lt, if◌then◌else◌};
ghost use Rattle.ec_trace.specs.kept.WordTables.{Spells, SpellsShort, word_at, cell_at, cell_name_bytes, with_block, short_at};
ghost use Rattle.ec_text.specs.Puts.{Puts};
ghost use Rattle.ec_heading.specs.Spelling.{NameTable, target_name, cell_word};
ghost use Rattle.std.specs.Option.{option_map_or};
ghost use Rattle.ec_count.specs.declared.target.Target.TheVariants.{Worker, Event, Sequencer};

use crate::short_words::ShortWords;
use ec_count::{CellId, EventId, SeqId, SymbolTable, Target, WorkerId, filled};
use ec_text::{InlineText, Output};
use std::io::Write;
use std::marker::Model;

/// A cell: the name of its block and its number there.
#[derive(Clone, Copy)]
pub(crate) struct CellName<'a> {
    pub(crate) block: &'a [u8],
    pub(crate) place: usize,
}

/// The word for each worker, eventcount, sequencer and cell; empty if there is none.
#[derive(Clone, Copy)]
pub(crate) struct WordTable<'a> {
    pub(crate) workers: [&'a [u8]; 16],
    pub(crate) events: [&'a [u8]; 32],
    pub(crate) sequencers: [&'a [u8]; 32],
    pub(crate) cells: [Option<CellName<'a>>; 256],
}

impl<'a> WordTable<'a> {
    /// Returns a table of no words.
    fn none() -> Self
        ensures { Spells [] result }
    {
        let word = b"".as_slice();
        WordTable {
            workers: filled(word),
            events: filled(word),
            sequencers: filled(word),
            cells: filled(None),
        }
    }

    /// Adds a name, which takes precedence over those added before.
    fn take_in(&mut self, name: &'a [u8], target: Target)
        ensures { (names : NameTable) → Spells names self.old → Spells ((name.now, target) ∷ names) self.new }
    {
        match target {
            Target::Worker(worker) => set_word(&mut self.workers, worker.get(), name),
            Target::Event(event) => set_word(&mut self.events, event.get(), name),
            Target::Sequencer(sequencer) => set_word(&mut self.sequencers, sequencer.get(), name),
            Target::Cells(first, n) => set_cells(&mut self.cells, first.get(), n, name),
            Target::Group(_) => {}
        }
    }
}

/// The words by which entries name workers and objects, in tables.
#[derive(Drop)]
pub struct WordTables<'a> {
    vocabulary: &'a SymbolTable,
    words: WordTable<'a>,
}

impl<'a> Model for WordTables<'a> {
    ghost use Rattle.std.specs.Prelude.{ℕ, List};
    ghost use Rattle.ec_count.specs.declared.target.Target.{Target};

    ghost Value = { List (List ℕ × Target) };

    ghost use Rattle.ec_trace.specs.kept.WordTables.{Spells};

    ghost view = { λ s. s.vocabulary.now };

    ghost invariant = { λ s. Spells s.vocabulary.now s.words };
}

impl<'a> WordTables<'a> {
    /// Returns the words of a header, from its `Heading::words`. It allocates nothing.
    pub fn new(vocabulary: &'a SymbolTable) -> Self
        ensures { result ≡ vocabulary.now }
    {
        let mut words = WordTable::none();
        for place in (0..vocabulary.len()).rev() {
            if let Some((word, target)) = vocabulary.at(place) {
                words.take_in(word, target);
            }
        }
        WordTables { vocabulary, words }
    }

    /// Returns the name of a worker; empty if it has none.
    pub fn worker(&self, worker: WorkerId) -> &'a [u8]
        ensures { result.now ≡ target_name self.now (Worker worker) }
    {
        word_in(&self.words.workers, worker.get())
    }

    /// Returns the name of an eventcount; empty if it has none.
    pub fn event(&self, event: EventId) -> &'a [u8]
        ensures { result.now ≡ target_name self.now (Event event) }
    {
        word_in(&self.words.events, event.get())
    }

    /// Returns the name of a sequencer; empty if it has none.
    pub fn sequencer(&self, sequencer: SeqId) -> &'a [u8]
        ensures { result.now ≡ target_name self.now (Sequencer sequencer) }
    {
        word_in(&self.words.sequencers, sequencer.get())
    }

    /// Puts the name of a cell, part by part.
    pub fn put_cell<W: Write>(&self, out: &mut Output<'_, W>, cell: CellId)
        ensures { Puts out.old out.new (cell_word self.now cell) }
    {
        if let Some(name) = cell_in(&self.words.cells, cell.get()) {
            out.put(name.block);
            out.put_byte(b'[');
            out.put_number(name.place as u64);
            out.put_byte(b']');
        }
    }

    /// Returns the inline texts of the words that are short.
    fn short_words(&self) -> ShortWords
        ensures { SpellsShort self.now result }
    {
        ShortWords::of(&self.words)
    }
}

/// The words by which entries name workers and objects; short ones also as inline texts, which are
/// written fast.
#[derive(Drop)]
pub struct Spellings<'a> {
    tables: WordTables<'a>,
    short: ShortWords,
}

impl<'a> Model for Spellings<'a> {
    ghost use Rattle.std.specs.Prelude.{ℕ, List};
    ghost use Rattle.ec_count.specs.declared.target.Target.{Target};

    ghost Value = { List (List ℕ × Target) };

    ghost use Rattle.ec_trace.specs.kept.WordTables.{SpellsShort};

    ghost view = { λ s. s.tables };

    ghost invariant = { λ s. SpellsShort s.tables s.short };
}

impl<'a> Spellings<'a> {
    /// Returns the words of a header, from its `Heading::words`. It allocates nothing.
    ///
    /// Where few words are written, `WordTables` take less time to make.
    pub fn new(vocabulary: &'a SymbolTable) -> Self
        ensures { result ≡ vocabulary.now }
    {
        let tables = WordTables::new(vocabulary);
        let short = tables.short_words();
        Spellings { tables, short }
    }

    /// Returns the name of a worker; empty if it has none.
    pub fn worker(&self, worker: WorkerId) -> &'a [u8]
        ensures { result.now ≡ target_name self.now (Worker worker) }
    {
        self.tables.worker(worker)
    }

    /// Returns the name of an eventcount; empty if it has none.
    pub fn event(&self, event: EventId) -> &'a [u8]
        ensures { result.now ≡ target_name self.now (Event event) }
    {
        self.tables.event(event)
    }

    /// Returns the name of a sequencer; empty if it has none.
    pub fn sequencer(&self, sequencer: SeqId) -> &'a [u8]
        ensures { result.now ≡ target_name self.now (Sequencer sequencer) }
    {
        self.tables.sequencer(sequencer)
    }

    /// Puts bytes, and the name of a worker.
    #[inline(always)]
    pub(crate) fn put_worker<W: Write>(&self, out: &mut Output<'_, W>, before: &[u8], id: WorkerId)
        ensures { Puts out.old out.new (before.now ++ target_name self.now (Worker id)) }
    {
        match short_in(&self.short.workers, id.get()) {
            Some(text) => out.put_with_short(before, text),
            None => put_long(out, before, self.worker(id)),
        }
    }

    /// Puts bytes, and the name of an eventcount.
    #[inline(always)]
    pub(crate) fn put_event<W: Write>(&self, out: &mut Output<'_, W>, before: &[u8], event: EventId)
        ensures { Puts out.old out.new (before.now ++ target_name self.now (Event event)) }
    {
        match short_in(&self.short.events, event.get()) {
            Some(text) => out.put_with_short(before, text),
            None => put_long(out, before, self.event(event)),
        }
    }

    /// Puts bytes, and the name of a sequencer.
    #[inline(always)]
    pub(crate) fn put_sequencer<W: Write>(&self, out: &mut Output<'_, W>, before: &[u8], id: SeqId)
        ensures { Puts out.old out.new (before.now ++ target_name self.now (Sequencer id)) }
    {
        match short_in(&self.short.sequencers, id.get()) {
            Some(text) => out.put_with_short(before, text),
            None => put_long(out, before, self.sequencer(id)),
        }
    }

    /// Puts bytes, and the name of a cell.
    #[inline(always)]
    pub(crate) fn put_cell<W: Write>(&self, out: &mut Output<'_, W>, before: &[u8], cell: CellId)
        ensures { Puts out.old out.new (before.now ++ cell_word self.now cell) }
    {
        match short_in(&self.short.cells, cell.get()) {
            Some(text) => out.put_with_short(before, text),
            None => self.put_long_cell(out, before, cell),
        }
    }

    /// Puts bytes, and the name of a cell that may be long.
    #[cold]
    #[inline(never)]
    fn put_long_cell<W: Write>(&self, out: &mut Output<'_, W>, before: &[u8], cell: CellId)
        ensures { Puts out.old out.new (before.now ++ cell_word self.now cell) }
    {
        out.put(before);
        self.tables.put_cell(out, cell);
    }
}

/// Puts bytes, and a word that may be long.
#[cold]
#[inline(never)]
fn put_long<W: Write>(out: &mut Output<'_, W>, before: &[u8], word: &[u8])
    ensures { Puts out.old out.new (before.now ++ word.now) }
{
    out.put(before);
    out.put(word);
}

/// Returns the word at an index.
fn word_in<'a>(words: &[&'a [u8]], place: usize) -> &'a [u8]
    requires { place < length words.now }
    ensures { result.now ≡ word_at words.now place }
{
    words[place]
}

/// Returns the name of a cell.
fn cell_in<'a>(cells: &[Option<CellName<'a>>], place: usize) -> Option<CellName<'a>>
    requires { place < length cells.now }
    ensures { option_map_or cell_name_bytes result [] ≡ cell_at cells.now place }
{
    cells[place]
}

/// Returns the inline text of the word at an index, if it is short.
fn short_in(short: &[Option<InlineText>], place: usize) -> &Option<InlineText>
    requires { place < length short.now }
    ensures { result.now ≡ short_at short.now place }
{
    &short[place]
}

/// Stores a word at an index.
fn set_word<'a>(words: &mut [&'a [u8]], place: usize, word: &'a [u8])
    requires { place < length words.old }
    ensures { (i : ℕ) → word_at words.new i ≡ (if place == i then word.now else word_at words.old i) }
{
    words[place] = word;
}

/// Stores the name of a cell at its index.
fn set_cell<'a>(cells: &mut [Option<CellName<'a>>], place: usize, name: CellName<'a>)
    requires { place < length cells.old }
    ensures { (x : ℕ) → cell_at cells.new x ≡ (if place == x then cell_name_bytes name.entry else cell_at cells.old x) }
{
    cells[place] = Some(name);
}

/// Stores the names of the cells of a block.
fn set_cells<'a>(cells: &mut [Option<CellName<'a>>; 256], first: usize, n: usize, block: &'a [u8])
    ensures { (x : ℕ) → x < 256 → cell_at cells.new x ≡ with_block block.now first n x (cell_at cells.old x) }
{
    for x in 0..256 {
        if first <= x && x - first < n {
            let place = x - first;
            set_cell(cells, x, CellName { block, place });
        }
    }
}
