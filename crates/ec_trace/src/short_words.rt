//! Short words as inline texts, which are written fast.
ghost use Rattle.std.specs.Prelude.{◌≡◌, ℕ, ◌<◌, ◌==◌, [], length, if◌then◌else◌};
ghost use Rattle.std.specs.Option.{option_map_or};
ghost use Rattle.ec_trace.specs.kept.WordTables.{Spells, SpellsShort, IsShortOf, short_at, word_at, cell_at, cell_name_bytes};
ghost use Rattle.ec_heading.specs.Spelling.{NameTable};

use crate::spell::{CellName, WordTable};
use ec_text::{CachedDecimal, InlineText};

/// An inline text for each worker, eventcount, sequencer and cell whose word is short.
#[derive(Drop)]
pub(crate) struct ShortWords {
    pub(crate) workers: [Option<InlineText>; 16],
    pub(crate) events: [Option<InlineText>; 32],
    pub(crate) sequencers: [Option<InlineText>; 32],
    pub(crate) cells: [Option<InlineText>; 256],
}

impl ShortWords {
    /// Returns the inline texts of those of these words that are short.
    pub(crate) fn of(words: &WordTable<'_>) -> Self
        ensures { (names : NameTable) → Spells names words.now → SpellsShort names result }
    {
        let mut short = ShortWords {
            workers: Default::default(),
            events: Default::default(),
            sequencers: Default::default(),
            cells: Default::default(),
        };
        shorten(&mut short.workers, &words.workers);
        shorten(&mut short.events, &words.events);
        shorten(&mut short.sequencers, &words.sequencers);
        shorten_cells(&mut short.cells, &words.cells);
        short
    }
}

/// Returns a word as an inline text, if it is short.
fn short_word(word: &[u8]) -> Option<InlineText>
    ensures { IsShortOf result word.now }
{
    let mut text = InlineText::new();
    if text.take_in(word) { Some(text) } else { None }
}

/// Returns the name of a cell as an inline text, if it is short.
fn short_cell(cell: &Option<CellName<'_>>) -> Option<InlineText>
    ensures { IsShortOf result (option_map_or cell_name_bytes cell.now []) }
{
    let name = (*cell)?;
    let mut text = InlineText::new();
    let number = CachedDecimal::new(name.place as u64);
    let fits = text.take_in(name.block)
        && text.take_in(b"[")
        && text.take_in(number.digits().bytes())
        && text.take_in(b"]");
    if fits { Some(text) } else { None }
}

/// Stores the inline text of each short word at the index of the word.
fn shorten(short: &mut [Option<InlineText>], words: &[&[u8]])
    requires { length short.old ≡ length words.now }
    ensures { (i : ℕ) → i < length words.now → IsShortOf (short_at short.new i) (word_at words.now i) }
{
    for i in 0..words.len() {
        short[i] = short_word(words[i]);
    }
}

/// Stores the inline text of each short name of a cell at the index of the cell.
fn shorten_cells(short: &mut [Option<InlineText>], cells: &[Option<CellName<'_>>])
    requires { length short.old ≡ length cells.now }
    ensures { (x : ℕ) → x < length cells.now → IsShortOf (short_at short.new x) (cell_at cells.now x) }
{
    for x in 0..cells.len() {
        short[x] = short_cell(&cells[x]);
    }
}
