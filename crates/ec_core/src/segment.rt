//! One segment of a list of entries.
ghost use Rattle.std.specs.Prelude.{◌≡◌, ◌+◌, ◌*◌, ◌^◌, ◌<◌, ◌≤◌, List, [], ◌∷◌, ◌++◌, drop, take, length, slice_get, vec_capacity, IfOk, IfSome, OnOk, OnErr};
ghost use Rattle.ec_core.specs.kept.Packed.{total_word_count, AreStarts};

use crate::Entry;
use crate::packed::{PackedEntry, WordReader, add, number_in, total_word_count, value_in};
use std::alloc::{AllocError, Global};
use std::marker::Model;

/// How many entries a full segment has.
pub(crate) const SEGMENT: usize = 4096;

/// Each entry whose position is a multiple of this has a start: the position of its first word.
const STRIDE: usize = 16;

/// The greatest number of words that `STRIDE` entries have.
const WORDS: usize = 4 * STRIDE;

/// Some entries in order, as a run stores them, and the words of their numbers.
///
/// From the beginning there is room for a full segment, so that no entry in it ever moves, and for
/// one word of each entry, so that most words don't either.
#[derive(Drop)]
pub(crate) struct Segment {
    stored: Vec<PackedEntry>,
    words: Vec<u32>,
    starts: Vec<u16>,
}

impl Model for Segment {
    ghost use Rattle.std.specs.Prelude.{List, vec_capacity};
    ghost use Rattle.ec_core.specs.declared.act.Entry.{Entry};

    ghost Value = { List Entry };

    ghost use Rattle.ec_core.specs.kept.Packed.{unpack_entries, IsSegment};

    ghost view = { λ s. unpack_entries s.words.items s.stored.items };

    ghost invariant = { λ s. IsSegment s.words.items s.stored.items s.starts.items (vec_capacity s.stored) (vec_capacity s.words) };
}

impl Segment {
    /// Makes a segment without entries.
    pub(crate) fn open(alloc: Global) -> Result<Self, AllocError>
        ensures { IfOk result (λ segment. segment ≡ []) }
    {
        let stored = Vec::with_capacity(alloc, SEGMENT)?;
        let words = Vec::with_capacity(alloc, SEGMENT + WORDS)?;
        let starts = Vec::with_capacity(alloc, SEGMENT / STRIDE)?;
        Ok(Segment {
            stored,
            words,
            starts,
        })
    }

    /// Returns the allocator that the segment was opened with.
    pub(crate) fn allocator(&self) -> Global {
        *self.stored.allocator()
    }

    /// Returns how many entries it has.
    #[inline(always)]
    pub(crate) fn len(&self) -> usize
        ensures { result ≡ length self.now }
    {
        self.stored.len()
    }

    /// Returns the entry at a position, counted from 0.
    #[inline(always)]
    pub(crate) fn get(&self, i: usize) -> Option<Entry>
        ensures value { result ≡ slice_get self.now i }
        ensures within { IfSome result (λ _. i + 1 < 2 ^ 64) }
    {
        if i >= self.stored.len() {
            return None;
        }
        let start = word_start(&self.stored, &self.starts, i);
        let mut words = WordReader::of(&self.words, start);
        Some(self.stored[i].entry(&mut words))
    }

    /// Returns its entries in order.
    #[inline(always)]
    pub(crate) fn entries(&self) -> EntryIter<'_>
        ensures { result ≡ self.now }
    {
        EntryIter {
            stored: &self.stored,
            words: WordReader::of(&self.words, 0),
        }
    }

    /// Adds an entry at the end of a segment that isn't full; if an allocation fails, changes
    /// nothing.
    ///
    /// All memory for it is allocated before anything is changed.
    #[inline(always)]
    pub(crate) fn push(&mut self, entry: &Entry) -> Result<(), AllocError>
        requires { length self.old < 4096 }
        ensures ok { OnOk result (self.new ≡ self.old ++ entry.now ∷ []) }
        ensures err { OnErr result (self.new ≡ self.old) }
    {
        reserve(&self.stored, &mut self.words, &mut self.starts)?;
        self.stored.push_reserved(PackedEntry::of(entry));
        add(&mut self.words, value_in(&entry.act));
        add(&mut self.words, number_in(&entry.reply));
        Ok(())
    }
}

/// Makes room for the words of the next entry.
///
/// If this entry has a start, the start is stored, and the room is for the words of all entries
/// before the next one with a start.
#[inline(always)]
fn reserve(
    stored: &[PackedEntry],
    words: &mut Vec<u32>,
    starts: &mut Vec<u16>,
) -> Result<(), AllocError>
    requires begun { AreStarts stored.now starts.old.items }
    requires whole { length words.old.items ≡ total_word_count stored.now }
    requires spare { length words.old.items + 64 * length starts.old.items ≤ vec_capacity words.old + 4 * length stored.now }
    requires few { length stored.now < 4096 }
    ensures begun { AreStarts stored.now starts.new.items }
    ensures words { words.new.items ≡ words.old.items }
    ensures spare { length words.new.items + 64 * length starts.new.items ≤ vec_capacity words.new + 4 * length stored.now }
    ensures ok { OnOk result (length stored.now < 16 * length starts.new.items) }
{
    if starts.len() * STRIDE <= stored.len() {
        return begin(words, starts);
    }
    Ok(())
}

/// Makes room for the words of `STRIDE` entries, and stores where they begin; or changes no list.
#[cold]
#[inline(never)]
fn begin(words: &mut Vec<u32>, starts: &mut Vec<u16>) -> Result<(), AllocError>
    requires { length words.old.items < 2 ^ 16 }
    ensures words { words.new.items ≡ words.old.items }
    ensures room { vec_capacity words.old ≤ vec_capacity words.new }
    ensures spare { OnOk result (length words.new.items + 64 ≤ vec_capacity words.new) }
    ensures ok { OnOk result (starts.new.items ≡ starts.old.items ++ length words.old.items ∷ []) }
    ensures err { OnErr result (starts.new.items ≡ starts.old.items) }
{
    words.reserve(WORDS)?;
    starts.push(words.len() as u16)?;
    Ok(())
}

/// Returns where the words of the entry at a position begin.
fn word_start(stored: &[PackedEntry], starts: &[u16], i: usize) -> usize
    requires starts { AreStarts stored.now starts.now }
    requires within { i < length stored.now }
    ensures { result ≡ total_word_count (take i stored.now) }
{
    let mark = i / STRIDE;
    starts[mark] as usize + total_word_count(&stored[mark * STRIDE..i])
}

/// An iterator over the entries of a segment. In contracts it is the list of those that are left.
#[derive(Drop)]
pub(crate) struct EntryIter<'a> {
    stored: &'a [PackedEntry],
    words: WordReader<'a>,
}

impl<'a> Model for EntryIter<'a> {
    ghost use Rattle.std.specs.Prelude.{List};
    ghost use Rattle.ec_core.specs.declared.act.Entry.{Entry};
    ghost use Rattle.ec_core.specs.kept.Packed.{unpack_entries};

    ghost Value = { List Entry };

    ghost view = { λ s. unpack_entries s.words s.stored.now };
}

impl<'a> EntryIter<'a> {
    /// Returns an iterator over no entries.
    pub(crate) fn none() -> Self
        ensures { result ≡ [] }
    {
        EntryIter {
            stored: &[],
            words: WordReader::of(&[], 0),
        }
    }

    /// Returns a copy of the iterator.
    #[inline(always)]
    pub(crate) fn copy(&self) -> Self
        ensures { result ≡ self.now }
    {
        EntryIter {
            stored: self.stored,
            words: self.words.copy(),
        }
    }
}

impl<'a> Iterator for EntryIter<'a> {
    ghost use Rattle.std.specs.Iterator.{YieldsFirst, item_count};

    type Item = Entry;

    ghost next_gives = { YieldsFirst (λ s. s) };

    ghost remaining = { item_count (λ s. s) };

    #[inline(always)]
    fn next(&mut self) -> Option<Entry> {
        let [first, rest @ ..] = self.stored else {
            return None;
        };
        let entry = first.entry(&mut self.words);
        self.stored = rest;
        Some(entry)
    }
}
