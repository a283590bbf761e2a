//! A list of marks of one bit each.
ghost use Rattle.std.specs.Prelude.{◌≡◌, ◌+◌, ◌^◌, ◌<◌, ◌≤◌, [], ◌∷◌, ◌++◌, drop, length, slice_get, OnOk};
ghost use Rattle.ec_order.specs.kept.BitVec.{low_bits, bits_of_word, bits_of_words, IsBitVec};

use std::alloc::{AllocError, Global};
use std::marker::Model;
use std::mem;

/// The least word that has no room for one more mark: it has 63.
const FULL: u64 = 1 << 63;

/// The greatest number of full words: far more than fit in any memory.
const WORDS_MAX: usize = 1 << 57;

/// A list of marks, each of which takes a bit. A full word has 63 of them. In each word the last
/// mark is in the lowest bit, and the bit above the marks is one.
#[derive(Drop)]
pub(crate) struct BitVec {
    words: Vec<u64>,
    last: u64,
}

impl Model for BitVec {
    ghost use Rattle.std.specs.Prelude.{Bool, List};
    ghost use Rattle.ec_order.specs.kept.BitVec.{bits_of_words, IsBitVec};

    ghost Value = { List Bool };

    ghost view = { λ s. bits_of_words s.words.items s.last };

    ghost invariant = { λ s. IsBitVec s.words.items s.last };
}

impl BitVec {
    /// Makes a list of no marks.
    pub(crate) fn new(alloc: Global) -> Self
        ensures { result ≡ [] }
    {
        BitVec {
            words: Vec::new(alloc),
            last: 1,
        }
    }

    /// Adds a mark at the end.
    #[inline(always)]
    pub(crate) fn push(&mut self, mark: bool) -> Result<(), AllocError>
        ensures { OnOk result (self.new ≡ self.old ++ mark ∷ []) }
    {
        reserve(&mut self.words, &mut self.last)?;
        self.last = with_bit(self.last, mark);
        Ok(())
    }

    /// Returns an iterator over the marks.
    pub(crate) fn iter(&self) -> BitIter<'_>
        ensures value { result ≡ self.now }
        ensures few { length self.now < 2 ^ 64 }
    {
        BitIter {
            words: &self.words,
            last: self.last,
            place: 0,
            word: 1,
            left: 0,
        }
    }
}

/// Makes room for one more mark in the last word.
#[inline(always)]
fn reserve(words: &mut Vec<u64>, last: &mut u64) -> Result<(), AllocError>
    requires { IsBitVec words.old.items last.old }
    ensures are { IsBitVec words.new.items last.new }
    ensures same { bits_of_words words.new.items last.new ≡ bits_of_words words.old.items last.old }
    ensures room { OnOk result (last.new < 2 ^ 63) }
{
    if *last >= FULL {
        begin_word(words, last)?;
    }
    Ok(())
}

/// Adds the last word, which is full, to the others and begins the next; or changes nothing.
fn begin_word(words: &mut Vec<u64>, last: &mut u64) -> Result<(), AllocError>
    requires are { IsBitVec words.old.items last.old }
    requires some { 1 < last.old }
    ensures are { IsBitVec words.new.items last.new }
    ensures same { bits_of_words words.new.items last.new ≡ bits_of_words words.old.items last.old }
    ensures begun { OnOk result (last.new ≡ 1) }
{
    if words.len() >= WORDS_MAX {
        return Err(AllocError);
    }
    words.push(*last)?;
    *last = 1;
    Ok(())
}

/// Returns a word with one more mark.
#[inline(always)]
fn with_bit(word: u64, mark: bool) -> u64
    requires some { 0 < word }
    requires room { word < 2 ^ 63 }
    ensures value { bits_of_word result ≡ bits_of_word word ++ mark ∷ [] }
    ensures more { word < result }
{
    if mark { word * 2 + 1 } else { word * 2 }
}

/// An iterator over marks. A contract sees it as the list of those that are left. The `left` lowest
/// bits of `word` are the next of them.
#[derive(Drop)]
pub(crate) struct BitIter<'a> {
    words: &'a [u64],
    last: u64,
    place: usize,
    word: u64,
    left: u32,
}

impl<'a> Model for BitIter<'a> {
    ghost use Rattle.std.specs.Prelude.{◌<◌, Bool, List, ◌++◌, drop};
    ghost use Rattle.ec_order.specs.kept.BitVec.{low_bits, bits_of_words, IsBitVec};

    ghost Value = { List Bool };

    ghost view = { λ s. low_bits s.left s.word ++ bits_of_words (drop s.place s.words.now) s.last };

    ghost invariant = { λ s. (IsBitVec s.words.now s.last) × (s.left < 64) };
}

impl<'a> BitIter<'a> {
    /// Returns the next mark, which stays the next.
    #[inline(always)]
    pub(crate) fn peek(&self) -> Option<bool>
        ensures { result ≡ slice_get self.now 0 }
    {
        first_bit(self.words, self.last, self.place, self.word, self.left)
    }
}

/// Returns the first of the marks that are left. (Its arguments are the fields of the iterator, so
/// that these can stay in registers.)
#[cold]
#[inline(never)]
fn first_bit(words: &[u64], last: u64, place: usize, word: u64, left: u32) -> Option<bool>
    requires are { IsBitVec words.now last }
    requires few { left < 64 }
    ensures { result ≡ slice_get (low_bits left word
        ++ bits_of_words (drop place words.now) last) 0 }
{
    let mut marks = BitIter {
        words,
        last,
        place,
        word,
        left,
    };
    marks.next()
}

impl<'a> Iterator for BitIter<'a> {
    ghost use Rattle.std.specs.Iterator.{YieldsFirst, item_count};

    type Item = bool;

    ghost next_gives = { YieldsFirst (λ s. s) };

    ghost remaining = { item_count (λ s. s) };

    #[inline(always)]
    fn next(&mut self) -> Option<bool> {
        if self.left == 0 {
            self.word = next_word(self.words, &mut self.place, &mut self.last);
            self.left = self.word.ilog2();
            if self.left == 0 {
                return None;
            }
        }
        self.left -= 1;
        Some((self.word >> self.left) % 2 == 1)
    }
}

/// Returns the word at a place, and adds one to the place. After these words it returns the last,
/// and replaces it by a word of no marks.
fn next_word(words: &[u64], place: &mut usize, last: &mut u64) -> u64
    requires { IsBitVec words.now last.old }
    ensures some { 0 < result }
    ensures marks { bits_of_words (drop place.old words.now) last.old ≡ bits_of_word result ++ bits_of_words (drop place.new words.now) last.new }
    ensures end { result ≡ 1 → bits_of_words (drop place.new words.now) last.new ≡ [] }
    ensures begun { 0 < last.new }
{
    match words.get(*place) {
        Some(word) => {
            *place += 1;
            *word
        }
        None => mem::replace(last, 1),
    }
}
