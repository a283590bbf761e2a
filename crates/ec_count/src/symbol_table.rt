//! Words with their targets, in the order in which they were added.
ghost use Rattle.std.specs.Prelude.{◌≡◌, ◌≤◌, ◌<◌, ◌++◌, ◌∷◌, [], None, Some, IfOk, IfSome, OnErr, OnOk, MatchOption, length, option_map, slice_get, take};
ghost use Rattle.ec_count.specs.Names.{find_name};

use crate::Target;
use arrayvec::ArrayVec;
use indexmap::IndexMap;
use std::alloc::{AllocError, Global};
use std::hash::{Hash, Hasher};
use std::marker::Model;

/// The greatest length of a word of a symbol table, in bytes.
pub const WORD_MAX: usize = 24;

/// A word, stored inline.
#[derive(Drop)]
pub(crate) struct Word {
    bytes: ArrayVec<u8, 24>,
}

impl PartialEq for Word {
    ghost use Rattle.ec_count.specs.kept.SymbolTable.{same_word, same_word_part};

    ghost eq = { same_word };

    ghost laws = { same_word_part };

    fn eq(&self, other: &Self) -> bool {
        self.bytes.as_slice() == other.bytes.as_slice()
    }
}

impl Eq for Word {
    ghost use Rattle.ec_count.specs.kept.SymbolTable.{same_word_whole};

    ghost laws = { same_word_whole };
}

impl Hash for Word {
    ghost use Rattle.ec_count.specs.kept.SymbolTable.{word_alike, word_input};

    ghost hash_input = { word_input };

    ghost respects_eq = { word_alike };

    fn hash<H: Hasher>(&self, state: &mut H) {
        state.write(self.bytes.as_slice());
    }
}

impl Word {
    /// Returns the word of these bytes; `None` if there are more than 24.
    fn new(bytes: &[u8]) -> Option<Self>
        ensures { MatchOption result (24 < length bytes.now) (λ word. word.bytes.items ≡ bytes.now) }
    {
        match ArrayVec::try_from(bytes) {
            Ok(bytes) => Some(Word { bytes }),
            Err(_) => None,
        }
    }
}

/// Different words with their targets, in the order in which they were added.
///
/// A look-up by word costs about the same at any number of words, and does not allocate.
#[derive(Drop)]
pub struct SymbolTable {
    table: IndexMap<Word, Target>,
    /// For each mark the position at which a look-up looks first: that of the word with this mark
    /// that was added last, modulo 65536. Any positions would be correct.
    hints: [u16; 256],
}

impl Model for SymbolTable {
    ghost use Rattle.std.specs.Prelude.{ℕ, List};
    ghost use Rattle.ec_count.specs.declared.target.Target.{Target};

    ghost Value = { List (List ℕ × Target) };

    ghost use Rattle.ec_count.specs.kept.SymbolTable.{AreShort, by_word};

    ghost view = { λ v. by_word v.table.entries };

    ghost invariant = { λ v. AreShort (by_word v.table.entries) };
}

impl SymbolTable {
    /// Makes an empty table, with room for a few words.
    pub fn new(alloc: Global) -> Result<Self, AllocError>
        ensures { IfOk result (λ words. words ≡ []) }
    {
        let table = IndexMap::with_capacity(alloc, 32)?;
        Ok(SymbolTable {
            table,
            hints: [0; 256],
        })
    }

    /// Returns how many words were added.
    pub fn len(&self) -> usize
        ensures { result ≡ length self.now }
    {
        self.table.len()
    }

    /// Returns the target of the word; `None` if it was not added.
    pub fn find(&self, word: &[u8]) -> Option<Target>
        ensures { result ≡ find_name word.now self.now }
    {
        match self.find_at_hint(word) {
            Some(target) => Some(target),
            None => self.find_in_table(word),
        }
    }

    /// Returns the target of the word, if the word is at the position of its hint.
    #[inline(always)]
    fn find_at_hint(&self, word: &[u8]) -> Option<Target>
        ensures { IfSome result (λ target. find_name word.now self.now ≡ Some target) }
    {
        let place = self.hints[mark(word) as usize] as usize;
        match self.table.get_index(place) {
            None => None,
            Some((known, target)) => {
                if known.bytes.as_slice() == word {
                    Some(*target)
                } else {
                    None
                }
            }
        }
    }

    /// Returns the target of the word, without the hints.
    #[cold]
    #[inline(never)]
    fn find_in_table(&self, word: &[u8]) -> Option<Target>
        ensures { result ≡ find_name word.now self.now }
    {
        let table = &self.table;
        let key = Word::new(word)?;
        table.get(&key).copied()
    }

    /// Returns the word at a position, and its target.
    pub fn at(&self, place: usize) -> Option<(&[u8], Target)>
        ensures { option_map (λ e. (e.0.now, e.1)) result ≡ slice_get self.now place }
    {
        match self.table.get_index(place) {
            None => None,
            Some((word, target)) => Some((word.bytes.as_slice(), *target)),
        }
    }

    /// Adds a new word at the end.
    pub fn add(&mut self, word: &[u8], target: Target) -> Result<(), AllocError>
        requires short { length word.now ≤ WORD_MAX }
        requires new { find_name word.now self.old ≡ None }
        ensures ok { OnOk result (self.new ≡ self.old ++ (word.now, target) ∷ []) }
        ensures err { OnErr result (self.new ≡ self.old) }
    {
        let Some(key) = Word::new(word) else {
            unreachable!();
        };
        let place = self.len();
        self.hints[mark(word) as usize] = (place % 65536) as u16;
        let Ok(_) = self.table.insert(key, target) else {
            return Err(AllocError);
        };
        Ok(())
    }

    /// Keeps the first `len` words, and drops the others.
    pub fn truncate(&mut self, len: usize)
        ensures { self.new ≡ take len self.old }
    {
        self.table.truncate(len);
    }
}

/// Returns a mark of a word, made of at most four of its bytes.
///
/// Two words usually have different marks. A look-up finds the hint of a word by its mark.
fn mark(word: &[u8]) -> u8 {
    let n = word.len();
    if n < 2 {
        return if n == 0 { 0 } else { word[0] };
    }
    let end = word[n - 1].wrapping_mul(31) ^ word[n - 2].wrapping_mul(7);
    end ^ word[n / 2].wrapping_mul(3) ^ word[0]
}
