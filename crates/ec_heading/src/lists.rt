//! Lists of words in a line, and the workers that they name.
ghost use Rattle.std.specs.Prelude.{◌≡◌, ◌+◌, ◌++◌, ◌≤◌, length};
ghost use Rattle.std.specs.List.{list_any};
ghost use Rattle.ec_text.specs.Words.{words_of};
ghost use Rattle.ec_count.specs.Members.{is_member, has_repeat};
ghost use Rattle.ec_heading.specs.Lists.{worker_in, ids_in, has_unknown, has_word, has_word_twice};

use arrayvec::ArrayVec;
use ec_count::{SymbolTable, Target, WorkerId};
use ec_text::cut_word;

/// Returns how many words a list has: one more than spaces.
pub fn count_words(list: &[u8]) -> usize
    ensures count { result ≡ length (words_of list.now) }
    ensures few { result ≤ length list.now + 1 }
{
    let (_, rest) = cut_word(list);
    match rest {
        None => 1,
        Some(rest) => count_words(rest) + 1,
    }
}

/// Returns whether a word is in the list.
pub(crate) fn has_word(word: &[u8], list: &[u8]) -> bool
    ensures { result ≡ has_word word.now (words_of list.now) }
{
    let (other, rest) = cut_word(list);
    if word == other {
        return true;
    }
    match rest {
        None => false,
        Some(rest) => has_word(word, rest),
    }
}

/// Returns whether a word is twice in the list.
pub(crate) fn has_word_twice(list: &[u8]) -> bool
    ensures { result ≡ has_word_twice (words_of list.now) }
{
    let (word, Some(rest)) = cut_word(list) else {
        return false;
    };
    has_word(word, rest) || has_word_twice(rest)
}

/// Returns the worker that a word names.
pub(crate) fn worker_in(words: &SymbolTable, word: &[u8]) -> Option<WorkerId>
    ensures { result ≡ worker_in words.now word.now }
{
    match words.find(word)? {
        Target::Worker(id) => Some(id),
        _ => None,
    }
}

/// Returns whether a word of the list names no worker.
pub fn has_unknown(words: &SymbolTable, list: &[u8]) -> bool
    ensures { result ≡ has_unknown words.now (words_of list.now) }
{
    let (word, rest) = cut_word(list);
    if worker_in(words, word).is_none() {
        return true;
    }
    match rest {
        None => false,
        Some(rest) => has_unknown(words, rest),
    }
}

/// Returns whether a worker is named in a list.
fn is_named(words: &SymbolTable, list: &[u8], id: WorkerId) -> bool
    ensures { result ≡ is_member id (ids_in words.now (words_of list.now)) }
{
    let (word, rest) = cut_word(list);
    if let Some(other) = worker_in(words, word) {
        if other == id {
            return true;
        }
    }
    match rest {
        None => false,
        Some(rest) => is_named(words, rest, id),
    }
}

/// Returns whether a worker is named twice.
pub(crate) fn has_repeat(words: &SymbolTable, list: &[u8]) -> bool
    ensures { result ≡ has_repeat (ids_in words.now (words_of list.now)) }
{
    let (word, Some(rest)) = cut_word(list) else {
        return false;
    };
    if let Some(id) = worker_in(words, word) {
        if is_named(words, rest, id) {
            return true;
        }
    }
    has_repeat(words, rest)
}

/// Returns whether a worker is named in both lists.
pub(crate) fn has_shared(words: &SymbolTable, first: &[u8], second: &[u8]) -> bool
    ensures { result ≡ list_any (λ w. is_member w (ids_in words.now (words_of second.now))) (ids_in words.now (words_of first.now)) }
{
    let (word, rest) = cut_word(first);
    if let Some(id) = worker_in(words, word) {
        if is_named(words, second, id) {
            return true;
        }
    }
    match rest {
        None => false,
        Some(rest) => has_shared(words, rest, second),
    }
}

/// Returns how many words name a worker.
pub(crate) fn count_ids(words: &SymbolTable, list: &[u8]) -> usize
    ensures count { result ≡ length (ids_in words.now (words_of list.now)) }
    ensures few { result ≤ length list.now + 1 }
{
    let (word, rest) = cut_word(list);
    let one = if worker_in(words, word).is_some() {
        1
    } else {
        0
    };
    match rest {
        None => one,
        Some(rest) => one + count_ids(words, rest),
    }
}

/// Adds the workers that a list names, in order. Other words are skipped.
pub(crate) fn push_ids(words: &SymbolTable, list: &[u8], ids: &mut ArrayVec<WorkerId, 16>)
    requires { length ids.old.items + length (ids_in words.now (words_of list.now)) ≤ 16 }
    ensures { ids.new.items ≡ ids.old.items ++ ids_in words.now (words_of list.now) }
{
    let (word, rest) = cut_word(list);
    if let Some(id) = worker_in(words, word) {
        ids.push(id);
    }
    if let Some(rest) = rest {
        push_ids(words, rest, ids);
    }
}
