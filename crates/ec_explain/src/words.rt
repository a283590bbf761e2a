//! The words of a line, by their indices.
ghost use Rattle.std.specs.Prelude.{◌≡◌, ◌≤◌, ◌+◌, bytes_eq, length};
ghost use Rattle.std.specs.List.{list_any};
ghost use Rattle.ec_text.specs.Words.{words_of};
ghost use Rattle.ec_explain.specs.Places.{word_at, bytes_before, word_start, words_before};
ghost use Rattle.ec_explain.specs.Places.{word_test, is_among, names_worker, number_place};

use ec_count::is_name;
use ec_heading::{Heading, count_words};
use ec_text::{cut_word, number};

/// The words that precede a list of workers in a declaration.
static LIST_OPENERS: [&str; 8] = [
    "signal", "observe", "take", "write", "read", "produce", "consume", "use",
];

/// Returns whether two words are the same.
pub(crate) fn is_same(word: &[u8], other: &[u8]) -> bool
    ensures { result ≡ bytes_eq word.now other.now }
{
    word == other
}

/// Returns whether a word is one of these.
pub(crate) fn is_among(words: &[&str], word: &[u8]) -> bool
    ensures { result ≡ list_any (λ w. bytes_eq w.now word.now) words.now }
{
    words.iter().any(|w| w.as_bytes() == word)
}

/// Returns the word at an index, counted from 0; empty if there is none.
pub(crate) fn word_at(place: usize, line: &[u8]) -> &[u8]
    ensures { result.now ≡ word_at place line.now }
{
    let (word, rest) = cut_word(line);
    if place == 0 {
        return word;
    }
    match rest {
        None => &[],
        Some(rest) => word_at(place - 1, rest),
    }
}

/// Returns the index of the word that is the number of a line of a header or of a command.
pub(crate) fn number_place(line: &[u8]) -> usize
    ensures { result ≡ number_place line.now }
{
    if count_words(line) == 2 { 1 } else { 2 }
}

/// Returns how many bytes come before the word at an index.
fn bytes_before(place: usize, line: &[u8]) -> usize
    ensures value { result ≡ bytes_before place (words_of line.now) }
    ensures few { result ≤ length line.now + 1 }
{
    let (word, rest) = cut_word(line);
    if place == 0 {
        return 0;
    }
    match rest {
        None => word.len() + 1,
        Some(rest) => word.len() + 1 + bytes_before(place - 1, rest),
    }
}

/// Returns where the word at an index begins; the length of the line if there is none.
pub(crate) fn word_start(place: usize, line: &[u8]) -> usize
    ensures { result ≡ word_start place line.now }
{
    bytes_before(place, line).min(line.len())
}

/// Returns whether a list has this word.
fn has_word(list: &[u8], word: &[u8]) -> bool
    ensures { result ≡ is_among (words_of list.now) word.now }
{
    let (first, rest) = cut_word(list);
    if is_same(first, word) {
        return true;
    }
    match rest {
        None => false,
        Some(rest) => has_word(rest, word),
    }
}

/// Returns whether a line, which names the workers, names this one.
pub(crate) fn names_worker(line: &[u8], word: &[u8]) -> bool
    ensures { result ≡ names_worker line.now word.now }
{
    match cut_word(line) {
        (_, None) => false,
        (_, Some(list)) => has_word(list, word),
    }
}

/// A test of a word.
#[derive(Drop)]
pub(crate) enum WordTest<'a> {
    /// It is a name.
    Name,
    /// It may follow the name of a declaration under this header.
    Listed(&'a Heading),
    /// It may follow the name of a declaration, if this line names the workers.
    ListedBy(&'a [u8]),
    /// It has a byte.
    Full,
}

/// Returns whether a word passes a test.
fn passes(test: &WordTest<'_>, word: &[u8]) -> bool
    ensures { result ≡ word_test test.now word.now }
{
    match test {
        WordTest::Name => is_name(word),
        WordTest::Listed(heading) => {
            heading.worker(word).is_some()
                || number(word).is_some()
                || is_among(&LIST_OPENERS, word)
        }
        WordTest::ListedBy(line) => {
            names_worker(line, word) || number(word).is_some() || is_among(&LIST_OPENERS, word)
        }
        WordTest::Full => !word.is_empty(),
    }
}

/// Returns how many words come before the first that fails a test.
pub(crate) fn words_before(test: &WordTest<'_>, list: &[u8]) -> usize
    ensures value { result ≡ words_before (word_test test.now) (words_of list.now) }
    ensures few { result ≤ length list.now + 1 }
{
    let (word, rest) = cut_word(list);
    if !passes(test, word) {
        return 0;
    }
    match rest {
        None => 1,
        Some(rest) => 1 + words_before(test, rest),
    }
}
