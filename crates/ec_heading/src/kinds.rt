//! Why a line of a header is rejected.
ghost use Rattle.std.specs.Prelude.{◌≡◌, ◌+◌, not, nat_lt, length};
ghost use Rattle.std.specs.List.{list_any};
ghost use Rattle.ec_count.specs.Reserved.{is_name};
ghost use Rattle.ec_text.specs.Words.{words_of};
ghost use Rattle.ec_heading.specs.Form.{phrase_of_parts};
ghost use Rattle.ec_heading.specs.Kinds.{workers_fault, declaration_of, declaration_fault, size_in, is_taken, has_unknown_word, is_bad_number, is_too_many, has_two_roles};

use crate::decl_kind::DeclKind;
use crate::form::Parts;
use crate::heading::HeadFault;
use crate::lists::{count_ids, count_words, has_repeat, has_shared, has_unknown, has_word_twice};
use ec_count::{Setup, SymbolTable, is_name};
use ec_text::{cut_word, number};

/// Returns whether a word of the list is no name.
fn has_bad_name(list: &[u8]) -> bool
    ensures { result ≡ list_any (λ w. not (is_name w)) (words_of list.now) }
{
    let (word, rest) = cut_word(list);
    if !is_name(word) {
        return true;
    }
    match rest {
        None => false,
        Some(rest) => has_bad_name(rest),
    }
}

/// Returns the lowest fault of the names of workers.
pub(crate) fn workers_fault(list: &[u8]) -> Option<HeadFault>
    ensures { result ≡ workers_fault (words_of list.now) }
{
    if has_bad_name(list) {
        return Some(HeadFault::BadName);
    }
    if has_word_twice(list) {
        return Some(HeadFault::NameTaken);
    }
    if count_words(list) > 16 {
        return Some(HeadFault::TooMany);
    }
    None
}

/// Returns the number, or 0 if there is none of at most 18 digits.
pub(crate) fn size_of(parts: &Parts<'_>) -> u64
    ensures { result ≡ size_in (phrase_of_parts parts.now) }
{
    number(parts.number).unwrap_or(0)
}

/// Returns whether the name is in use, or a list names a worker twice.
fn is_taken(words: &SymbolTable, parts: &Parts<'_>) -> bool
    ensures { result ≡ is_taken words.now (declaration_of words.now (phrase_of_parts parts.now)) }
{
    words.find(parts.name).is_some()
        || has_repeat(words, parts.first)
        || parts.second.is_some_and(|second| has_repeat(words, second))
}

/// Returns whether a word of a list is no worker's name.
fn has_unknown_word(words: &SymbolTable, parts: &Parts<'_>) -> bool
    ensures { result ≡ has_unknown_word words.now (phrase_of_parts parts.now) }
{
    has_unknown(words, parts.first)
        || parts
            .second
            .is_some_and(|second| has_unknown(words, second))
}

/// Returns whether the number is out of its range; one of more than 18 digits is.
fn is_bad_number(sort: DeclKind, number: Option<u64>) -> bool
    ensures { result ≡ is_bad_number sort number }
{
    sort.has_number() && !number.is_some_and(|n| sort.is_in_range(n))
}

/// Returns how many workers the second list names.
fn count_second(words: &SymbolTable, parts: &Parts<'_>) -> usize
    ensures { result ≡ length (declaration_of words.now (phrase_of_parts parts.now)).second }
{
    parts.second.map_or(0, |second| count_ids(words, second))
}

/// Returns whether `cells` cells and `n` more exceed 256.
fn is_over(cells: usize, n: u64) -> bool
    ensures { result ≡ nat_lt 256 (cells + n) }
{
    if n > 256 || cells > 256 {
        return true;
    }
    cells as u64 + n > 256
}

/// Returns whether a list or a table would exceed its bound.
fn is_too_many(setup: &Setup, words: &SymbolTable, parts: &Parts<'_>) -> bool
    ensures { result ≡ is_too_many setup.now (declaration_of words.now (phrase_of_parts parts.now)) }
{
    if count_ids(words, parts.first) > 16 || count_second(words, parts) > 16 {
        return true;
    }
    match parts.sort {
        DeclKind::EventCount => setup.events() > 31,
        DeclKind::Sequencer => setup.sequencers() > 31,
        DeclKind::Cells => is_over(setup.cells(), size_of(parts)),
        DeclKind::Buffer => {
            setup.events() > 30 || setup.sequencers() > 30 || is_over(setup.cells(), size_of(parts))
        }
        DeclKind::Database => {
            setup.events() > 30 || setup.sequencers() > 31 || is_over(setup.cells(), size_of(parts))
        }
        DeclKind::Semaphore | DeclKind::Both => setup.events() > 31 || setup.sequencers() > 31,
    }
}

/// Returns whether a worker is in both lists, which have to be disjoint.
fn has_two_roles(words: &SymbolTable, parts: &Parts<'_>) -> bool
    ensures { result ≡ has_two_roles (declaration_of words.now (phrase_of_parts parts.now)) }
{
    if !parts.sort.needs_disjoint_lists() {
        return false;
    }
    match parts.second {
        None => false,
        Some(second) => has_shared(words, parts.first, second),
    }
}

/// Returns the lowest fault of a declaration, of a line that has one of the forms.
pub(crate) fn declaration_fault(
    setup: &Setup,
    words: &SymbolTable,
    parts: &Parts<'_>,
) -> Option<HeadFault>
    ensures { result ≡ declaration_fault setup.now words.now (phrase_of_parts parts.now) }
{
    if !parts.sort.is_called(parts.name) {
        return Some(HeadFault::BadName);
    }
    if is_taken(words, parts) {
        return Some(HeadFault::NameTaken);
    }
    if has_unknown_word(words, parts) {
        return Some(HeadFault::UnknownName);
    }
    if is_bad_number(parts.sort, number(parts.number)) {
        return Some(HeadFault::BadNumber);
    }
    if is_too_many(setup, words, parts) {
        return Some(HeadFault::TooMany);
    }
    if has_two_roles(words, parts) {
        return Some(HeadFault::TwoRoles);
    }
    None
}
