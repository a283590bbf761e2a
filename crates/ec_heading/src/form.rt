//! The form of a declaration.
ghost use Rattle.std.specs.Prelude.{◌≡◌, None, option_map, IfNone, IfSome};
ghost use Rattle.ec_text.specs.Words.{words_of};
ghost use Rattle.ec_heading.specs.DeclKinds.{needs_second, second_opener};
ghost use Rattle.ec_heading.specs.Form.{parts_in, numbered_in, opened_in, split_words, both_lists, phrase_of_parts, shown_lists, well_or, StopsAt};

use crate::decl_kind::{DeclKind, sort_of};
use ec_text::{cut_word, is_number_form};

/// A declaration, by its words. If its form has no name, `name` is the word of its kind; if it has
/// no number, `number` is empty.
#[derive(Clone, Copy)]
pub(crate) struct Parts<'a> {
    pub(crate) sort: DeclKind,
    pub(crate) name: &'a [u8],
    pub(crate) number: &'a [u8],
    pub(crate) first: &'a [u8],
    pub(crate) second: Option<&'a [u8]>,
}

/// Two lists of words.
#[derive(Clone, Copy)]
pub(crate) struct Lists<'a> {
    pub(crate) first: &'a [u8],
    pub(crate) second: Option<&'a [u8]>,
}

/// Returns how many bytes precede the first word `stop`; `None` if there is none.
fn stop_at(list: &[u8], stop: &[u8]) -> Option<usize>
    ensures none { IfNone result (split_words stop.now (words_of list.now) ≡ (words_of list.now, None)) }
    ensures some { IfSome result (λ at. StopsAt stop.now list.now at) }
{
    let (word, rest) = cut_word(list);
    if word == stop {
        return Some(0);
    }
    let at = stop_at(rest?, stop)?;
    Some(word.len() + 1 + at)
}

/// Returns a list without a second one, unless that must be there.
fn one_list(list: &[u8], needs: bool) -> Option<Lists<'_>>
    ensures { option_map shown_lists result ≡ well_or needs (words_of list.now, None) }
{
    if needs {
        return None;
    }
    Some(Lists {
        first: list,
        second: None,
    })
}

/// Returns the lists before and after the first `stop` of a list, if both are well formed.
fn split_lists<'a>(list: &'a [u8], stop: &[u8], needs: bool) -> Option<Lists<'a>>
    ensures { option_map shown_lists result ≡ well_or needs (split_words stop.now (words_of list.now)) }
{
    let Some(at) = stop_at(list, stop) else {
        return one_list(list, needs);
    };
    let end = at + stop.len();
    if at == 0 || end >= list.len() {
        return None;
    }
    Some(Lists {
        first: &list[..at - 1],
        second: Some(&list[end + 1..]),
    })
}

/// Returns the two lists of names of a declaration of this kind, if both are well formed.
fn parse_lists<'a>(sort: DeclKind, list: &'a [u8]) -> Option<Lists<'a>>
    ensures { option_map shown_lists result ≡ well_or (needs_second sort) (both_lists (second_opener sort) (words_of list.now)) }
{
    match sort.second_opener() {
        None => one_list(list, sort.needs_second()),
        Some(stop) => split_lists(list, stop, sort.needs_second()),
    }
}

/// Returns the parts of a declaration, given those before its lists and the rest of its line.
#[tactic(auto, using(crate::proofs::Stops::opened_one))]
fn parts_from_first_list<'a>(
    sort: DeclKind,
    name: &'a [u8],
    number: &'a [u8],
    rest: &'a [u8],
) -> Option<Parts<'a>>
    ensures { option_map phrase_of_parts result
        ≡ opened_in sort name.now number.now (words_of rest.now) }
{
    let (word, Some(rest)) = cut_word(rest) else {
        return None;
    };
    if word != sort.opener() {
        return None;
    }
    let lists = parse_lists(sort, rest)?;
    Some(Parts {
        sort,
        name,
        number,
        first: lists.first,
        second: lists.second,
    })
}

/// Returns the parts of a declaration, given its name and the rest of its line.
fn parts_after_name<'a>(sort: DeclKind, name: &'a [u8], rest: &'a [u8]) -> Option<Parts<'a>>
    ensures { option_map phrase_of_parts result ≡ numbered_in sort name.now (words_of rest.now) }
{
    if !sort.has_number() {
        return parts_from_first_list(sort, name, b"".as_slice(), rest);
    }
    let (word, Some(rest)) = cut_word(rest) else {
        return None;
    };
    if !is_number_form(word) {
        return None;
    }
    parts_from_first_list(sort, name, word, rest)
}

/// Returns the parts of a declaration's line; `None` if it has none of the forms.
#[tactic(auto, using(crate::proofs::Stops::sorted_none, crate::proofs::Stops::word_of_sort), unfolding(crate::specs::Form::parts_in))]
pub(crate) fn split_declaration(line: &[u8]) -> Option<Parts<'_>>
    ensures { option_map phrase_of_parts result ≡ parts_in (words_of line.now) }
{
    let (word, Some(rest)) = cut_word(line) else {
        return None;
    };
    let sort = sort_of(word)?;
    if !sort.has_name() {
        return parts_after_name(sort, word, rest);
    }
    let (name, Some(rest)) = cut_word(rest) else {
        return None;
    };
    parts_after_name(sort, name, rest)
}
