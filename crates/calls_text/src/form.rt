//! Splits the line of an event into its words, if it has the form of one.
ghost use Rattle.std.specs.Prelude.{◌≡◌, option_map};
ghost use Rattle.std.specs.List.{list_all};
ghost use Rattle.ec_text.specs.Words.{words_of, is_number_form};
ghost use Rattle.calls_text.specs.Forms.{is_tail, rest_words, call_in, return_in};
ghost use Rattle.calls_text.specs.Forms.{parse_reply_word, phrase_in, phrase_of_parts};
ghost use Rattle.calls_text.specs.kept.Phrases.{has_blank, phrase_of};

use crate::literal::is_text;
use crate::verb::{OpWord, Tail, parse_op_word};
use ec_heading::LINE_MAX;
use ec_text::{cut_word, has_blank, is_number_form};

/// The form of the reply in a response.
#[derive(Clone, Copy, Debug, PartialEq, Eq)]
pub(crate) enum ReplyWord {
    Done,
    Timeout,
    /// One number or more.
    Numbers,
}

/// The words of the line of an event.
#[derive(Clone, Copy)]
pub(crate) enum Parts<'a> {
    Calls {
        worker: &'a [u8],
        verb: OpWord,
        object: &'a [u8],
        rest: Option<&'a [u8]>,
    },
    Returns {
        worker: &'a [u8],
        answer: ReplyWord,
        list: &'a [u8],
    },
}

/// Returns whether each word has the form of a number.
fn are_number_forms(list: &[u8]) -> bool
    ensures { result ≡ list_all is_number_form (words_of list.now) }
{
    let (word, rest) = cut_word(list);
    if !is_number_form(word) {
        return false;
    }
    match rest {
        None => true,
        Some(rest) => are_number_forms(rest),
    }
}

/// Returns whether the list is one word.
#[tactic(auto, using(crate::proofs::Words::some_words))]
fn is_one_word(list: &[u8]) -> bool
    ensures { result ≡ is_tail Tail.Word (words_of list.now) }
{
    let (_, rest) = cut_word(list);
    rest.is_none()
}

/// Returns whether the list is one word that has the form of a number.
#[tactic(auto, using(crate::proofs::Words::two_words))]
fn is_one_number(list: &[u8]) -> bool
    ensures { result ≡ is_tail Tail.Digits (words_of list.now) }
{
    let (word, rest) = cut_word(list);
    rest.is_none() && is_number_form(word)
}

/// Returns whether the rest of a line has this form.
#[tactic(auto, using(crate::proofs::Words::some_words))]
fn is_tail(tail: Tail, rest: Option<&[u8]>) -> bool
    ensures { result ≡ is_tail tail (rest_words rest.entry) }
{
    match (tail, rest) {
        (Tail::Nothing, rest) => rest.is_none(),
        (_, None) => false,
        (Tail::Digits, Some(list)) => is_one_number(list),
        (Tail::ManyDigits, Some(list)) => are_number_forms(list),
        (Tail::Word, Some(list)) => is_one_word(list),
    }
}

/// Returns the parts of an invocation, given its line after `calls`.
fn call_of<'a>(worker: &'a [u8], line: &'a [u8]) -> Option<Parts<'a>>
    ensures { option_map phrase_of_parts result ≡ call_in worker.now (words_of line.now) }
{
    let (word, Some(line)) = cut_word(line) else {
        return None;
    };
    let verb = parse_op_word(word)?;
    let (object, rest) = cut_word(line);
    if !is_tail(verb.tail(), rest) {
        return None;
    }
    Some(Parts::Calls {
        worker,
        verb,
        object,
        rest,
    })
}

/// Returns the form of a reply, given the line after `returns`.
#[tactic(auto, using(crate::proofs::Words::replies))]
fn parse_reply_word(list: &[u8]) -> Option<ReplyWord>
    ensures { result ≡ parse_reply_word (words_of list.now) }
{
    if is_text(list, b"done".as_slice()) {
        return Some(ReplyWord::Done);
    }
    if is_text(list, b"timeout".as_slice()) {
        return Some(ReplyWord::Timeout);
    }
    if are_number_forms(list) {
        return Some(ReplyWord::Numbers);
    }
    None
}

/// Returns the parts of a response, given its line after `returns`.
fn return_of<'a>(worker: &'a [u8], list: &'a [u8]) -> Option<Parts<'a>>
    ensures { option_map phrase_of_parts result ≡ return_in worker.now (words_of list.now) }
{
    let answer = parse_reply_word(list)?;
    Some(Parts::Returns {
        worker,
        answer,
        list,
    })
}

/// Returns the parts of the words of a line, or `None` if they have not the form of an event.
#[tactic(auto, unfolding(crate::specs::Forms::phrase_in))]
fn parts_of_words(line: &[u8]) -> Option<Parts<'_>>
    ensures { option_map phrase_of_parts result ≡ phrase_in (words_of line.now) }
{
    let (worker, Some(line)) = cut_word(line) else {
        return None;
    };
    let (word, Some(line)) = cut_word(line) else {
        return None;
    };
    if is_text(word, b"calls".as_slice()) {
        return call_of(worker, line);
    }
    if is_text(word, b"returns".as_slice()) {
        return return_of(worker, line);
    }
    None
}

/// Returns whether one of the words is empty.
fn has_blank_part(parts: &Parts<'_>) -> bool
    ensures { result ≡ has_blank (phrase_of_parts parts.now) }
{
    match *parts {
        Parts::Calls {
            worker,
            object,
            rest,
            ..
        } => worker.is_empty() || object.is_empty() || rest.is_some_and(|list| has_blank(list)),
        Parts::Returns { worker, .. } => worker.is_empty(),
    }
}

/// Returns the parts of the line of an event, or `None` if it is too long, has an empty word, or
/// has not the form of one.
#[tactic(auto, using(crate::proofs::BlankWords::blanks))]
pub(crate) fn split_event(line: &[u8]) -> Option<Parts<'_>>
    ensures { option_map phrase_of_parts result ≡ phrase_of line.now }
{
    if line.len() > LINE_MAX {
        return None;
    }
    let parts = parts_of_words(line)?;
    if has_blank_part(&parts) {
        return None;
    }
    Some(parts)
}
