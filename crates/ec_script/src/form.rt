//! The form of a line of a block or of the schedule.
ghost use Rattle.std.specs.Prelude.{◌≡◌, ◌∷◌, [], option_map, IfSome, true, length, ◌<◌};
ghost use Rattle.std.specs.List.{list_all};
ghost use Rattle.ec_text.specs.Words.{words_of};
ghost use Rattle.ec_machine.specs.Limits.{is_value};
ghost use Rattle.ec_script.specs.Forms.{more_in, is_value_form, value_of, only_in, is_tail, tailed_in, phrase_in, rest_words, phrase_of_parts};

use crate::verb::{LineWord, Tail, parse_line_word};
use ec_machine::Value;
use ec_text::{cut_word, is_number_form, number};

/// The words of a line of one of the forms. The object is empty if the form has none.
#[derive(Clone, Copy)]
pub(crate) struct Parts<'a> {
    pub(crate) verb: LineWord,
    pub(crate) object: &'a [u8],
    pub(crate) rest: Option<&'a [u8]>,
}

/// Returns whether a word has the form of a value.
fn is_value_form(word: &[u8]) -> bool
    ensures { result ≡ is_value_form word.now }
{
    word == b"last".as_slice()
        || is_number_form(word.strip_prefix(b"last+".as_slice()).unwrap_or(word))
}

/// Returns the value of a word; `None` if it is none or its number is out of range.
#[tactic(auto, unfolding(crate::specs::Forms::value_of))]
pub(crate) fn parse_value(word: &[u8]) -> Option<Value>
    ensures value { result ≡ value_of word.now }
    ensures small { IfSome result (λ v. is_value v ≡ true) }
{
    if word == b"last".as_slice() {
        return Some(Value::Last);
    }
    match word.strip_prefix(b"last+".as_slice()) {
        Some(digits) => {
            let n = number(digits)?;
            if n < 1 {
                return None;
            }
            Some(Value::LastPlus(n))
        }
        None => Some(Value::Number(number(word)?)),
    }
}

/// Returns whether each word has the form of a value.
fn are_value_forms(list: &[u8]) -> bool
    ensures { result ≡ list_all is_value_form (words_of list.now) }
{
    let (word, rest) = cut_word(list);
    if !is_value_form(word) {
        return false;
    }
    match rest {
        None => true,
        Some(rest) => are_value_forms(rest),
    }
}

/// Returns the only word that is left; `None` if there is not exactly one.
#[tactic(auto, using(crate::proofs::Words::only_word))]
pub(crate) fn only_word(rest: Option<&[u8]>) -> Option<&[u8]>
    ensures { option_map (λ w. w.now) result ≡ only_in (rest_words rest.entry) }
{
    let (word, None) = cut_word(rest?) else {
        return None;
    };
    Some(word)
}

/// Returns whether the words that are left have the form of the tail.
#[tactic(auto, using(crate::proofs::Words::some_words))]
fn is_tail(tail: Tail, rest: Option<&[u8]>) -> bool
    ensures { result ≡ is_tail tail (rest_words rest.entry) }
{
    match tail {
        Tail::Nothing => rest.is_none(),
        Tail::Value => only_word(rest).is_some_and(is_value_form),
        Tail::Values => rest.is_some_and(are_value_forms),
        Tail::Digits => only_word(rest).is_some_and(|word| is_number_form(word)),
        Tail::Word => only_word(rest).is_some(),
        Tail::Words => rest.is_some(),
    }
}

/// Returns the parts of a line, given what follows its object; `None` if that has a wrong form.
fn parts_after_object<'a>(
    verb: LineWord,
    object: &'a [u8],
    rest: Option<&'a [u8]>,
) -> Option<Parts<'a>>
    ensures { option_map phrase_of_parts result
        ≡ tailed_in verb object.now (rest_words rest.entry) }
{
    if !is_tail(verb.tail(), rest) {
        return None;
    }
    Some(Parts { verb, object, rest })
}

/// Returns the parts of a line; `None` if it has none of the forms.
#[tactic(auto, unfolding(crate::specs::Forms::phrase_in))]
pub(crate) fn split_line(line: &[u8]) -> Option<Parts<'_>>
    ensures { option_map phrase_of_parts result ≡ phrase_in (words_of line.now) }
{
    let (word, rest) = cut_word(line);
    let verb = parse_line_word(word)?;
    if !verb.has_object() {
        return parts_after_object(verb, b"".as_slice(), rest);
    }
    let (object, rest) = cut_word(rest?);
    parts_after_object(verb, object, rest)
}
