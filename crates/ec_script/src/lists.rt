//! Lists of words in a line.
ghost use Rattle.std.specs.Prelude.{◌≡◌, ◌++◌, map, true, OnOk};
ghost use Rattle.std.specs.List.{list_all, list_any};
ghost use Rattle.ec_text.specs.Words.{words_of};
ghost use Rattle.ec_machine.specs.Limits.{is_value};
ghost use Rattle.ec_heading.specs.Lists.{ids_in};
ghost use Rattle.ec_script.specs.Kinds.{is_no_value};
ghost use Rattle.ec_script.specs.BlockItems.{amount_of};

use crate::form::parse_value;
use ec_count::WorkerId;
use ec_heading::Heading;
use ec_machine::Value;
use ec_text::cut_word;
use std::alloc::AllocError;

/// Returns whether some word of the list is no value in its range.
pub(crate) fn has_no_value(list: &[u8]) -> bool
    ensures { result ≡ list_any is_no_value (words_of list.now) }
{
    let (word, rest) = cut_word(list);
    if parse_value(word).is_none() {
        return true;
    }
    match rest {
        None => false,
        Some(rest) => has_no_value(rest),
    }
}

/// Adds the workers that the list names.
pub(crate) fn push_ids(
    heading: &Heading,
    list: &[u8],
    ids: &mut Vec<WorkerId>,
) -> Result<(), AllocError>
    ensures { OnOk result (ids.new.items ≡ ids.old.items ++ ids_in heading.now.words (words_of list.now)) }
{
    let (word, rest) = cut_word(list);
    if let Some(id) = heading.worker(word) {
        ids.push(id)?;
    }
    match rest {
        None => Ok(()),
        Some(rest) => push_ids(heading, rest, ids),
    }
}

/// Returns the value of a word; `last` if it is none.
pub(crate) fn amount_of(word: &[u8]) -> Value
    ensures value { result ≡ amount_of word.now }
    ensures sound { is_value result ≡ true }
{
    parse_value(word).unwrap_or(Value::Last)
}

/// Adds the values of the words of the list.
#[tactic(auto, using(crate::proofs::Sizes::sound_more))]
pub(crate) fn push_values(list: &[u8], values: &mut Vec<Value>) -> Result<(), AllocError>
    ensures items { OnOk result (values.new.items ≡ values.old.items ++ map amount_of (words_of list.now)) }
    ensures sound { OnOk result (list_all is_value values.old.items ≡ true → list_all is_value values.new.items ≡ true) }
{
    let (word, rest) = cut_word(list);
    values.push(amount_of(word))?;
    match rest {
        None => Ok(()),
        Some(rest) => push_values(rest, values),
    }
}
