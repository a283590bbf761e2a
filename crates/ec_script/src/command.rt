//! The command of a line of a block.
ghost use Rattle.std.specs.Prelude.{◌≡◌, ◌==◌, false, true, IfOk, IfSome, map, length};
ghost use Rattle.std.specs.List.{list_all};
ghost use Rattle.ec_machine.specs.Limits.{is_value};
ghost use Rattle.ec_script.specs.Verbs.{tail_of, is_update};
ghost use Rattle.ec_script.specs.Forms.{only_in, rest_words};
ghost use Rattle.ec_script.specs.Kinds.{is_bad_tail, is_count, has_two_roles};
ghost use Rattle.ec_script.specs.BlockItems.{amount_of, amount_in, size_in, event_item, database_item, semaphore_item, command_in, IsSound};

use crate::block_item::{BlockItem, Values};
use crate::form::{Parts, only_word};
use crate::lists::{amount_of, push_values};
use crate::object::Object;
use crate::verb::LineWord;
use ec_count::EventId;
use ec_database::DatabaseShape;
use ec_machine::{Command, Value};
use ec_semaphore::SemaphoreShape;
use ec_text::number;
use std::alloc::{AllocError, Global};

/// Returns the value of the only word; `last` if there is none.
fn amount_in(rest: Option<&[u8]>) -> Value
    ensures value { result ≡ amount_in (rest_words rest.entry) }
    ensures sound { is_value result ≡ true }
{
    amount_of(only_word(rest).unwrap_or(b"".as_slice()))
}

/// Returns the number of the only word; 0 if there is none.
pub(crate) fn size_in(rest: Option<&[u8]>) -> u64
    ensures { result ≡ size_in (rest_words rest.entry) }
{
    only_word(rest).and_then(|word| number(word)).unwrap_or(0)
}

/// Returns the values of the words.
fn amounts_in(alloc: Global, rest: Option<&[u8]>) -> Result<Values, AllocError>
    ensures value { IfOk result (λ values. values ≡ map amount_of (rest_words rest.entry)) }
    ensures sound { IfOk result (λ values. list_all is_value values ≡ true) }
{
    let mut items = Vec::new(alloc);
    if let Some(list) = rest {
        push_values(list, &mut items)?;
    }
    Ok(Values { items })
}

fn event_item(verb: LineWord, event: EventId, value: Value) -> BlockItem
    requires { is_value value ≡ true }
    ensures value { result ≡ event_item verb event value }
    ensures sound { IsSound result }
{
    match verb {
        LineWord::Advance => BlockItem::Do(Command::Advance(event)),
        LineWord::Read => BlockItem::Do(Command::Read(event)),
        _ => BlockItem::Do(Command::Await(event, value)),
    }
}

fn semaphore_item(verb: LineWord, shape: SemaphoreShape) -> BlockItem
    ensures value { result ≡ semaphore_item verb shape }
    ensures sound { IsSound result }
{
    match verb {
        LineWord::Down => BlockItem::Do(Command::Down(shape)),
        _ => BlockItem::Do(Command::Up(shape)),
    }
}

/// Returns the item of a line about a database; `None` if the verb is none of a database.
#[tactic(auto, using(crate::proofs::Sizes::as_many, crate::proofs::Sizes::size_sound))]
fn database_item(
    alloc: Global,
    verb: LineWord,
    shape: DatabaseShape,
    rest: Option<&[u8]>,
) -> Result<Option<BlockItem>, AllocError>
    requires { is_bad_tail (tail_of verb) verb (rest_words rest) (Object.OfDatabase shape) ≡ false }
    ensures value { IfOk result (λ o. o ≡ database_item verb shape (rest_words rest.entry)) }
    ensures sound { IfOk result (λ o. IfSome o IsSound) }
{
    match verb {
        LineWord::Write => Ok(Some(BlockItem::Write(shape, amounts_in(alloc, rest)?))),
        LineWord::Snapshot => {
            let tries = size_in(rest) as usize;
            Ok(Some(BlockItem::Do(Command::Snapshot(shape, tries))))
        }
        _ => Ok(None),
    }
}

/// Returns the item of a line with this object; `None` if no command has such an object.
pub(crate) fn command_in(
    alloc: Global,
    parts: &Parts<'_>,
    object: &Object,
) -> Result<Option<BlockItem>, AllocError>
    requires numbers { is_bad_tail (tail_of parts.now.verb) parts.now.verb (rest_words parts.now.rest) object.now ≡ false }
    requires roles { has_two_roles object.now ≡ false }
    ensures value { IfOk result (λ o. o ≡ command_in parts.now.verb (is_update parts.now.verb) object.now (rest_words parts.now.rest)) }
    ensures sound { IfOk result (λ o. IfSome o IsSound) }
{
    let verb = parts.verb;
    let update = verb.is_update();
    let value = amount_in(parts.rest);
    let item = match *object {
        Object::Event(event) => event_item(verb, event, value),
        Object::Sequencer(sequencer) => BlockItem::Do(Command::Ticket(sequencer)),
        Object::Cell(cell) if update => BlockItem::Do(Command::Put(cell, value)),
        Object::Cell(cell) => BlockItem::Do(Command::Get(cell)),
        Object::Handed(event, to) => BlockItem::Do(Command::Hand(event, to)),
        Object::OfBuffer(shape) if update => BlockItem::Do(Command::Produce(shape, value)),
        Object::OfBuffer(shape) => BlockItem::Do(Command::Consume(shape)),
        Object::OfDatabase(shape) => return database_item(alloc, verb, shape, parts.rest),
        Object::OfSemaphore(shape) => semaphore_item(verb, shape),
        Object::SemaphorePair(common, one, other) => BlockItem::Do(Command::DownBoth(
            common, one, other,
        )),
        Object::Nothing | Object::Worker(_) => return Ok(None),
    };
    Ok(Some(item))
}
