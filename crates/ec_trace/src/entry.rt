//! Parses the line of an entry.
ghost use Rattle.std.specs.Prelude.{◌≡◌, ◌∷◌};
ghost use Rattle.ec_trace.specs.Entries.{act_alone, act_on, act_with, parse_reply, entry_by, entry_in, entry_of};
ghost use Rattle.ec_text.specs.Words.{words_of};

use ec_core::{Act, Entry, Reply};
use ec_heading::Heading;
use ec_text::{cut_word, number};

/// Returns the act of one word.
#[tactic(auto, unfolding(crate::specs::Entries::act_alone))]
fn act_alone(verb: &[u8]) -> Option<Act>
    ensures { result ≡ act_alone verb.now }
{
    if verb == b"go".as_slice() {
        Some(Act::Go)
    } else {
        None
    }
}

/// Returns the act of a word and an object.
#[tactic(auto, unfolding(crate::specs::Entries::act_on))]
fn act_on(heading: &Heading, verb: &[u8], object: &[u8]) -> Option<Act>
    ensures { result ≡ act_on heading.now.words verb.now object.now }
{
    if verb == b"advance".as_slice() {
        return Some(Act::Advance(heading.event(object)?));
    }
    if verb == b"read".as_slice() {
        return Some(Act::Read(heading.event(object)?));
    }
    if verb == b"ticket".as_slice() {
        return Some(Act::Ticket(heading.sequencer(object)?));
    }
    if verb == b"get".as_slice() {
        return Some(Act::Get(heading.cell(object)?));
    }
    None
}

/// Returns the act of a word, an object and a value or a worker.
#[tactic(auto, unfolding(crate::specs::Entries::act_with))]
fn act_with(heading: &Heading, verb: &[u8], object: &[u8], value: &[u8]) -> Option<Act>
    ensures { result ≡ act_with heading.now.words verb.now object.now value.now }
{
    if verb == b"await".as_slice() {
        return Some(Act::Await(heading.event(object)?, number(value)?));
    }
    if verb == b"put".as_slice() {
        return Some(Act::Put(heading.cell(object)?, number(value)?));
    }
    if verb == b"hand".as_slice() {
        return Some(Act::Hand(heading.event(object)?, heading.worker(value)?));
    }
    None
}

/// Returns the reply that a word encodes.
#[tactic(auto, unfolding(crate::specs::Entries::parse_reply))]
fn parse_reply(word: &[u8]) -> Option<Reply>
    ensures { result ≡ parse_reply word.now }
{
    if word == b"done".as_slice() {
        return Some(Reply::Done);
    }
    if word == b"pending".as_slice() {
        return Some(Reply::Pending);
    }
    Some(Reply::Number(number(word)?))
}

/// Returns the entry of a worker, an act, `=` and a reply.
#[inline(always)]
#[tactic(auto, unfolding(crate::specs::Entries::entry_by))]
fn entry_by(
    heading: &Heading,
    name: &[u8],
    act: Option<Act>,
    equals: &[u8],
    answer: &[u8],
) -> Option<Entry>
    ensures { result ≡ entry_by heading.now.words name.now act equals.now answer.now }
{
    let act = act?;
    let worker = heading.worker(name)?;
    if equals != b"=".as_slice() {
        return None;
    }
    let reply = parse_reply(answer)?;
    Some(Entry { worker, act, reply })
}

/// Returns the entry of four words and those of the rest.
#[tactic(auto, using(crate::proofs::ReadEntries::too_many), unfolding(crate::specs::Entries::entry_in))]
fn read_objects(
    heading: &Heading,
    name: &[u8],
    verb: &[u8],
    third: &[u8],
    fourth: &[u8],
    rest: &[u8],
) -> Option<Entry>
    ensures { result ≡ entry_in heading.now.words (name.now ∷ verb.now ∷ third.now ∷ fourth.now ∷ words_of rest.now) }
{
    match cut_word(rest) {
        (answer, None) => entry_by(heading, name, act_on(heading, verb, third), fourth, answer),
        (fifth, Some(rest)) => {
            let (answer, None) = cut_word(rest) else {
                return None;
            };
            let act = act_with(heading, verb, third, fourth);
            entry_by(heading, name, act, fifth, answer)
        }
    }
}

/// Returns the entry that a line without its LF encodes; `None` if it encodes none.
#[tactic(auto, unfolding(crate::specs::Entries::entry_in, crate::specs::Entries::entry_of))]
pub(crate) fn read_entry(heading: &Heading, line: &[u8]) -> Option<Entry>
    ensures { result ≡ entry_of heading.now.words line.now }
{
    let (name, Some(rest)) = cut_word(line) else {
        return None;
    };
    let (verb, Some(rest)) = cut_word(rest) else {
        return None;
    };
    let (third, Some(rest)) = cut_word(rest) else {
        return None;
    };
    match cut_word(rest) {
        (answer, None) => entry_by(heading, name, act_alone(verb), third, answer),
        (fourth, Some(rest)) => read_objects(heading, name, verb, third, fourth, rest),
    }
}
