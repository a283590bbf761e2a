//! Reads the lines of histories.
use calls_core::{Action, Events, Kind, Op, Reply};
use std::alloc::{AllocError, Global};

/// One history of the input.
#[derive(Debug, Drop)]
pub struct History {
    /// The kind of each object.
    pub kinds: Vec<Kind>,
    /// The events in order.
    pub events: Events,
}

/// A line of a history.
#[derive(Debug, Drop)]
pub enum Line {
    /// An object.
    Object(Kind),
    /// The end of the objects.
    Run,
    /// An event: its worker and its action.
    Event(usize, Action),
    /// The end of the history.
    End,
}

/// Reads the number at an index.
fn number(words: &[&str], place: usize) -> Option<usize> {
    let word = words.get(place)?;
    word.parse().ok()
}

/// Reads words that are all numbers.
fn numbers(alloc: Global, words: &[&str]) -> Result<Option<Vec<usize>>, AllocError> {
    let mut list = Vec::new(alloc);
    for word in words {
        let n: Result<usize, _> = word.parse();
        let Ok(n) = n else {
            return Ok(None);
        };
        list.push(n)?;
    }
    Ok(Some(list))
}

/// Reads an operation.
fn op(words: &[&str]) -> Option<Op> {
    let word = words.first()?;
    match *word {
        "advance" => Some(Op::Advance),
        "read" => Some(Op::Read),
        "await" => Some(Op::Await(number(words, 1)?)),
        "ticket" => Some(Op::Ticket),
        "p" => Some(Op::P(number(words, 1)?)),
        "v" => Some(Op::V(number(words, 1)?)),
        "pboth" => Some(Op::PBoth(number(words, 1)?, number(words, 2)?)),
        "put" => Some(Op::Put(number(words, 1)?)),
        "get" => Some(Op::Get),
        "produce" => Some(Op::Produce(number(words, 1)?)),
        "consume" => Some(Op::Consume),
        _ => None,
    }
}

/// Reads a reply.
fn reply(words: &[&str]) -> Option<Reply> {
    let word = words.first()?;
    match *word {
        "done" => Some(Reply::Done),
        "timeout" => Some(Reply::Timeout),
        _ => Some(Reply::Number(number(words, 0)?)),
    }
}

/// Reads an event: `W calls K OP ..` or `W returns REPLY`.
fn event(words: &[&str]) -> Option<Line> {
    let worker = number(words, 0)?;
    let word = words.get(1)?;
    match *word {
        "calls" => {
            let object = number(words, 2)?;
            let op = op(words.get(3..)?)?;
            Some(Line::Event(worker, Action::Invoke(object, op)))
        }
        "returns" => {
            let reply = reply(words.get(2..)?)?;
            Some(Line::Event(worker, Action::Respond(reply)))
        }
        _ => None,
    }
}

/// Reads a line.
pub fn read_line(alloc: Global, text: &str) -> Result<Option<Line>, AllocError> {
    let words: Vec<&str> = text.split_whitespace().collect(alloc)?;
    let words = words.as_slice();
    let Some(word) = words.first() else {
        return Ok(None);
    };
    match *word {
        "eventcount" => match number(words, 1) {
            Some(n) => Ok(Some(Line::Object(Kind::Eventcount(n)))),
            None => Ok(None),
        },
        "sequencer" => Ok(Some(Line::Object(Kind::Sequencer))),
        "semaphores" => match numbers(alloc, &words[1..])? {
            Some(units) => Ok(Some(Line::Object(Kind::Semaphores(units)))),
            None => Ok(None),
        },
        "cell" => Ok(Some(Line::Object(Kind::Cell))),
        "database" => match number(words, 1) {
            Some(n) => Ok(Some(Line::Object(Kind::Database(n)))),
            None => Ok(None),
        },
        "buffer" => match number(words, 1) {
            Some(n) => Ok(Some(Line::Object(Kind::Buffer(n)))),
            None => Ok(None),
        },
        "run" => Ok(Some(Line::Run)),
        "end" => Ok(Some(Line::End)),
        _ => Ok(event(words)),
    }
}
