//! Makes histories that are judged.
use calls_core::{Action, Event, Events, Kind, Op, Reply};
use std::alloc::{AllocError, Global};

/// How many workers make calls.
const WORKERS: usize = 8;

/// Which objects the calls are on.
#[derive(Clone, Copy, Debug, PartialEq, Eq)]
pub enum Sort {
    /// Advances, reads and awaits of one eventcount.
    Counts,
    /// Tickets of one sequencer.
    Tickets,
    /// P and V of one semaphore.
    Units,
    /// Puts and gets of one cell, each value put once.
    Values,
    /// Puts of one worker and gets of the others, with ten values.
    Serial,
}

impl Sort {
    /// Returns the sort that a word names.
    pub fn of(word: &str) -> Option<Self> {
        match word {
            "counts" => Some(Sort::Counts),
            "tickets" => Some(Sort::Tickets),
            "units" => Some(Sort::Units),
            "values" => Some(Sort::Values),
            "serial" => Some(Sort::Serial),
            _ => None,
        }
    }

    /// Returns the kind of the one object, in a list.
    pub fn kinds(self, alloc: Global) -> Result<Vec<Kind>, AllocError> {
        let kind = match self {
            Sort::Counts => Kind::Eventcount(0),
            Sort::Tickets => Kind::Sequencer,
            Sort::Units => Kind::Semaphores(vec![in alloc; 1]?),
            Sort::Values => Kind::Cell,
            Sort::Serial => Kind::Cell,
        };
        let mut kinds = Vec::new(alloc);
        kinds.push(kind)?;
        Ok(kinds)
    }
}

/// Returns the next of a sequence of pseudorandom numbers.
fn next(seed: u64) -> u64 {
    seed.wrapping_mul(6364136223846793005)
        .wrapping_add(1442695040888963407)
}

/// One object, on which each call takes effect as it is invoked.
#[derive(Drop)]
struct Object {
    sort: Sort,
    number: usize,
    puts: usize,
}

impl Object {
    /// Makes a call, which depends on a random number `chance`.
    fn call(&mut self, worker: usize, chance: u64) -> (Op, Reply) {
        match self.sort {
            Sort::Counts => self.count(chance),
            Sort::Tickets => {
                let reply = Reply::Number(self.number);
                self.number = self.number.wrapping_add(1);
                (Op::Ticket, reply)
            }
            Sort::Units => {
                if chance % 2 == 0 && self.number > 0 {
                    self.number = self.number.wrapping_sub(1);
                    (Op::P(0), Reply::Done)
                } else {
                    self.number = self.number.wrapping_add(1);
                    (Op::V(0), Reply::Done)
                }
            }
            Sort::Values => {
                if chance % 4 == 0 {
                    self.puts = self.puts.wrapping_add(1);
                    self.number = self.puts;
                    (Op::Put(self.number), Reply::Done)
                } else {
                    (Op::Get, Reply::Number(self.number))
                }
            }
            Sort::Serial => {
                if worker == 0 {
                    self.number = (chance % 10) as usize;
                    (Op::Put(self.number), Reply::Done)
                } else {
                    (Op::Get, Reply::Number(self.number))
                }
            }
        }
    }

    /// Makes a call of an eventcount.
    fn count(&mut self, chance: u64) -> (Op, Reply) {
        match chance % 4 {
            0 => (Op::Read, Reply::Number(self.number)),
            1 => (Op::Await(self.number / 2), Reply::Done),
            _ => {
                self.number = self.number.wrapping_add(1);
                (Op::Advance, Reply::Done)
            }
        }
    }
}

/// Makes a history of so many calls.
pub fn history(alloc: Global, sort: Sort, calls: usize) -> Result<Events, AllocError> {
    let mut object = Object {
        sort,
        number: if sort == Sort::Units { 1 } else { 0 },
        puts: 0,
    };
    let mut events = Events::new(alloc);
    let mut replies: [Option<Reply>; WORKERS] = [None; WORKERS];
    let mut seed = 1;
    for _ in 0..calls.saturating_mul(2) {
        seed = next(seed);
        let worker = ((seed >> 33) % 8) as usize;
        let action = match replies[worker] {
            Some(reply) => {
                replies[worker] = None;
                Action::Respond(reply)
            }
            None => {
                let (op, reply) = object.call(worker, seed >> 41);
                replies[worker] = Some(reply);
                Action::Invoke(0, op)
            }
        };
        let at = events.len();
        events.push(Event { at, worker, action })?;
    }
    Ok(events)
}
