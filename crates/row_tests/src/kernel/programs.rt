//! Reads programs from the commands of scripts. It does not check the bounds of a program.
use crate::fault::Fault;
use crate::kernel::ask::{
    Ask, buffer, cell, database, digits, event, semaphore, sequencer, worker,
};
use crate::line::tell;
use ec_core::Run;
use ec_count::{EventId, WorkerId};
use ec_machine::{Command, Program, Value, follows};
use std::alloc::Global;
use std::mem;

/// Commands that are repeated, or those of a complete program.
#[derive(Drop)]
struct Block {
    times: u64,
    commands: Vec<Command>,
}

/// The programs so far, and the open blocks of the one that is read.
#[derive(Drop)]
pub struct Programs {
    open: Vec<Block>,
    list: Vec<Program>,
}

/// Returns the value of a word.
fn value_of(word: &str) -> Result<Value, Fault> {
    match word.strip_prefix("last") {
        Some("") => Ok(Value::Last),
        Some(more) => Ok(Value::LastPlus(digits(more.strip_prefix('+').unwrap_or(""))?)),
        None => Ok(Value::Number(digits(word)?)),
    }
}

/// Reads the values of a `write`.
fn values(alloc: Global, ask: &mut Ask<'_>) -> Result<Vec<Value>, Fault> {
    let mut list = Vec::new(alloc);
    for word in &mut ask.words {
        list.push(value_of(word)?)?;
    }
    Ok(list)
}

/// Reads a command on an eventcount.
fn command_on(event: EventId, ask: &mut Ask<'_>) -> Result<Command, Fault> {
    match ask.verb {
        "advance" => Ok(Command::Advance(event)),
        "read" => Ok(Command::Read(event)),
        "await" => Ok(Command::Await(event, value_of(ask.word())?)),
        _ => Ok(Command::Hand(event, worker(ask)?)),
    }
}

/// Reads a command that is one call, or one on semaphores. `pboth` names the common semaphore
/// first.
fn small_command(ask: &mut Ask<'_>) -> Result<Command, Fault> {
    match ask.verb {
        "ticket" => Ok(Command::Ticket(sequencer(ask)?)),
        "put" => Ok(Command::Put(cell(ask)?, value_of(ask.word())?)),
        "get" => Ok(Command::Get(cell(ask)?)),
        "p" => Ok(Command::Down(semaphore(ask)?)),
        "v" => Ok(Command::Up(semaphore(ask)?)),
        "pboth" => {
            let (common, one) = (semaphore(ask)?, semaphore(ask)?);
            Ok(Command::DownBoth(common, one, semaphore(ask)?))
        }
        _ => Err(Fault::Line),
    }
}

/// Reads a command.
fn command(alloc: Global, ask: &mut Ask<'_>) -> Result<Command, Fault> {
    if ["advance", "read", "await", "hand"].contains(&ask.verb) {
        return command_on(event(ask)?, ask);
    }
    match ask.verb {
        "produce" => Ok(Command::Produce(buffer(ask)?, value_of(ask.word())?)),
        "consume" => Ok(Command::Consume(buffer(ask)?)),
        "write" => Ok(Command::WriteAll(database(ask)?, values(alloc, ask)?)),
        "snapshot" => Ok(Command::Snapshot(database(ask)?, ask.size()?)),
        _ => small_command(ask),
    }
}

impl Programs {
    /// Begins with no program.
    pub fn new(alloc: Global) -> Self {
        Programs {
            open: Vec::new(alloc),
            list: Vec::new(alloc),
        }
    }

    /// Returns whether a program is being read.
    pub fn is_open(&self) -> bool {
        !self.open.is_empty()
    }

    /// Returns the programs, and leaves none.
    pub fn taken(&mut self, alloc: Global) -> Vec<Program> {
        mem::replace(&mut self.list, Vec::new(alloc))
    }

    /// Opens a block. The outermost one is a program.
    pub fn open(&mut self, alloc: Global, times: u64) -> Result<(), Fault> {
        let commands = Vec::new(alloc);
        self.open.push(Block { times, commands })?;
        Ok(())
    }

    /// Adds a command to the last open block.
    fn add(&mut self, command: Command) -> Result<(), Fault> {
        let block = self.open.last_mut().ok_or(Fault::Line)?;
        block.commands.push(command)?;
        Ok(())
    }

    /// Ends the last open block. The outermost one makes a program, or none.
    fn end(&mut self, ask: &mut Ask<'_>) -> Result<(), Fault> {
        let Some(Block { times, commands }) = self.open.pop() else {
            return Err(Fault::Line);
        };
        if !self.open.is_empty() {
            return self.add(Command::Repeat(times, commands));
        }
        match Program::new(commands) {
            Some(program) => {
                self.list.push(program)?;
                tell("a program", ask.out)
            }
            None => tell("no program", ask.out),
        }
    }

    /// Reads a line of the open program.
    pub fn take(&mut self, alloc: Global, ask: &mut Ask<'_>) -> Result<(), Fault> {
        match ask.verb {
            "end" => self.end(ask),
            "repeat" => self.open(alloc, ask.number()?),
            _ => self.add(command(alloc, ask)?),
        }
    }

    /// Returns the first worker that doesn't follow its program.
    pub fn first_off(&self, run: &Run) -> Option<WorkerId> {
        follows(run, self.list.as_slice())
    }
}
