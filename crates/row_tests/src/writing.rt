//! What drivers write: the targets of names and words, and the objects of groups.
use crate::fault::Fault;
use crate::line::tell;
use crate::output::TestOutput;
use ec_buffer::BufferShape;
use ec_count::{Names, Setup, SymbolTable, Target};
use ec_database::DatabaseShape;
use ec_semaphore::SemaphoreShape;

/// Writes the target of a name or a word.
pub fn write_target(target: Target, out: &mut TestOutput) -> Result<(), Fault> {
    match target {
        Target::Worker(worker) => writeln!(out, "worker {}", worker.get())?,
        Target::Event(event) => writeln!(out, "eventcount {}", event.get())?,
        Target::Sequencer(line) => writeln!(out, "sequencer {}", line.get())?,
        Target::Cells(first, many) => writeln!(out, "cells {} {many}", first.get())?,
        Target::Group(place) => writeln!(out, "group {place}")?,
    }
    Ok(())
}

/// Writes the target that was found, or `-`.
pub fn write_found(found: Option<Target>, out: &mut TestOutput) -> Result<(), Fault> {
    match found {
        Some(target) => write_target(target, out),
        None => tell("-", out),
    }
}

/// Writes the name at an index and its target, or `-`.
pub fn write_name(names: &Names, place: usize, out: &mut TestOutput) -> Result<(), Fault> {
    let Some((name, target)) = names.at(place) else {
        return tell("-", out);
    };
    write!(out, "{name}: ")?;
    write_target(target, out)
}

/// Writes the word at an index and its target, or `-`.
pub fn write_word(words: &SymbolTable, place: usize, out: &mut TestOutput) -> Result<(), Fault> {
    let Some((word, target)) = words.at(place) else {
        return tell("-", out);
    };
    out.put(word)?;
    write!(out, ": ")?;
    write_target(target, out)
}

/// Writes how many there are of each sort, without a line feed.
pub fn write_sizes(setup: &Setup, out: &mut TestOutput) -> Result<(), Fault> {
    let (workers, events) = (setup.workers(), setup.events());
    let (lines, cells) = (setup.sequencers(), setup.cells());
    write!(out, "{workers} workers, {events} eventcounts, ")?;
    write!(out, "{lines} sequencers, {cells} cells")
}

/// Writes the objects of a buffer.
pub fn write_buffer(it: &BufferShape, out: &mut TestOutput) -> Result<(), Fault> {
    it.invariant();
    let (first, many) = (it.first_cell().get(), it.cells());
    let (puts, gets) = (it.in_count().get(), it.out_count().get());
    let (put, take) = (it.put_seq().get(), it.take_seq().get());
    write!(out, "{many} cells from {first}, ")?;
    writeln!(out, "eventcounts {puts} {gets}, sequencers {put} {take}")
}

/// Writes the objects of a database.
pub fn write_database(it: &DatabaseShape, out: &mut TestOutput) -> Result<(), Fault> {
    it.invariant();
    let (first, many) = (it.first_cell().get(), it.cells());
    let (start, done, turn) = (it.start().get(), it.done().get(), it.turn().get());
    write!(out, "{many} cells from {first}, ")?;
    writeln!(out, "eventcounts {start} {done}, sequencer {turn}")
}

/// Writes the objects of a semaphore.
pub fn write_semaphore(it: &SemaphoreShape, out: &mut TestOutput) -> Result<(), Fault> {
    let (count, line) = (it.count().get(), it.line().get());
    write!(out, "initial {}, ", it.initial())?;
    writeln!(out, "eventcount {count}, sequencer {line}")
}
