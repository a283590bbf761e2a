//! Answers lines that declare workers and objects by calls, and questions about declarations.
use crate::fault::Fault;
use crate::line::{tell, tell_if};
use crate::setup::line::{Line, Lists, cell, event, sequencer, tell_workers, two_lists, worker};
use crate::writing::write_sizes;
use ec_count::{CellId, EventId, SeqId, Setup, SetupFault, concat, shares_worker};

/// Adds a worker or objects, `many` if they are cells, and returns the number of the first.
fn add(setup: &mut Setup, sort: &str, many: usize, lists: &Lists) -> Result<usize, SetupFault> {
    let (first, second) = (&lists.first, &lists.second);
    Ok(match sort {
        "worker" => setup.add_worker()?.get(),
        "eventcount" => setup.add_event(first, second)?.get(),
        "fixed" => setup.add_fixed_event(first, second)?.get(),
        "sequencer" => setup.add_sequencer(first)?.get(),
        _ => setup.add_cells(many, first, second)?.get(),
    })
}

/// Adds what a line declares, if it does, and writes the number of the first, or the fault.
pub fn declare(setup: &mut Setup, line: &mut Line<'_>) -> Result<bool, Fault> {
    let verb = line.verb;
    if !["worker", "eventcount", "fixed", "sequencer", "cells"].contains(&verb) {
        return Ok(false);
    }
    let many = if verb == "cells" { line.size()? } else { 0 };
    match add(setup, verb, many, &two_lists(line)?) {
        Ok(number) => tell(number, line.out)?,
        Err(fault) => tell(fault, line.out)?,
    }
    Ok(true)
}

/// Returns whether objects are declared for exactly these workers.
pub fn declares(setup: &Setup, line: &mut Line<'_>) -> Result<bool, Fault> {
    match line.word() {
        "fixed" => {
            let (event, lists) = (event(line)?, two_lists(line)?);
            Ok(setup.declares_fixed_event(event, &lists.first, &lists.second))
        }
        "sequencer" => {
            let (sequencer, lists) = (sequencer(line)?, two_lists(line)?);
            Ok(setup.declares_sequencer(sequencer, &lists.first))
        }
        "cells" => {
            let (first, many, lists) = (cell(line)?, line.size()?, two_lists(line)?);
            Ok(setup.declares_cells(first, many, &lists.first, &lists.second))
        }
        _ => Err(Fault::Line),
    }
}

/// Writes whether a worker has a right on an object.
fn answer_right(setup: &Setup, line: &mut Line<'_>) -> Result<(), Fault> {
    let (n, worker) = (line.size()?, worker(line)?);
    let is_so = match (line.verb, EventId::new(n), SeqId::new(n), CellId::new(n)) {
        ("may-observe", Some(event), _, _) => setup.may_observe(event, worker),
        ("may-take", _, Some(line), _) => setup.may_take(line, worker),
        ("may-write", _, _, Some(cell)) => setup.may_write(cell, worker),
        ("may-read", _, _, Some(cell)) => setup.may_read(cell, worker),
        _ => return Err(Fault::Line),
    };
    tell(is_so, line.out)
}

/// Answers a question about an eventcount.
fn answer_event(setup: &Setup, line: &mut Line<'_>) -> Result<(), Fault> {
    let event = event(line)?;
    match line.verb {
        "components" => tell_if(setup.components(event), line.out),
        "component-of" => tell_if(setup.component_of(event, worker(line)?), line.out),
        "signaller" => {
            let worker = setup.signaller(event, line.size()?);
            tell_if(worker.map(|id| id.get()), line.out)
        }
        "signallers" => tell_workers(setup.signallers(event), line.out),
        "observers" => tell_workers(setup.observers(event), line.out),
        "may-hand" => tell(setup.may_hand(event), line.out),
        _ => Err(Fault::Line),
    }
}

/// Answers a question about two lists of workers.
fn answer_lists(setup: &Setup, line: &mut Line<'_>) -> Result<(), Fault> {
    let lists = two_lists(line)?;
    let (first, second) = (&lists.first, &lists.second);
    match line.verb {
        "shares" => tell(shares_worker(first, second), line.out),
        "roles" => tell_if(setup.roles_fault(false, first, second, false), line.out),
        _ if first.len() > 16 || second.len() > 16 => Err(Fault::Line),
        _ => tell_workers(&concat(first, second), line.out),
    }
}

/// Answers a question about declarations.
pub fn answer_setup(setup: &Setup, line: &mut Line<'_>) -> Result<(), Fault> {
    match line.verb {
        "sizes" => {
            write_sizes(setup, line.out)?;
            tell("", line.out)
        }
        "takers" => tell_workers(setup.takers(sequencer(line)?), line.out),
        "silent" => tell(setup.is_silent(worker(line)?), line.out),
        "may-observe" | "may-take" | "may-write" | "may-read" => answer_right(setup, line),
        "joined" | "shares" | "roles" => answer_lists(setup, line),
        _ => answer_event(setup, line),
    }
}
