//! Lines about declarations: their words, read as numbers, ids and lists of workers.
use crate::fault::Fault;
use crate::line::tell;
use crate::output::TestOutput;
use arrayvec::ArrayVec;
use ec_count::{CellId, EventId, SeqId, WorkerId};

/// A line about declarations, names, numbers or texts.
pub type Line<'a> = crate::line::Line<'a, ()>;

/// A list of at most seventeen workers, one more than there may be.
pub type List = ArrayVec<WorkerId, 17>;

/// Two lists of workers.
#[derive(Drop)]
pub struct Lists {
    pub first: List,
    pub second: List,
}

/// Adds the worker with a number to a list.
fn add(list: &mut List, number: &str) -> Result<(), Fault> {
    let Ok(n) = number.parse() else {
        return Err(Fault::Line);
    };
    match WorkerId::new(n) {
        Some(worker) if list.len() < 17 => {
            list.push(worker);
            Ok(())
        }
        _ => Err(Fault::Line),
    }
}

/// Reads two lists of workers. `observe`, `consume` and `read` begin the second one.
pub fn two_lists(line: &mut Line<'_>) -> Result<Lists, Fault> {
    let (mut first, mut second) = (List::new(), List::new());
    let mut is_second = false;
    for word in &mut line.words {
        match word {
            "signal" | "take" | "write" | "produce" | "use" => {}
            "observe" | "consume" | "read" => is_second = true,
            number if is_second => add(&mut second, number)?,
            number => add(&mut first, number)?,
        }
    }
    Ok(Lists { first, second })
}

/// Reads a worker.
pub fn worker(line: &mut Line<'_>) -> Result<WorkerId, Fault> {
    WorkerId::new(line.size()?).ok_or(Fault::Line)
}

/// Reads an eventcount.
pub fn event(line: &mut Line<'_>) -> Result<EventId, Fault> {
    EventId::new(line.size()?).ok_or(Fault::Line)
}

/// Reads a sequencer.
pub fn sequencer(line: &mut Line<'_>) -> Result<SeqId, Fault> {
    SeqId::new(line.size()?).ok_or(Fault::Line)
}

/// Reads a cell.
pub fn cell(line: &mut Line<'_>) -> Result<CellId, Fault> {
    CellId::new(line.size()?).ok_or(Fault::Line)
}

/// Writes the numbers of workers.
pub fn tell_workers(workers: &[WorkerId], out: &mut TestOutput) -> Result<(), Fault> {
    write!(out, "{}", workers.len())?;
    for worker in workers {
        write!(out, " {}", worker.get())?;
    }
    tell("", out)
}
