//! Answers lines about a count or an id.
use crate::fault::Fault;
use crate::line::tell_if;
use crate::setup::line::Line;
use ec_count::{CellId, Count, EventId, Limit, SeqId, WorkerId};

/// Returns the number of the id that is made of a number, or `None` if there is no such id.
fn id_of(sort: &str, n: usize) -> Option<usize> {
    Some(match sort {
        "worker" => WorkerId::new(n)?.get(),
        "eventcount" => EventId::new(n)?.get(),
        "sequencer" => SeqId::new(n)?.get(),
        _ => CellId::new(n)?.get(),
    })
}

/// Writes the value of a count, and whether that is the limit.
fn tell_count(count: &Count, line: &mut Line<'_>) -> Result<(), Fault> {
    writeln!(line.out, "{}, full: {}", count.value(), count.is_full())
}

/// Advances a count.
fn advance(count: &mut Count, line: &mut Line<'_>) -> Result<(), Fault> {
    if let Err(fault) = count.advance() {
        write!(line.out, "{fault}: ")?;
    }
    tell_count(count, line)
}

/// Answers a line about a count or an id, if it is one.
pub fn answer_values(count: &mut Count, line: &mut Line<'_>) -> Result<bool, Fault> {
    match line.verb {
        "id" => tell_if(id_of(line.word(), line.size()?), line.out)?,
        "count" => {
            *count = Count::zero(Limit::new(line.number()?).ok_or(Fault::Line)?);
            tell_count(count, line)?;
        }
        "advance" => advance(count, line)?,
        _ => return Ok(false),
    }
    Ok(true)
}
