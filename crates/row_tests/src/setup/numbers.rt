//! Answers lines about a list of numbers.
use crate::fault::Fault;
use crate::line::{tell, tell_if};
use crate::output::TestOutput;
use crate::setup::line::Line;
use ec_numbers::NumberList;

/// Inserts a number at an index.
fn put_in(list: &mut NumberList, line: &mut Line<'_>) -> Result<(), Fault> {
    let (place, number) = (line.size()?, line.number()?);
    if place > list.len() {
        return Err(Fault::Line);
    }
    list.reserve_for(number)?;
    list.insert(place, number);
    Ok(())
}

/// Writes how many numbers there are, and each of them.
pub fn tell_numbers(list: &NumberList, out: &mut TestOutput) -> Result<(), Fault> {
    write!(out, "{}:", list.len())?;
    for place in 0..list.len() {
        write!(out, " {}", list.at(place))?;
    }
    tell("", out)
}

/// Answers a line about the list, if it is one.
pub fn answer_numbers(list: &mut NumberList, line: &mut Line<'_>) -> Result<bool, Fault> {
    match line.verb {
        "push" => list.push(line.number()?)?,
        "put-in" => put_in(list, line)?,
        "keep-first" => list.truncate(line.size()?),
        "number-at" => tell_if(list.get(line.size()?), line.out)?,
        "numbers" => tell_numbers(list, line.out)?,
        _ => return Ok(false),
    }
    Ok(true)
}
