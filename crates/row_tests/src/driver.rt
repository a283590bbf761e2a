//! Answers lines, and checks that a failed allocation has changed nothing.
use crate::fault::Fault;
use crate::output::TestOutput;
use std::alloc::Global;

/// What the lines are about.
pub trait Driver {
    /// Makes the call of a line, and writes what it returns. `Fault::Memory` leaves everything
    /// unchanged, and writes nothing.
    fn answer(&mut self, alloc: Global, line: &str, out: &mut TestOutput) -> Result<(), Fault>;

    /// Writes all that can be asked, without an allocation.
    fn write_all(&self, out: &mut TestOutput) -> Result<(), Fault>;
}

/// Returns a checksum of all that can be asked, or 0 if it is not watched.
fn sum_of<D: Driver>(driver: &D, watched: bool) -> Result<u64, Fault> {
    let mut out = TestOutput::Sum(0);
    if watched {
        driver.write_all(&mut out)?;
    }
    match out {
        TestOutput::Sum(sum) => Ok(sum),
        TestOutput::Text(_) => Ok(0),
    }
}

/// Answers a line, and repeats the call if an allocation failed.
fn answer_line<D: Driver>(
    alloc: Global,
    driver: &mut D,
    watched: bool,
    line: &str,
    out: &mut TestOutput,
) -> Result<(), Fault> {
    let before = sum_of(driver, watched)?;
    match driver.answer(alloc, line, out) {
        Err(Fault::Memory) => {
            if before == sum_of(driver, watched)? {
                writeln!(out, "no memory")?;
            } else {
                writeln!(out, "no memory, and something was changed")?;
            }
            driver.answer(alloc, line, out)
        }
        other => other,
    }
}

/// Answers the lines of a text.
pub fn answer_lines<D: Driver>(
    alloc: Global,
    driver: &mut D,
    watched: bool,
    text: &str,
    out: &mut TestOutput,
) -> Result<(), Fault> {
    for line in text.lines() {
        answer_line(alloc, driver, watched, line, out)?;
    }
    Ok(())
}
