//! Makes calls of the libraries, one for each line of standard input, and writes what they return,
//! for golden tests of `tests/rows`. Only its safety and termination are proved.
//!
//! The first word on the command line says what the lines are about: `kernel`, `setup` or `workers`.
//! With a second word the program also says, if an allocation fails, whether the call has changed
//! anything.
#![tactic(auto)]

mod driver;
mod fault;
mod kernel;
mod line;
mod output;
mod setup;
mod workers;
mod writing;

use driver::answer_lines;
use fault::Fault;
use kernel::Kernel;
use output::TestOutput;
use setup::Table;
use std::alloc::{AllocError, Global};
use std::io::{BufWriter, Read, Write};
use std::process::ExitCode;
use std::sync::Wait;
use std::thread::Threads;
use std::{env, io};
use workers::answer_script;

/// Answers the lines of a text about what the first word names.
fn answer<R: Threads + Wait + Sync>(
    rt: &R,
    alloc: Global,
    words: &[String],
    text: &str,
    out: &mut TestOutput,
) -> Result<(), Fault> {
    let about = words.get(1).map_or("", |word| word.as_str());
    let watched = words.len() > 2;
    match about {
        "kernel" => Kernel::new(alloc)?.answer_text(alloc, watched, text, out),
        "setup" => answer_lines(alloc, &mut Table::new(alloc)?, watched, text, out),
        "workers" => answer_script(rt, alloc, text, out),
        _ => Err(Fault::Line),
    }
}

/// Returns the exit status.
fn status_of(answered: Result<(), Fault>) -> ExitCode {
    ExitCode::from(match answered {
        Ok(()) => 0,
        Err(Fault::Line) => 2,
        Err(Fault::Write) => 3,
        Err(Fault::Memory) => 4,
    })
}

fn main(rt: HostRuntime) -> io::Result<ExitCode> {
    let alloc = rt.alloc();
    let words: Result<Vec<String>, AllocError> = env::args(&rt)?.collect(alloc);
    let mut text = String::new(alloc);
    rt.stdin().read_to_string(&mut text)?;
    let mut out = TestOutput::Text(BufWriter::new(alloc, rt.stdout())?);
    let answered = answer(&rt, alloc, words?.as_slice(), text.as_str(), &mut out);
    out.flush()?;
    Ok(status_of(answered))
}
