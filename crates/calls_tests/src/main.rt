//! Reads histories of calls from standard input, and writes the verdicts of the libraries, for
//! tests: `calls_tests decide`, `calls_tests monitor` and, for a buffer with one producer and one
//! consumer, `calls_tests spsc`. A history is the lines of its objects, a line `run`, its events,
//! and a line `end`.
#![tactic(auto)]

mod judging;
mod reading;
mod writing;

use judging::{Mode, judge_all};
use std::alloc::AllocError;
use std::io::{BufWriter, Read, Write};
use std::process::ExitCode;
use std::{env, io};

fn main(rt: HostRuntime) -> io::Result<ExitCode> {
    let args = env::args(&rt)?;
    let words: Result<Vec<String>, AllocError> = args.collect(rt.alloc());
    let words = words?;
    let [_, mode] = words.as_slice() else {
        return Ok(ExitCode::from(2));
    };
    let Some(mode) = Mode::of(mode.as_str()) else {
        return Ok(ExitCode::from(2));
    };
    let mut text = String::new(rt.alloc());
    rt.stdin().read_to_string(&mut text)?;
    let mut out = BufWriter::new(rt.alloc(), rt.stdout())?;
    let read = judge_all(rt.alloc(), mode, text.as_str(), &mut out)?;
    out.flush()?;
    Ok(ExitCode::from(if read { 0 } else { 1 }))
}
