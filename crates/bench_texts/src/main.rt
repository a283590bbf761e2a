//! Reads a text from standard input, as `bench/run` times it: `bench_texts read` only reads a
//! trace, `bench_texts write` also writes it to standard output, `bench_texts upgrade` upgrades it
//! and writes nothing, and `bench_texts parse` parses a script 64 times.
#![tactic(auto)]

use ec_script::parse;
use ec_trace::{Version, read_trace, write_trace};
use std::alloc::{AllocError, Global};
use std::io::Read;
use std::process::ExitCode;
use std::{env, io};

/// How often a script is parsed.
const TIMES: u64 = 64;

/// Parses a text so often, and returns whether it is a script each time.
fn parses(alloc: Global, text: &[u8]) -> bool {
    for _ in 0..TIMES {
        if parse(alloc, text).is_err() {
            return false;
        }
    }
    true
}

fn parse_input(rt: &HostRuntime) -> io::Result<ExitCode> {
    let mut text = Vec::new(rt.alloc());
    rt.stdin().read_to_end(&mut text)?;
    Ok(ExitCode::from(if parses(rt.alloc(), text.as_slice()) {
        0
    } else {
        1
    }))
}

fn copy_trace(rt: &HostRuntime, writes: bool) -> io::Result<ExitCode> {
    let Ok(traced) = read_trace(rt.alloc(), &mut rt.stdin()) else {
        return Ok(ExitCode::from(1));
    };
    if !writes {
        return Ok(ExitCode::from(0));
    }
    match write_trace(traced.run(), traced.heading(), &mut rt.stdout()) {
        Ok(()) => Ok(ExitCode::from(0)),
        Err(_) => Ok(ExitCode::from(3)),
    }
}

fn upgrade_trace(rt: &HostRuntime) -> io::Result<ExitCode> {
    let Ok(traced) = read_trace(rt.alloc(), &mut rt.stdin()) else {
        return Ok(ExitCode::from(1));
    };
    let is_of_two = traced.upgrade().heading().version() == Version::Two;
    Ok(ExitCode::from(if is_of_two { 0 } else { 1 }))
}

fn main(rt: HostRuntime) -> io::Result<ExitCode> {
    let args = env::args(&rt)?;
    let words: Result<Vec<String>, AllocError> = args.collect(rt.alloc());
    let words = words?;
    let [_, what] = words.as_slice() else {
        return Ok(ExitCode::from(2));
    };
    match what.as_str() {
        "parse" => parse_input(&rt),
        "upgrade" => upgrade_trace(&rt),
        other => copy_trace(&rt, other == "write"),
    }
}
