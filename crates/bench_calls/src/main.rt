//! Judges a history of many calls, as `bench/run` times it: `bench_calls decide SORT N`,
//! `bench_calls monitor SORT N`, and `bench_calls make SORT N`, which only makes the history.
#![tactic(auto)]

mod making;

use calls_core::{Events, Kind};
use calls_monitor::Monitor;
use calls_verdict::{Verdict, decide, first_misuse, has_room};
use making::{Sort, history};
use std::alloc::{AllocError, Global};
use std::process::ExitCode;
use std::{env, io};

/// Decides a history, and returns how many calls its order has, or `None` if it has no order.
fn ordered(alloc: Global, kinds: &[Kind], events: &Events) -> Result<Option<usize>, AllocError> {
    if first_misuse(alloc, kinds, events)?.is_some() || !has_room(events) {
        return Ok(None);
    }
    match decide(alloc, kinds, events)? {
        Verdict::Linearizable(order) => Ok(Some(order.len())),
        Verdict::Refused(_) => Ok(None),
        Verdict::NotDecided(_) => Ok(None),
    }
}

/// Passes a history to a monitor, and returns how many events it accepts.
fn watched(alloc: Global, kinds: &[Kind], events: &Events) -> Result<Option<usize>, AllocError> {
    let mut monitor = Monitor::open(alloc, kinds, &[])?;
    for index in 0..events.len() {
        if monitor.event(events.at(index)).is_err() {
            return Ok(Some(index));
        }
    }
    Ok(Some(events.len()))
}

/// Does what the words ask for, and returns the number that results.
fn judged(alloc: Global, words: &[String]) -> Result<Option<usize>, AllocError> {
    let [_, mode, sort, calls] = words else {
        return Ok(None);
    };
    let Some(sort) = Sort::of(sort.as_str()) else {
        return Ok(None);
    };
    let calls: Result<usize, _> = calls.as_str().parse();
    let Ok(calls) = calls else {
        return Ok(None);
    };
    let kinds = sort.kinds(alloc)?;
    let events = history(alloc, sort, calls)?;
    match mode.as_str() {
        "make" => Ok(Some(events.len())),
        "decide" => ordered(alloc, kinds.as_slice(), &events),
        "monitor" => watched(alloc, kinds.as_slice(), &events),
        _ => Ok(None),
    }
}

fn main(rt: HostRuntime) -> io::Result<ExitCode> {
    let args = env::args(&rt)?;
    let words: Result<Vec<String>, AllocError> = args.collect(rt.alloc());
    let Some(count) = judged(rt.alloc(), words?.as_slice())? else {
        return Ok(ExitCode::from(2));
    };
    println!(rt; "{count}")?;
    Ok(ExitCode::from(0))
}
