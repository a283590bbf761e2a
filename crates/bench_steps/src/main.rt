//! The loop of steps that `bench/run` times: `bench_steps world N` makes at least N steps of a
//! world, and `bench_steps run N` of a run, which records them. Both print the total, the tickets
//! drawn, and the sum of the numbers that reads and tickets returned.
#![tactic(auto)]

mod loops;
mod objects;

use ec_core::{Run, World};
use loops::{Sums, many};
use objects::{Objects, declared};
use std::alloc::{AllocError, Global};
use std::process::ExitCode;
use std::{env, io};

/// Makes the steps on a world.
fn on_world(objects: Objects, steps: u64) -> Option<Sums> {
    let mut world = World::open(objects.setup.copy());
    let returned = many(&mut world, &objects, steps)?;
    Some(Sums {
        total: world.total(objects.event)?,
        issued: world.issued(objects.sequencer)?,
        returned,
    })
}

/// Makes the steps on a run, which records them.
fn on_run(alloc: Global, objects: Objects, steps: u64) -> Option<Sums> {
    let mut run = Run::open(alloc, objects.setup.copy()).ok()?;
    let returned = many(&mut run, &objects, steps)?;
    let world = run.world();
    Some(Sums {
        total: world.total(objects.event)?,
        issued: world.issued(objects.sequencer)?,
        returned,
    })
}

/// Does what the words ask for.
fn sums(alloc: Global, words: &[String]) -> Option<Sums> {
    let [_, what, steps] = words else {
        return None;
    };
    let steps: u64 = steps.as_str().parse().ok()?;
    match what.as_str() {
        "world" => on_world(declared()?, steps),
        "run" => on_run(alloc, declared()?, steps),
        _ => None,
    }
}

fn main(rt: HostRuntime) -> io::Result<ExitCode> {
    let args = env::args(&rt)?;
    let words: Result<Vec<String>, AllocError> = args.collect(rt.alloc());
    let Some(
        Sums {
            total,
            issued,
            returned,
        },
    ) = sums(rt.alloc(), words?.as_slice())
    else {
        return Ok(ExitCode::from(2));
    };
    println!(rt; "{total} {issued} {returned}")?;
    Ok(ExitCode::from(0))
}
