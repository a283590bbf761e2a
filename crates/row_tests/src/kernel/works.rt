//! Answers lines about procedures, which a worker runs step by step.
ghost use Rattle.std.specs.Prelude.{◌≤◌, IfOk};
ghost use Rattle.ec_core.specs.declared.act.TheConstants.{VALUE_MAX};

use crate::fault::Fault;
use crate::kernel::ask::{Ask, buffer, database, semaphore, semaphore_of, worker};
use crate::line::tell;
use arrayvec::ArrayVec;
use ec_buffer::{Consume, Produce};
use ec_core::{Procedure, Run, StepFault, VALUE_MAX};
use ec_count::WorkerId;
use ec_database::{Snapshot, SnapshotEnd, WriteAll};
use ec_semaphore::{Down, DownBoth, Up};

/// A procedure.
#[derive(Drop)]
enum Work {
    Produce(Produce),
    Consume(Consume),
    Write(WriteAll),
    Snapshot(Snapshot),
    Down(Down),
    Up(Up),
    DownBoth(DownBoth),
}

/// A procedure with its worker.
#[derive(Drop)]
pub struct Begun {
    worker: WorkerId,
    work: Work,
}

/// Makes so many steps of a procedure, or fewer if it ends, and returns how far it got.
fn go_on<P: Procedure>(
    run: &mut Run,
    worker: WorkerId,
    procedure: &mut P,
    steps: usize,
) -> Result<&'static str, Fault> {
    for _ in 0..steps {
        let Some(act) = procedure.next() else {
            return Ok("ended");
        };
        match run.step(worker, act) {
            Ok(reply) => procedure.take(reply),
            Err(StepFault::Refused(refusal)) => return Ok(refusal.name()),
            Err(StepFault::Memory) => return Err(Fault::Memory),
        }
    }
    Ok(if procedure.next().is_none() {
        "ended"
    } else {
        "goes on"
    })
}

impl Begun {
    /// Makes so many steps, or fewer if the procedure ends.
    fn go_on(&mut self, run: &mut Run, steps: usize) -> Result<&'static str, Fault> {
        let worker = self.worker;
        match &mut self.work {
            Work::Produce(produce) => go_on(run, worker, produce, steps),
            Work::Consume(consume) => go_on(run, worker, consume, steps),
            Work::Write(write) => go_on(run, worker, write, steps),
            Work::Snapshot(snapshot) => go_on(run, worker, snapshot, steps),
            Work::Down(down) => go_on(run, worker, down, steps),
            Work::Up(up) => go_on(run, worker, up, steps),
            Work::DownBoth(both) => go_on(run, worker, both, steps),
        }
    }
}

/// Reads a value.
fn value(ask: &mut Ask<'_>) -> Result<u64, Fault>
    ensures { IfOk result (λ n. n ≤ VALUE_MAX) }
{
    let n = ask.number()?;
    if n > VALUE_MAX {
        Err(Fault::Line)
    } else {
        Ok(n)
    }
}

/// Reads a write of two values into a database of two cells.
fn write_of(ask: &mut Ask<'_>) -> Result<Work, Fault> {
    let shape = database(ask)?;
    let (first, second) = (value(ask)?, value(ask)?);
    let mut values = ArrayVec::new();
    values.push(first);
    values.push(second);
    if shape.cells() != 2 {
        return Err(Fault::Line);
    }
    Ok(Work::Write(WriteAll::new(shape, values)))
}

/// Reads a snapshot of so many tries.
fn snapshot_of(ask: &mut Ask<'_>) -> Result<Work, Fault> {
    let (shape, tries) = (database(ask)?, ask.size()?);
    if tries == 0 || tries > 1000 {
        return Err(Fault::Line);
    }
    Ok(Work::Snapshot(Snapshot::new(shape, tries)))
}

/// Reads a P on two semaphores.
fn down_both_of(ask: &mut Ask<'_>) -> Result<Work, Fault> {
    let both = semaphore_of(ask.about, "both")?;
    let (one, other) = (semaphore(ask)?, semaphore(ask)?);
    if both.initial() != 1 || both == one || both == other || one == other {
        return Err(Fault::Line);
    }
    Ok(Work::DownBoth(DownBoth::new(both, one, other)))
}

/// Reads a procedure.
fn work_of(ask: &mut Ask<'_>) -> Result<Work, Fault> {
    match ask.word() {
        "produce" => {
            let shape = buffer(ask)?;
            Ok(Work::Produce(Produce::new(shape, value(ask)?)))
        }
        "consume" => Ok(Work::Consume(Consume::new(buffer(ask)?))),
        "write" => write_of(ask),
        "snapshot" => snapshot_of(ask),
        "p" => Ok(Work::Down(Down::new(semaphore(ask)?))),
        "v" => Ok(Work::Up(Up::new(semaphore(ask)?))),
        "pboth" => down_both_of(ask),
        _ => Err(Fault::Line),
    }
}

/// Reads a worker and its procedure.
fn begun_of(ask: &mut Ask<'_>) -> Result<Begun, Fault> {
    let (worker, work) = (worker(ask)?, work_of(ask)?);
    Ok(Begun { worker, work })
}

/// Writes how a snapshot has ended.
fn tell_end(snapshot: &Snapshot, ask: &mut Ask<'_>) -> Result<(), Fault> {
    let (version, values) = match snapshot.end() {
        None => return tell("goes on", ask.out),
        Some(SnapshotEnd::Disturbed) => return tell("disturbed", ask.out),
        Some(SnapshotEnd::Accepted(version, values)) => (version, values),
    };
    write!(ask.out, "accepted {version}")?;
    for value in values.as_slice() {
        write!(ask.out, " {value}")?;
    }
    tell("", ask.out)
}

/// Makes steps of the procedure at an index.
fn go_on_at(
    works: &mut Vec<Begun>,
    run: &mut Run,
    ask: &mut Ask<'_>,
) -> Result<&'static str, Fault> {
    let (place, steps) = (ask.size()?, ask.size()?);
    let begun = works.get_mut(place).ok_or(Fault::Line)?;
    begun.go_on(run, steps)
}

/// Writes how the snapshot at an index has ended.
fn ended(works: &[Begun], ask: &mut Ask<'_>) -> Result<(), Fault> {
    let place = ask.size()?;
    let begun = works.get(place).ok_or(Fault::Line)?;
    match &begun.work {
        Work::Snapshot(snapshot) => tell_end(snapshot, ask),
        _ => Err(Fault::Line),
    }
}

/// Answers a line about procedures, if it is one. `begin` adds one, `go-on` makes steps of the one
/// at an index, `turn` does so and writes nothing, and `make` runs one for at most nine steps.
pub fn answer_works(works: &mut Vec<Begun>, run: &mut Run, ask: &mut Ask<'_>) -> Result<(), Fault> {
    match ask.verb {
        "begin" => Ok(works.push(begun_of(ask)?)?),
        "make" => tell(begun_of(ask)?.go_on(run, 9)?, ask.out),
        "go-on" => tell(go_on_at(works, run, ask)?, ask.out),
        "turn" => {
            let _progress = go_on_at(works, run, ask)?;
            Ok(())
        }
        "ended" => ended(works.as_slice(), ask),
        _ => Err(Fault::Line),
    }
}
