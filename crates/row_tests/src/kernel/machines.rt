//! Answers lines about interpreters of programs, whose steps are made in a run.
use crate::driver::answer_lines;
use crate::fault::Fault;
use crate::kernel::Kernel;
use crate::kernel::ask::{Ask, worker};
use crate::kernel::stage::Stage;
use crate::kernel::writing::{pending, tell_entry, tell_worker};
use crate::line::{Line, tell, word};
use crate::output::TestOutput;
use ec_core::{Act, Entry, Reply, Run, StepFault};
use ec_count::WorkerId;
use ec_heading::Heading;
use ec_machine::{Machine, Outcome, Program, follows};
use std::alloc::{AllocError, Global};

/// The interpreters of programs, one for each worker in order.
#[derive(Drop)]
pub struct Machines<'a> {
    programs: &'a [Program],
    list: Vec<Machine<'a>>,
}

/// Makes an interpreter of each program.
fn machines_of<'a>(alloc: Global, programs: &'a [Program]) -> Result<Vec<Machine<'a>>, AllocError> {
    let mut list = Vec::new(alloc);
    for program in programs {
        list.push(Machine::new(program))?;
    }
    Ok(list)
}

/// Makes the step that an interpreter asks for, and writes it.
fn play(
    run: &mut Run,
    worker: WorkerId,
    machine: &mut Machine<'_>,
    ask: &mut Ask<'_>,
) -> Result<(), Fault> {
    let act = machine.next().ok_or(Fault::Line)?;
    match run.step(worker, act) {
        Ok(reply) => {
            machine.take(reply);
            tell_entry(run.entry(run.len().saturating_sub(1)), ask)
        }
        Err(StepFault::Memory) => Err(Fault::Memory),
        Err(StepFault::Refused(_)) => Err(Fault::Line),
    }
}

/// Writes how a program has ended.
fn tell_outcome(machine: &Machine<'_>, ask: &mut Ask<'_>) -> Result<(), Fault> {
    writeln!(ask.out, "{:?}", machine.outcome())
}

/// Reads how a program is ended from outside.
fn outcome(ask: &mut Ask<'_>) -> Result<Outcome, Fault> {
    match ask.word() {
        "running" => Ok(Outcome::Running),
        "finished" => Ok(Outcome::Finished),
        "value-too-large" => Ok(Outcome::ValueTooLarge),
        "stopped" => Ok(Outcome::Stopped),
        "out-of-turns" => Ok(Outcome::OutOfTurns),
        _ => Err(Fault::Line),
    }
}

/// Gives an interpreter the reply to its next act, which has to be an advance.
fn give(worker: WorkerId, machine: &mut Machine<'_>, ask: &mut Ask<'_>) -> Result<(), Fault> {
    let act = machine.next().ok_or(Fault::Line)?;
    let reply = Reply::Done;
    match act {
        Act::Advance(_) => machine.take(reply),
        _ => return Err(Fault::Line),
    }
    tell_entry(Some(Entry { worker, act, reply }), ask)
}

/// Answers a line about a worker and its interpreter.
fn answer_worker<'a>(
    heading: &'a Heading,
    stage: &mut Stage,
    machines: &mut [Machine<'_>],
    line: &'a str,
    out: &'a mut TestOutput,
) -> Result<(), Fault> {
    let ask = &mut Line::new(heading, line, out);
    let worker = worker(ask)?;
    let machine = machines.get_mut(worker.get()).ok_or(Fault::Line)?;
    match (ask.verb, stage) {
        ("play", Stage::Run(run)) => play(run, worker, machine, ask),
        ("next", _) => match machine.next() {
            Some(act) => tell_entry(Some(pending(worker, act)), ask),
            None => tell("-", ask.out),
        },
        ("outcome", _) => tell_outcome(machine, ask),
        ("give", _) => give(worker, machine, ask),
        ("refuse", _) => {
            machine.refuse(outcome(ask)?);
            tell_outcome(machine, ask)
        }
        _ => Err(Fault::Line),
    }
}

impl<'a> Machines<'a> {
    /// Answers the lines of a text by a kernel and an interpreter of each program.
    pub fn answer_text(
        alloc: Global,
        kernel: &mut Kernel,
        programs: &'a [Program],
        watched: bool,
        text: &str,
        out: &mut TestOutput,
    ) -> Result<(), Fault> {
        let list = machines_of(alloc, programs)?;
        let mut machines = Machines { programs, list };
        for line in text.lines() {
            machines.answer(alloc, kernel, line, watched, out)?;
        }
        Ok(())
    }

    /// Writes which worker is the first that doesn't follow its program.
    fn tell_first_off(&self, kernel: &Kernel, out: &mut TestOutput) -> Result<(), Fault> {
        let worker = follows(kernel.parts.stage.run()?, self.programs);
        tell_worker(worker, &mut Line::new(&kernel.heading, "", out))
    }

    /// Answers a line.
    fn answer(
        &mut self,
        alloc: Global,
        kernel: &mut Kernel,
        line: &str,
        watched: bool,
        out: &mut TestOutput,
    ) -> Result<(), Fault> {
        match word(&mut line.split_whitespace()) {
            "follows" => self.tell_first_off(kernel, out),
            "play" | "next" | "outcome" | "give" | "refuse" => answer_worker(
                &kernel.heading,
                &mut kernel.parts.stage,
                &mut self.list,
                line,
                out,
            ),
            _ => answer_lines(alloc, kernel, watched, line, out),
        }
    }
}
