//! Answers a line `run N ..`: runs the script with a gate, and N turns for each worker, and writes
//! what the other words ask for, and last how each worker has ended.
use crate::fault::Fault;
use crate::line::{Words, number, tell};
use crate::output::TestOutput;
use crate::workers::gate::{Rule, Rules};
use ec_core::{Act, Entry, Reply, Run};
use ec_heading::Heading;
use ec_machine::Outcome;
use ec_runner::{Report, run_workers};
use ec_script::Plan;
use ec_trace::write_entry;
use std::alloc::Global;
use std::sync::Wait;
use std::thread::Threads;

/// Writes all entries of a run.
fn write_entries(heading: &Heading, run: &Run, out: &mut TestOutput) -> Result<(), Fault> {
    for entry in run.entries() {
        write_entry(&entry, heading, out)?;
        writeln!(out)?;
    }
    Ok(())
}

/// Writes, for each advance of a run, the ticket that its worker drew last.
fn write_turns(run: &Run, out: &mut TestOutput) -> Result<(), Fault> {
    let mut drawn = [0u64; 16];
    for entry in run.entries() {
        let ticket = drawn.get_mut(entry.worker.get()).ok_or(Fault::Line)?;
        match (entry.act, entry.reply) {
            (Act::Ticket(_), Reply::Number(n)) => *ticket = n,
            (Act::Advance(_), _) => writeln!(out, "{ticket}")?,
            _ => {}
        }
    }
    Ok(())
}

/// Writes the reply at the end of each log.
fn write_last(logs: &[Vec<Entry>], out: &mut TestOutput) -> Result<(), Fault> {
    for log in logs {
        match log.last() {
            Some(entry) => match entry.reply {
                Reply::Number(n) => writeln!(out, "{n}")?,
                _ => writeln!(out, "no number")?,
            },
            None => writeln!(out, "-")?,
        }
    }
    Ok(())
}

/// Writes how often the gate was called with each of so many workers.
fn write_calls(gate: &Rules<'_>, workers: usize, out: &mut TestOutput) -> Result<(), Fault> {
    for place in 0..workers {
        writeln!(out, "called {} times", gate.calls(place))?;
    }
    Ok(())
}

/// Writes how each worker has ended.
fn write_outcomes(outcomes: &[Outcome], out: &mut TestOutput) -> Result<(), Fault> {
    for outcome in outcomes {
        writeln!(out, "{outcome:?}")?;
    }
    Ok(())
}

/// Writes what the words ask of a report.
fn write_report(
    plan: &Plan,
    report: &Report,
    gate: &Rules<'_>,
    words: &mut Words<'_>,
    out: &mut TestOutput,
) -> Result<(), Fault> {
    for word in words {
        match word {
            "entries" => write_entries(&plan.heading, &report.run, out)?,
            "length" => writeln!(out, "{}", report.run.len())?,
            "turns" => write_turns(&report.run, out)?,
            "last" => write_last(report.logs.as_slice(), out)?,
            "calls" => write_calls(gate, report.logs.len(), out)?,
            _ => return Err(Fault::Line),
        }
    }
    write_outcomes(report.outcomes.as_slice(), out)
}

/// Runs the workers of a script.
pub fn run<R: Threads + Wait + Sync>(
    rt: &R,
    alloc: Global,
    plan: &Plan,
    rules: &[Rule],
    words: &mut Words<'_>,
    out: &mut TestOutput,
) -> Result<(), Fault> {
    let turns = number(words)?;
    let workers = plan.programs.len();
    if workers != plan.heading.setup().workers() {
        return Err(Fault::Line);
    }
    let gate = Rules::new(rules, workers);
    match run_workers(rt, alloc, plan, &gate, turns) {
        Ok(report) => write_report(plan, &report, &gate, words, out)?,
        Err(fault) => tell(fault, out)?,
    }
    if gate.has_failed() {
        writeln!(out, "a rule was broken")?;
    }
    Ok(())
}
