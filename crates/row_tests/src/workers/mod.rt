//! Runs scripts, each worker on a thread that a gate delays, for golden tests of `tests/rows`.
//!
//! The lines are a script, a line `gate`, and lines `hold ..` and `run ..`, which `gate.rt` and
//! `running.rt` describe.
mod gate;
mod running;

use crate::fault::Fault;
use crate::line::word;
use crate::output::TestOutput;
use crate::workers::gate::rule_of;
use crate::workers::running::run;
use ec_script::{ScriptFault, parse};
use std::alloc::Global;
use std::sync::Wait;
use std::thread::Threads;

/// Answers a script and the lines after it, or writes what is wrong with the script.
pub fn answer_script<R: Threads + Wait + Sync>(
    rt: &R,
    alloc: Global,
    text: &str,
    out: &mut TestOutput,
) -> Result<(), Fault> {
    let (script, lines) = text.split_once("gate\n").ok_or(Fault::Line)?;
    let plan = match parse(alloc, script.as_bytes()) {
        Ok(plan) => plan,
        Err(ScriptFault::Memory) => return Err(Fault::Memory),
        Err(ScriptFault::At { line, kind }) => {
            let fault = ScriptFault::At { line, kind };
            writeln!(out, "{fault}, {} {}", kind.number(), kind.name())?;
            return Ok(());
        }
    };
    let mut rules = Vec::new(alloc);
    for line in lines.lines() {
        let mut words = line.split_whitespace();
        match word(&mut words) {
            "hold" => rules.push(rule_of(&plan.heading, &mut words)?)?,
            "run" => run(rt, alloc, &plan, rules.as_slice(), &mut words, out)?,
            _ => return Err(Fault::Line),
        }
    }
    Ok(())
}
