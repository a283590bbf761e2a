//! The playing of a schedule on one thread.
ghost use Rattle.std.specs.Prelude.{◌≡◌, ◌<◌, ℕ, List, [], IfOk, MatchResult, Some, Vec, length, map, slice_get};
ghost use Rattle.std.specs.List.{All};
ghost use Rattle.std.specs.declared.alloc.Global.{Global};
ghost use Rattle.ec_core.specs.declared.act.Entry.{Entry};
ghost use Rattle.ec_machine.specs.declared.command.Command.{Command};
ghost use Rattle.ec_machine.specs.declared.machine.Machine.{Machine};
ghost use Rattle.ec_machine.specs.Standing.{machine_outcome};
ghost use Rattle.ec_runner.specs.kept.Machines.{AreMachines, IsPlayFault};
ghost use Rattle.ec_runner.specs.Reported.{AreLogs, IsReport, IsSimFault};

use crate::logs::logs_of;
use crate::playing::play_places;
use crate::{Report, SimFault};
use ec_core::Run;
use ec_count::WorkerId;
use ec_machine::{Machine, Outcome, Program};
use ec_script::Plan;
use std::alloc::{AllocError, Global};

/// Returns an interpreter for each program, at the start of it.
fn start_machines(alloc: Global, programs: &[Program]) -> Result<Vec<Machine<'_>>, AllocError>
    ensures each { IfOk result (λ machines. length machines.items ≡ length programs.now) }
    ensures start { IfOk result (λ machines. AreMachines programs.now [] machines.items) }
{
    let mut machines = Vec::with_capacity(alloc, programs.len())?;
    for program in programs {
        machines.push(Machine::new(program))?;
    }
    Ok(machines)
}

/// Returns how the program of each interpreter has ended, if it has.
fn outcomes_of(alloc: Global, machines: &[Machine<'_>]) -> Result<Vec<Outcome>, AllocError>
    ensures { IfOk result (λ outcomes. outcomes.items ≡ map machine_outcome machines.now) }
{
    let mut outcomes = Vec::with_capacity(alloc, machines.len())?;
    for machine in machines {
        outcomes.push(machine.outcome())?;
    }
    Ok(outcomes)
}

/// Returns the report of a run that these interpreters made.
fn report_of(alloc: Global, run: Run, machines: &[Machine<'_>]) -> Result<Report, AllocError>
    ensures run { IfOk result (λ report. report.run ≡ run) }
    ensures logs { IfOk result (λ report. AreLogs run.setup.workers run.entries (map (λ (log : Vec Entry Global). log.items) report.logs.items)) }
    ensures outcomes { IfOk result (λ report. report.outcomes.items ≡ map machine_outcome machines.now) }
{
    let logs = logs_of(alloc, &run)?;
    let outcomes = outcomes_of(alloc, machines)?;
    Ok(Report {
        run,
        logs,
        outcomes,
    })
}

/// Plays a schedule with interpreters that are at the start of their programs.
fn play_out(
    alloc: Global,
    mut run: Run,
    machines: &mut [Machine<'_>],
    schedule: &[WorkerId],
) -> Result<Report, SimFault>
    requires empty { run.entries ≡ [] }
    requires machines { length machines.old ≡ run.setup.workers }
    requires schedule { All (λ w. w < run.setup.workers) schedule.now }
    ensures { (programs : List (List Command)) → AreMachines programs [] machines.old
        → MatchResult result (IsReport run.setup programs schedule.now) (IsPlayFault run.setup programs schedule.now) }
{
    if let Err(fault) = play_places(&mut run, machines, schedule) {
        return Err(fault);
    }
    match report_of(alloc, run, machines) {
        Ok(report) => Ok(report),
        Err(_) => Err(SimFault::Memory),
    }
}

/// Plays the schedule of a parsed script on one thread, one turn for each place. In its turn a
/// worker makes the step that its program asks for next. If the step is refused, no entry is made,
/// and the program has ended. The time is linear in the number of places.
pub fn simulate(alloc: Global, plan: &Plan) -> Result<Report, SimFault>
    requires programs { length plan.now.programs.items ≡ plan.now.heading.setup.workers }
    requires schedule { All (λ w. w < plan.now.heading.setup.workers) plan.now.schedule.items }
    ensures { MatchResult result
        (IsReport plan.now.heading.setup plan.now.programs.items plan.now.schedule.items)
        (IsSimFault plan.now.heading.setup plan.now.programs.items plan.now.schedule.items) }
{
    let setup = plan.heading.setup().copy();
    let Ok(run) = Run::open(alloc, setup) else {
        return Err(SimFault::Memory);
    };
    let Ok(mut machines) = start_machines(alloc, plan.programs.as_slice()) else {
        return Err(SimFault::Memory);
    };
    let schedule = plan.schedule.as_slice();
    play_out(alloc, run, machines.as_mut_slice(), schedule)
}
