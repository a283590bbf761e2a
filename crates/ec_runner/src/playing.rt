//! The turns of workers, one after another.
ghost use Rattle.std.specs.Prelude.{◌≡◌, ◌<◌, ◌∷◌, [], List, length, reverse, true};
ghost use Rattle.ec_count.specs.Tables.{Tables};
ghost use Rattle.ec_machine.specs.declared.command.Command.{Command};
ghost use Rattle.ec_runner.specs.kept.Machines.{AreMachines, IsMachineOf, IsPlayed, IsMadeByTurns, PlaysAll, PlaysOne, Takes};
ghost use Rattle.std.specs.List.{All};
ghost use Rattle.ec_runner.specs.Schedules.{Turn};

use crate::SimFault;
use ec_core::{Run, StepFault};
use ec_count::WorkerId;
use ec_machine::{Machine, Outcome};

/// The result of a turn.
#[derive(Clone, Copy, Debug, PartialEq, Eq)]
pub(crate) enum TurnOutcome {
    /// The worker made its step, or the step was refused.
    Made,
    /// The worker had ended, and nothing was done.
    Ended,
    /// There was no memory.
    Memory,
}

/// Makes the turn of a worker: the step that its program asks for next. A refusal ends the program.
fn take_turn(run: &mut Run, machine: &mut Machine<'_>, worker: WorkerId) -> TurnOutcome
    ensures { (t : Tables) (programs : List (List Command)) (turns : List Turn)
        → IsMadeByTurns t turns run.old → IsMachineOf programs turns worker machine.old → Takes result t programs turns worker run.new machine.new }
{
    let Some(act) = machine.next() else {
        return TurnOutcome::Ended;
    };
    match run.step(worker, act) {
        Ok(reply) => {
            machine.take(reply);
            TurnOutcome::Made
        }
        Err(StepFault::Refused(refusal)) => {
            machine.refuse(Outcome::Refused(refusal));
            TurnOutcome::Made
        }
        Err(StepFault::Memory) => TurnOutcome::Memory,
    }
}

/// Makes the turn of the worker that is named at a place.
fn play_place(run: &mut Run, machines: &mut [Machine<'_>], worker: WorkerId) -> TurnOutcome
    requires { worker < length machines.old }
    ensures { (t : Tables) (programs : List (List Command)) (turns : List Turn)
        → IsMadeByTurns t turns run.old → AreMachines programs turns machines.old → PlaysOne result t programs turns worker run.new machines.new }
{
    let machine = &mut machines[worker.get()];
    take_turn(run, machine, worker)
}

/// Plays the places of a schedule, up to the first whose worker has ended.
pub(crate) fn play_places(
    run: &mut Run,
    machines: &mut [Machine<'_>],
    schedule: &[WorkerId],
) -> Result<(), SimFault>
    requires { All (λ w. w < length machines.old) schedule.now }
    ensures { (t : Tables) (programs : List (List Command))
        → IsPlayed t programs [] [] run.old machines.old → PlaysAll result t programs schedule.now run.new machines.new }
{
    for (place, worker) in schedule.iter().enumerate() {
        match play_place(run, machines, *worker) {
            TurnOutcome::Made => {}
            TurnOutcome::Ended => {
                return Err(SimFault::Ended {
                    place,
                    worker: *worker,
                });
            }
            TurnOutcome::Memory => return Err(SimFault::Memory),
        }
    }
    Ok(())
}
