//! The interpreter of a program.
ghost use Rattle.std.specs.Prelude.{◌≡◌, ℕ, ◌≤◌, true, false, List, [], ◌∷◌, Some, is_some};
ghost use Rattle.ec_core.specs.declared.act.TheConstants.{VALUE_MAX};
ghost use Rattle.ec_core.specs.declared.act.Act.{Act};
ghost use Rattle.ec_core.specs.declared.act.Entry.{Entry};
ghost use Rattle.ec_core.specs.Procedures.{IsReplyTo, next_of};
ghost use Rattle.ec_core.specs.Values.{TellsAtMost};
ghost use Rattle.ec_machine.specs.declared.command.Command.{Command};
ghost use Rattle.ec_machine.specs.Outcomes.{is_running, outcome_after_refusal};
ghost use Rattle.ec_machine.specs.Runs.{number_after, next_act, outcome_of};
ghost use Rattle.ec_machine.specs.Tasks.{task_rest, task_going};
ghost use Rattle.ec_machine.specs.Unrolled.{unroll};

use crate::due_command::begin_next;
use crate::remaining::Remaining;
use crate::small_task::SmallTask;
use crate::task::Task;
use crate::{Outcome, Program};
use ec_core::{Act, Procedure, Reply, VALUE_MAX};

/// An interpreter of a worker's program. Its caller asks for the next act, makes it a step, and
/// passes the reply back, until no act is due. It keeps counters for repeats, and allocates
/// nothing.
#[derive(Drop)]
pub struct Machine<'a> {
    rest: Remaining<'a>,
    task: Task,
    last: u64,
    outcome: Outcome,
    ghost small: { last ≤ VALUE_MAX },
    ghost running: { is_running outcome ≡ is_some (next_of (task_going task) (task_rest task [])) },
}

/// Returns the last number that was returned, after one more reply.
fn number_after(last: u64, reply: Reply) -> u64
    requires last { last ≤ VALUE_MAX }
    requires small { TellsAtMost VALUE_MAX reply }
    ensures value { result ≡ number_after last reply }
    ensures small { result ≤ VALUE_MAX }
{
    match reply {
        Reply::Number(number) => number,
        _ => last,
    }
}

impl<'a> Machine<'a> {
    ghost use Rattle.ec_machine.specs.Standing.{StandsFor, machine_outcome, is_refused, due_act};

    /// Makes an interpreter at the start of a program.
    pub fn new(program: &'a Program) -> Self
        ensures represents { StandsFor program.now result [] }
        ensures unset { is_refused result ≡ false }
    {
        Machine::at_start(program.remaining())
    }

    /// Makes an interpreter at the start of these commands.
    pub(crate) fn at_start(mut rest: Remaining<'a>) -> Self
        ensures represents { (cs : List Command) → rest.entry ≡ unroll cs → StandsFor cs result [] }
        ensures unset { is_refused result ≡ false }
    {
        let mut task = Task::nothing();
        let outcome = begin_next(&mut rest, 0, &mut task);
        Machine {
            rest,
            task,
            last: 0,
            outcome,
        }
    }

    /// Returns the act that is due: `Go` if the last reply was `Pending`. Returns `None` once the
    /// program has ended.
    pub fn next(&self) -> Option<Act>
        ensures value { result ≡ due_act self.now }
        ensures some { is_some result ≡ is_running (machine_outcome self.now) }
        ensures due { (cs : List Command) (past : List Entry) → StandsFor cs self.now past → is_refused self.now ≡ false
            → result ≡ next_act cs past }
    {
        self.task.next()
    }

    /// Returns how the program has ended, or `Running`.
    pub fn outcome(&self) -> Outcome
        ensures value { result ≡ machine_outcome self.now }
        ensures after { (cs : List Command) (past : List Entry) → StandsFor cs self.now past → is_refused self.now ≡ false
            → result ≡ outcome_of cs past }
    {
        self.outcome
    }

    /// Takes the reply to the act that is due. An act has to be due. The reply has to be of a kind
    /// that the act can get, with a number of at most VALUE_MAX, as each reply of a step is.
    pub fn take(&mut self, reply: Reply)
        requires { IsReplyTo (due_act self.old) reply }
        ensures represents { (cs : List Command) (past : List Entry) (worker : ℕ) (act : Act) → StandsFor cs self.old past → due_act self.old ≡ Some act
            → StandsFor cs self.new (record { worker = worker; act = act; reply = reply } ∷ past) }
        ensures unset { is_refused self.new ≡ false }
    {
        self.last = number_after(self.last, reply);
        self.task.take(reply);
        if self.task.next().is_none() {
            self.outcome = begin_next(&mut self.rest, self.last, &mut self.task);
        }
    }

    /// Ends the program from outside. It takes effect only if the outcome is `Running` and the new
    /// one is `Refused`, `Stopped`, `OutOfTurns` or `Memory`.
    pub fn refuse(&mut self, outcome: Outcome)
        ensures outcome { machine_outcome self.new
            ≡ outcome_after_refusal (machine_outcome self.old) outcome }
        ensures represents { (cs : List Command) (past : List Entry) → StandsFor cs self.old past → StandsFor cs self.new past }
    {
        if self.outcome != Outcome::Running {
            return;
        }
        match outcome {
            Outcome::Running | Outcome::Finished | Outcome::ValueTooLarge => {}
            _ => {
                self.task.put_small(SmallTask::Nothing);
                self.outcome = outcome;
            }
        }
    }
}
