//! The beginning of the command that is due.
ghost use Rattle.std.specs.Prelude.{◌≡◌, ◌≤◌, true, false, List, [], is_some};
ghost use Rattle.ec_core.specs.declared.act.TheConstants.{VALUE_MAX};
ghost use Rattle.ec_core.specs.Following.{CompletedCall};
ghost use Rattle.ec_machine.specs.Limits.{is_sound_one};
ghost use Rattle.ec_machine.specs.Unrolled.{is_single};
ghost use Rattle.ec_machine.specs.Values.{has_large};
ghost use Rattle.ec_machine.specs.Outcomes.{is_running, is_external};
ghost use Rattle.ec_machine.specs.Runs.{command_call, outcome_in};
ghost use Rattle.ec_machine.specs.Tasks.{task_rest, task_going};
ghost use Rattle.ec_machine.specs.Standing.{IsAt};

use crate::large_task::LargeTask;
use crate::remaining::Remaining;
use crate::small_task::SmallTask;
use crate::task::Task;
use crate::values::{eval, has_large, values_of};
use crate::{Command, Outcome};
use ec_buffer::{Consume, Produce};
use ec_core::{Act, VALUE_MAX};
use ec_database::{Snapshot, WriteAll};
use ec_semaphore::{Down, DownBoth};

/// Begins a command whose values are not too large.
fn begin(task: &mut Task, last: u64, command: &Command)
    requires last { last ≤ VALUE_MAX }
    requires sound { is_sound_one command.now ≡ true }
    requires single { is_single command.now ≡ true }
    requires fits { has_large last command.now ≡ false }
    ensures whole { (calls : List CompletedCall) → task_rest task.new calls ≡ command_call last command.now calls }
    ensures fresh { task_going task.new ≡ false }
{
    match command {
        Command::Advance(event) => task.put_one(Act::Advance(*event)),
        Command::Read(event) => task.put_one(Act::Read(*event)),
        Command::Await(event, value) => task.put_one(Act::Await(*event, eval(last, value))),
        Command::Ticket(sequencer) => task.put_one(Act::Ticket(*sequencer)),
        Command::Put(cell, value) => task.put_one(Act::Put(*cell, eval(last, value))),
        Command::Get(cell) => task.put_one(Act::Get(*cell)),
        Command::Hand(event, to) => task.put_one(Act::Hand(*event, *to)),
        Command::Produce(shape, value) => {
            let item = eval(last, value);
            task.put_small(SmallTask::Produce(Produce::new(*shape, item)));
        }
        Command::Consume(shape) => task.put_small(SmallTask::Consume(Consume::new(*shape))),
        Command::WriteAll(shape, values) => {
            let _cells = shape.cells();
            let write = WriteAll::new(*shape, values_of(last, values.as_slice()));
            task.put_large(LargeTask::WriteAll(write));
        }
        Command::Snapshot(shape, tries) => {
            task.put_large(LargeTask::Snapshot(Snapshot::new(*shape, *tries)));
        }
        Command::Down(shape) => task.put_small(SmallTask::Down(Down::new(*shape))),
        Command::Up(shape) => task.put_one(Act::Advance(shape.count())),
        Command::DownBoth(common, one, other) => {
            task.put_small(SmallTask::DownBoth(DownBoth::new(*common, *one, *other)));
        }
        Command::Repeat(_, _) => unreachable!(),
    }
}

/// Begins the command that is due, if there is one, and returns the outcome. It is `Finished` if no
/// command is left, and `ValueTooLarge` if a value of the command is too large.
pub(crate) fn begin_next(rest: &mut Remaining<'_>, last: u64, task: &mut Task) -> Outcome
    requires last { last ≤ VALUE_MAX }
    ensures at { IsAt (task_rest task.new) rest.new (record { left = rest.old; last = last; completed = [] }) }
    ensures outcome { result ≡ outcome_in rest.old last }
    ensures running { is_running result ≡ is_some (task_rest task.new []) }
    ensures fresh { task_going task.new ≡ false }
    ensures unset { is_external result ≡ false }
{
    let Some(command) = rest.take() else {
        task.put_small(SmallTask::Nothing);
        return Outcome::Finished;
    };
    if has_large(last, command) {
        task.put_small(SmallTask::Nothing);
        return Outcome::ValueTooLarge;
    }
    begin(task, last, command);
    Outcome::Running
}
