//! Whether commands keep the limits of a program.
ghost use Rattle.std.specs.Prelude.{◌≡◌, ◌+◌, ◌-◌, ◌≤◌, ◌<◌, ◌↔◌, ◌&&◌, IsTrue, IsSome, IfSome, nat_le};
ghost use Rattle.std.specs.List.{list_all};
ghost use Rattle.ec_machine.specs.Limits.{nesting, count, count_one, is_value, are_apart, is_same, is_sound, is_sound_one};
ghost use Rattle.ec_machine.specs.Programs.{IsProgram};

use crate::{Command, Value};
use ec_core::VALUE_MAX;
use ec_semaphore::SemaphoreShape;

/// The greatest count of a repeat.
pub const TIMES_MAX: u64 = 1_000_000;

/// How deep repeats may be nested.
pub const NESTING_MAX: usize = 4;

/// How many commands a program may have. A repeat counts as one, and so does each command of its
/// block.
pub const COMMANDS_MAX: usize = 4096;

/// The greatest number of tries of a snapshot.
pub const TRIES_MAX: usize = 1000;

/// Returns whether a program can be made of the commands.
pub(crate) fn keeps_limits(commands: &[Command]) -> bool
    ensures { IsTrue result ↔ IsProgram commands.now }
{
    is_within(NESTING_MAX, commands)
        && room_within(COMMANDS_MAX, commands).is_some()
        && is_sound(commands)
}

/// Returns whether repeats are nested no deeper than this.
#[cycle(nesting)]
fn is_within(bound: usize, commands: &[Command]) -> bool
    ensures { IsTrue result ↔ (nesting commands.now ≤ bound) }
{
    for command in commands {
        if let Command::Repeat(_, block) = command {
            if bound == 0 || !is_within(bound - 1, block.as_slice()) {
                return false;
            }
        }
    }
    true
}

/// Returns how many more commands there may be than these within a bound, or `None` if these are
/// more than the bound.
#[cycle(count)]
fn room_within(bound: usize, commands: &[Command]) -> Option<usize>
    ensures variant { IsSome result ↔ (count commands.now ≤ bound) }
    ensures value { IfSome result (λ left. left ≡ bound - count commands.now) }
{
    let mut left = bound;
    for command in commands {
        left = left_of_one(left, command)?;
    }
    Some(left)
}

#[cycle(count)]
fn left_of_one(bound: usize, command: &Command) -> Option<usize>
    ensures variant { IsSome result ↔ (count_one command.now ≤ bound) }
    ensures value { IfSome result (λ left. left ≡ bound - count_one command.now) }
{
    let left = bound.checked_sub(1)?;
    match command {
        Command::Repeat(_, block) => room_within(left, block.as_slice()),
        _ => Some(left),
    }
}

/// Returns whether each command has values in their ranges and as many as it needs, and each block
/// has a command.
#[cycle(sound)]
fn is_sound(commands: &[Command]) -> bool
    ensures { result ≡ is_sound commands.now }
{
    for command in commands {
        if !is_sound_one(command) {
            return false;
        }
    }
    true
}

#[cycle(sound)]
fn is_sound_one(command: &Command) -> bool
    ensures { result ≡ is_sound_one command.now }
{
    match command {
        Command::Await(_, value) | Command::Put(_, value) | Command::Produce(_, value) => {
            is_value(value)
        }
        Command::WriteAll(shape, values) => {
            values.len() == shape.cells() && are_values(values.as_slice())
        }
        Command::Snapshot(_, tries) => 1 <= *tries && *tries <= TRIES_MAX,
        Command::DownBoth(common, one, other) => are_apart(common, one, other),
        Command::Repeat(count, block) => {
            is_times(*count) && !block.is_empty() && is_sound(block.as_slice())
        }
        _ => true,
    }
}

/// Returns whether a block may be done so many times.
fn is_times(times: u64) -> bool
    ensures { result ≡ (nat_le 1 times && nat_le times 1000000) }
{
    1 <= times && times <= TIMES_MAX
}

fn are_values(values: &[Value]) -> bool
    ensures { result ≡ list_all is_value values.now }
{
    values.iter().all(is_value)
}

/// Returns whether a written number is in its range.
fn is_value(value: &Value) -> bool
    ensures { result ≡ is_value value.now }
{
    match *value {
        Value::Number(number) => number <= VALUE_MAX,
        Value::Last => true,
        Value::LastPlus(more) => 1 <= more && more <= VALUE_MAX,
    }
}

fn is_same(one: &SemaphoreShape, other: &SemaphoreShape) -> bool
    ensures { result ≡ is_same one.now other.now }
{
    one.count() == other.count() && one.line() == other.line() && one.initial() == other.initial()
}

/// Returns whether a P on both of two semaphores may be made under a common one: that has initial
/// value 1, and the three are different.
pub fn are_apart(common: &SemaphoreShape, one: &SemaphoreShape, other: &SemaphoreShape) -> bool
    ensures { result ≡ are_apart common.now one.now other.now }
{
    common.initial() == 1
        && !is_same(common, one)
        && !is_same(common, other)
        && !is_same(one, other)
}
