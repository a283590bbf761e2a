//! The numbers that the values of a command evaluate to.
ghost use Rattle.std.specs.Prelude.{◌≡◌, ◌≤◌, true, length};
ghost use Rattle.std.specs.List.{list_all, list_any};
ghost use Rattle.arrayvec.specs.ArrayVec.{array_vec_len};
ghost use Rattle.ec_core.specs.declared.act.TheConstants.{VALUE_MAX};
ghost use Rattle.ec_machine.specs.Limits.{is_value, is_sound_one};
ghost use Rattle.ec_machine.specs.Values.{eval, values_of, is_large, has_large};

use crate::{Command, Value};
use arrayvec::ArrayVec;
use ec_core::VALUE_MAX;

/// Returns the number that a value evaluates to, if `last` is the last number returned.
pub(crate) fn eval(last: u64, value: &Value) -> u64
    requires last { last ≤ VALUE_MAX }
    requires sound { is_value value.now ≡ true }
    ensures { result ≡ eval last value.now }
{
    match *value {
        Value::Number(number) => number,
        Value::Last => last,
        Value::LastPlus(more) => last + more,
    }
}

fn is_large(last: u64, value: &Value) -> bool
    requires last { last ≤ VALUE_MAX }
    requires sound { is_value value.now ≡ true }
    ensures { result ≡ is_large last value.now }
{
    eval(last, value) > VALUE_MAX
}

fn has_large_of(last: u64, values: &[Value]) -> bool
    requires last { last ≤ VALUE_MAX }
    requires sound { list_all is_value values.now ≡ true }
    ensures { result ≡ list_any (is_large last) values.now }
{
    match values {
        [] => false,
        [first, rest @ ..] => is_large(last, first) || has_large_of(last, rest),
    }
}

/// Returns whether a value of the command is above VALUE_MAX.
pub(crate) fn has_large(last: u64, command: &Command) -> bool
    requires last { last ≤ VALUE_MAX }
    requires sound { is_sound_one command.now ≡ true }
    ensures { result ≡ has_large last command.now }
{
    match command {
        Command::Await(_, value) | Command::Put(_, value) | Command::Produce(_, value) => {
            is_large(last, value)
        }
        Command::WriteAll(_, values) => has_large_of(last, values.as_slice()),
        _ => false,
    }
}

/// Returns the numbers that values evaluate to.
pub(crate) fn values_of(last: u64, values: &[Value]) -> ArrayVec<u64, 256>
    requires last { last ≤ VALUE_MAX }
    requires sound { list_all is_value values.now ≡ true }
    requires few { length values.now ≤ 256 }
    ensures items { result.items ≡ values_of last values.now }
    ensures many { array_vec_len result ≡ length values.now }
{
    let mut numbers = ArrayVec::new();
    for value in values {
        numbers.push(eval(last, value));
    }
    numbers
}
