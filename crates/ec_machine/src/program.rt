//! Programs.
ghost use Rattle.std.specs.Prelude.{◌≡◌, ◌≤◌, ◌↔◌, true, IsTrue, IsSome, IfSome};
ghost use Rattle.ec_machine.specs.Programs.{IsProgram};
ghost use Rattle.ec_machine.specs.Unrolled.{unroll};

use crate::Command;
use crate::limits::keeps_limits;
use crate::remaining::Remaining;
use std::marker::Model;

/// What a worker is to do: its commands, one after another. A contract sees it as their list.
#[derive(Drop)]
pub struct Program {
    commands: Vec<Command>,
}

impl Model for Program {
    ghost use Rattle.std.specs.Prelude.{List};
    ghost use Rattle.std.specs.Coded.{codes};
    ghost use Rattle.ec_machine.specs.declared.command.Command.{Command};
    ghost use Rattle.ec_machine.specs.contracts.command.Command as command;
    ghost use Rattle.ec_machine.specs.Programs.{IsProgram};

    ghost Value = { List Command };

    ghost coded = { Prim.hlevel (codes, command.the_row.coded) };

    ghost view = { λ p. p.commands.items };

    ghost invariant = { λ p. IsProgram p.commands.items };
}

impl Program {
    /// Returns a program of these commands if they keep the limits, or `None` if not; then the
    /// commands are dropped. There are at most 4096 commands, repeats among them, and repeats are
    /// nested at most four deep. The count of each repeat is from 1 to 1000000, and its block has a
    /// command. A WriteAll has as many values as cells, and a Snapshot from 1 to 1000 tries. The
    /// three semaphores of a DownBoth are different, and the common one has initial value 1. Each
    /// written number is at most VALUE_MAX, and that of LastPlus is at least 1.
    pub fn new(commands: Vec<Command>) -> Option<Program>
        ensures variant { IsSome result ↔ IsProgram commands.items }
        ensures value { IfSome result (λ p. p ≡ commands.items) }
    {
        if keeps_limits(commands.as_slice()) {
            return Some(Program { commands });
        }
        None
    }

    /// Returns all its commands, with their repeats unrolled.
    pub(crate) fn remaining(&self) -> Remaining<'_>
        ensures { result ≡ unroll self.now }
    {
        Remaining::new(self.commands.as_slice())
    }

    /// States what is true of a program: its commands keep the limits.
    pub fn invariant(&self)
        ensures { IsProgram self.now }
    {
        let _ = &self.commands;
    }
}
