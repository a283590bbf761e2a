//! A builder of a block of commands.
ghost use Rattle.std.specs.Prelude.{◌≡◌, ◌<◌, ◌≤◌, ◌∷◌, [], ◌++◌, length, true, false, OnOk, ◌==◌};
ghost use Rattle.std.specs.List.{list_all};
ghost use Rattle.ec_machine.specs.Limits.{is_sound_one, is_value};
ghost use Rattle.ec_script.specs.Flat.{flat, is_plain};
ghost use Rattle.ec_script.specs.DraftModel.{draft_with_command, draft_with_end, empty_draft, draft_with_repeat, draft_with_item, MayFollow};

use crate::block_item::{BlockItem, Values};
use ec_database::DatabaseShape;
use ec_machine::{Command, Program};
use std::alloc::{AllocError, Global};
use std::marker::Model;
use std::mem;

/// An open repeat: how many times, and the commands before it in its block.
#[derive(Drop)]
pub(crate) struct OpenRepeat {
    times: u64,
    before: Vec<Command>,
}

/// A builder of a block: the commands of its innermost open repeat, the repeats around it, the
/// outermost first, and the number of commands.
#[derive(Drop)]
pub(crate) struct Draft {
    current: Vec<Command>,
    outer: Vec<OpenRepeat>,
    commands: usize,
    alloc: Global,
}

impl Model for Draft {
    ghost use Rattle.std.specs.Prelude.{◌==◌, length, ◌++◌};
    ghost use Rattle.std.specs.Coded.{codes};
    ghost use Rattle.ec_machine.specs.contracts.command.Command as command;
    ghost use Rattle.ec_script.specs.contracts.block_item.BlockItem as item;
    ghost use Rattle.ec_script.specs.DraftModel.{DraftModel};
    ghost use Rattle.ec_script.specs.Flat.{flat};
    ghost use Rattle.ec_script.specs.kept.Inner.{begun, IsDraft};

    ghost Value = { DraftModel };

    ghost coded = { Prim.hlevel (codes, command.the_row.coded, item.the_row.coded) };

    ghost view = { λ d. record { block_items = begun d.outer.items ++ flat d.current.items; depth = length d.outer.items; is_empty = length d.current.items == 0; commands = d.commands } };

    ghost invariant = { λ d. IsDraft d.outer.items d.current.items d.commands };
}

impl Draft {
    /// Makes a builder of a block without a line.
    pub(crate) fn new(alloc: Global) -> Self
        ensures { result ≡ empty_draft }
    {
        Draft {
            current: Vec::new(alloc),
            outer: Vec::new(alloc),
            commands: 0,
            alloc,
        }
    }

    /// Adds a command that has no list.
    fn add(&mut self, command: Command) -> Result<(), AllocError>
        requires plain { is_plain command ≡ true }
        requires sound { is_sound_one command ≡ true }
        requires room { self.old.commands < 4096 }
        ensures { OnOk result (self.new ≡ draft_with_command self.old (BlockItem.Do command)) }
    {
        self.current.push(command)?;
        self.commands += 1;
        Ok(())
    }

    /// Adds a command that writes these values.
    fn add_write(&mut self, shape: DatabaseShape, values: Values) -> Result<(), AllocError>
        requires as_many { (length values == shape.cells) ≡ true }
        requires sound { list_all is_value values ≡ true }
        requires room { self.old.commands < 4096 }
        ensures { OnOk result (self.new
            ≡ draft_with_command self.old (BlockItem.Write shape values)) }
    {
        let Values { items } = values;
        self.current.push(Command::WriteAll(shape, items))?;
        self.commands += 1;
        Ok(())
    }

    /// Begins a repeat.
    fn open(&mut self, times: u64) -> Result<(), AllocError>
        requires some { 0 < times }
        requires few { times ≤ 1000000 }
        requires depth { self.old.depth < 4 }
        requires room { self.old.commands < 4096 }
        ensures { OnOk result (self.new ≡ draft_with_repeat self.old times) }
    {
        let before = mem::replace(&mut self.current, Vec::new(self.alloc));
        self.outer.push(OpenRepeat { times, before })?;
        self.commands += 1;
        Ok(())
    }

    /// Ends the innermost repeat.
    fn close(&mut self) -> Result<(), AllocError>
        requires some { self.old.is_empty ≡ false }
        requires open { 0 < self.old.depth }
        ensures { OnOk result (self.new ≡ draft_with_end self.old) }
    {
        let Some(open) = self.outer.pop() else {
            return Ok(());
        };
        let block = mem::replace(&mut self.current, open.before);
        self.current.push(Command::Repeat(open.times, block))?;
        Ok(())
    }

    /// Adds one more line.
    pub(crate) fn take(&mut self, item: BlockItem) -> Result<(), AllocError>
        requires { MayFollow self.old item }
        ensures { OnOk result (self.new ≡ draft_with_item self.old item) }
    {
        match item {
            BlockItem::Do(command) => self.add(command),
            BlockItem::Write(shape, values) => self.add_write(shape, values),
            BlockItem::Begin(times) => self.open(times),
            BlockItem::End => self.close(),
        }
    }

    /// Returns whether the innermost block has no command yet.
    pub(crate) fn is_empty(&self) -> bool
        ensures { result ≡ self.now.is_empty }
    {
        self.current.is_empty()
    }

    /// Returns how many repeats are open.
    pub(crate) fn depth(&self) -> usize
        ensures { result ≡ self.now.depth }
    {
        self.outer.len()
    }

    /// Returns how many commands there are.
    pub(crate) fn commands(&self) -> usize
        ensures { result ≡ self.now.commands }
    {
        self.commands
    }

    /// Returns the program.
    pub(crate) fn finish(self) -> Program
        requires { self.depth ≡ 0 }
        ensures { flat result ≡ self.block_items }
    {
        let Some(program) = Program::new(self.current) else {
            unreachable!();
        };
        program
    }
}
