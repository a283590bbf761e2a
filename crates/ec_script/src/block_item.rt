//! Parsed lines of a block.
use ec_database::DatabaseShape;
use ec_machine::{Command, Value};
use std::marker::Model;

/// Values, as a contract sees them: their list.
#[derive(Drop)]
pub struct Values {
    pub(crate) items: Vec<Value>,
}

impl Model for Values {
    ghost use Rattle.std.specs.Prelude.{List};
    ghost use Rattle.ec_machine.specs.declared.command.Value.{Value as Amount};

    ghost Value = { List Amount };

    ghost view = { λ v. v.items.items };
}

/// A parsed line of a block. A block of commands is the list of its lines. The lines of a repeat
/// are its own, those of its commands, and an `end`.
#[derive(Drop)]
pub enum BlockItem {
    /// A command that is no repeat and has no list.
    Do(Command),
    /// The command that writes these values into a database, one for each of its cells.
    Write(DatabaseShape, Values),
    /// A repeat begins, of this many times.
    Begin(u64),
    /// The innermost repeat ends.
    End,
}
