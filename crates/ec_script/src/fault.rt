//! Why a text is no script.
ghost use Rattle.std.specs.Prelude.{◌≡◌};
ghost use Rattle.ec_script.specs.Faults.{kind_number, kind_name, stage_fault};

use ec_heading::HeadFault;
use thiserror::Error;

/// Why a line of a script is rejected: the least of these that holds of it.
#[derive(Clone, Copy, Debug, PartialEq, Eq, Error)]
pub enum Kind {
    /// Line 1 is neither `evc-script 1` nor `evc-script 2`.
    #[error("line 1 is no header")]
    BadHeader,
    /// The line has more than 8192 bytes or none of the forms allowed in its place.
    #[error("bad line")]
    BadLine,
    /// A word in the place of a new name is not a name.
    #[error("a word is no name")]
    BadName,
    /// A new name was used before, a list names a worker twice, or a block of the worker was begun.
    #[error("a name was used before")]
    NameTaken,
    /// A word in the place of a worker or object names none of the right kind.
    #[error("a name is not declared")]
    UnknownName,
    /// A number is outside its range, or there are not as many values as cells.
    #[error("a number is out of range")]
    BadNumber,
    /// A table, the commands of a worker or the schedule would pass their bound. On line 1: the
    /// script has more than 1048576 bytes.
    #[error("a table would pass its bound")]
    TooMany,
    /// A raw command names an object of a group.
    #[error("the object belongs to a group")]
    Hidden,
    /// A worker is in both lists of a group, or P on two semaphores names one twice.
    #[error("one stands in both roles")]
    TwoRoles,
    /// The worker of the block lacks the right. In version 2 the right to signal an eventcount of
    /// no group is not tested, since components may be handed over.
    #[error("the worker lacks the right")]
    NoRight,
    /// A line that must not be inside a block is, a fifth repeat is inside the others, or an `end`
    /// closes a repeat without a command.
    #[error("bad nesting")]
    BadNesting,
    /// The text ends before its line of workers, inside a block, or without its last LF.
    #[error("unfinished")]
    Unfinished,
}

impl Kind {
    /// Returns its number, from 1 to 12, in the order of the variants.
    pub fn number(self) -> u64
        ensures { result ≡ kind_number self }
    {
        match self {
            Kind::BadHeader => 1,
            Kind::BadLine => 2,
            Kind::BadName => 3,
            Kind::NameTaken => 4,
            Kind::UnknownName => 5,
            Kind::BadNumber => 6,
            Kind::TooMany => 7,
            Kind::Hidden => 8,
            Kind::TwoRoles => 9,
            Kind::NoRight => 10,
            Kind::BadNesting => 11,
            Kind::Unfinished => 12,
        }
    }

    /// Returns its name, as notes print it.
    pub fn name(self) -> &'static str
        ensures { result.now ≡ kind_name self }
    {
        match self {
            Kind::BadHeader => "BadHeader",
            Kind::BadLine => "BadLine",
            Kind::BadName => "BadName",
            Kind::NameTaken => "NameTaken",
            Kind::UnknownName => "UnknownName",
            Kind::BadNumber => "BadNumber",
            Kind::TooMany => "TooMany",
            Kind::Hidden => "Hidden",
            Kind::TwoRoles => "TwoRoles",
            Kind::NoRight => "NoRight",
            Kind::BadNesting => "BadNesting",
            Kind::Unfinished => "Unfinished",
        }
    }
}

/// Why `parse` returned no plan.
#[derive(Clone, Copy, Debug, PartialEq, Eq, Error)]
pub enum ScriptFault {
    /// The first faulty line, counted from 1, and its least kind.
    #[error("line {line}: {kind}")]
    At { line: u64, kind: Kind },
    /// An allocation failed.
    #[error("memory was refused")]
    Memory,
}

/// Why a line was not read: a kind of fault, or a failed allocation.
#[derive(Clone, Copy, Debug, PartialEq, Eq)]
pub(crate) enum StageFault {
    Of(Kind),
    Memory,
}

/// Returns the fault of a line that a header rejected.
pub(crate) fn stage_fault(fault: HeadFault) -> StageFault
    ensures { result ≡ stage_fault fault }
{
    let kind = match fault {
        HeadFault::Memory => return StageFault::Memory,
        HeadFault::BadLine => Kind::BadLine,
        HeadFault::BadName => Kind::BadName,
        HeadFault::NameTaken => Kind::NameTaken,
        HeadFault::UnknownName => Kind::UnknownName,
        HeadFault::BadNumber => Kind::BadNumber,
        HeadFault::TooMany => Kind::TooMany,
        HeadFault::TwoRoles => Kind::TwoRoles,
    };
    StageFault::Of(kind)
}
