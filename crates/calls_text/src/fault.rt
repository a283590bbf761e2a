//! Why a text is not a history.
ghost use Rattle.std.specs.Prelude.{◌≡◌};
ghost use Rattle.calls_text.specs.Faults.{kind_number, kind_name, kind_of_head, line_fault};
ghost use Rattle.calls_text.specs.Causes.{cause_of, header_cause, line_cause, has_tab};
ghost use Rattle.calls_text.specs.declared.fault.LineFault.TheVariants.{Memory};

use ec_heading::{HeadFault, LINE_MAX};
use ec_text::has_blank;
use std::alloc::AllocError;
use thiserror::Error;

/// Why a line is rejected: the first of these that holds.
///
/// A kind that scripts also have has the same number there.
#[derive(Clone, Copy, Debug, PartialEq, Eq, Error)]
pub enum FaultKind {
    /// The first line of the history is not `evc-calls 1`.
    #[error("evc-calls 1 is expected")]
    BadHeader,
    /// The line has more than 8192 bytes, or none of the forms that may come next.
    #[error("no line of this form may stand here")]
    BadLine,
    /// A word that must be a new name is not a name.
    #[error("a word is no name")]
    BadName,
    /// A new name was used before, or a list names a worker twice.
    #[error("a name was used before")]
    NameTaken,
    /// A word that must name a worker or an object names none of the right sort.
    #[error("a name is not declared")]
    UnknownName,
    /// A number is outside its range, or there are not as many values as cells.
    #[error("a number is out of range")]
    BadNumber,
    /// A table would pass its bound.
    #[error("a table would pass its bound")]
    TooMany,
    /// An object of a group is called by its own name.
    #[error("the object belongs to a group")]
    Hidden,
    /// A worker is in both lists of a group, or `pboth` names one semaphore twice.
    #[error("one stands in both roles")]
    TwoRoles,
    /// The worker lacks the right.
    #[error("the worker lacks the right")]
    NoRight,
    /// The eventcount of a `from` line is not declared after that of the one before.
    #[error("the from lines are not in the order of the declarations")]
    BadOrder,
    /// The text ends before an `end` line, or without its last LF.
    #[error("the text ends too early")]
    Unfinished,
    /// The line is an invocation, and the worker has a pending call.
    #[error("the call of the worker is pending")]
    Busy,
    /// The line is a response, and the worker has no pending call.
    #[error("the worker has no pending call")]
    Idle,
    /// The reply does not suit the pending call.
    #[error("the reply does not suit the call")]
    Unsuited,
    /// The worker has called as many advances of the eventcount as the limit allows, or a ticket
    /// returns the limit or more.
    #[error("the limit is passed")]
    AtLimit,
}

impl FaultKind {
    /// Returns the number of the kind, from 1 to 16.
    pub fn number(self) -> u64
        ensures { result ≡ kind_number self }
    {
        match self {
            FaultKind::BadHeader => 1,
            FaultKind::BadLine => 2,
            FaultKind::BadName => 3,
            FaultKind::NameTaken => 4,
            FaultKind::UnknownName => 5,
            FaultKind::BadNumber => 6,
            FaultKind::TooMany => 7,
            FaultKind::Hidden => 8,
            FaultKind::TwoRoles => 9,
            FaultKind::NoRight => 10,
            FaultKind::BadOrder => 11,
            FaultKind::Unfinished => 12,
            FaultKind::Busy => 13,
            FaultKind::Idle => 14,
            FaultKind::Unsuited => 15,
            FaultKind::AtLimit => 16,
        }
    }

    /// Returns its name, as notes print it.
    pub fn name(self) -> &'static str
        ensures { result.now ≡ kind_name self }
    {
        match self {
            FaultKind::BadHeader => "BadHeader",
            FaultKind::BadLine => "BadLine",
            FaultKind::BadName => "BadName",
            FaultKind::NameTaken => "NameTaken",
            FaultKind::UnknownName => "UnknownName",
            FaultKind::BadNumber => "BadNumber",
            FaultKind::TooMany => "TooMany",
            FaultKind::Hidden => "Hidden",
            FaultKind::TwoRoles => "TwoRoles",
            FaultKind::NoRight => "NoRight",
            FaultKind::BadOrder => "BadOrder",
            FaultKind::Unfinished => "Unfinished",
            FaultKind::Busy => "Busy",
            FaultKind::Idle => "Idle",
            FaultKind::Unsuited => "Unsuited",
            FaultKind::AtLimit => "AtLimit",
        }
    }
}

/// What is wrong with the form of a rejected line: the first of these that holds.
#[derive(Clone, Copy, Debug, PartialEq, Eq)]
pub enum Cause {
    /// It has more than 8192 bytes.
    Long,
    /// It begins with a byte order mark.
    Mark,
    /// It ends in a carriage return.
    Return,
    /// It has a tab.
    Tab,
    /// It has no byte.
    Empty,
    /// It begins or ends with a space, or has two in a row.
    Space,
    /// It is the first line of a trace, and not of a history.
    Trace,
    /// It is the first line of a script, and not of a history.
    Script,
    /// None of these.
    Other,
}

/// Why no history was read.
#[derive(Clone, Copy, Debug, PartialEq, Eq, Error)]
pub enum TextFault {
    /// The first faulty line, counted from 1, its lowest kind, and what is wrong with its form.
    #[error("line {line}: {kind}")]
    At {
        line: u64,
        kind: FaultKind,
        cause: Cause,
    },
    /// An allocation failed.
    #[error("out of memory")]
    Memory,
}

/// The error of a line: the kind of its fault, or that an allocation failed.
#[derive(Clone, Copy, Debug, PartialEq, Eq)]
pub(crate) enum LineFault {
    Of(FaultKind),
    Memory,
}

/// Returns the kind of a fault of a header line. (A line has no fault `Memory`.)
fn kind_of_head(fault: HeadFault) -> FaultKind
    ensures { result ≡ kind_of_head fault }
{
    match fault {
        HeadFault::BadLine | HeadFault::Memory => FaultKind::BadLine,
        HeadFault::BadName => FaultKind::BadName,
        HeadFault::NameTaken => FaultKind::NameTaken,
        HeadFault::UnknownName => FaultKind::UnknownName,
        HeadFault::BadNumber => FaultKind::BadNumber,
        HeadFault::TooMany => FaultKind::TooMany,
        HeadFault::TwoRoles => FaultKind::TwoRoles,
    }
}

impl From<HeadFault> for LineFault {
    ghost from_gives = { λ fault error. error ≡ line_fault fault };

    fn from(fault: HeadFault) -> Self {
        match fault {
            HeadFault::Memory => LineFault::Memory,
            other => LineFault::Of(kind_of_head(other)),
        }
    }
}

impl From<AllocError> for LineFault {
    ghost from_gives = { λ _ error. error ≡ Memory };

    fn from(_: AllocError) -> Self {
        LineFault::Memory
    }
}

/// Returns whether a line has a tab.
fn has_tab(line: &[u8]) -> bool
    ensures { result ≡ has_tab line.now }
{
    line.iter().any(|b| *b == b'\t')
}

/// Returns what is wrong with the form of a line, whichever line is expected.
fn line_cause(line: &[u8]) -> Cause
    ensures { result ≡ line_cause line.now }
{
    if line.len() > LINE_MAX {
        return Cause::Long;
    }
    if line.starts_with(b"\xEF\xBB\xBF".as_slice()) {
        return Cause::Mark;
    }
    if line.ends_with(b"\r".as_slice()) {
        return Cause::Return;
    }
    if has_tab(line) {
        return Cause::Tab;
    }
    if line.is_empty() {
        return Cause::Empty;
    }
    if has_blank(line) {
        return Cause::Space;
    }
    Cause::Other
}

/// Returns what is wrong with a line that must be `evc-calls 1`.
fn header_cause(line: &[u8]) -> Cause
    ensures { result ≡ header_cause line.now }
{
    if line == b"evc-trace 1".as_slice() || line == b"evc-trace 2".as_slice() {
        return Cause::Trace;
    }
    if line == b"evc-script 1".as_slice() || line == b"evc-script 2".as_slice() {
        return Cause::Script;
    }
    line_cause(line)
}

/// Returns what is wrong with the form of a line with a fault of this kind.
pub(crate) fn cause_of(kind: FaultKind, line: &[u8]) -> Cause
    ensures { result ≡ cause_of kind line.now }
{
    match kind {
        FaultKind::BadHeader => header_cause(line),
        FaultKind::BadLine | FaultKind::BadName | FaultKind::UnknownName => line_cause(line),
        _ => Cause::Other,
    }
}
