//! How a command ends.
ghost use Rattle.std.specs.Prelude.{◌≡◌};
ghost use Rattle.calls_report.specs.Statuses.{status_code};

/// How a command ended.
#[derive(Clone, Copy, Debug, PartialEq, Eq)]
pub enum Status {
    /// Each history is linearizable, and the texts were written.
    Done,
    /// The text is not a history, or a history has no linearization: the note says why.
    Refused,
    /// The command line was wrong.
    Usage,
    /// A read or a write failed.
    InputOutput,
    /// An allocation failed.
    Memory,
    /// A history is not decided: the note says why.
    NotDecided,
}

impl Status {
    /// Returns the exit status of the process, from 0 to 5.
    pub fn code(self) -> u8
        ensures { result ≡ status_code self }
    {
        match self {
            Status::Done => 0,
            Status::Refused => 1,
            Status::Usage => 2,
            Status::InputOutput => 3,
            Status::Memory => 4,
            Status::NotDecided => 5,
        }
    }
}
