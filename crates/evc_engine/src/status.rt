//! The statuses with which a program ends.
ghost use Rattle.std.specs.Prelude.{◌≡◌};
ghost use Rattle.evc_engine.specs.Statuses.{status_code};

/// The status with which a command ended.
#[derive(Clone, Copy, Debug, PartialEq, Eq)]
pub enum Status {
    /// Done: standard output holds the whole text.
    Done,
    /// The trace, the script or its schedule was rejected, or the rules of a group are broken: the
    /// note says why. `evc` then writes nothing to standard output.
    Refused,
    /// The command line was wrong.
    Usage,
    /// A read or a write failed.
    InputOutput,
    /// Memory ran out: for the command or, in `run`, for a worker.
    Memory,
    /// A worker was stopped or out of turns, or what the workers did is not what their script says.
    /// In `evc-draw`: a history of calls is not decided.
    Stopped,
}

impl Status {
    /// Returns the exit status of the process, from 0 to 5.
    pub fn code(self) -> u8
        ensures { result ≡ status_code self }
    {
        match self {
            Status::Done => 0,
            Status::Refused => 1,
            Status::Usage => 2,
            Status::InputOutput => 3,
            Status::Memory => 4,
            Status::Stopped => 5,
        }
    }
}
