//! What the program is asked to do.

/// A task of the program, by its command.
#[derive(Clone, Copy, Debug, PartialEq, Eq)]
pub enum Task {
    /// `check`: read a trace, and write a linearization of its calls and the totals of its objects.
    Check,
    /// `audit`: read a trace, and write what its buffers, databases and semaphores did.
    Audit,
    /// `upgrade`: read a trace, and write it in version 2.
    Upgrade,
    /// `sim`: read a script, and write the trace of what its workers do in its schedule.
    Sim,
    /// `run`: read a script, run its workers on threads, each for at most this many turns, and
    /// write the trace of what they did.
    Run(u64),
}

/// A task, and the file with its input.
#[derive(Clone, Copy, Debug, PartialEq, Eq)]
pub struct Request<'a> {
    /// What is done.
    pub task: Task,
    /// The name of the file; without one the input is standard input.
    pub file: Option<&'a str>,
}
