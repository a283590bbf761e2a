//! What the program is asked to do.

/// What is done with an input.
#[derive(Clone, Copy, Debug, PartialEq, Eq)]
pub enum Action {
    /// `check`: read histories of calls, and write a linearization of each.
    Check,
    /// `watch`: read histories of calls, and judge each event when its line comes.
    Watch,
    /// `of`: read a trace of steps, and write its calls as a history.
    Of,
    /// `trace`: read a history of calls, and write a trace with its calls.
    Trace,
}

/// An action, and the file with its input.
#[derive(Clone, Copy, Debug, PartialEq, Eq)]
pub struct Task<'a> {
    /// What is done.
    pub action: Action,
    /// The name of the file; without one the input is standard input.
    pub file: Option<&'a str>,
}
