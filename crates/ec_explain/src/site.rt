//! Where a line is in its text.
use ec_heading::{HeadFault, Heading};

/// Where a rejected line is in its text.
#[derive(Drop)]
pub enum Site<'a> {
    /// It is the first line.
    First,
    /// It is the second line.
    Limit,
    /// It is the third line, and has this lowest fault as the line of the workers.
    Workers(HeadFault),
    /// It is after the lines of this header and before `run`, and has this lowest fault there.
    Declaration(&'a Heading, HeadFault),
    /// It is after `run`, under this header.
    Entry(&'a Heading),
    /// It is after `end`.
    Behind,
    /// It is not known where it is.
    Unknown,
}
