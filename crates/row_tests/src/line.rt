//! The lines of a test: their words, and where their answers are written.
use crate::fault::Fault;
use crate::output::TestOutput;
use std::fmt::Display;
use std::str::SplitWhitespace;

/// The remaining words of a line.
pub type Words<'a> = SplitWhitespace<'a>;

/// Takes the next word, or the empty one if there is none.
pub fn word<'a>(words: &mut Words<'a>) -> &'a str {
    words.next().unwrap_or("")
}

/// Reads the next word as a number.
pub fn number(words: &mut Words<'_>) -> Result<u64, Fault> {
    word(words).parse().ok().ok_or(Fault::Line)
}

/// A line: what it is about, its first word, the remaining words, and where its answer is written.
#[derive(Drop)]
pub struct Line<'a, C> {
    pub about: C,
    pub verb: &'a str,
    pub words: Words<'a>,
    pub out: &'a mut TestOutput,
}

impl<'a, C: Drop> Line<'a, C> {
    /// Splits a line into its first word and the others.
    pub fn new(about: C, line: &'a str, out: &'a mut TestOutput) -> Self {
        let mut words = line.split_whitespace();
        let verb = word(&mut words);
        Line {
            about,
            verb,
            words,
            out,
        }
    }

    /// Takes the next word, or the empty one.
    pub fn word(&mut self) -> &'a str {
        word(&mut self.words)
    }

    /// Reads a number.
    pub fn number(&mut self) -> Result<u64, Fault> {
        number(&mut self.words)
    }

    /// Reads a size.
    pub fn size(&mut self) -> Result<usize, Fault> {
        self.word().parse().ok().ok_or(Fault::Line)
    }
}

/// Writes a line.
pub fn tell<T: Display + Drop>(text: T, out: &mut TestOutput) -> Result<(), Fault> {
    writeln!(out, "{text}")
}

/// Writes a line with what was found, or `-`.
pub fn tell_if<T: Display + Drop>(found: Option<T>, out: &mut TestOutput) -> Result<(), Fault> {
    match found {
        Some(found) => tell(found, out),
        None => tell("-", out),
    }
}
