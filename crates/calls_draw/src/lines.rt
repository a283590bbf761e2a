//! The lines of the events of a history, as its text has them.
use ec_text::{cut_line, cut_word};
use std::alloc::{AllocError, Global};

/// The lines of events, by their positions.
#[derive(Drop)]
pub(crate) struct EventLines<'a> {
    lines: Vec<&'a [u8]>,
}

/// Returns a text without its first `count` lines.
fn without_lines(text: &[u8], count: u64) -> &[u8] {
    let mut rest = text;
    for _line in 0..count {
        match cut_line(rest) {
            Some((_, behind)) => rest = behind,
            None => return rest,
        }
    }
    rest
}

/// Returns a line without its first word.
fn without_word(line: &[u8]) -> &[u8] {
    cut_word(line).1.unwrap_or(&[])
}

impl<'a> EventLines<'a> {
    /// Returns `count` lines of a text, without the first `before` ones.
    pub(crate) fn of(
        alloc: Global,
        text: &'a [u8],
        before: u64,
        count: usize,
    ) -> Result<EventLines<'a>, AllocError> {
        let mut lines = Vec::new(alloc);
        let mut rest = without_lines(text, before);
        for _line in 0..count {
            if let Some((line, behind)) = cut_line(rest) {
                lines.push(line)?;
                rest = behind;
            }
        }
        Ok(EventLines { lines })
    }

    /// Returns the operation that is invoked at a position with its arguments, as `await E 2`; or
    /// what is returned there.
    pub(crate) fn event_text(&self, position: usize) -> &'a [u8] {
        match self.lines.get(position) {
            Some(line) => without_word(without_word(line)),
            None => &[],
        }
    }
}

/// Returns the verb of a call, its object, and its other arguments.
pub(crate) fn parts_of(act: &[u8]) -> (&[u8], &[u8], &[u8]) {
    let (verb, rest) = cut_word(act);
    let (object, rest) = cut_word(rest.unwrap_or(&[]));
    (verb, object, rest.unwrap_or(&[]))
}
