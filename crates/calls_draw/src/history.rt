//! The history of a text that is drawn.
use crate::lines::EventLines;
use calls_core::Part;
use calls_report::LastHistory;
use calls_verdict::{Refusal, Verdict};
use std::alloc::{AllocError, Global};

/// A history of a text, and its verdict.
#[derive(Drop)]
pub(crate) struct FoundHistory<'a> {
    pub(crate) judged: LastHistory<'a>,
}

impl<'a> FoundHistory<'a> {
    /// Returns the events that are drawn: all of them, or those up to the first faulty one.
    pub(crate) fn events(&self) -> Part<'_> {
        let all = self.judged.read.recording.events();
        match &self.judged.verdict {
            Verdict::Refused(refusal) => Part::prefix(all, refusal.at.saturating_add(1)),
            _ => Part::whole(all),
        }
    }

    /// Returns the refusal, `None` if the history is not rejected.
    pub(crate) fn refusal(&self) -> Option<&Refusal> {
        match &self.judged.verdict {
            Verdict::Refused(refusal) => Some(refusal),
            _ => None,
        }
    }

    /// Returns the number of the line of the event at position 0.
    pub(crate) fn first_line(&self) -> u64 {
        let read = &self.judged.read;
        let events = read.recording.events().len() as u64;
        read.number.saturating_sub(1).saturating_sub(events)
    }

    /// Returns the lines of the events that are drawn.
    pub(crate) fn lines(&self, alloc: Global) -> Result<EventLines<'a>, AllocError> {
        let before = self.first_line().saturating_sub(self.judged.number);
        EventLines::of(alloc, self.judged.text, before, self.events().len())
    }
}
