//! Reads a history of calls line by line, and returns its events without storing them.
ghost use Rattle.std.specs.Prelude.{◌≡◌, ◌↔◌, [], List, IsTrue, length, reverse, false};
ghost use Rattle.calls_core.specs.declared.history.Event.{Event};
ghost use Rattle.calls_core.specs.Histories.{pending_calls};
ghost use Rattle.calls_text.specs.Outcomes.{ReturnsFault, parse_end};
ghost use Rattle.calls_text.specs.Recordings.{RecordingModel};
ghost use Rattle.calls_text.specs.Reading.{is_ended};
ghost use Rattle.calls_text.specs.Reading as reading;
ghost use Rattle.calls_text.specs.Following.{stage_with_events, HasEvents, Passes, followed_in, Records, IsLong, long_kind};

use crate::fault::{Cause, FaultKind, LineFault, TextFault};
use crate::reading::fault_at;
use crate::recording::Recording;
use crate::stage::Stage;
use calls_core::Event;
use std::alloc::Global;

/// The kind of a line of a history.
#[derive(Clone, Copy, Debug, PartialEq, Eq)]
pub enum HistoryLine {
    /// A line before `run`.
    Heading,
    /// The line `run`: events may follow.
    Run,
    /// An event.
    Event(Event),
    /// The line `end`.
    End,
}

/// A reader of one history, line by line. It returns each event and does not store it.
#[derive(Drop)]
pub struct Follower {
    pub(crate) stage: Stage,
}

/// Returns the kind of the line that led to this stage, if it was no event.
fn what_led_to(stage: &Stage) -> HistoryLine
    ensures { result ≡ followed_in stage.now }
{
    match stage {
        Stage::Running(_) => HistoryLine::Run,
        Stage::Ended(_) => HistoryLine::End,
        Stage::Opening | Stage::Limiting | Stage::Declaring(_) => HistoryLine::Heading,
    }
}

/// Returns the lowest kind of fault of a line of more than 8192 bytes.
fn long_kind(stage: &Stage) -> FaultKind
    ensures { result ≡ long_kind stage.now }
{
    match stage {
        Stage::Opening => FaultKind::BadHeader,
        _ => FaultKind::BadLine,
    }
}

impl Follower {
    /// Returns a follower before the first line.
    pub fn new() -> Follower
        ensures opening { stage_with_events [] result ≡ reading.Opening }
        ensures seen { HasEvents [] result }
    {
        Follower {
            stage: Stage::Opening,
        }
    }

    /// Reads the next line, given without its LF, and returns what it is.
    ///
    /// `number` is the number of the line. After an error no further line may be read.
    pub fn line(
        &mut self,
        alloc: Global,
        number: u64,
        line: &[u8],
    ) -> Result<HistoryLine, TextFault>
        ensures { (events : List Event) → HasEvents events self.old
            → Passes result number line.now events self.old self.new }
    {
        match self.stage.follow(alloc, line) {
            Ok(Some(event)) => Ok(HistoryLine::Event(event)),
            Ok(None) => Ok(what_led_to(&self.stage)),
            Err(fault) => Err(fault_at(number, line, fault)),
        }
    }

    /// Returns the error of a next line that has more than 8192 bytes.
    pub fn long_line(&self, number: u64) -> TextFault
        ensures { (events : List Event) → IsLong result number events self.now }
    {
        TextFault::At {
            line: number,
            kind: long_kind(&self.stage),
            cause: Cause::Long,
        }
    }

    /// Returns the error of a text that ends here, with these bytes after its last LF.
    pub fn cut_off(&mut self, alloc: Global, number: u64, rest: &[u8]) -> TextFault
        ensures { (events : List Event) → HasEvents events self.old
            → is_ended (stage_with_events events self.old) ≡ false
            → ReturnsFault (parse_end number (stage_with_events events self.old) rest.now) result }
    {
        if rest.is_empty() {
            return fault_at(number, rest, LineFault::Of(FaultKind::Unfinished));
        }
        match self.stage.follow(alloc, rest) {
            Err(fault) => fault_at(number, rest, fault),
            Ok(_) => fault_at(number, rest, LineFault::Of(FaultKind::Unfinished)),
        }
    }

    /// Returns whether no line was read yet.
    pub fn is_opening(&self) -> bool
        ensures { (events : List Event) → IsTrue result ↔ (stage_with_events events self.now ≡ reading.Opening) }
    {
        matches!(self.stage, Stage::Opening)
    }

    /// Returns what is declared, after `run` and before `end`. No event is stored in it.
    pub fn recording(&self) -> Option<&Recording>
        ensures { (events : List Event) → Records result events self.now }
    {
        match &self.stage {
            Stage::Running(running) => Some(&running.recording),
            _ => None,
        }
    }

    /// Returns how many calls are pending, after `run` and before `end`, and otherwise 0.
    pub fn pending(&self) -> usize
        ensures { (events : List Event) (r : RecordingModel) → HasEvents events self.now
            → stage_with_events events self.now ≡ reading.Running r
            → result ≡ length (pending_calls (reverse events)) }
    {
        match &self.stage {
            Stage::Running(running) => running.pending_len(),
            _ => 0,
        }
    }
}
