//! The stages of reading a history line by line.
ghost use Rattle.std.specs.Prelude.{◌≡◌, List, IfOk, OnOk, true};
ghost use Rattle.calls_core.specs.declared.history.Event.{Event};
ghost use Rattle.calls_text.specs.Reading.{step, is_ended};
ghost use Rattle.calls_text.specs.kept.Stages.{stage_with_all, IsSound, Takes, kept_events};
ghost use Rattle.calls_text.specs.kept.Stages.{IsNextIn, Keeps, seen_with, IsFollowing, Follows};
ghost use Rattle.calls_text.specs.kept.Stages.{turns, GoesTo, TurnsTo};

use crate::fault::{FaultKind, LineFault};
use crate::opening::Draft;
use crate::recording::Recording;
use crate::running::Running;
use calls_core::Event;
use std::alloc::{AllocError, Global};
use std::mem;

/// The state of reading a history, after the lines so far.
#[derive(Drop)]
pub(crate) enum Stage {
    /// No line was read.
    Opening,
    /// The first line was read.
    Limiting,
    /// The limit was read. Declarations and `from` lines may follow.
    Declaring(Draft),
    /// The line `run` was read. Events may follow.
    Running(Running),
    /// The line `end` was read.
    Ended(Recording),
}

impl Stage {
    /// Reads a line, given without its LF, and returns the event if it is one.
    ///
    /// The event is not stored. A stage is large, so it is changed in place: only `turn` moves it.
    #[tactic(auto, unfolding(crate::specs::Reading::step))]
    pub(crate) fn follow(&mut self, alloc: Global, line: &[u8]) -> Result<Option<Event>, LineFault>
        ensures follows { (events : List Event) → IsFollowing events self.old
            → Follows result (step (seen_with events self.old) line.now) events self.new }
        ensures kept { OnOk result (kept_events self.new ≡ kept_events self.old) }
    {
        if self.is_turned(line) {
            self.turn(alloc, line)?;
            return Ok(None);
        }
        match self {
            Stage::Running(running) => Ok(Some(running.line(alloc, line)?)),
            Stage::Declaring(draft) => {
                draft.line(line)?;
                Ok(None)
            }
            Stage::Opening | Stage::Limiting | Stage::Ended(_) => Ok(None),
        }
    }

    /// Stores an event, while events may come.
    fn keep(&mut self, event: Event) -> Result<(), AllocError>
        requires { IsNextIn self.old event }
        ensures { OnOk result (Keeps self.old self.new event) }
    {
        match self {
            Stage::Running(running) => running.recording.push(event),
            _ => Ok(()),
        }
    }

    /// Reads a line, given without its LF, and stores the event if it is one.
    #[inline(always)]
    pub(crate) fn take(&mut self, alloc: Global, line: &[u8]) -> Result<(), LineFault>
        requires { IsSound self.old }
        ensures { Takes result (step (stage_with_all self.old) line.now) self.new }
    {
        if let Some(event) = self.follow(alloc, line)? {
            self.keep(event)?;
        }
        Ok(())
    }

    /// Returns whether a line ends the stage.
    fn is_turned(&self, line: &[u8]) -> bool
        ensures { result ≡ turns self.now line.now }
    {
        match self {
            Stage::Running(_) => line == b"end".as_slice(),
            Stage::Declaring(draft) => draft.is_run(line),
            Stage::Opening | Stage::Limiting | Stage::Ended(_) => true,
        }
    }

    /// Replaces the stage by the next one. The value that it moves is large: out of line, it takes
    /// no room in the stack frames of the callers, which rarely come here.
    #[cold]
    #[inline(never)]
    fn turn(&mut self, alloc: Global, line: &[u8]) -> Result<(), LineFault>
        requires { turns self.old line.now ≡ true }
        ensures turns { (events : List Event) → IsFollowing events self.old
            → TurnsTo result (step (seen_with events self.old) line.now) events self.new }
        ensures kept { OnOk result (kept_events self.new ≡ kept_events self.old) }
    {
        let before = mem::replace(self, Stage::Opening);
        *self = before.next_stage(alloc, line)?;
        Ok(())
    }

    /// Returns the next stage, after the line that ends this one.
    #[tactic(auto, unfolding(crate::specs::Reading::step))]
    fn next_stage(self, alloc: Global, line: &[u8]) -> Result<Stage, LineFault>
        requires { turns self line.now ≡ true }
        ensures goes { (events : List Event) → IsFollowing events self
            → GoesTo result (step (seen_with events self) line.now) events }
        ensures kept { IfOk result (λ s. kept_events s ≡ kept_events self) }
    {
        match self {
            Stage::Opening => {
                if line == b"evc-calls 1".as_slice() {
                    Ok(Stage::Limiting)
                } else {
                    Err(LineFault::Of(FaultKind::BadHeader))
                }
            }
            Stage::Limiting => Ok(Stage::Declaring(Draft::open(alloc, line)?)),
            Stage::Declaring(Draft { heading, from }) => {
                let recording = Recording::new(alloc, heading, from)?;
                Ok(Stage::Running(Running::new(alloc, recording)?))
            }
            Stage::Running(running) => Ok(Stage::Ended(running.recording)),
            Stage::Ended(_) => Err(LineFault::Of(FaultKind::BadLine)),
        }
    }

    /// Returns whether the line `end` was read.
    #[tactic(auto, unfolding(crate::specs::Reading::is_ended))]
    pub(crate) fn is_ended(&self) -> bool
        ensures { result ≡ is_ended (stage_with_all self.now) }
    {
        matches!(self, Stage::Ended(_))
    }
}
