//! Monitors, which check histories of calls line by line: their state, and what each function does
//! with it.
ghost use Rattle.std.specs.Prelude.{◌≡◌};
ghost use Rattle.evc_c.specs.Monitors.{status_at, IsOpen, TakesLine, EndsText, ReportsNote, ReportsLoad, IsClosed};

use crate::calls::Noted;
use crate::room::copy_prefix;
use calls_report::Status;
use calls_text::TextFault;
use calls_watch::{Stop, Watcher, report_stop};
use ec_text::Output;
use std::alloc::Global;

/// How many histories have ended, how many calls were invoked, and for each of these how many
/// others were pending at its invocation, added up.
#[repr(C)]
pub struct EvcLoad {
    pub histories: u64,
    pub calls: u64,
    pub others: u64,
}

/// The stage of a monitor.
#[derive(Clone, Copy, Debug, PartialEq, Eq)]
pub(crate) enum Stage {
    /// The text may continue.
    Open,
    /// The text is not checked further, for this reason.
    Stopped(Stop),
    /// The text has ended.
    Ended,
    /// The monitor was closed.
    Closed,
}

/// The state of a check of histories of calls, whose lines come one by one.
#[derive(Drop)]
pub(crate) struct Monitor {
    alloc: Global,
    watcher: Watcher,
    stage: Stage,
}

/// Returns the status of a function that leaves a monitor at this stage.
fn status_at(stage: Stage) -> Status
    ensures { result ≡ status_at stage }
{
    match stage {
        Stage::Open => Status::Done,
        Stage::Stopped(Stop::Unread(TextFault::At { .. }) | Stop::Refused(_, _)) => Status::Refused,
        Stage::Stopped(Stop::RefusedAtEnd | Stop::TooLarge) => Status::Refused,
        Stage::Stopped(Stop::NotDecided) => Status::NotDecided,
        Stage::Stopped(Stop::Unread(TextFault::Memory) | Stop::Memory) => Status::Memory,
        Stage::Ended | Stage::Closed => Status::Usage,
    }
}

/// Returns a value, whose type may be sent between threads.
fn for_any_thread<T: Send>(value: T) -> T
    ensures { result ≡ value }
{
    value
}

impl Monitor {
    /// Returns a monitor without lines.
    pub(crate) fn new(alloc: Global) -> Monitor
        ensures { IsOpen result }
    {
        for_any_thread(Monitor {
            alloc,
            watcher: Watcher::new(alloc),
            stage: Stage::Open,
        })
    }

    /// Checks the next line, given without its LF. Once the text is not checked further, the status
    /// stays.
    #[tactic(auto, using(crate::proofs::Taken::goes_on, crate::proofs::Taken::is_stopped))]
    pub(crate) fn line(&mut self, line: &[u8]) -> u8
        ensures { TakesLine line.now result self.old self.new }
    {
        let stage = self.stage;
        let Stage::Open = stage else {
            return status_at(stage).code();
        };
        if let Err(stop) = self.watcher.line(self.alloc, line) {
            self.stage = Stage::Stopped(stop);
            return status_at(self.stage).code();
        }
        Status::Done.code()
    }

    /// Ends the text after its last line.
    pub(crate) fn end(&mut self) -> u8
        ensures { EndsText result self.old self.new }
    {
        let Stage::Open = self.stage else {
            return status_at(self.stage).code();
        };
        if let Err(stop) = self.watcher.end(self.alloc, &[]) {
            self.stage = Stage::Stopped(stop);
            return status_at(self.stage).code();
        }
        self.stage = Stage::Ended;
        Status::Done.code()
    }

    /// Copies into a buffer as much of the note on what stopped the monitor as fits, and returns
    /// how many bytes. There is no note if it was not stopped.
    #[tactic(auto, using(crate::proofs::Taken::said))]
    pub(crate) fn note(&mut self, room: &mut [u8]) -> usize
        ensures { ReportsNote self.old self.new result room.old room.new }
    {
        let Stage::Stopped(stop) = self.stage else {
            return 0;
        };
        let mut bytes = Noted::new();
        let mut note_text = Output::new(&mut bytes);
        report_stop(self.alloc, &self.watcher, stop, &mut note_text);
        copy_prefix(room, note_text.into_writer().as_slice())
    }

    /// Stores how many histories and calls there were, and how far the calls overlap.
    pub(crate) fn load(&mut self, load: &mut EvcLoad)
        ensures { ReportsLoad self.old self.new load.new }
    {
        let found = self.watcher.load();
        load.histories = found.histories;
        load.calls = found.calls;
        load.others = found.others;
    }

    /// Closes the monitor, and frees its memory.
    pub(crate) fn close(&mut self)
        ensures { IsClosed self.new }
    {
        *self = Monitor {
            alloc: self.alloc,
            watcher: Watcher::new(self.alloc),
            stage: Stage::Closed,
        };
    }
}
