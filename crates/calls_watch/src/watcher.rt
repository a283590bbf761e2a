//! Judges the histories of a text line by line.
ghost use Rattle.std.specs.Prelude.{◌≡◌, ◌<◌, ◌∷◌, [], List, ℕ, Some, length, true, false};
ghost use Rattle.calls_core.specs.declared.history.Event.{Event};
ghost use Rattle.calls_core.specs.Histories.{pending_calls};
ghost use Rattle.calls_monitor.specs.declared.monitor.Monitor.{Monitor};
ghost use Rattle.calls_text.specs.Outcomes.{lines_of_text};
ghost use Rattle.calls_text.specs.Reading.{Running};
ghost use Rattle.calls_text.specs.Recordings.{RecordingModel};
ghost use Rattle.calls_text.specs.Following.{stage_with_events, HasEvents};
ghost use Rattle.calls_watch.specs.kept.Watching.{IsWatching, StateAfterLine, EndsAs, Stops, JudgedBy};
ghost use Rattle.calls_watch.specs.kept.Watching.{Begins, IsTaken, Decides, DecidesUnjudged};
ghost use Rattle.calls_watch.specs.kept.Watching.{IsBegunAgain, EndsHistory, GoesOnBy, MayEnd, GoesOnAt};
ghost use Rattle.calls_watch.specs.kept.Watching.{NeedsText};

use crate::kept::Kept;
use crate::load::Load;
use crate::spsc::{needs_text, spsc_buffers};
use crate::stop::Stop;
use crate::whole::{DecidedHistory, decide_text, outcome_of};
use calls_core::Event;
use calls_monitor::{Monitor, Rejection};
use calls_text::{Follower, HistoryLine};
use std::alloc::Global;

/// The state of `watch`, after some lines of a text.
///
/// The histories so far are linearizable. Of the next one a prefix was read. It is linearizable,
/// unless it calls an object that is not watched: a cell, a database, or a buffer that has not one
/// producer and one consumer. Then it is decided at its end. The text of a history that declares
/// such an object is kept. Apart from this and the lists that databases store, the state does not
/// grow.
#[derive(Drop)]
pub struct Watcher {
    pub(crate) follower: Follower,
    /// Judges each event, up to the first call of an object that is not watched.
    pub(crate) monitor: Option<Monitor>,
    /// The number of the next line.
    pub(crate) number: u64,
    pub(crate) load: Load,
    /// The number of the first line of the history.
    pub(crate) first: u64,
    pub(crate) kept: Kept,
    /// The last history that was decided at its end.
    pub(crate) decided: Option<DecidedHistory>,
}

/// Returns an error if the text is not kept, and so cannot be decided at the end of the history.
fn need_text(kept: &Kept) -> Result<(), Stop>
    ensures { NeedsText kept.now result }
{
    match kept.text() {
        Ok(_) => Ok(()),
        Err(stop) => Err(stop),
    }
}

/// Judges an event by the monitor. After the first call of an object that is not watched there is
/// none, and the text has to be kept.
fn judge(monitor: &mut Option<Monitor>, kept: &Kept, event: Event) -> Result<(), Stop>
    ensures { JudgedBy monitor.old kept.now event monitor.new result }
{
    let Some(watching) = monitor else {
        return need_text(kept);
    };
    match watching.event(event) {
        Ok(()) => Ok(()),
        Err(Rejection::Refused(refused)) => Err(Stop::Refused(event, refused)),
        Err(Rejection::Unwatched) => {
            *monitor = None;
            need_text(kept)
        }
        // (a history has at most 16 workers, and there is room for 64 pending calls)
        Err(Rejection::Full) => Err(Stop::Memory),
    }
}

impl Watcher {
    /// Returns the state before the first line.
    pub fn new(alloc: Global) -> Watcher
        ensures { (ps : List (List ℕ)) → IsWatching ps ps result }
    {
        Watcher {
            follower: Follower::new(),
            monitor: None,
            number: 1,
            load: Load::none(),
            first: 1,
            kept: Kept::new(alloc),
            decided: None,
        }
    }

    /// Returns the numbers of histories and of calls so far, and how much the calls overlap.
    pub fn load(&self) -> Load
        ensures { result ≡ self.now.load }
    {
        self.load
    }

    /// Opens the monitor of a history.
    fn begin(&mut self, alloc: Global) -> Result<(), Stop>
        ensures { (r : RecordingModel) → stage_with_events [] self.old.follower ≡ Running r
            → Begins r self.old self.new result }
    {
        let Some(recording) = self.follower.recording() else {
            return Err(Stop::Memory);
        };
        let Ok(spsc) = spsc_buffers(alloc, recording.heading()) else {
            return Err(Stop::Memory);
        };
        let needed = needs_text(recording.heading());
        let Ok(monitor) = Monitor::open(alloc, recording.kinds(), &spsc) else {
            return Err(Stop::Memory);
        };
        self.monitor = Some(monitor);
        self.kept.keep_if(needed);
        Ok(())
    }

    /// Judges an event, if there is a monitor, and counts it.
    fn event(&mut self, event: Event) -> Result<(), Stop>
        ensures { IsTaken self.old.monitor event self.old self.new result }
    {
        judge(&mut self.monitor, &self.kept, event)?;
        self.load.add_event(event.action, self.follower.pending())
    }

    /// Decides the history that has ended, whose text is kept.
    fn decide(&mut self, alloc: Global) -> Result<(), Stop>
        ensures decides { Decides self.old self.new result }
        ensures number { self.new.number ≡ self.old.number }
        ensures load { self.new.load ≡ self.old.load }
    {
        let text = match self.kept.text() {
            Ok(text) => text,
            Err(stop) => return Err(stop),
        };
        let decided = match decide_text(alloc, text, self.first) {
            Ok(decided) => decided,
            Err(stop) => return Err(stop),
        };
        let outcome = outcome_of(&decided.verdict);
        self.decided = Some(decided);
        outcome
    }

    /// Decides the history that has ended, unless each of its events was judged.
    fn decide_unjudged(&mut self, alloc: Global) -> Result<(), Stop>
        ensures decides { DecidesUnjudged self.old.monitor self.old self.new result }
        ensures number { self.new.number ≡ self.old.number }
        ensures load { self.new.load ≡ self.old.load }
    {
        if self.monitor.is_some() {
            return Ok(());
        }
        self.decide(alloc)
    }

    /// Counts a history that has ended, and prepares for the next one.
    fn begin_again(&mut self, alloc: Global) -> Result<(), Stop>
        ensures { IsBegunAgain self.old self.new result }
    {
        self.load.add_history()?;
        self.follower = Follower::new();
        self.monitor = None;
        self.first = self.number;
        self.kept = Kept::new(alloc);
        self.decided = None;
        Ok(())
    }

    /// Ends a history.
    fn end_history(&mut self, alloc: Global) -> Result<(), Stop>
        ensures { EndsHistory self.old.monitor self.old self.new result }
    {
        if let Err(stop) = self.decide_unjudged(alloc) {
            return Err(stop);
        }
        self.begin_again(alloc)
    }

    /// Updates the state by the kind of the line.
    fn go_on(&mut self, alloc: Global, followed: HistoryLine) -> Result<(), Stop>
        ensures { GoesOnBy followed self.old self.new result }
    {
        match followed {
            HistoryLine::Heading => Ok(()),
            HistoryLine::Run => self.begin(alloc),
            HistoryLine::Event(event) => self.event(event),
            HistoryLine::End => self.end_history(alloc),
        }
    }

    /// Judges the next line, given without its LF. After an error no further line may be judged.
    pub fn line(&mut self, alloc: Global, line: &[u8]) -> Result<(), Stop>
        ensures { (ps qs : List (List ℕ)) (q : List ℕ)
            → IsWatching ps (line.now ∷ q ∷ qs) self.old
            → StateAfterLine result ps (q ∷ qs) self.new }
    {
        let followed = match self.follower.line(alloc, self.number, line) {
            Ok(followed) => followed,
            Err(fault) => return Err(Stop::Unread(fault)),
        };
        let Some(next) = self.number.checked_add(1) else {
            return Err(Stop::Memory);
        };
        self.number = next;
        let Ok(()) = self.kept.push(line) else {
            return Err(Stop::Memory);
        };
        self.go_on(alloc, followed)
    }

    /// Returns the error of a next line that has more than 8192 bytes.
    pub fn long_line(&self) -> Stop
        ensures { (ps qs : List (List ℕ)) (line : List ℕ)
            → IsWatching ps (line ∷ qs) self.now → 8192 < length line → Stops result ps self.now }
    {
        Stop::Unread(self.follower.long_line(self.number))
    }

    /// Returns whether the text may end here, with these bytes after its last LF.
    fn may_end(&self, rest: &[u8]) -> bool
        ensures over { result ≡ true → MayEnd rest.now self.now }
        ensures going { result ≡ false → GoesOnAt rest.now self.now }
    {
        if !rest.is_empty() {
            return false;
        }
        if self.load.histories == 0 {
            return false;
        }
        self.follower.is_opening()
    }

    /// Ends the text, with these bytes after its last LF.
    pub fn end(&mut self, alloc: Global, rest: &[u8]) -> Result<(), Stop>
        ensures { (ps : List (List ℕ)) → IsWatching ps (rest.now ∷ []) self.old
            → EndsAs result ps self.new }
    {
        if self.may_end(rest) {
            return Ok(());
        }
        Err(Stop::Unread(self.follower.cut_off(alloc, self.number, rest)))
    }
}
