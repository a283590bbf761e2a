//! Cuts a text that comes in pieces into lines.
ghost use Rattle.std.specs.Prelude.{◌≡◌, ◌≢◌, ◌∷◌, ◌++◌, [], All, List, ℕ, OnOk};
ghost use Rattle.calls_text.specs.Outcomes.{lines_of_text};
ghost use Rattle.calls_watch.specs.kept.Watching.{IsFed, Feeds, EndsAs, GathersTo};

use crate::stop::Stop;
use crate::watcher::Watcher;
use arrayvec::ArrayVec;
use ec_text::cut_line;
use std::alloc::Global;

/// The state of a text that comes in pieces: the watcher of its lines, and the prefix of the next
/// line that was read.
#[derive(Drop)]
pub(crate) struct Feeder {
    pub(crate) watcher: Watcher,
    pub(crate) part: ArrayVec<u8, 8192>,
}

impl Feeder {
    /// Returns the state before the first byte.
    pub(crate) fn new(alloc: Global) -> Feeder
        ensures { (bytes : List ℕ) → IsFed (lines_of_text bytes) bytes result }
    {
        Feeder {
            watcher: Watcher::new(alloc),
            part: ArrayVec::new(),
        }
    }

    /// Appends bytes to the prefix of the next line, or reports that the line is too long.
    fn gather(&mut self, bytes: &[u8]) -> Result<(), Stop>
        ensures { GathersTo result bytes.now self.old self.new }
    {
        if self.part.try_extend_from_slice(bytes).is_err() {
            return Err(self.watcher.long_line());
        }
        Ok(())
    }

    /// Passes the gathered line to the watcher. Its LF is next in the text.
    fn take_line(&mut self, alloc: Global) -> Result<(), Stop>
        ensures feeds { (ps : List (List ℕ)) (rest : List ℕ) → IsFed ps (10 ∷ rest) self.old
            → Feeds result ps rest self.new }
        ensures none { self.new.part.items ≡ [] }
    {
        let taken = self.watcher.line(alloc, self.part.as_slice());
        self.part.clear();
        taken
    }

    /// Passes a line to the watcher: the gathered prefix, and then these bytes.
    fn end_line(&mut self, alloc: Global, bytes: &[u8]) -> Result<(), Stop>
        ensures feeds { (ps : List (List ℕ)) (rest : List ℕ)
            → IsFed ps (bytes.now ++ 10 ∷ rest) self.old → All (λ b. b ≢ 10) bytes.now
            → Feeds result ps rest self.new }
        ensures none { OnOk result (self.new.part.items ≡ []) }
    {
        match self.gather(bytes) {
            Ok(()) => self.take_line(alloc),
            Err(stop) => Err(stop),
        }
    }

    /// Passes the lines of a piece to the watcher, and gathers the bytes after its last LF.
    fn lines(&mut self, alloc: Global, piece: &[u8]) -> Result<(), Stop>
        requires { self.old.part.items ≡ [] }
        ensures { (ps : List (List ℕ)) (rest : List ℕ) → IsFed ps (piece.now ++ rest) self.old
            → Feeds result ps rest self.new }
    {
        let mut left = piece;
        'lines: while let Some((line, behind)) = cut_line(left) {
            if let Err(stop) = self.watcher.line(alloc, line) {
                return Err(stop);
            }
            left = behind;
        }
        self.gather(left)
    }

    /// Reads the next piece of the text.
    pub(crate) fn feed(&mut self, alloc: Global, piece: &[u8]) -> Result<(), Stop>
        ensures { (ps : List (List ℕ)) (rest : List ℕ) → IsFed ps (piece.now ++ rest) self.old
            → Feeds result ps rest self.new }
    {
        if self.part.is_empty() {
            return self.lines(alloc, piece);
        }
        match cut_line(piece) {
            None => self.gather(piece),
            Some((line, behind)) => match self.end_line(alloc, line) {
                Ok(()) => self.lines(alloc, behind),
                Err(stop) => Err(stop),
            },
        }
    }

    /// Ends the text.
    pub(crate) fn end(&mut self, alloc: Global) -> Result<(), Stop>
        ensures { (ps : List (List ℕ)) → IsFed ps [] self.old → EndsAs result ps self.new.watcher }
    {
        self.watcher.end(alloc, self.part.as_slice())
    }
}
