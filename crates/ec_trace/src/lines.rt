//! The lines of a text that is read in pieces.
ghost use Rattle.std.specs.Prelude.{◌≡◌, ◌≤◌, ◌<◌, ◌+◌, [], ℕ, List, Option, IsTrue, IfOk, OnOk, IfErr, MatchResult, Ok, Err, true, false, length};
ghost use Rattle.ec_trace.specs.TraceModel.{TraceModel};
ghost use Rattle.ec_trace.specs.Stages.{Stage, Ended};
ghost use Rattle.ec_trace.specs.Step.{is_ended};
ghost use Rattle.ec_trace.specs.Outcome.{parse_result, Returns};
ghost use Rattle.ec_trace.specs.Reading.{IsWithin, Refills, Stays, Begins, Reaches, HasLine, ReadsPart};

use crate::fault::TraceFault;
use crate::read::TRACE_MAX;
use arrayvec::ArrayVec;
use ec_text::{cut_line, read_piece};
use std::io;
use std::io::Read;
use std::marker::Model;

/// The lines of a text, one after another: the latest piece, and the current line.
///
/// The text is read in pieces of at most 8192 bytes. A line that is whole in a piece is not copied.
#[derive(Drop)]
pub struct Lines {
    /// The piece: up to `from` its bytes are consumed, up to `end` they are within the bound of a
    /// text, and up to `read` they were read.
    piece: ArrayVec<u8, 8192>,
    from: usize,
    end: usize,
    read: usize,
    /// How many bytes of the text are before the piece.
    before: usize,
    number: u64,
    /// Where in the piece the current line begins and ends, unless it is in `apart`.
    first: usize,
    last: usize,
    is_apart: bool,
    apart: ArrayVec<u8, 8192>,
}

impl Model for Lines {
    ghost use Rattle.std.specs.Prelude.{◌+◌, if◌then◌else◌};
    ghost use Rattle.std.specs.List.{slice_range};
    ghost use Rattle.ec_trace.specs.Reading.{LinesModel, IsSound};

    ghost Value = { LinesModel };

    ghost view = { λ l. record { number = l.number; taken = l.before + l.from; line = if l.is_apart then l.apart.items else slice_range l.piece.items l.first l.last; part = l.apart.items; behind = slice_range l.piece.items l.from l.end; over = slice_range l.piece.items l.end l.read } };

    ghost invariant = { λ l. IsSound l.piece.items l.from l.end l.read l.before l.number l.first l.last l.apart.items };
}

impl Lines {
    /// Returns the lines of a text, before the first one.
    pub(crate) fn new() -> Lines
        ensures { result ≡ record { number = 0; taken = 0; line = []; part = []; behind = []; over = [] } }
    {
        Lines {
            piece: ArrayVec::from([0u8; 8192]),
            from: 0,
            end: 0,
            read: 0,
            before: 0,
            number: 0,
            first: 0,
            last: 0,
            is_apart: false,
            apart: ArrayVec::new(),
        }
    }

    /// Returns the current line, without its LF.
    #[inline(always)]
    pub(crate) fn line(&self) -> &[u8]
        ensures { result.now ≡ self.now.line }
    {
        if self.is_apart {
            self.apart.as_slice()
        } else {
            let piece = self.piece.as_slice();
            &piece[self.first..self.last]
        }
    }

    /// Returns its number, counted from 1.
    #[inline(always)]
    pub(crate) fn number(&self) -> u64
        ensures { result ≡ self.now.number }
    {
        self.number
    }

    /// Returns whether the next line is whole in the piece. If so, it becomes the current line.
    #[inline(always)]
    fn find(&mut self) -> bool
        ensures none { result ≡ false → self.new ≡ self.old }
        ensures more { IsTrue result → (self.old.taken < self.new.taken) × (self.new.taken ≤ TRACE_MAX) }
        ensures found { IsTrue result → (xs : List ℕ) (left : Option (List ℕ)) (s : Stage) → Reaches xs left self.old s → HasLine xs left self.new self.new.line s }
    {
        let piece = self.piece.as_slice();
        match cut_line(&piece[self.from..self.end]) {
            None => false,
            Some((line, _)) => {
                let last = self.from + line.len();
                self.first = self.from;
                self.last = last;
                self.is_apart = false;
                self.from = last + 1;
                self.number += 1;
                true
            }
        }
    }

    /// Copies what the piece has of the next line. Returns whether that is the rest of the line.
    fn hold(&mut self) -> Result<bool, TraceFault>
        ensures more { IfOk result (λ whole. whole ≡ true → (self.old.taken < self.new.taken) × (self.new.taken ≤ TRACE_MAX)) }
        ensures all { IfOk result (λ whole. whole ≡ false → (self.new.taken ≡ self.old.taken + length self.old.behind) × (self.new.taken ≤ TRACE_MAX) × (self.old.over ≡ []) × (self.new.behind ≡ []) × (self.new.over ≡ [])) }
        ensures holds { (xs : List ℕ) (left : Option (List ℕ)) (s : Stage) → is_ended s ≡ false → Begins xs left self.old self.old.part s → ReadsPart xs left self.new s result }
    {
        let piece = self.piece.as_slice();
        let bytes = &piece[self.from..self.end];
        match cut_line(bytes) {
            Some((line, _)) => {
                if self.apart.try_extend_from_slice(line).is_err() {
                    return Err(TraceFault::BadLine(self.number + 1));
                }
                let last = self.from + line.len();
                self.from = last + 1;
                self.number += 1;
                Ok(true)
            }
            None => {
                if self.apart.try_extend_from_slice(bytes).is_err() {
                    return Err(TraceFault::BadLine(self.number + 1));
                }
                self.from = self.end;
                if self.end < self.read {
                    return Err(TraceFault::TooLarge);
                }
                Ok(false)
            }
        }
    }

    /// Reads the next piece, once all of the last one is consumed. Returns whether there is one.
    fn refill<R: Read>(&mut self, reader: &mut R) -> io::Result<bool>
        requires taken { self.old.behind ≡ [] }
        requires within { self.old.over ≡ [] }
        ensures { MatchResult result
            (Refills self.old self.new (R.remaining reader.old) (R.remaining reader.new))
            (λ _. Stays self.old self.new (R.remaining reader.old) (R.remaining reader.new)) }
    {
        let room = TRACE_MAX - self.before - self.end;
        let n = read_piece(reader, &mut self.piece)?;
        self.before += self.end;
        self.from = 0;
        self.end = n.min(room);
        self.read = n;
        Ok(n > 0)
    }

    /// Reads the next piece for a line in progress.
    fn go_on<R: Read>(&mut self, reader: &mut R) -> Result<(), TraceFault>
        requires taken { self.old.behind ≡ [] }
        requires within { self.old.over ≡ [] }
        ensures more { OnOk result ((self.new.taken ≡ self.old.taken) × (0 < length self.new.behind + length self.new.over)) }
        ensures goes { (xs : List ℕ) (s : Stage) → is_ended s ≡ false → Begins xs (R.remaining reader.old) self.old self.old.part s → MatchResult result (λ _. Begins xs (R.remaining reader.new) self.new self.new.part s) (λ fault. Returns TRACE_MAX xs (R.remaining reader.new) (Err fault)) }
    {
        match self.refill(reader) {
            Ok(true) => Ok(()),
            Ok(false) => Err(TraceFault::Unfinished),
            Err(_) => Err(TraceFault::Read),
        }
    }

    /// Reads the next line, which is not whole in the piece.
    #[cold]
    #[inline(never)]
    fn next_over_pieces<R: Read>(&mut self, reader: &mut R) -> Result<(), TraceFault>
        ensures more { OnOk result ((self.old.taken < self.new.taken) × (self.new.taken ≤ TRACE_MAX)) }
        ensures comes { (xs : List ℕ) (s : Stage) → is_ended s ≡ false → Reaches xs (R.remaining reader.old) self.old s → MatchResult result (λ _. HasLine xs (R.remaining reader.new) self.new self.new.line s) (λ fault. Returns TRACE_MAX xs (R.remaining reader.new) (Err fault)) }
    {
        self.clear_part();
        loop {
            match self.hold() {
                Ok(true) => break,
                Ok(false) => {}
                Err(fault) => return Err(fault),
            }
            if let Err(fault) = self.go_on(reader) {
                return Err(fault);
            }
        }
        self.set_apart();
        Ok(())
    }

    fn clear_part(&mut self)
        ensures { self.new ≡ record self.new { number = self.old.number; taken = self.old.taken; part = []; behind = self.old.behind; over = self.old.over } }
    {
        self.apart.clear();
    }

    fn set_apart(&mut self)
        ensures { self.new ≡ record self.old { line = self.old.part } }
    {
        self.is_apart = true;
    }

    /// Reads the next line, up to its LF.
    #[inline(always)]
    pub(crate) fn next<R: Read>(&mut self, reader: &mut R) -> Result<(), TraceFault>
        ensures more { OnOk result ((self.old.taken < self.new.taken) × (self.new.taken ≤ TRACE_MAX)) }
        ensures comes { (xs : List ℕ) (s : Stage) → is_ended s ≡ false → Reaches xs (R.remaining reader.old) self.old s → MatchResult result (λ _. HasLine xs (R.remaining reader.new) self.new self.new.line s) (λ fault. Returns TRACE_MAX xs (R.remaining reader.new) (Err fault)) }
    {
        if self.find() {
            return Ok(());
        }
        self.next_over_pieces(reader)
    }

    /// Returns whether all bytes that were read are consumed.
    fn is_taken(&self) -> bool
        ensures all { IsTrue result → (self.now.behind ≡ []) × (self.now.over ≡ []) × IsWithin self.now }
        ensures more { result ≡ false → 0 < length self.now.behind + length self.now.over }
    {
        self.from == self.read
    }

    /// Reports an error unless the text ends after the current line.
    #[cold]
    #[inline(never)]
    pub(crate) fn end<R: Read>(&mut self, reader: &mut R) -> Result<(), TraceFault>
        ensures { (xs : List ℕ) (t : TraceModel) → Reaches xs (R.remaining reader.old) self.old (Ended t)
            → MatchResult result (λ _. parse_result TRACE_MAX xs ≡ Ok t) (λ fault. Returns TRACE_MAX xs (R.remaining reader.new) (Err fault)) }
    {
        if !self.is_taken() {
            return Err(self.behind_the_end());
        }
        match self.refill(reader) {
            Ok(true) => Err(self.behind_the_end()),
            Ok(false) => Ok(()),
            Err(_) => Err(TraceFault::Read),
        }
    }

    /// Returns the fault of bytes after the last line: too many for a text, or a bad line.
    fn behind_the_end(&self) -> TraceFault
        requires { 0 < length self.now.behind + length self.now.over }
        ensures { (xs : List ℕ) (left : Option (List ℕ)) (t : TraceModel) → Reaches xs left self.now (Ended t) → Returns TRACE_MAX xs left (Err result) }
    {
        if self.from < self.end {
            TraceFault::BadLine(self.number + 1)
        } else {
            TraceFault::TooLarge
        }
    }
}
