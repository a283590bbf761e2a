//! The text of a history, which is kept if the history may have to be decided at its end.
ghost use Rattle.std.specs.Prelude.{◌≡◌, ◌≢◌, ◌<◌, ◌+◌, ◌∷◌, ◌++◌, [], All, List, ℕ, IsTrue, OnOk, IfErr};
ghost use Rattle.std.specs.Prelude.{length, if◌then◌else◌};
ghost use Rattle.calls_report.specs.declared.checking.TheConstants.{TEXT_MAX};
ghost use Rattle.calls_watch.specs.declared.kept.Kept.TheVariants.{Unneeded};
ghost use Rattle.calls_watch.specs.declared.stop.Stop.TheVariants.{Memory};
ghost use Rattle.calls_watch.specs.kept.Texts.{HoldsText, ReturnsText, Overflows};

use crate::stop::Stop;
use calls_report::TEXT_MAX;
use ec_text::cut_line;
use std::alloc::Global;

/// The text of the history so far, if it is kept.
#[derive(Drop)]
pub(crate) enum Kept {
    /// Its lines, each with its LF.
    Text(Vec<u8>),
    /// The history declares no object that is not watched.
    Unneeded,
    /// The text has more than `TEXT_MAX` bytes.
    TooLong,
}

/// Appends a line, and its LF.
fn push_line(text: &mut Vec<u8>, line: &[u8]) -> Result<(), Stop>
    ensures pushed { OnOk result (text.new.items ≡ text.old.items ++ line.now ++ 10 ∷ []) }
    ensures plain { OnOk result (All (λ b. b ≢ 10) line.now) }
    ensures err { IfErr result (λ stop. stop ≡ Memory) }
{
    // (no line of a history has an LF)
    if cut_line(line).is_some() {
        return Err(Stop::Memory);
    }
    let Ok(()) = text.extend_from_slice(line) else {
        return Err(Stop::Memory);
    };
    let Ok(()) = text.push(b'\n') else {
        return Err(Stop::Memory);
    };
    Ok(())
}

impl Kept {
    /// Returns the text before the first line.
    pub(crate) fn new(alloc: Global) -> Kept
        ensures { HoldsText [] result }
    {
        Kept::Text(Vec::new(alloc))
    }

    /// Returns whether the text has more than `TEXT_MAX` bytes with this line.
    fn overflows(&self, line: &[u8]) -> bool
        ensures { IsTrue result → Overflows line.now self.now }
    {
        match self {
            Kept::Text(text) => line.len() >= TEXT_MAX.saturating_sub(text.len()),
            Kept::Unneeded | Kept::TooLong => false,
        }
    }

    /// Appends a line, given without its LF. The text is dropped if it becomes too long.
    pub(crate) fn push(&mut self, line: &[u8]) -> Result<(), Stop>
        ensures holds { OnOk result ((lines : List (List ℕ)) → HoldsText lines self.old
            → HoldsText (lines ++ line.now ∷ []) self.new) }
        ensures err { IfErr result (λ stop. stop ≡ Memory) }
    {
        if self.overflows(line) {
            *self = Kept::TooLong;
            return Ok(());
        }
        match self {
            Kept::Text(text) => push_line(text, line),
            Kept::Unneeded | Kept::TooLong => Ok(()),
        }
    }

    /// Drops the text if it is not needed.
    pub(crate) fn keep_if(&mut self, needed: bool)
        ensures { self.new ≡ (if needed then self.old else Unneeded) }
    {
        if !needed {
            *self = Kept::Unneeded;
        }
    }

    /// Returns the text, or why it is not kept.
    pub(crate) fn text(&self) -> Result<&[u8], Stop>
        ensures { ReturnsText self.now result }
    {
        match self {
            Kept::Text(text) => Ok(text.as_slice()),
            Kept::TooLong => Err(Stop::TooLarge),
            // (only objects that are declared are called)
            Kept::Unneeded => Err(Stop::Memory),
        }
    }
}
