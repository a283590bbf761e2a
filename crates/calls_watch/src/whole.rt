//! A history that is decided at its end.
ghost use Rattle.std.specs.Prelude.{◌≡◌, IfOk, IfErr};
ghost use Rattle.calls_watch.specs.declared.stop.Stop.TheVariants.{Memory};
ghost use Rattle.calls_watch.specs.kept.Texts.{DecidesText, outcome_of};

use crate::stop::Stop;
use calls_text::{Read, read_history};
use calls_verdict::{Verdict, decide};
use std::alloc::Global;

/// A history, and the verdict on it.
#[derive(Drop)]
pub(crate) struct DecidedHistory {
    pub(crate) read: Read<'static>,
    pub(crate) verdict: Verdict,
}

/// Reads the text of a history, and decides it. `number` is the number of its first line.
pub(crate) fn decide_text(alloc: Global, text: &[u8], number: u64) -> Result<DecidedHistory, Stop>
    ensures ok { IfOk result (DecidesText number text.now) }
    ensures err { IfErr result (λ stop. stop ≡ Memory) }
{
    let Some(_) = number.checked_add(text.len() as u64) else {
        return Err(Stop::Memory);
    };
    // (the text was read before, line by line)
    let Ok(
        Read {
            recording,
            number,
            ..
        },
    ) = read_history(alloc, text, number)
    else {
        return Err(Stop::Memory);
    };
    // (there are no more events than a `usize` can say)
    let _count = recording.events().len();
    let Ok(verdict) = decide(alloc, recording.kinds(), recording.events()) else {
        return Err(Stop::Memory);
    };
    let read = Read {
        recording,
        number,
        rest: b"",
    };
    Ok(DecidedHistory { read, verdict })
}

/// Returns whether a history with this verdict is accepted, or why it is not.
pub(crate) fn outcome_of(verdict: &Verdict) -> Result<(), Stop>
    ensures { result ≡ outcome_of verdict.now }
{
    match verdict {
        Verdict::Linearizable(_) => Ok(()),
        Verdict::Refused(_) => Err(Stop::RefusedAtEnd),
        Verdict::NotDecided(_) => Err(Stop::NotDecided),
    }
}
