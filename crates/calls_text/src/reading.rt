//! Reads the first history of a text.
ghost use Rattle.std.specs.Prelude.{◌≡◌, ◌≢◌, ◌<◌, ◌≤◌, ◌+◌, ◌^◌, All, IfOk, true, false, length};
ghost use Rattle.calls_text.specs.Outcomes.{Returns, ReturnsFault, parse_from, parse_end};
ghost use Rattle.calls_text.specs.Outcomes.{lines_of_text, fault_at};
ghost use Rattle.calls_text.specs.Reading.{is_ended};
ghost use Rattle.calls_text.specs.Reading as reading;
ghost use Rattle.calls_text.specs.kept.Stages.{stage_with_all, IsSound};

use crate::fault::{FaultKind, LineFault, TextFault, cause_of};
use crate::recording::Recording;
use crate::stage::Stage;
use ec_text::cut_line;
use std::alloc::Global;

/// A history of a text, and the text after it.
#[derive(Drop)]
pub struct Read<'a> {
    /// The history.
    pub recording: Recording,
    /// The number of the line after its `end`.
    pub number: u64,
    /// The text from that line on.
    pub rest: &'a [u8],
}

/// Returns the error of a text at a line, with the number of the line.
pub(crate) fn fault_at(line: u64, text: &[u8], fault: LineFault) -> TextFault
    ensures { result ≡ fault_at line text.now fault }
{
    match fault {
        LineFault::Memory => TextFault::Memory,
        LineFault::Of(kind) => {
            let cause = cause_of(kind, text);
            TextFault::At { line, kind, cause }
        }
    }
}

/// Returns the error of a text that ends before `end`, with these bytes after its last LF.
fn cut_off(alloc: Global, stage: &mut Stage, line: u64, rest: &[u8]) -> TextFault
    requires sound { IsSound stage.old }
    requires going { is_ended (stage_with_all stage.old) ≡ false }
    ensures { ReturnsFault (parse_end line (stage_with_all stage.old) rest.now) result }
{
    if rest.is_empty() {
        return fault_at(line, rest, LineFault::Of(FaultKind::Unfinished));
    }
    match stage.take(alloc, rest) {
        Err(fault) => fault_at(line, rest, fault),
        Ok(()) => fault_at(line, rest, LineFault::Of(FaultKind::Unfinished)),
    }
}

/// Returns the history if its `end` was read, or otherwise the error of a text that ends here.
fn finish<'a>(
    alloc: Global,
    stage: Stage,
    number: u64,
    rest: &'a [u8],
) -> Result<Read<'a>, TextFault>
    requires sound { IsSound stage }
    requires last { is_ended (stage_with_all stage) ≡ false → All (λ b. b ≢ 10) rest.now }
    ensures tells { Returns (parse_from number (stage_with_all stage) (lines_of_text rest.now))
        result }
    ensures over { IfOk result (λ read. is_ended (stage_with_all stage) ≡ true) }
    ensures number { IfOk result (λ read. read.number ≡ number) }
    ensures rest { IfOk result (λ read. read.rest.now ≡ rest.now) }
{
    match stage {
        Stage::Ended(recording) => Ok(Read {
            recording,
            number,
            rest,
        }),
        mut other => Err(cut_off(alloc, &mut other, number, rest)),
    }
}

/// Reads the first history of a text, up to its first faulty line.
///
/// `number` is the number of the first line. Bytes after the last LF are judged like a line; if
/// that has no fault, the text is `Unfinished`.
pub fn read_history(alloc: Global, text: &[u8], number: u64) -> Result<Read<'_>, TextFault>
    requires { number + length text.now < 2 ^ 64 }
    ensures tells { Returns (parse_from number reading.Opening (lines_of_text text.now)) result }
    ensures shorter { IfOk result (λ read. length read.rest.now < length text.now) }
    ensures numbers { IfOk result
        (λ read. read.number + length read.rest.now ≤ number + length text.now) }
{
    let mut stage = Stage::Opening;
    let mut at = number;
    let mut rest = text;
    while !stage.is_ended() {
        let Some((line, behind)) = cut_line(rest) else {
            return finish(alloc, stage, at, rest);
        };
        if let Err(fault) = stage.take(alloc, line) {
            return Err(fault_at(at, line, fault));
        }
        at += 1;
        rest = behind;
    }
    finish(alloc, stage, at, rest)
}
