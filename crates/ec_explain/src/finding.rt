//! What is found wrong with a text.
ghost use Rattle.std.specs.Prelude.{◌≡◌};
ghost use Rattle.ec_explain.specs.Findings.{finding_of_line, finding_by_bytes, finding_at};
ghost use Rattle.ec_explain.specs.Findings.{finding_with_line};
ghost use Rattle.ec_explain.specs.Findings.{refusal_cause, reason_line, finding_of_refusal};
ghost use Rattle.ec_explain.specs.Findings.{begun_line, finding_of_wrong_reply, find_early_end};
ghost use Rattle.ec_explain.specs.Findings.{find_missing_end, finding_of_text};

use crate::cause::Cause;
use crate::entry::equals_place;
use crate::line::line_cause;
use crate::lines::{line_at, lines_in};
use crate::placing::{cause_at, place_at};
use crate::related_line::{call_line, declaration_line, right_line};
use crate::site::Site;
use crate::words::{is_same, word_at, word_start};
use ec_core::{Refusal, Reply};

/// Where a line shows what is wrong with it.
#[derive(Clone, Copy, Debug, PartialEq, Eq)]
pub struct LinePosition {
    /// The number of the line, counted from 1.
    pub number: u64,
    /// How many bytes of the line come before the place.
    pub place: usize,
}

/// What is wrong with a text, and where a line of it shows that.
#[derive(Clone, Copy, Debug, PartialEq, Eq)]
pub struct Finding {
    pub cause: Cause,
    pub spot: Option<LinePosition>,
    /// The right reply, if only the reply is wrong.
    pub right: Option<Reply>,
    /// The number of another line that shows why.
    pub see: Option<usize>,
}

/// Returns a finding that a line shows.
pub fn finding_at(cause: Cause, number: u64, place: usize) -> Finding
    ensures { result ≡ finding_at cause number place }
{
    Finding {
        spot: Some(LinePosition { number, place }),
        ..finding_of_text(cause)
    }
}

/// Returns the cause that the bytes of a line show by themselves; if they show none, this one, at
/// the word with this index.
pub(crate) fn finding_by_bytes(cause: Cause, number: u64, word: usize, line: &[u8]) -> Finding
    ensures { result ≡ finding_by_bytes cause number word line.now }
{
    match line_cause(line) {
        Some(cause) => finding_at(cause, number, place_at(&Site::Unknown, cause, line)),
        None => finding_at(cause, number, word_start(word, line)),
    }
}

/// Returns such a finding with the number of another line that shows why, unless the bytes of the
/// line show another cause.
pub(crate) fn finding_with_line(
    cause: Cause,
    word: usize,
    other: Option<usize>,
    number: u64,
    line: &[u8],
) -> Finding
    ensures { result ≡ finding_with_line cause word other number line.now }
{
    let finding = finding_by_bytes(cause, number, word, line);
    match line_cause(line) {
        None => Finding {
            see: other,
            ..finding
        },
        Some(_) => finding,
    }
}

/// Returns a finding that no line shows.
pub fn finding_of_text(cause: Cause) -> Finding
    ensures { result ≡ finding_of_text cause }
{
    Finding {
        cause,
        spot: None,
        right: None,
        see: None,
    }
}

/// Returns what is wrong with a rejected line of this number, at this site.
pub fn finding_of_line(site: &Site<'_>, number: u64, line: &[u8]) -> Finding
    ensures { result ≡ finding_of_line site.now number line.now }
{
    let cause = cause_at(site, line);
    finding_at(cause, number, place_at(site, cause, line))
}

/// Returns why an act is refused.
fn refusal_cause(refusal: Refusal) -> Cause
    ensures { result ≡ refusal_cause refusal }
{
    match refusal {
        Refusal::Busy => Cause::Busy,
        Refusal::Idle => Cause::Idle,
        Refusal::NoRight => Cause::NoRight,
        Refusal::AtLimit => Cause::AtLimit,
        Refusal::NotHandable => Cause::NotHandable,
        Refusal::AlreadySignals => Cause::AlreadySignals,
        Refusal::UnknownWorker | Refusal::UnknownObject | Refusal::ValueTooLarge => Cause::Other,
    }
}

/// Returns the number of the line that shows why the act of a line is refused.
fn reason_line(refusal: Refusal, number: u64, text: &[u8]) -> Option<usize>
    ensures { result ≡ reason_line refusal number text.now }
{
    match refusal {
        Refusal::Busy => call_line(number, text),
        Refusal::NoRight => right_line(number, text),
        Refusal::NotHandable | Refusal::AlreadySignals => declaration_line(number, text),
        Refusal::AtLimit => Some(2),
        Refusal::Idle | Refusal::UnknownWorker | Refusal::UnknownObject | Refusal::ValueTooLarge =>
            None,
    }
}

/// Returns what is wrong with the line of a refused act, and which other line shows why.
pub fn finding_of_refusal(number: u64, refusal: Refusal, text: &[u8]) -> Finding
    ensures { result ≡ finding_of_refusal number refusal text.now }
{
    Finding {
        see: reason_line(refusal, number, text),
        ..finding_at(
            refusal_cause(refusal),
            number,
            word_start(1, line_at(number, text)),
        )
    }
}

/// Returns the number of the line by which the call of a line began, if that is another.
fn begun_line(number: u64, text: &[u8]) -> Option<usize>
    ensures { result ≡ begun_line number text.now }
{
    if is_same(word_at(1, line_at(number, text)), b"go".as_slice()) {
        call_line(number, text)
    } else {
        None
    }
}

/// Returns what is wrong with the line of an act that has another reply than this right one.
pub fn finding_of_wrong_reply(number: u64, right: Reply, text: &[u8]) -> Finding
    ensures { result ≡ finding_of_wrong_reply number right text.now }
{
    let line = line_at(number, text);
    Finding {
        right: Some(right),
        see: begun_line(number, text),
        ..finding_at(
            Cause::WrongReply,
            number,
            word_start(equals_place(line) + 1, line),
        )
    }
}

/// Returns what is missing from a text that stops too early: all of it, the LF of its last line, or
/// otherwise `cause`.
pub(crate) fn find_early_end(cause: Cause, text: &[u8]) -> Finding
    ensures { result ≡ find_early_end cause text.now }
{
    if text.is_empty() {
        return finding_of_text(Cause::EmptyText);
    }
    if text.ends_with(b"\n".as_slice()) {
        return finding_of_text(cause);
    }
    let number = lines_in(text) as u64 + 1;
    finding_at(Cause::NoLastLf, number, line_at(number, text).len())
}

/// Returns what is missing from a trace that stops before its end.
pub fn find_missing_end(text: &[u8]) -> Finding
    ensures { result ≡ find_missing_end text.now }
{
    find_early_end(Cause::NoEnd, text)
}
