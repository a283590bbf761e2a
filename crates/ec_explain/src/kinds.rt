//! What is wrong with a script and with histories of calls, by the kind of their first fault.
ghost use Rattle.std.specs.Prelude.{◌≡◌, ◌≤◌};
ghost use Rattle.calls_text.specs.declared.fault.FaultKind.TheVariants as faults;
ghost use Rattle.ec_explain.specs.Kinds.{bad_name_at, calls_finding, calls_line_finding};
ghost use Rattle.ec_explain.specs.Kinds.{roles_at, script_finding};

use crate::cause::Cause;
use crate::finding::{Finding, find_early_end, finding_by_bytes, finding_with_line};
use crate::head::{first_cause, name_cause, new_name_place};
use crate::history_lines::{
    form_finding, object_place, range_cause, range_place, right_line_of, unknown_finding,
};
use crate::lines::line_at;
use crate::related_line::{call_line, line_with, object_line};
use crate::words::{is_same, number_place, word_at};
use calls_text::FaultKind;
use ec_script::Kind;

/// Returns what is wrong with a line of a header that has a word where a name should be.
fn bad_name_at(number: u64, line: &[u8]) -> Finding
    ensures { result ≡ bad_name_at number line.now }
{
    let place = new_name_place(line);
    finding_by_bytes(name_cause(word_at(place, line)), number, place, line)
}

/// Returns what is wrong with a line that names a semaphore twice, or a worker in both lists.
///
/// In the first case the word at the index `verb` is `pboth`.
fn roles_at(verb: usize, number: u64, line: &[u8]) -> Finding
    requires { verb ≤ 2 }
    ensures { result ≡ roles_at verb number line.now }
{
    if is_same(word_at(verb, line), b"pboth".as_slice()) {
        return finding_by_bytes(Cause::TwoUses, number, verb + 2, line);
    }
    finding_by_bytes(Cause::TwoRoles, number, 0, line)
}

/// Returns what is wrong with a script.
///
/// Its first faulty line has this number, and this is the lowest kind of its errors.
pub fn script_finding(kind: Kind, number: u64, text: &[u8]) -> Finding
    ensures { result ≡ script_finding kind number text.now }
{
    let line = line_at(number, text);
    match kind {
        Kind::BadHeader => finding_by_bytes(first_cause(line), number, 0, line),
        Kind::BadLine => finding_by_bytes(Cause::ScriptForm, number, 0, line),
        Kind::BadName => bad_name_at(number, line),
        Kind::NameTaken => finding_by_bytes(Cause::NameTaken, number, 1, line),
        Kind::UnknownName => finding_by_bytes(Cause::UnknownWord, number, 1, line),
        Kind::BadNumber => finding_by_bytes(Cause::OutOfRange, number, number_place(line), line),
        Kind::TooMany => finding_by_bytes(Cause::Full, number, 0, line),
        Kind::Hidden => finding_by_bytes(Cause::Hidden, number, 1, line),
        Kind::TwoRoles => roles_at(0, number, line),
        Kind::NoRight => finding_by_bytes(Cause::NoRole, number, 0, line),
        Kind::BadNesting => finding_by_bytes(Cause::BadNesting, number, 0, line),
        Kind::Unfinished => find_early_end(Cause::StopsEarly, text),
    }
}

/// Returns what is wrong with a line of a history that names an object of a group.
fn hidden_finding(number: u64, text: &[u8], line: &[u8]) -> Finding
    ensures { result ≡ calls_line_finding faults.Hidden number text.now line.now }
{
    let place = object_place(number, text);
    let declaration = object_line(word_at(place, line), number, text);
    finding_with_line(Cause::Hidden, place, declaration, number, line)
}

/// Returns what is wrong with a line of a history that passes the limit, and which line gives that.
fn limit_finding(number: u64, text: &[u8], line: &[u8]) -> Finding
    ensures { result ≡ calls_line_finding faults.AtLimit number text.now line.now }
{
    let limit = line_with(b"limit".as_slice(), number, text);
    finding_with_line(Cause::CallLimit, 2, Some(limit), number, line)
}

/// Returns what is wrong with a line of a history, which has this number and this lowest kind of
/// error.
fn calls_line_finding(kind: FaultKind, number: u64, text: &[u8], line: &[u8]) -> Finding
    ensures { result ≡ calls_line_finding kind number text.now line.now }
{
    match kind {
        FaultKind::BadHeader => finding_by_bytes(first_cause(line), number, 0, line),
        FaultKind::BadLine => form_finding(number, text, line),
        FaultKind::BadName => bad_name_at(number, line),
        FaultKind::NameTaken => finding_by_bytes(Cause::NameTaken, number, 1, line),
        FaultKind::UnknownName => unknown_finding(number, text, line),
        FaultKind::BadNumber => {
            let cause = range_cause(number, text, line);
            finding_by_bytes(cause, number, range_place(number, text, line), line)
        }
        FaultKind::TooMany => finding_by_bytes(Cause::Full, number, 0, line),
        FaultKind::Hidden => hidden_finding(number, text, line),
        FaultKind::TwoRoles => roles_at(2, number, line),
        FaultKind::NoRight => {
            let declaration = right_line_of(number, text, line);
            finding_with_line(Cause::NoRole, 0, declaration, number, line)
        }
        FaultKind::BadOrder => finding_by_bytes(Cause::BadOrder, number, 1, line),
        FaultKind::Unfinished => find_early_end(Cause::StopsEarly, text),
        FaultKind::Busy => {
            let call = call_line(number, text);
            finding_with_line(Cause::CallPending, 0, call, number, line)
        }
        FaultKind::Idle => finding_by_bytes(Cause::NoPendingCall, number, 0, line),
        FaultKind::Unsuited => {
            let call = call_line(number, text);
            finding_with_line(Cause::Unsuited, 2, call, number, line)
        }
        FaultKind::AtLimit => limit_finding(number, text, line),
    }
}

/// Returns what is wrong with histories of calls.
///
/// The first faulty line has this number, and this is the lowest kind of its errors.
pub fn calls_finding(kind: FaultKind, number: u64, text: &[u8]) -> Finding
    ensures { result ≡ calls_finding kind number text.now }
{
    calls_line_finding(kind, number, text, line_at(number, text))
}
