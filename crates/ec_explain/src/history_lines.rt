//! What is wrong with a line of a history of calls, by its words and by the lines before it.
ghost use Rattle.std.specs.Prelude.{◌≡◌, ◌≤◌, is_none, is_some};
ghost use Rattle.calls_text.specs.Verbs.{object_verb_of, group_verb_of, parse_op_word};
ghost use Rattle.ec_explain.specs.HistoryLines.{opening_line, is_running, workers_line};
ghost use Rattle.ec_explain.specs.HistoryLines.{event_cause, event_place, declared_cause};
ghost use Rattle.ec_explain.specs.HistoryLines.{early_cause, form_finding, has_semaphore};
ghost use Rattle.ec_explain.specs.HistoryLines.{unknown_object_place, object_finding, lacks_both};
ghost use Rattle.ec_explain.specs.HistoryLines.{unknown_in_event, unknown_early, unknown_finding};
ghost use Rattle.ec_explain.specs.HistoryLines.{range_place, range_cause, object_place};
ghost use Rattle.ec_explain.specs.HistoryLines.{right_line_of};

use crate::cause::Cause;
use crate::finding::{Finding, finding_by_bytes, finding_with_line};
use crate::head::{is_sort, limit_cause};
use crate::lines::line_at;
use crate::placing::first_failing;
use crate::related_line::{line_with, object_line};
use crate::words::{WordTest, is_same, names_worker, number_place, word_at};
use ec_heading::count_words;

/// Returns the number of the first line of a line's history.
pub(crate) fn opening_line(number: u64, text: &[u8]) -> usize
    ensures { result ≡ opening_line number text.now }
{
    line_with(b"evc-calls".as_slice(), number, text)
}

/// Returns whether a line comes after the line `run` of its history.
fn is_running(number: u64, text: &[u8]) -> bool
    ensures { result ≡ is_running number text.now }
{
    opening_line(number, text) < line_with(b"run".as_slice(), number, text)
}

/// Returns the line that names the workers of a line's history.
fn workers_line(number: u64, text: &[u8]) -> &[u8]
    ensures { result.now ≡ workers_line number text.now }
{
    line_at(line_with(b"workers".as_slice(), number, text) as u64, text)
}

/// Returns whether a word is an operation on an eventcount, a sequencer or a cell.
fn is_object_verb(word: &[u8]) -> bool
    ensures { result ≡ is_some (object_verb_of word.now) }
{
    is_same(word, b"advance".as_slice())
        || is_same(word, b"read".as_slice())
        || is_same(word, b"await".as_slice())
        || is_same(word, b"ticket".as_slice())
        || is_same(word, b"put".as_slice())
        || is_same(word, b"get".as_slice())
}

/// Returns whether a word is an operation on a group.
fn is_group_verb(word: &[u8]) -> bool
    ensures { result ≡ is_some (group_verb_of word.now) }
{
    is_same(word, b"p".as_slice())
        || is_same(word, b"v".as_slice())
        || is_same(word, b"pboth".as_slice())
        || is_same(word, b"write".as_slice())
        || is_same(word, b"snapshot".as_slice())
        || is_same(word, b"produce".as_slice())
        || is_same(word, b"consume".as_slice())
}

/// Returns whether a word is no operation.
fn is_no_verb(word: &[u8]) -> bool
    ensures { result ≡ is_none (parse_op_word word.now) }
{
    !is_object_verb(word) && !is_group_verb(word)
}

/// Returns what is wrong with a line after `run` that is no event.
fn event_cause(line: &[u8]) -> Cause
    ensures { result ≡ event_cause line.now }
{
    let word = word_at(1, line);
    if is_same(word, b"returns".as_slice()) {
        return Cause::ReplyWords;
    }
    if !is_same(word, b"calls".as_slice()) {
        return Cause::NoCallWord;
    }
    if is_no_verb(word_at(2, line)) {
        return Cause::NoOperation;
    }
    Cause::CallWords
}

/// Returns the index of the word that shows what is wrong with such a line.
fn event_place(line: &[u8]) -> usize
    ensures { result ≡ event_place line.now }
{
    let word = word_at(1, line);
    if is_same(word, b"returns".as_slice()) {
        return 2;
    }
    if !is_same(word, b"calls".as_slice()) {
        return 1;
    }
    if is_no_verb(word_at(2, line)) {
        return 2;
    }
    if count_words(line) <= 3 { 3 } else { 4 }
}

/// Returns what is wrong with a line after that of the workers that is no declaration and no line
/// `from`.
fn declared_cause(number: u64, text: &[u8], line: &[u8]) -> Cause
    ensures { result ≡ declared_cause number text.now line.now }
{
    let first = word_at(0, line);
    if names_worker(workers_line(number, text), first) {
        return Cause::EntryBeforeRun;
    }
    if is_same(first, b"from".as_slice()) {
        return Cause::FromForm;
    }
    if opening_line(number, text) < line_with(b"from".as_slice(), number, text) {
        return Cause::AfterFrom;
    }
    if !is_sort(first) {
        return Cause::NoDeclaration;
    }
    Cause::DeclarationForm
}

/// Returns what is wrong with a line before `run` that has no known form.
fn early_cause(number: u64, text: &[u8], line: &[u8]) -> Cause
    ensures { result ≡ early_cause number text.now line.now }
{
    let after = number.saturating_sub(opening_line(number, text) as u64);
    match after {
        1 => limit_cause(line),
        2 => Cause::NoWorkers,
        _ => declared_cause(number, text, line),
    }
}

/// Returns what is wrong with a line that has no known form.
pub(crate) fn form_finding(number: u64, text: &[u8], line: &[u8]) -> Finding
    ensures { result ≡ form_finding number text.now line.now }
{
    if is_running(number, text) {
        finding_by_bytes(event_cause(line), number, event_place(line), line)
    } else {
        finding_by_bytes(early_cause(number, text, line), number, 0, line)
    }
}

/// Returns whether a line's history has declared a semaphore of this name by then.
fn has_semaphore(word: &[u8], number: u64, text: &[u8]) -> bool
    ensures { result ≡ has_semaphore word.now number text.now }
{
    let declaration = object_line(word, number, text).unwrap_or(0) as u64;
    is_same(
        word_at(0, line_at(declaration, text)),
        b"semaphore".as_slice(),
    )
}

/// Returns the index of the word that names no object, in a call: the second semaphore of a
/// `pboth`, if the first is one.
fn unknown_object_place(number: u64, text: &[u8], line: &[u8]) -> usize
    ensures { result ≡ unknown_object_place number text.now line.now }
{
    let is_pair = is_same(word_at(2, line), b"pboth".as_slice());
    if is_pair && has_semaphore(word_at(3, line), number, text) {
        4
    } else {
        3
    }
}

/// Returns what is wrong with the object that a call names at this index: it is declared, and of
/// another sort, or it is not declared.
fn object_finding(place: usize, number: u64, text: &[u8], line: &[u8]) -> Finding
    ensures { result ≡ object_finding place number text.now line.now }
{
    let declaration = object_line(word_at(place, line), number, text);
    let cause = if declaration.is_some() {
        Cause::OtherSort
    } else {
        Cause::NotDeclared
    };
    finding_with_line(cause, place, declaration, number, line)
}

/// Returns whether a line is a `pboth`, and its history has no line `both`.
fn lacks_both(number: u64, text: &[u8], line: &[u8]) -> bool
    ensures { result ≡ lacks_both number text.now line.now }
{
    is_same(word_at(2, line), b"pboth".as_slice())
        && line_with(b"both".as_slice(), number, text) <= opening_line(number, text)
}

/// Returns what an event names that is not declared.
fn unknown_in_event(number: u64, text: &[u8], line: &[u8]) -> Finding
    ensures { result ≡ unknown_in_event number text.now line.now }
{
    if !names_worker(workers_line(number, text), word_at(0, line)) {
        let workers = line_with(b"workers".as_slice(), number, text);
        return finding_with_line(Cause::UnknownWorker, 0, Some(workers), number, line);
    }
    if lacks_both(number, text, line) {
        return finding_by_bytes(Cause::NoBoth, number, 2, line);
    }
    object_finding(unknown_object_place(number, text, line), number, text, line)
}

/// Returns what a line before `run` names that is not declared: the eventcount of a line `from`, or
/// a worker in a declaration.
fn unknown_early(number: u64, text: &[u8], line: &[u8]) -> Finding
    ensures { result ≡ unknown_early number text.now line.now }
{
    if is_same(word_at(0, line), b"from".as_slice()) {
        return finding_by_bytes(Cause::FromForm, number, 1, line);
    }
    let test = WordTest::ListedBy(workers_line(number, text));
    finding_by_bytes(Cause::UnknownName, number, first_failing(&test, line), line)
}

/// Returns what a line names that is not declared.
pub(crate) fn unknown_finding(number: u64, text: &[u8], line: &[u8]) -> Finding
    ensures { result ≡ unknown_finding number text.now line.now }
{
    if is_running(number, text) {
        unknown_in_event(number, text, line)
    } else {
        unknown_early(number, text, line)
    }
}

/// Returns the index of the word that is a number out of range.
pub(crate) fn range_place(number: u64, text: &[u8], line: &[u8]) -> usize
    ensures { result ≡ range_place number text.now line.now }
{
    if is_running(number, text) {
        4
    } else {
        number_place(line)
    }
}

/// Returns what is wrong with a line that has a number out of range.
pub(crate) fn range_cause(number: u64, text: &[u8], line: &[u8]) -> Cause
    ensures { result ≡ range_cause number text.now line.now }
{
    if is_running(number, text) {
        return Cause::OutOfRange;
    }
    if number.saturating_sub(opening_line(number, text) as u64) == 1 {
        return limit_cause(line);
    }
    if is_same(word_at(0, line), b"from".as_slice()) {
        return Cause::FromRange;
    }
    Cause::BadNumber
}

/// Returns the index of the word that names the object, in a call or in a line `from`.
pub(crate) fn object_place(number: u64, text: &[u8]) -> usize
    ensures { result ≡ object_place number text.now }
{
    if is_running(number, text) { 3 } else { 1 }
}

/// Returns the number of the line that declares the object of a call, and who may call it, unless
/// the call is a `pboth`, which needs three rights.
pub(crate) fn right_line_of(number: u64, text: &[u8], line: &[u8]) -> Option<usize>
    ensures { result ≡ right_line_of number text.now line.now }
{
    if is_same(word_at(2, line), b"pboth".as_slice()) {
        return None;
    }
    object_line(word_at(3, line), number, text)
}
