//! Which other line of a text shows why a line is rejected.
ghost use Rattle.std.specs.Prelude.{◌≡◌, None, Some, if◌then◌else◌};
ghost use Rattle.ec_explain.specs.RelatedLine.{base_of, call_line, declaration_line, fits};
ghost use Rattle.ec_explain.specs.RelatedLine.{hand_line, last_in, lines_of, right_line};
ghost use Rattle.ec_explain.specs.RelatedLine.{line_with, only_after, object_line};

use crate::head::is_sort;
use crate::history_lines::opening_line;
use crate::lines::{line_at, position_or_end, text_before_line};
use crate::words::{is_same, word_at};
use ec_text::cut_line;

/// What is looked for.
#[derive(Drop)]
enum Target<'a> {
    /// A line by which this worker begins a call.
    Call(&'a [u8]),
    /// The line that declares what is called so.
    Declaration(&'a [u8]),
    /// A line by which this worker transfers its component of the eventcount called so.
    Hand(&'a [u8], &'a [u8]),
    /// A line that begins with this word.
    First(&'a [u8]),
    /// The line of a header that declares an object that is called so.
    Object(&'a [u8]),
}

/// Returns whether a line is one that is looked for.
fn fits(sought: &Target<'_>, line: &[u8]) -> bool
    ensures { result ≡ fits sought.now line.now }
{
    match sought {
        Target::Call(worker) => {
            is_same(word_at(0, line), worker) && !is_same(word_at(1, line), b"go".as_slice())
        }
        Target::Declaration(name) => {
            is_same(word_at(1, line), name) || is_same(word_at(0, line), name)
        }
        Target::Hand(worker, name) => {
            is_same(word_at(0, line), worker)
                && (is_same(word_at(1, line), b"hand".as_slice())
                    && is_same(word_at(2, line), name))
        }
        Target::First(word) => is_same(word_at(0, line), word),
        Target::Object(name) => is_same(word_at(1, line), name) && is_sort(word_at(0, line)),
    }
}

/// Returns the number of a line if it is looked for, otherwise that of an earlier one.
fn found_or(sought: &Target<'_>, line: &[u8], number: usize, found: Option<usize>) -> Option<usize>
    ensures { result ≡ (if fits sought.now line.now then Some number else found) }
{
    if fits(sought, line) {
        Some(number)
    } else {
        found
    }
}

/// Returns the number of the last line that is looked for.
fn last_in(sought: &Target<'_>, text: &[u8]) -> Option<usize>
    ensures { result ≡ last_in (fits sought.now) 0 None (lines_of text.now) }
{
    let mut found: Option<usize> = None;
    let mut number = 0usize;
    let mut rest = text;
    while let Some((line, behind)) = cut_line(rest) {
        number += 1;
        found = found_or(sought, line, number, found);
        rest = behind;
    }
    found
}

/// Returns the number of the line by which the worker of a line began its last call before it.
pub(crate) fn call_line(number: u64, text: &[u8]) -> Option<usize>
    ensures { result ≡ call_line number text.now }
{
    let worker = word_at(0, line_at(number, text));
    last_in(&Target::Call(worker), text_before_line(number, text))
}

/// Returns the name of an object's declaration, with which the object's word begins.
fn base_of(word: &[u8]) -> &[u8]
    ensures { result.now ≡ base_of word.now }
{
    &word[..position_or_end(b'.', word).min(position_or_end(b'[', word))]
}

/// Returns the number of the line that declares the object of the act of a line.
pub(crate) fn declaration_line(number: u64, text: &[u8]) -> Option<usize>
    ensures { result ≡ declaration_line number text.now }
{
    let name = base_of(word_at(2, line_at(number, text)));
    last_in(&Target::Declaration(name), text_before_line(number, text))
}

/// Returns the number of the line by which the worker of a line last transferred its component of
/// the line's object.
fn hand_line(number: u64, text: &[u8]) -> Option<usize>
    ensures { result ≡ hand_line number text.now }
{
    let line = line_at(number, text);
    let worker = word_at(0, line);
    let name = word_at(2, line);
    let before = text_before_line(number, text);
    last_in(&Target::Hand(worker, name), before)
}

/// Returns the number of the line by which the worker of a line lost its right to the line's
/// object. If there is none, it is the line that declares the object and who has the right.
pub(crate) fn right_line(number: u64, text: &[u8]) -> Option<usize>
    ensures { result ≡ right_line number text.now }
{
    match hand_line(number, text) {
        Some(line) => Some(line),
        None => declaration_line(number, text),
    }
}

/// Returns the number of the last line before a line that begins with this word; 0 if there is
/// none.
pub(crate) fn line_with(word: &[u8], number: u64, text: &[u8]) -> usize
    ensures { result ≡ line_with word.now number text.now }
{
    let before = text_before_line(number, text);
    last_in(&Target::First(word), before).unwrap_or(0)
}

/// Returns the number of a line if it is greater than this one.
fn only_after(first: usize, line: Option<usize>) -> Option<usize>
    ensures { result ≡ only_after first line }
{
    let number = line?;
    if first < number { Some(number) } else { None }
}

/// Returns the number of the line by which a line's history declares the object of a word.
pub(crate) fn object_line(word: &[u8], number: u64, text: &[u8]) -> Option<usize>
    ensures { result ≡ object_line word.now number text.now }
{
    let name = base_of(word);
    let before = text_before_line(number, text);
    let found = last_in(&Target::Object(name), before);
    only_after(opening_line(number, text), found)
}
