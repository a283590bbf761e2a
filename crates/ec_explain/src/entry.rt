//! What is wrong with a line that should be an entry.
ghost use Rattle.std.specs.Prelude.{◌≡◌, ◌≤◌, IfSome};
ghost use Rattle.ec_explain.specs.Causes.{act_words, equals_place, has_object, is_reply};
ghost use Rattle.ec_explain.specs.Causes.{act_cause, reply_cause, entry_cause};

use crate::cause::Cause;
use crate::words::{is_among, is_same, word_at};
use ec_heading::Heading;
use ec_text::number;

/// Returns how many words an act has that begins with this one.
fn act_words(verb: &[u8]) -> Option<usize>
    ensures value { result ≡ act_words verb.now }
    ensures few { IfSome result (λ n. n ≤ 3) }
{
    if is_same(verb, b"go".as_slice()) {
        return Some(1);
    }
    if is_among(&["advance", "read", "ticket", "get"], verb) {
        return Some(2);
    }
    if is_among(&["await", "put", "hand"], verb) {
        return Some(3);
    }
    None
}

/// Returns the index at which a line has the word `=`, by its act.
pub(crate) fn equals_place(line: &[u8]) -> usize
    ensures value { result ≡ equals_place line.now }
    ensures few { result ≤ 4 }
{
    match act_words(word_at(1, line)) {
        None => 2,
        Some(n) => 1 + n,
    }
}

/// Returns whether a word is an object that the act may name, if it names one.
fn has_object(heading: &Heading, verb: &[u8], word: &[u8]) -> bool
    ensures { result ≡ has_object heading.now.words verb.now word.now }
{
    if is_same(verb, b"go".as_slice()) {
        return true;
    }
    if is_same(verb, b"ticket".as_slice()) {
        return heading.sequencer(word).is_some();
    }
    if is_among(&["put", "get"], verb) {
        return heading.cell(word).is_some();
    }
    heading.event(word).is_some()
}

/// Returns whether a word is a reply.
fn is_reply(word: &[u8]) -> bool
    ensures { result ≡ is_reply word.now }
{
    is_among(&["done", "pending"], word) || number(word).is_some()
}

/// Returns what is wrong with the worker, the act and its object.
fn act_cause(heading: &Heading, line: &[u8]) -> Option<Cause>
    ensures { result ≡ act_cause heading.now line.now }
{
    if heading.worker(word_at(0, line)).is_none() {
        return Some(Cause::NoWorker);
    }
    let verb = word_at(1, line);
    if act_words(verb).is_none() {
        return Some(Cause::NoAct);
    }
    if is_same(verb, b"hand".as_slice()) && !heading.version().has_transfer() {
        return Some(Cause::HandInOne);
    }
    if !has_object(heading, verb, word_at(2, line)) {
        return Some(Cause::NoObject);
    }
    None
}

/// Returns what is wrong with the words after the object.
fn reply_cause(heading: &Heading, line: &[u8]) -> Cause
    ensures { result ≡ reply_cause heading.now line.now }
{
    let verb = word_at(1, line);
    let third = word_at(3, line);
    if is_among(&["await", "put"], verb) && number(third).is_none() {
        return Cause::NoValue;
    }
    if is_same(verb, b"hand".as_slice()) && heading.worker(third).is_none() {
        return Cause::NoReceiver;
    }
    let equals = equals_place(line);
    if !is_same(word_at(equals, line), b"=".as_slice()) {
        return Cause::NoEquals;
    }
    if !is_reply(word_at(equals + 1, line)) {
        return Cause::NoReply;
    }
    Cause::EntryWords
}

/// Returns what is wrong with a line that should be an entry.
pub(crate) fn entry_cause(heading: &Heading, line: &[u8]) -> Cause
    ensures { result ≡ entry_cause heading.now line.now }
{
    match act_cause(heading, line) {
        Some(cause) => cause,
        None => reply_cause(heading, line),
    }
}
