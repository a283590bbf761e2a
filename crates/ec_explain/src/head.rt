//! What is wrong with a line of a header.
ghost use Rattle.std.specs.Prelude.{◌≡◌, is_some};
ghost use Rattle.std.specs.List.{list_all};
ghost use Rattle.ec_count.specs.Reserved.{is_name_byte};
ghost use Rattle.ec_heading.specs.DeclKinds.{sort_of};
ghost use Rattle.ec_explain.specs.Causes.{first_cause, limit_cause, has_name_form};
ghost use Rattle.ec_explain.specs.Causes.{name_cause, head_cause, bad_name_place, new_name_place};
ghost use Rattle.ec_explain.specs.Causes.{workers_cause, declaration_cause};

use crate::cause::Cause;
use crate::words::{WordTest, is_same, word_at, words_before};
use ec_heading::{HeadFault, Heading, count_words};
use ec_text::{cut_word, is_number_form};

/// Returns what is wrong with a first line, which begins as that of some version does, or not.
pub(crate) fn first_cause(line: &[u8]) -> Cause
    ensures { result ≡ first_cause line.now }
{
    if line.starts_with(b"evc-trace".as_slice())
        || line.starts_with(b"evc-script".as_slice())
        || line.starts_with(b"evc-calls".as_slice())
    {
        return Cause::OtherVersion;
    }
    Cause::NoHeader
}

/// Returns what is wrong with a line that should give the limit.
pub(crate) fn limit_cause(line: &[u8]) -> Cause
    ensures { result ≡ limit_cause line.now }
{
    if !is_same(word_at(0, line), b"limit".as_slice()) {
        return Cause::NoLimit;
    }
    if count_words(line) != 2 {
        return Cause::LimitWords;
    }
    let limit = word_at(1, line);
    if !is_number_form(limit) {
        return Cause::LimitNoNumber;
    }
    if is_same(limit, b"0".as_slice()) {
        return Cause::LimitZero;
    }
    Cause::LimitLarge
}

/// Returns whether a name may have each of these bytes after its first one.
fn has_name_bytes(rest: &[u8]) -> bool
    ensures { result ≡ list_all is_name_byte rest.now }
{
    rest.iter()
        .all(|byte| byte.is_ascii_alphanumeric() || *byte == b'_')
}

/// Returns whether a word is a letter, followed by letters, digits and underscores.
fn has_name_form(word: &[u8]) -> bool
    ensures { result ≡ has_name_form word.now }
{
    let [first, rest @ ..] = word else {
        return false;
    };
    first.is_ascii_alphabetic() && has_name_bytes(rest)
}

/// Returns what is wrong with a word that is no name.
pub(crate) fn name_cause(word: &[u8]) -> Cause
    ensures { result ≡ name_cause word.now }
{
    if word.len() > 16 {
        return Cause::LongName;
    }
    if has_name_form(word) {
        return Cause::ReservedName;
    }
    Cause::BadName
}

/// Returns what is wrong with a line of a header, by its lowest fault and its new name.
fn head_cause(fault: HeadFault, name: &[u8]) -> Cause
    ensures { result ≡ head_cause fault name.now }
{
    match fault {
        HeadFault::BadLine => Cause::DeclarationForm,
        HeadFault::BadName => name_cause(name),
        HeadFault::NameTaken => Cause::NameTaken,
        HeadFault::UnknownName => Cause::UnknownName,
        HeadFault::BadNumber => Cause::BadNumber,
        HeadFault::TooMany => Cause::TooMany,
        HeadFault::TwoRoles => Cause::TwoRoles,
        HeadFault::Memory => Cause::Other,
    }
}

/// Returns the index of the first word that is no name, after the word `workers`.
pub(crate) fn bad_name_place(line: &[u8]) -> usize
    ensures { result ≡ bad_name_place line.now }
{
    match cut_word(line) {
        (_, None) => 1,
        (_, Some(list)) => 1 + words_before(&WordTest::Name, list),
    }
}

/// Returns the index of the new name in a line of a header, or of the first word that should be
/// one.
pub(crate) fn new_name_place(line: &[u8]) -> usize
    ensures { result ≡ new_name_place line.now }
{
    if is_same(word_at(0, line), b"workers".as_slice()) {
        bad_name_place(line)
    } else {
        1
    }
}

/// Returns what is wrong with a line that should name the workers.
pub(crate) fn workers_cause(fault: HeadFault, line: &[u8]) -> Cause
    ensures { result ≡ workers_cause fault line.now }
{
    if !is_same(word_at(0, line), b"workers".as_slice()) || count_words(line) == 1 {
        return Cause::NoWorkers;
    }
    head_cause(fault, word_at(bad_name_place(line), line))
}

/// Returns whether a word begins a declaration.
pub(crate) fn is_sort(word: &[u8]) -> bool
    ensures { result ≡ is_some (sort_of word.now) }
{
    is_same(word, b"eventcount".as_slice())
        || is_same(word, b"sequencer".as_slice())
        || is_same(word, b"cells".as_slice())
        || is_same(word, b"buffer".as_slice())
        || is_same(word, b"database".as_slice())
        || is_same(word, b"semaphore".as_slice())
        || is_same(word, b"both".as_slice())
}

/// Returns what is wrong with a line that should be a declaration.
pub(crate) fn declaration_cause(heading: &Heading, fault: HeadFault, line: &[u8]) -> Cause
    ensures { result ≡ declaration_cause heading.now fault line.now }
{
    let first = word_at(0, line);
    if heading.worker(first).is_some() {
        return Cause::EntryBeforeRun;
    }
    if !is_sort(first) {
        return Cause::NoDeclaration;
    }
    head_cause(fault, word_at(1, line))
}
