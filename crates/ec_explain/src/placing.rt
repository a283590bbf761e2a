//! The cause for which a line is rejected, and the place that shows it.
ghost use Rattle.std.specs.Prelude.{◌≡◌};
ghost use Rattle.ec_explain.specs.Causes.{site_cause, cause_at, name_place, first_failing};
ghost use Rattle.ec_explain.specs.Causes.{unknown_place, word_place, place_at};
ghost use Rattle.ec_explain.specs.Places.{word_test};

use crate::cause::Cause;
use crate::entry::{entry_cause, equals_place};
use crate::head::{bad_name_place, declaration_cause, first_cause, limit_cause, workers_cause};
use crate::line::line_cause;
use crate::lines::position_or_end;
use crate::site::Site;
use crate::words::{WordTest, word_start, words_before};
use ec_heading::{Heading, LINE_MAX};
use ec_text::cut_word;

/// Returns what is wrong with a line at its site, if its bytes don't show it by themselves.
fn site_cause(site: &Site<'_>, line: &[u8]) -> Cause
    ensures { result ≡ site_cause site.now line.now }
{
    match site {
        Site::First => first_cause(line),
        Site::Limit => limit_cause(line),
        Site::Workers(fault) => workers_cause(*fault, line),
        Site::Declaration(heading, fault) => declaration_cause(heading, *fault, line),
        Site::Entry(heading) => entry_cause(heading, line),
        Site::Behind => Cause::AfterEnd,
        Site::Unknown => Cause::Other,
    }
}

/// Returns what is wrong with a rejected line: the first cause that holds of it at its site.
pub fn cause_at(site: &Site<'_>, line: &[u8]) -> Cause
    ensures { result ≡ cause_at site.now line.now }
{
    match line_cause(line) {
        Some(cause) => cause,
        None => site_cause(site, line),
    }
}

/// Returns the index of the word that is no name.
fn name_place(site: &Site<'_>, line: &[u8]) -> usize
    ensures { result ≡ name_place site.now line.now }
{
    match site {
        Site::Workers(_) => bad_name_place(line),
        _ => 1,
    }
}

/// Returns the index of the first word after a declaration's name that fails a test.
pub(crate) fn first_failing(test: &WordTest<'_>, line: &[u8]) -> usize
    ensures { result ≡ first_failing (word_test test.now) line.now }
{
    let (_, Some(rest)) = cut_word(line) else {
        return 2;
    };
    let (_, Some(rest)) = cut_word(rest) else {
        return 2;
    };
    2 + words_before(test, rest)
}

/// Returns the index of the word in a list that is no worker.
fn unknown_place(site: &Site<'_>, line: &[u8]) -> usize
    ensures { result ≡ unknown_place site.now line.now }
{
    match site {
        Site::Declaration(heading, _) => first_failing(&WordTest::Listed(heading), line),
        _ => 2,
    }
}

/// Returns the index of the word that shows a cause.
fn word_place(site: &Site<'_>, cause: Cause, line: &[u8]) -> usize
    ensures { result ≡ word_place site.now cause line.now }
{
    match cause {
        Cause::TwoSpaces => words_before(&WordTest::Full, line),
        Cause::LimitWords | Cause::NoObject | Cause::BadNumber => 2,
        Cause::LimitNoNumber
        | Cause::LimitZero
        | Cause::LimitLarge
        | Cause::NameTaken
        | Cause::NoAct
        | Cause::HandInOne => 1,
        Cause::LongName | Cause::ReservedName | Cause::BadName => name_place(site, line),
        Cause::UnknownName => unknown_place(site, line),
        Cause::NoValue | Cause::NoReceiver => 3,
        Cause::NoEquals => equals_place(line),
        Cause::NoReply => equals_place(line) + 1,
        Cause::EntryWords => equals_place(line) + 2,
        _ => 0,
    }
}

/// Returns where a line shows a cause, as the number of bytes before it.
pub fn place_at(site: &Site<'_>, cause: Cause, line: &[u8]) -> usize
    ensures { result ≡ place_at site.now cause line.now }
{
    match cause {
        Cause::Long => LINE_MAX,
        Cause::Return | Cause::SpaceAfter => line.len().saturating_sub(1),
        Cause::Tab => position_or_end(b'\t', line),
        _ => word_start(word_place(site, cause, line), line),
    }
}
