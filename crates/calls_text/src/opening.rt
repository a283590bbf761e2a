//! What the lines of a history before `run` declare.
ghost use Rattle.std.specs.Prelude.{◌≡◌, ◌≤◌, [], IfOk, option_map, Some};
ghost use Rattle.ec_heading.specs.Heading.{head_step};
ghost use Rattle.ec_heading.specs.HeaderTree.{empty_heading};
ghost use Rattle.ec_heading.specs.Versions.{greatest_limit};
ghost use Rattle.ec_text.specs.Words.{words_of, number_in_word};
ghost use Rattle.calls_text.specs.Reading.{Steps, limit_digits, limit_step, from_words, is_later};
ghost use Rattle.calls_text.specs.Reading.{from_step, after_start, start_in, opens_from, is_from};
ghost use Rattle.calls_text.specs.Reading.{map_heading, draft_step, is_run};
ghost use Rattle.calls_text.specs.kept.Results.{IsLimit, Opens};

use crate::fault::{FaultKind, LineFault};
use crate::object::{Object, is_owned};
use ec_count::{EventId, Limit};
use ec_heading::{Heading, LINE_MAX, Version};
use ec_text::{cut_word, has_blank, is_number_form, number};
use std::alloc::{AllocError, Global};
use std::marker::Model;

/// What is declared so far, and the initial counts.
#[derive(Drop)]
pub(crate) struct Draft {
    /// Boxed, since a `Heading` is large and a draft is moved.
    pub(crate) heading: Box<Heading>,
    pub(crate) from: Vec<(EventId, u64)>,
}

impl Model for Draft {
    ghost use Rattle.calls_text.specs.Reading as reading;

    ghost Value = { reading.Draft };

    ghost view = { λ d. record { heading = d.heading.value; from = d.from.items } };
}

/// Returns the digits of a line `limit n`, or `None` if the line has not this form.
#[tactic(auto, using(crate::proofs::Words::third_word))]
fn limit_digits(line: &[u8]) -> Option<&[u8]>
    ensures { option_map (λ w. w.now) result ≡ limit_digits (words_of line.now) }
{
    let (word, Some(rest)) = cut_word(line) else {
        return None;
    };
    let (digits, None) = cut_word(rest) else {
        return None;
    };
    if word == b"limit".as_slice() && is_number_form(digits) {
        Some(digits)
    } else {
        None
    }
}

/// Returns the limit of a line `limit n`.
#[tactic(auto, unfolding(crate::specs::Reading::limit_step))]
fn parse_limit(line: &[u8]) -> Result<Limit, FaultKind>
    ensures { IsLimit result (limit_step line.now) }
{
    if line.len() > LINE_MAX {
        return Err(FaultKind::BadLine);
    }
    let digits = limit_digits(line).ok_or(FaultKind::BadLine)?;
    let n = number(digits).ok_or(FaultKind::BadNumber)?;
    Version::Two.limit(n).ok_or(FaultKind::BadNumber)
}

/// Returns the eventcount and the digits of a line `from E n`, or `None` if the line has not this
/// form.
#[tactic(auto, using(crate::proofs::Words::fourth_word))]
fn from_words(line: &[u8]) -> Option<(&[u8], &[u8])>
    ensures { option_map (λ p. (p.0.now, p.1.now)) result ≡ from_words (words_of line.now) }
{
    let (word, Some(rest)) = cut_word(line) else {
        return None;
    };
    let (event, Some(rest)) = cut_word(rest) else {
        return None;
    };
    let (digits, None) = cut_word(rest) else {
        return None;
    };
    if word == b"from".as_slice() && is_number_form(digits) {
        Some((event, digits))
    } else {
        None
    }
}

/// Returns whether a line begins with the word `from`.
fn opens_from(line: &[u8]) -> bool
    ensures { result ≡ opens_from (words_of line.now) }
{
    let (word, _) = cut_word(line);
    word == b"from".as_slice()
}

/// Returns whether an eventcount is declared after those that have an initial count already.
fn is_later(from: &[(EventId, u64)], event: EventId) -> bool
    ensures { result ≡ is_later from.now event }
{
    match from {
        [] => true,
        [(last, _)] => last.get() < event.get(),
        [_, rest @ ..] => is_later(rest, event),
    }
}

/// Returns a header with this limit and no declarations.
#[inline(never)]
fn no_declarations(alloc: Global, limit: Limit) -> Result<Box<Heading>, AllocError>
    requires { limit ≤ greatest_limit Version.Two }
    ensures { IfOk result (λ heading. heading.value ≡ empty_heading Version.Two limit []) }
{
    Ok(Box::new(alloc, Heading::new(alloc, Version::Two, limit)?)?)
}

impl Draft {
    /// Returns a draft with the limit of a line `limit n` and no declarations.
    pub(crate) fn open(alloc: Global, line: &[u8]) -> Result<Draft, LineFault>
        ensures { Opens result (limit_step line.now) }
    {
        let limit = parse_limit(line).map_err(LineFault::Of)?;
        Ok(Draft {
            heading: no_declarations(alloc, limit)?,
            from: Vec::new(alloc),
        })
    }

    /// Returns the number that digits spell, if it may be an initial count: from 1 to the limit.
    fn start(&self, digits: &[u8]) -> Option<u64>
        ensures { result ≡ start_in self.now.heading (number_in_word digits.now) }
    {
        let n = number(digits)?;
        if 1 <= n && n <= self.heading.setup().limit().get() {
            Some(n)
        } else {
            None
        }
    }

    /// Adds the initial count of an eventcount.
    fn take_start(&mut self, event: EventId, digits: &[u8]) -> Result<(), LineFault>
        ensures { Steps result (after_start self.old (Some event) digits.now) self.new }
    {
        let n = self
            .start(digits)
            .ok_or(LineFault::Of(FaultKind::BadNumber))?;
        if is_owned(self.heading.groups(), &Object::Event(event)) {
            return Err(LineFault::Of(FaultKind::Hidden));
        }
        if !is_later(&self.from, event) {
            return Err(LineFault::Of(FaultKind::BadOrder));
        }
        match self.from.push((event, n)) {
            Ok(()) => Ok(()),
            Err(_) => Err(LineFault::Memory),
        }
    }

    /// Reads a line `from E n`.
    #[tactic(auto, unfolding(crate::specs::Reading::from_step))]
    fn take_from(&mut self, line: &[u8]) -> Result<(), LineFault>
        ensures { Steps result (from_step self.old line.now) self.new }
    {
        if line.len() > LINE_MAX || has_blank(line) {
            return Err(LineFault::Of(FaultKind::BadLine));
        }
        let (word, digits) = from_words(line).ok_or(LineFault::Of(FaultKind::BadLine))?;
        let Some(event) = self.heading.event(word) else {
            return Err(LineFault::Of(FaultKind::UnknownName));
        };
        self.take_start(event, digits)
    }

    /// Returns whether a line must be of the form `from E n`.
    ///
    /// It must if such a line came before, or if it begins with `from` and the workers are
    /// declared.
    fn is_from(&self, line: &[u8]) -> bool
        ensures { result ≡ is_from self.now line.now }
    {
        !self.from.is_empty() || (opens_from(line) && self.heading.setup().workers() > 0)
    }

    /// Reads a line of the header.
    fn take_heading(&mut self, line: &[u8]) -> Result<(), LineFault>
        ensures { Steps result (map_heading self.old (head_step self.old.heading line.now)) self.new }
    {
        self.heading.line(line)?;
        Ok(())
    }

    /// Reads the next line, given without its LF.
    #[inline(never)]
    pub(crate) fn line(&mut self, line: &[u8]) -> Result<(), LineFault>
        ensures { Steps result (draft_step self.old line.now) self.new }
    {
        if self.is_from(line) {
            self.take_from(line)
        } else {
            self.take_heading(line)
        }
    }

    /// Returns whether the line is `run`, and the workers are declared.
    pub(crate) fn is_run(&self, line: &[u8]) -> bool
        ensures { result ≡ is_run self.now line.now }
    {
        line == b"run".as_slice() && self.heading.setup().workers() > 0
    }
}
