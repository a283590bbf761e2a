//! The task that a command line gives to the program.
ghost use Rattle.std.specs.Prelude.{◌≡◌, ◌<◌, IfOk, IfErr, IsSome, None, Some};
ghost use Rattle.ec_text.specs.Words.{number_in_word};
ghost use Rattle.evc_draw_cli.specs.declared.choice.Bound.TheVariants as bounds;
ghost use Rattle.evc_draw_cli.specs.Ranges.{IsNoNumber, end_given, first_given, word_of};

use ec_text::number;

/// The format of a picture.
#[derive(Clone, Copy, Debug, PartialEq, Eq)]
pub enum Form {
    /// As SVG.
    Svg,
    /// As a text for a terminal.
    Text,
    /// As a page of HTML, in which it can be scrolled and zoomed.
    Html,
}

/// A picture to draw, and the file with its input.
#[derive(Debug, Drop)]
pub struct Task<'a> {
    /// The name of the file; without one the input is standard input.
    pub file: Option<&'a str>,
    pub form: Form,
    /// The word given for `--from`.
    pub from: Option<&'a str>,
    /// The word given for `--to`.
    pub to: Option<&'a str>,
    /// The workers that are shown; none: all.
    pub workers: Vec<&'a str>,
    /// The objects that are shown; none: all.
    pub objects: Vec<&'a str>,
}

/// The entries to draw: from position `from` on, and before position `to`.
#[derive(Clone, Copy, Debug, PartialEq, Eq)]
pub struct Range {
    pub from: usize,
    pub to: usize,
}

/// The end of a range that has all entries from its first one on.
pub const NO_END: usize = usize::MAX;

/// An option that takes a number, and was given another word.
#[derive(Clone, Copy, Debug, PartialEq, Eq)]
pub struct NoNumber<'a> {
    pub option: Bound,
    pub given: &'a str,
}

/// An option that bounds the entries.
#[derive(Clone, Copy, Debug, PartialEq, Eq)]
pub enum Bound {
    From,
    To,
}

/// Returns the number that was given for an option.
fn number_for<'a>(option: Bound, given: &'a str) -> Result<u64, NoNumber<'a>>
    ensures ok { IfOk result (λ n. (number_in_word given.now ≡ Some n)
        × (n < 1000000000000000000)) }
    ensures err { IfErr result (λ e. (e.option ≡ option) × (e.given.now ≡ given.now)
        × (number_in_word given.now ≡ None)) }
{
    match number(given.as_bytes()) {
        Some(number) => Ok(number),
        None => Err(NoNumber { option, given }),
    }
}

impl<'a> Task<'a> {
    /// Returns the position of the first entry of the range, 0 without `--from`.
    fn from(&self) -> Result<usize, NoNumber<'a>>
        ensures ok { IfOk result (λ n. first_given (word_of self.now.from) ≡ Some n) }
        ensures err { IfErr result (λ e. (e.option ≡ bounds.From) × IsNoNumber self.now e) }
    {
        match self.from {
            Some(given) => Ok(number_for(Bound::From, given)? as usize),
            None => Ok(0),
        }
    }

    /// Returns the position after the last entry of the range, `NO_END` without `--to`.
    fn to(&self) -> Result<usize, NoNumber<'a>>
        ensures ok { IfOk result (λ n. end_given (word_of self.now.to) ≡ Some n) }
        ensures err { IfErr result (λ e. (e.option ≡ bounds.To) × IsNoNumber self.now e) }
    {
        match self.to {
            Some(given) => Ok(number_for(Bound::To, given)? as usize + 1),
            None => Ok(NO_END),
        }
    }

    /// Returns the range of entries to draw, or the first word that is no number.
    pub fn range(&self) -> Result<Range, NoNumber<'a>>
        ensures from { IfOk result (λ r. first_given (word_of self.now.from) ≡ Some r.from) }
        ensures to { IfOk result (λ r. end_given (word_of self.now.to) ≡ Some r.to) }
        ensures wrong { IfErr result (IsNoNumber self.now) }
        ensures first { IfErr result (λ e. e.option ≡ bounds.To
            → IsSome (first_given (word_of self.now.from))) }
    {
        let from = self.from()?;
        let to = self.to()?;
        Ok(Range { from, to })
    }
}
