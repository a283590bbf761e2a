//! Answers lines about declarations, names, words, numbers and texts. Workers and objects are
//! written as numbers here, so that a list can also name workers that are not declared.
mod line;
mod naming;
mod numbers;
mod setups;
mod shapes;
mod texts;
mod values;

use crate::driver::Driver;
use crate::fault::Fault;
use crate::line::tell;
use crate::output::TestOutput;
use crate::setup::line::Line;
use crate::setup::naming::{Naming, cut};
use crate::setup::numbers::{answer_numbers, tell_numbers};
use crate::setup::setups::{answer_setup, declare, declares};
use crate::setup::shapes::Shapes;
use crate::setup::texts::Texts;
use crate::setup::values::answer_values;
use ec_count::{Count, Limit, Setup};
use ec_numbers::NumberList;
use std::alloc::Global;

/// Declarations, a copy of them, the last groups, names, words, a count, numbers and texts.
#[derive(Drop)]
pub struct Table {
    setup: Setup,
    kept: Setup,
    shapes: Shapes,
    naming: Naming,
    count: Count,
    numbers: NumberList,
    texts: Texts,
}

impl Table {
    /// Begins with no declarations, under a limit.
    fn begin(&mut self, line: &mut Line<'_>) -> Result<(), Fault> {
        let Some(limit) = Limit::new(line.number()?) else {
            return tell("-", line.out);
        };
        self.setup = Setup::new(limit);
        tell(self.setup.limit().get(), line.out)
    }

    /// Answers a line with a text in angle brackets.
    fn answer_brackets(&mut self, text: &str, out: &mut TestOutput) -> Result<(), Fault> {
        let (verb, text, behind) = cut(text).ok_or(Fault::Line)?;
        let line = &mut Line {
            about: (),
            verb,
            words: behind.split_whitespace(),
            out,
        };
        if self.naming.take(text, line)? {
            return Ok(());
        }
        self.texts.take(text, line)
    }

    /// Answers a line without a text in angle brackets.
    fn answer_line(&mut self, line: &mut Line<'_>) -> Result<(), Fault> {
        let is_answered = declare(&mut self.setup, line)?
            || self.shapes.declare(&mut self.setup, line)?
            || self.answer_declarations(line)?
            || answer_values(&mut self.count, line)?
            || answer_numbers(&mut self.numbers, line)?
            || self.texts.answer(line)?
            || self.naming.answer(line)?;
        if is_answered {
            return Ok(());
        }
        answer_setup(&self.setup, line)
    }

    /// Answers a line about declarations or groups, if it is one.
    fn answer_declarations(&mut self, line: &mut Line<'_>) -> Result<bool, Fault> {
        match line.verb {
            "limit" => self.begin(line)?,
            "keep" => self.kept = self.setup.copy(),
            "is-kept" => tell(self.setup == self.kept, line.out)?,
            "declares" => tell(declares(&self.setup, line)?, line.out)?,
            "fits" => tell(self.shapes.fits(&self.setup, line.word())?, line.out)?,
            "group" => self.shapes.write(line.word(), line.out)?,
            _ => return Ok(false),
        }
        Ok(true)
    }
}

impl Driver for Table {
    fn answer(&mut self, _alloc: Global, text: &str, out: &mut TestOutput) -> Result<(), Fault> {
        if text.contains('<') {
            return self.answer_brackets(text, out);
        }
        self.answer_line(&mut Line::new((), text, out))
    }

    fn write_all(&self, out: &mut TestOutput) -> Result<(), Fault> {
        self.naming.tell(out)?;
        tell_numbers(&self.numbers, out)
    }
}

impl Table {
    /// Makes an empty table.
    pub fn new(alloc: Global) -> Result<Self, Fault> {
        let (naming, limit) = (Naming::new(alloc)?, Limit::new(10).unwrap());
        Ok(Table {
            setup: Setup::new(limit),
            kept: Setup::new(limit),
            shapes: Shapes::default(),
            naming,
            count: Count::zero(limit),
            numbers: NumberList::new(alloc),
            texts: Texts::new(alloc),
        })
    }
}
