//! Answers lines about names and words and their targets. A name or a word is in angle brackets.
use crate::fault::Fault;
use crate::line::{tell, tell_if};
use crate::output::TestOutput;
use crate::setup::line::{Line, cell, event, worker};
use crate::setup::texts::long;
use crate::writing::{write_found, write_name, write_word};
use ec_count::{NameFault, Names, SymbolTable, Target, WORD_MAX};
use std::alloc::Global;

/// The names and the words of a test.
#[derive(Drop)]
pub struct Naming {
    names: Names,
    words: SymbolTable,
}

/// Reads the target of a name or a word.
fn target(line: &mut Line<'_>) -> Result<Target, Fault> {
    match line.word() {
        "worker" => Ok(Target::Worker(worker(line)?)),
        "eventcount" => Ok(Target::Event(event(line)?)),
        "cells" => Ok(Target::Cells(cell(line)?, line.size()?)),
        "group" => Ok(Target::Group(line.size()?)),
        _ => Err(Fault::Line),
    }
}

/// Cuts a line into the parts before its angle brackets, between them, and after them.
pub fn cut(line: &str) -> Option<(&str, &str, &str)> {
    let (before, rest) = line.split_once('<')?;
    let (text, behind) = rest.rsplit_once('>')?;
    Some((before, text, behind))
}

/// Adds a word, which must be new and not too long.
fn add_word(words: &mut SymbolTable, word: &[u8], target: Target) -> Result<(), Fault> {
    if word.len() > WORD_MAX || words.find(word).is_some() {
        return Err(Fault::Line);
    }
    words.add(word, target)?;
    Ok(())
}

impl Naming {
    /// Makes empty tables.
    pub fn new(alloc: Global) -> Result<Self, Fault> {
        Ok(Naming {
            names: Names::new(alloc)?,
            words: SymbolTable::new(alloc)?,
        })
    }

    /// Adds a name, or writes why that is not possible.
    fn add_name(&mut self, name: &str, line: &mut Line<'_>) -> Result<(), Fault> {
        match self.names.add(name, target(line)?) {
            Ok(()) => Ok(()),
            Err(NameFault::Memory) => Err(Fault::Memory),
            Err(fault) => tell(fault, line.out),
        }
    }

    /// Answers a line with a name or a word in angle brackets, if it is one.
    pub fn take(&mut self, text: &str, line: &mut Line<'_>) -> Result<bool, Fault> {
        match line.verb {
            "name " => self.add_name(text, line)?,
            "find " => write_found(self.names.find(text), line.out)?,
            "word " => add_word(&mut self.words, text.as_bytes(), target(line)?)?,
            "look-up " => write_found(self.words.find(text.as_bytes()), line.out)?,
            _ => return Ok(false),
        }
        Ok(true)
    }

    /// Answers a line with an index or a length.
    fn answer_place(&mut self, line: &mut Line<'_>) -> Result<(), Fault> {
        let n = line.size()?;
        match line.verb {
            "name-at" => write_name(&self.names, n, line.out),
            "word-at" => write_word(&self.words, n, line.out),
            "long-word" => add_word(&mut self.words, long(n)?, Target::Group(n)),
            "look-up-long" => write_found(self.words.find(long(n)?), line.out),
            _ => {
                self.words.truncate(n);
                Ok(())
            }
        }
    }

    /// Answers another line about names or words, if it is one.
    pub fn answer(&mut self, line: &mut Line<'_>) -> Result<bool, Fault> {
        match line.verb {
            "named" => tell_if(self.names.name_of(target(line)?), line.out)?,
            "names" => tell(self.names.len(), line.out)?,
            "words" => tell(self.words.len(), line.out)?,
            "name-at" | "word-at" | "long-word" | "look-up-long" | "truncate" => {
                self.answer_place(line)?;
            }
            _ => return Ok(false),
        }
        Ok(true)
    }

    /// Writes the names and the words, and whether each is found.
    pub fn tell(&self, out: &mut TestOutput) -> Result<(), Fault> {
        for place in 0..self.names.len() {
            write_name(&self.names, place, out)?;
            if let Some((name, target)) = self.names.at(place) {
                tell(self.names.find(name) == Some(target), out)?;
            }
        }
        for place in 0..self.words.len() {
            write_word(&self.words, place, out)?;
            if let Some((word, target)) = self.words.at(place) {
                tell(self.words.find(word) == Some(target), out)?;
            }
        }
        Ok(())
    }
}
