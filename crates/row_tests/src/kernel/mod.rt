//! Answers lines about a header, and then about a world, a run or a board on what it declares. Each
//! line is a line of the header, a step of a worker, or another call.
mod ask;
mod boards;
mod groups;
mod heads;
mod machines;
mod orders;
mod programs;
mod runs;
mod stage;
mod works;
mod worlds;
mod writing;

use crate::driver::{Driver, answer_lines};
use crate::fault::Fault;
use crate::kernel::machines::Machines;
use crate::kernel::stage::{Parts, Stage};
use crate::line::{Line, number, word};
use crate::output::TestOutput;
use ec_core::{Run, World};
use ec_count::Setup;
use ec_heading::{HeadFault, Heading, Version};
use ec_runner::Board;
use std::alloc::Global;
use std::mem;

/// A header, and what is made of it.
#[derive(Drop)]
pub struct Kernel {
    version: Version,
    pub heading: Heading,
    /// An empty header, which replaces one while that is upgraded.
    spare: Option<Heading>,
    pub parts: Parts,
}

/// Makes an empty header.
fn empty_heading(alloc: Global, version: Version, n: u64) -> Result<Heading, Fault> {
    let limit = version.limit(n).ok_or(Fault::Line)?;
    Ok(Heading::new(alloc, version, limit)?)
}

/// Opens a world, a run or a board.
fn opened(alloc: Global, what: &str, setup: Setup) -> Result<Stage, Fault> {
    match what {
        "world" => Ok(Stage::World(World::open(setup))),
        "run" => Ok(Stage::Run(Run::open(alloc, setup)?)),
        _ => Ok(Stage::Board(Board::open(alloc, setup)?)),
    }
}

impl Kernel {
    /// Reads a line of the header, or one that ends it.
    fn read_heading(
        &mut self,
        alloc: Global,
        line: &str,
        out: &mut TestOutput,
    ) -> Result<(), Fault> {
        match line {
            "evc-trace 1" => self.version = Version::One,
            "evc-trace 2" => self.version = Version::Two,
            "world" | "run" | "board" => {
                self.parts.stage = opened(alloc, line, self.heading.setup().copy())?;
            }
            _ => match self.heading.line(line.as_bytes()) {
                Ok(()) => {}
                Err(HeadFault::Memory) => return Err(Fault::Memory),
                Err(fault) => writeln!(out, "{fault}")?,
            },
        }
        Ok(())
    }

    /// Begins an empty header under a limit.
    fn begin(&mut self, alloc: Global, limit: u64) -> Result<(), Fault> {
        self.heading = empty_heading(alloc, self.version, limit)?;
        self.parts.stage = Stage::Heading;
        Ok(())
    }

    /// Upgrades the header to version 2, at most once, without an allocation.
    fn upgrade(&mut self) -> Result<(), Fault> {
        let empty = self.spare.take().ok_or(Fault::Line)?;
        let heading = mem::replace(&mut self.heading, empty);
        self.heading = heading.upgrade();
        Ok(())
    }
}

impl Driver for Kernel {
    fn answer(&mut self, alloc: Global, line: &str, out: &mut TestOutput) -> Result<(), Fault> {
        let mut words = line.split_whitespace();
        match (word(&mut words), &self.parts.stage) {
            ("limit", _) => self.begin(alloc, number(&mut words)?),
            ("upgrade", _) => self.upgrade(),
            (verb, Stage::Heading) if verb != "ask" => self.read_heading(alloc, line, out),
            _ => self
                .parts
                .answer(alloc, &mut Line::new(&self.heading, line, out)),
        }
    }

    fn write_all(&self, out: &mut TestOutput) -> Result<(), Fault> {
        self.parts
            .stage
            .tell(&mut Line::new(&self.heading, "", out))
    }
}

impl Kernel {
    /// Begins with an empty header.
    pub fn new(alloc: Global) -> Result<Self, Fault> {
        Ok(Kernel {
            version: Version::Two,
            heading: empty_heading(alloc, Version::Two, 10)?,
            spare: Some(empty_heading(alloc, Version::Two, 10)?),
            parts: Parts::new(alloc),
        })
    }

    /// Answers the lines of a text. Those after a line `machines` are about interpreters of the
    /// programs.
    pub fn answer_text(
        &mut self,
        alloc: Global,
        watched: bool,
        text: &str,
        out: &mut TestOutput,
    ) -> Result<(), Fault> {
        let Some((lines, rest)) = text.split_once("\nmachines\n") else {
            return answer_lines(alloc, self, watched, text, out);
        };
        answer_lines(alloc, self, watched, lines, out)?;
        let programs = self.parts.programs.taken(alloc);
        Machines::answer_text(alloc, self, programs.as_slice(), watched, rest, out)
    }
}
