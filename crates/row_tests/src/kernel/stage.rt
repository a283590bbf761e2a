//! A world, a run or a board, on which steps are made, and what is kept besides it.
use crate::fault::Fault;
use crate::kernel::ask::{Ask, act, worker_of, workers};
use crate::kernel::boards::{answer_board, tell_board};
use crate::kernel::groups::answer_group;
use crate::kernel::heads::{answer_heading, tell_heading};
use crate::kernel::orders::answer_order;
use crate::kernel::programs::Programs;
use crate::kernel::runs::{answer_look, are_silent, is_same, tell_run};
use crate::kernel::works::{Begun, answer_works};
use crate::kernel::worlds::{answer_event, answer_state, answer_world, tell_world};
use crate::kernel::writing::{tell_reply, tell_worker};
use crate::line::tell;
use ec_core::{Act, Reply, Run, StepFault, World, without};
use ec_count::WorkerId;
use ec_order::Placed;
use ec_runner::{Board, BoardFault};
use std::alloc::Global;

/// What steps are made on.
#[derive(Drop)]
pub enum Stage {
    /// Nothing: the header is still read.
    Heading,
    World(World),
    Run(Run),
    Board(Board),
}

impl Stage {
    /// Makes a step, and returns its reply, or the name of the refusal.
    fn step(&mut self, worker: WorkerId, act: Act) -> Result<Result<Reply, &'static str>, Fault> {
        let refusal = match self {
            Stage::Heading => return Err(Fault::Line),
            Stage::World(world) => match world.step(worker, act) {
                Ok(reply) => return Ok(Ok(reply)),
                Err(refusal) => refusal,
            },
            Stage::Run(run) => match run.step(worker, act) {
                Ok(reply) => return Ok(Ok(reply)),
                Err(StepFault::Refused(refusal)) => refusal,
                Err(StepFault::Memory) => return Err(Fault::Memory),
            },
            Stage::Board(board) => match board.step(worker, act) {
                Ok(reply) => return Ok(Ok(reply)),
                Err(BoardFault::Refused(refusal)) => refusal,
                Err(BoardFault::Memory) => return Err(Fault::Memory),
                Err(BoardFault::Stopped) => return Ok(Err("stopped")),
            },
        };
        Ok(Err(refusal.name()))
    }

    /// Returns the run, if there is one.
    pub fn run(&self) -> Result<&Run, Fault> {
        match self {
            Stage::Run(run) => Ok(run),
            Stage::Board(board) => Ok(board.run()),
            _ => Err(Fault::Line),
        }
    }

    /// Returns the world, if there is one.
    fn world(&self) -> Result<&World, Fault> {
        match self {
            Stage::World(world) => Ok(world),
            _ => Ok(self.run()?.world()),
        }
    }

    /// Writes all that can be asked.
    pub fn tell(&self, ask: &mut Ask<'_>) -> Result<(), Fault> {
        tell_heading(ask)?;
        match self {
            Stage::Heading => Ok(()),
            Stage::World(world) => tell_world(world, ask),
            Stage::Run(run) => tell_run(run, ask),
            Stage::Board(board) => {
                tell_board(board, ask)?;
                tell_run(board.run(), ask)
            }
        }
    }
}

/// What lines after a header are about. `copy` and `without` set `rest`, a second run.
#[derive(Drop)]
pub struct Parts {
    pub stage: Stage,
    rest: Option<Run>,
    works: Vec<Begun>,
    judged: Vec<Placed>,
    pub programs: Programs,
}

impl Parts {
    /// Begins before the end of the header.
    pub fn new(alloc: Global) -> Self {
        Parts {
            stage: Stage::Heading,
            rest: None,
            works: Vec::new(alloc),
            judged: Vec::new(alloc),
            programs: Programs::new(alloc),
        }
    }

    /// Makes a step of a worker.
    fn step(&mut self, worker: WorkerId, ask: &mut Ask<'_>) -> Result<(), Fault> {
        match self.stage.step(worker, act(ask)?)? {
            Ok(reply) => tell_reply(reply, ask),
            Err(name) => tell(name, ask.out),
        }
    }

    /// Keeps a copy of the run without these workers, which have to be read-only.
    fn strike_out(&mut self, alloc: Global, ask: &mut Ask<'_>) -> Result<(), Fault> {
        let (silent, run) = (workers(alloc, ask)?, self.stage.run()?);
        if !are_silent(run, silent.as_slice()) {
            return tell("not silent", ask.out);
        }
        self.rest = Some(without(run, silent.as_slice())?);
        Ok(())
    }

    /// Answers a question about the second run.
    fn ask_rest(&self, ask: &mut Ask<'_>) -> Result<(), Fault> {
        let rest = self.rest.as_ref().ok_or(Fault::Line)?;
        ask.verb = ask.word();
        if ask.verb == "same" {
            return tell(is_same(self.stage.run()?, rest), ask.out);
        }
        answer_look(rest, ask)
    }

    /// Makes a call that changes the world, the run or the board.
    fn change(&mut self, ask: &mut Ask<'_>) -> Result<(), Fault> {
        match &mut self.stage {
            Stage::Heading => Err(Fault::Line),
            Stage::World(world) => answer_world(world, ask),
            Stage::Run(run) => answer_works(&mut self.works, run, ask),
            Stage::Board(board) => answer_board(board, ask),
        }
    }

    /// Answers a question about a run, or makes another call.
    fn look(&mut self, alloc: Global, ask: &mut Ask<'_>) -> Result<(), Fault> {
        match ask.verb {
            "length" | "count" | "entries" | "entry" | "silent" => {
                answer_look(self.stage.run()?, ask)
            }
            "order" | "calls" | "so-far" | "verify" | "placed" | "judge" => {
                answer_order(alloc, self.stage.run()?, &mut self.judged, ask)
            }
            "deliveries" | "versions" | "balance" | "pairs" => {
                answer_group(alloc, self.stage.run()?, ask)
            }
            _ => self.change(ask),
        }
    }

    /// Answers a question about a world or a run, or makes another call.
    fn look_at(&mut self, alloc: Global, ask: &mut Ask<'_>) -> Result<(), Fault> {
        match ask.verb {
            "total" | "component" | "signaller" | "component-of" => {
                answer_event(self.stage.world()?, ask)
            }
            "issued" | "value" | "pending" => answer_state(self.stage.world()?, ask),
            _ => self.look(alloc, ask),
        }
    }

    /// Answers a line after the header, or a question about the header.
    pub fn answer(&mut self, alloc: Global, ask: &mut Ask<'_>) -> Result<(), Fault> {
        if self.programs.is_open() {
            return self.programs.take(alloc, ask);
        }
        if let Some(worker) = worker_of(ask.about, ask.verb) {
            return self.step(worker, ask);
        }
        match ask.verb {
            "ask" => answer_heading(ask),
            "copy" => {
                self.rest = Some(self.stage.run()?.copy()?);
                Ok(())
            }
            "rest" => self.ask_rest(ask),
            "without" => self.strike_out(alloc, ask),
            "program" => self.programs.open(alloc, 0),
            "follows" => tell_worker(self.programs.first_off(self.stage.run()?), ask),
            _ => self.look_at(alloc, ask),
        }
    }
}
