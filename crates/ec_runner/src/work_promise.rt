//! What the thread of a worker is to do.
ghost use Rattle.ec_runner.specs.Works.{IsSummaryOf};

use crate::summary::Summary;
use ec_machine::Program;
use std::thread::Promise;

/// The program of a worker, and how many turns it has for it.
#[derive(Clone, Copy)]
pub(crate) struct WorkPromise<'a> {
    pub program: &'a Program,
    pub turns: u64,
}

impl<'a> Promise<Summary> for WorkPromise<'a> {
    ghost kept_by = { λ p t. IsSummaryOf p.program.now p.turns t };
}
