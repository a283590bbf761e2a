//! Scheduling hooks made of rules, one a line: `hold a 1 after b 0` delays `a` before its step 1
//! until `b` has reached its step 0. `all` is each worker. With `before` instead of `after`, `b`
//! must not reach that step for some time; with `awhile`, `a` waits for it for some time, and then
//! goes on. The step after a worker's last one is where it leaves.
use crate::fault::Fault;
use crate::line::{Words, number, word};
use crate::output::TestOutput;
use ec_count::WorkerId;
use ec_heading::Heading;
use ec_runner::Gate;
use std::sync::atomic::{AtomicBool, AtomicU64, Ordering};
use std::{array, thread};

/// How often a rule `after` checks for a step before it fails.
const LOOKS: u64 = 100_000_000;

/// How often the other rules check for a step.
const FEW_LOOKS: u64 = 2_000;

/// What a rule requires of the other step.
#[derive(Clone, Copy, PartialEq, Eq)]
enum Sort {
    After,
    Before,
    Awhile,
}

/// A step of a worker, or of each worker.
#[derive(Clone, Copy)]
struct Step {
    worker: Option<WorkerId>,
    number: u64,
}

impl Step {
    /// Returns whether it may be a step of this worker.
    fn is_of(&self, place: usize) -> bool {
        match self.worker {
            Some(worker) => worker.get() == place,
            None => true,
        }
    }
}

/// A rule.
#[derive(Clone, Copy)]
pub struct Rule {
    held: Step,
    sort: Sort,
    other: Step,
}

/// Reads a step.
fn step_of(heading: &Heading, words: &mut Words<'_>) -> Result<Step, Fault> {
    let name = word(words);
    let worker = heading.worker(name.as_bytes());
    if worker.is_none() && name != "all" {
        return Err(Fault::Line);
    }
    Ok(Step {
        worker,
        number: number(words)?,
    })
}

/// Reads a rule.
pub fn rule_of(heading: &Heading, words: &mut Words<'_>) -> Result<Rule, Fault> {
    let held = step_of(heading, words)?;
    let sort = match word(words) {
        "after" => Sort::After,
        "before" => Sort::Before,
        "awhile" => Sort::Awhile,
        _ => return Err(Fault::Line),
    };
    let other = step_of(heading, words)?;
    Ok(Rule { held, sort, other })
}

/// A gate of rules, with the number of calls for each of so many workers.
#[derive(Drop)]
pub struct Rules<'a> {
    list: &'a [Rule],
    workers: usize,
    calls: [AtomicU64; 16],
    has_failed: AtomicBool,
}

impl<'a> Rules<'a> {
    /// Begins with no calls.
    pub fn new(list: &'a [Rule], workers: usize) -> Self {
        Rules {
            list,
            workers,
            calls: array::from_fn(|_| AtomicU64::new(0)),
            has_failed: AtomicBool::new(false),
        }
    }

    /// Returns how often the gate was called with a worker.
    pub fn calls(&self, place: usize) -> u64 {
        match self.calls.get(place) {
            Some(calls) => calls.load(Ordering::SeqCst),
            None => 0,
        }
    }

    /// Returns whether a rule was broken, or a worker's step had another number than the next one.
    pub fn has_failed(&self) -> bool {
        self.has_failed.load(Ordering::SeqCst)
    }

    /// Notes a failure if this is not so.
    fn hold_to(&self, is_right: bool) {
        if !is_right {
            self.has_failed.store(true, Ordering::SeqCst);
        }
    }

    /// Returns whether a worker reaches a step, within so many checks.
    fn comes(&self, place: usize, step: u64, looks: u64) -> bool {
        for _ in 0..looks {
            if self.calls(place) > step {
                return true;
            }
            thread::yield_now();
        }
        false
    }

    /// Delays a worker by a rule on another.
    fn hold(&self, rule: &Rule, other: usize) {
        let step = rule.other.number;
        match rule.sort {
            Sort::After => self.hold_to(self.comes(other, step, LOOKS)),
            Sort::Before => self.hold_to(!self.comes(other, step, FEW_LOOKS)),
            Sort::Awhile => {
                let _came = self.comes(other, step, FEW_LOOKS);
            }
        }
    }

    /// Delays a worker by a rule on one or all others.
    fn hold_by(&self, rule: &Rule) {
        for other in 0..self.workers {
            if rule.other.is_of(other) {
                self.hold(rule, other);
            }
        }
    }
}

impl Gate for Rules<'_> {
    fn before(&self, worker: WorkerId, step: u64) {
        let place = worker.get();
        if let Some(calls) = self.calls.get(place) {
            self.hold_to(calls.fetch_add(1, Ordering::SeqCst) == step);
        }
        for rule in self.list {
            if rule.held.number == step && rule.held.is_of(place) {
                self.hold_by(rule);
            }
        }
    }
}
