//! The units that the semaphores of a bank have left.
ghost use Rattle.std.specs.Prelude.{◌≡◌, ◌↔◌, ◌-◌, ◌<◌, IfOk, IsTrue, length, MatchOption};
ghost use Rattle.calls_semaphores.specs.Monitors.{UpTo, GrowsByOne, units_left};
ghost use Rattle.calls_semaphores.specs.kept.Keeping.{Distinct, HasUnits, IsMissing, AreFewer};
ghost use Rattle.calls_semaphores.specs.kept.Keeping.{IsAddedAt, IsTakenAt, AreAdded, AreTaken, TakenAs};
ghost use Rattle.calls_semaphores.specs.kept.Keeping.{IsOpened};

use calls_core::{Op, Reply};
use std::alloc::{AllocError, Global};

/// The units that each semaphore has left.
///
/// Added units are taken first, so that no number here exceeds the units at first or the v calls.
#[derive(Drop)]
pub struct Bank {
    /// For each semaphore, how many of its first units are left.
    pub left: Vec<usize>,
    /// For each semaphore, how many of the units that were added are left.
    pub added: Vec<usize>,
}

impl Bank {
    /// Returns a bank that has these units at first.
    pub(crate) fn new(alloc: Global, units: &Vec<usize>) -> Result<Self, AllocError>
        ensures { IfOk result (IsOpened units.now.items) }
    {
        Ok(Bank {
            left: units.clone()?,
            added: vec![in alloc; 0; units.len()]?,
        })
    }

    /// Adds a unit to semaphore `i`.
    fn add_one(&mut self, i: usize)
        ensures same { length self.new.added.items ≡ length self.old.added.items }
        ensures grows { GrowsByOne self.old.added.items self.new.added.items }
        ensures value { UpTo (usize.MAX - 1) self.old.added.items → IsAddedAt self.old self.new i }
    {
        if i < self.added.len() {
            self.added[i] = self.added[i].saturating_add(1);
        }
    }

    /// Takes a unit of semaphore `i`, if it has one.
    fn take_one(&mut self, i: usize)
        ensures same { length self.new.added.items ≡ length self.old.added.items }
        ensures fewer { AreFewer self.old.added.items self.new.added.items }
        ensures value { IsTakenAt self.old self.new i }
    {
        if i < self.added.len() && self.added[i] > 0 {
            self.added[i] -= 1;
        } else if i < self.left.len() && self.left[i] > 0 {
            self.left[i] -= 1;
        }
    }

    /// Returns whether semaphore `i` has a unit.
    fn has_unit(&self, i: usize) -> bool
        ensures { IsTrue result ↔ 0 < units_left self.now i }
    {
        (i < self.added.len() && self.added[i] > 0) || (i < self.left.len() && self.left[i] > 0)
    }

    /// Adds the unit of a v; other operations add nothing.
    pub(crate) fn add(&mut self, op: Op)
        ensures same { length self.new.added.items ≡ length self.old.added.items }
        ensures grows { GrowsByOne self.old.added.items self.new.added.items }
        ensures value { UpTo (usize.MAX - 1) self.old.added.items → AreAdded self.old self.new op }
    {
        if let Op::V(i) = op {
            self.add_one(i);
        }
    }

    /// Returns the first semaphore that lacks a unit for a call, if one does.
    fn missing(&self, op: Op) -> Option<usize>
        ensures { MatchOption result (HasUnits self.now op) (IsMissing self.now op) }
    {
        match op {
            Op::P(i) => { if self.has_unit(i) { None } else { Some(i) } }
            Op::PBoth(i, j) => {
                if !self.has_unit(i) {
                    Some(i)
                } else if !self.has_unit(j) {
                    Some(j)
                } else {
                    None
                }
            }
            Op::Advance | Op::Read | Op::Await(_) | Op::Ticket | Op::V(_) => None,
            Op::Put(_) | Op::Get | Op::Produce(_) | Op::Consume => None,
        }
    }

    /// Takes the units of a call that took effect.
    fn take_units(&mut self, op: Op)
        requires { HasUnits self.old op }
        ensures same { length self.new.added.items ≡ length self.old.added.items }
        ensures fewer { AreFewer self.old.added.items self.new.added.items }
        ensures value { Distinct op → AreTaken self.old self.new op }
    {
        match op {
            Op::P(i) => self.take_one(i),
            Op::PBoth(i, j) => {
                self.take_one(i);
                self.take_one(j);
            }
            Op::Advance | Op::Read | Op::Await(_) | Op::Ticket | Op::V(_) => {}
            Op::Put(_) | Op::Get | Op::Produce(_) | Op::Consume => {}
        }
    }

    /// Takes the units of a call with this reply, or returns a semaphore that lacks one.
    pub(crate) fn take(&mut self, op: Op, reply: Reply) -> Option<usize>
        ensures same { length self.new.added.items ≡ length self.old.added.items }
        ensures fewer { AreFewer self.old.added.items self.new.added.items }
        ensures value { TakenAs self.old self.new op reply result }
    {
        if reply != Reply::Done {
            return None;
        }
        let missing = self.missing(op);
        if missing.is_none() {
            self.take_units(op);
        }
        missing
    }
}
