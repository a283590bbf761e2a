//! Pending calls, as a world stores them.
ghost use Rattle.std.specs.Prelude.{◌≡◌, ◌+◌, ◌*◌, ◌^◌, ◌<◌, ◌≤◌, IsSome, slice_get};
ghost use Rattle.ec_core.specs.Rounds.{event_or, read_event};
ghost use Rattle.ec_core.specs.kept.Fields.{new_progress, with_round, read_component, count_value};

use crate::Act;
use crate::effect::Effect;
use ec_count::{Count, EventId};
use std::marker::Model;

/// The progress of the round of a call: the component that the next Go reads, and the sum of those
/// before it.
#[derive(Clone, Copy, Debug, PartialEq, Eq)]
pub(crate) struct Round {
    index: usize,
    sum: u64,
}

impl Model for Round {
    ghost use Rattle.std.specs.Prelude.{◌*◌, ◌^◌, ◌<◌, ◌≤◌};
    ghost use Rattle.ec_core.specs.Progress.{RoundSoFar};

    ghost Value = { RoundSoFar };

    ghost view = { λ r. record { index = r.index; sum = r.sum } };

    ghost invariant = { λ r. (r.index < 16) × (r.sum ≤ r.index * 2 ^ 48) };

    ghost inverse = { λ r. record { index = r.index; sum = r.sum } };
}

/// A pending call: the act that began it, and the progress of its round.
#[derive(Clone, Copy, Debug, PartialEq, Eq)]
pub struct UnderWay {
    op: Act,
    round: Round,
}

impl Model for UnderWay {
    ghost use Rattle.std.specs.Prelude.{IsSome};
    ghost use Rattle.ec_core.specs.Progress.{Progress};
    ghost use Rattle.ec_core.specs.Rounds.{read_event};

    ghost Value = { Progress };

    ghost view = { λ u. record { op = u.op; index = u.round.index; sum = u.round.sum } };

    ghost invariant = { λ u. IsSome (read_event u.op) };

    ghost inverse = { λ u. record { op = u.op; round = record { index = u.index; sum = u.sum } } };
}

impl UnderWay {
    /// Makes a call whose first component is yet to be read.
    pub(crate) fn new(op: Act) -> Self
        requires { IsSome (read_event op) }
        ensures { result ≡ new_progress op }
    {
        UnderWay {
            op,
            round: Round { index: 0, sum: 0 },
        }
    }

    /// Returns the same call, whose round has this progress.
    #[inline(always)]
    pub(crate) fn at(&self, round: Round) -> Self
        ensures { result ≡ with_round round self.now }
    {
        UnderWay { op: self.op, round }
    }

    /// Sets the progress of its round.
    #[inline(always)]
    pub(crate) fn go_on(&mut self, round: Round)
        ensures { self.new ≡ with_round round self.old }
    {
        self.round = round;
    }

    /// Returns the act that began it: a Read or an Await.
    #[inline(always)]
    pub fn op(&self) -> Act
        ensures { result ≡ self.now.op }
    {
        self.op
    }

    /// Returns the eventcount that it reads.
    #[inline(always)]
    pub(crate) fn event(&self) -> EventId
        ensures { result ≡ event_or self.now.op }
    {
        match self.op {
            Act::Read(event) | Act::Await(event, _) => event,
            _ => unreachable!(),
        }
    }

    /// Returns the component that the next Go reads. If it is 0, an Await just fell short.
    pub fn index(&self) -> usize
        ensures value { result ≡ self.now.index }
        ensures small { result < 16 }
    {
        self.round.index
    }

    /// Returns the sum of the components that its round has read so far.
    pub fn sum(&self) -> u64
        ensures value { result ≡ self.now.sum }
        ensures small { result ≤ self.now.index * 2 ^ 48 }
        ensures below { result ≤ 15 * 2 ^ 48 }
    {
        self.round.sum
    }

    /// Returns the effect of reading its next component, given how many there are, and their
    /// counts.
    ///
    /// The call stays pending until its last component is read. Then the sum is returned, unless it
    /// falls short of a threshold.
    #[inline(always)]
    pub(crate) fn read(&self, width: usize, counts: &[Count; 16]) -> Effect
        requires { width ≤ 16 }
        ensures { result ≡ read_component self.now.op width self.now.index (count_value (slice_get counts.now self.now.index) + self.now.sum) }
    {
        let index = self.round.index + 1;
        let sum = counts[self.round.index].value() + self.round.sum;
        if index < width {
            return Effect::GoOn(Round { index, sum });
        }
        match self.op {
            Act::Await(_, threshold) if sum < threshold => {
                Effect::GoOn(Round { index: 0, sum: 0 })
            }
            _ => Effect::End(sum),
        }
    }
}
