//! The advances of all eventcounts, as a pass over a history stores them.
ghost use Rattle.std.specs.Prelude.{◌≡◌, ◌<◌, Some, None, [], length, IfOk, IfSome, OnOk};
ghost use Rattle.ec_core.specs.Rounds.{read_event};
ghost use Rattle.ec_order.specs.AdvanceLogModel.{AreAdvanceLogs, FollowsReading, IsPointBy, NotesAlone, ended_event};

use crate::Call;
use crate::advance_log::AdvanceLog;
use crate::index::advanced_event;
use ec_core::Act;
use std::alloc::{AllocError, Global};
use std::marker::Model;

/// The advances of each eventcount so far: what the points of pending and later calls depend on.
#[derive(Drop)]
pub(crate) struct Advances {
    events: Vec<AdvanceLog>,
}

impl Model for Advances {
    ghost use Rattle.std.specs.Prelude.{◌≡◌, List, length};
    ghost use Rattle.ec_order.specs.AdvanceLogModel.{AdvanceLogModel};

    ghost Value = { List AdvanceLogModel };

    ghost view = { λ s. s.events.items };

    ghost invariant = { λ s. length s.events.items ≡ 32 };
}

impl Advances {
    /// Returns the advances before the first entry.
    pub(crate) fn none(alloc: Global) -> Result<Self, AllocError>
        ensures { IfOk result (λ advances. AreAdvanceLogs advances []) }
    {
        Ok(Advances {
            events: empty_logs(alloc)?,
        })
    }

    /// Adds an entry that is a whole call, by its act and the moment after it.
    #[tactic(auto, using(crate::proofs::AdvanceLogLemmas::notes_none, crate::proofs::AdvanceLogLemmas::notes_one))]
    #[inline(always)]
    pub(crate) fn note(&mut self, act: Act, moment: usize) -> Result<(), AllocError>
        ensures { OnOk result (NotesAlone self.old act moment self.new) }
    {
        if let Some(event) = advanced_event(act) {
            self.events[event].add_advance(moment)?;
        }
        Ok(())
    }

    /// Adds an entry of a read or an await that ends no call, by its act.
    #[tactic(auto, using(crate::proofs::AdvanceLogLemmas::begins_none, crate::proofs::AdvanceLogLemmas::begins_one))]
    pub(crate) fn begin(&mut self, act: Act)
        ensures { FollowsReading self.old act None self.new }
    {
        if let Some(event) = read_event(act) {
            self.events[event].begin();
        }
    }

    /// Adds an entry that ends a read or an await, by its act and the call.
    #[tactic(auto, using(crate::proofs::AdvanceLogLemmas::ends_none, crate::proofs::AdvanceLogLemmas::ends_one))]
    pub(crate) fn end(&mut self, act: Act, call: &Call)
        ensures { FollowsReading self.old act (Some call.now) self.new }
    {
        // It is read for the proof: a position fits its type.
        let _last = call.last;
        if let Some(event) = ended_event(act, call.op) {
            self.events[event].end();
        }
    }

    /// Returns the point of the read or await that the next entry ends. It is called before that
    /// entry is added.
    #[tactic(auto, using(crate::proofs::KeptPoints::point_none, crate::proofs::KeptPoints::point_one))]
    pub(crate) fn point(&self, call: &Call) -> usize
        ensures { IsPointBy self.now call.now result }
    {
        match read_event(call.op) {
            Some(event) => self.events[event].point(call.round, call.reply.number()),
            None => call.last,
        }
    }
}

/// Returns the eventcount that an act reads or awaits.
fn read_event(act: Act) -> Option<usize>
    ensures value { result ≡ read_event act }
    ensures small { IfSome result (λ e. e < 32) }
{
    match act {
        Act::Read(event) | Act::Await(event, _) => Some(event.get()),
        _ => None,
    }
}

/// Returns the eventcount that a call was pending on, by the act that ends it and the one that
/// began it. A call of one entry was never pending.
fn ended_event(act: Act, op: Act) -> Option<usize>
    ensures value { result ≡ ended_event act op }
    ensures small { IfSome result (λ e. e < 32) }
{
    match act {
        Act::Go => read_event(op),
        _ => None,
    }
}

/// Returns the log of each of the 32 eventcounts, with no advance.
#[tactic(auto, using(crate::proofs::AdvanceLogLemmas::none_raised))]
fn empty_logs(alloc: Global) -> Result<Vec<AdvanceLog>, AllocError>
    ensures long { IfOk result (λ events. length events.items ≡ 32) }
    ensures value { IfOk result (λ events. AreAdvanceLogs events.items []) }
{
    let mut events = Vec::new(alloc);
    for event in 0..32usize {
        events.push(AdvanceLog::new(alloc))?;
    }
    Ok(events)
}
