//! The calls of a run, in a pass over its entries.
ghost use Rattle.std.specs.Prelude.{◌≡◌, ◌<◌, ◌≤◌, List, [], ◌∷◌, length};
ghost use Rattle.ec_count.specs.Tables.{Tables};
ghost use Rattle.ec_core.specs.declared.act.Entry.{Entry};
ghost use Rattle.ec_core.specs.Acceptance.{IsAccepted};
ghost use Rattle.ec_core.specs.Calls.{is_pending};
ghost use Rattle.ec_core.specs.PendingCalls.{call_after_go, call_after_act, call_after_reply};
ghost use Rattle.ec_core.specs.PendingCalls.{AreCalls, Takes};

use crate::fields::component_count;
use crate::{Act, Entry, Reply};
use ec_count::{Setup, filled};
use std::marker::Model;

/// A call up to one of its entries. Positions are those of a run's entries, counted from 0.
#[derive(Clone, Copy, Debug, PartialEq, Eq)]
pub struct PendingCall {
    /// The act that began it.
    pub op: Act,
    /// The position of its invocation.
    pub first: usize,
    /// The position at which its last round began.
    pub round: usize,
    /// The component that its last entry read, if it is a read or an await; otherwise 0.
    pub index: usize,
}

/// Adds one more entry, at this position, to a read or an await.
#[inline(always)]
fn read_on(setup: &Setup, call: &mut PendingCall, at: usize)
    ensures { call.new ≡ call_after_go setup.now call.old at }
{
    let width = component_count(setup, call.op.event());
    if call.index < width && call.index + 1 < width {
        call.index += 1;
    } else {
        call.round = at;
        call.index = 0;
    }
}

/// Replaces a worker's pending call by the call that its next act is part of, with this act.
///
/// If the act continues the call, only the numbers of the call change.
#[inline(always)]
fn go_on(setup: &Setup, act: Act, call: &mut Option<PendingCall>, place: usize)
    ensures { call.new ≡ call_after_act setup.now act call.old place }
{
    match act {
        Act::Go => {
            if let Some(call) = call {
                read_on(setup, call, place);
            }
        }
        op => {
            *call = Some(PendingCall {
                op,
                first: place,
                round: place,
                index: 0,
            });
        }
    }
}

/// Drops a call that a reply ends.
#[inline(always)]
fn end_by(reply: Reply, call: &mut Option<PendingCall>)
    ensures { call.new ≡ call_after_reply reply call.old }
{
    match reply {
        Reply::Pending => {}
        Reply::Done | Reply::Number(_) => *call = None,
    }
}

/// The pending calls after some entries of a run, by worker.
#[derive(Drop)]
pub struct PendingCalls {
    calls: [Option<PendingCall>; 16],
}

impl Model for PendingCalls {
    ghost use Rattle.std.specs.Prelude.{List, Option};
    ghost use Rattle.ec_core.specs.declared.pending_calls.PendingCall.{PendingCall};

    ghost Value = { List (Option PendingCall) };

    ghost view = { λ s. s.calls };
}

impl PendingCalls {
    /// Returns the pending calls before the first entry: there are none.
    pub fn new() -> Self
        ensures { (t : Tables) → AreCalls t result [] }
    {
        PendingCalls {
            calls: filled(None),
        }
    }

    /// Adds the next entry, at this position, and returns the call that it is part of, up to it.
    ///
    /// It is `None` if the entry is a Go without a pending call.
    #[inline(always)]
    pub fn take(&mut self, setup: &Setup, place: usize, entry: &Entry) -> Option<PendingCall>
        ensures { (past : List Entry) → IsAccepted setup.now past → place ≡ length past → AreCalls setup.now self.old past
            → Takes setup.now past entry.now result self.new }
    {
        setup.invariant();
        let worker = entry.worker.get();
        let call = &mut self.calls[worker];
        go_on(setup, entry.act, call, place);
        let returned = *call;
        end_by(entry.reply, call);
        returned
    }
}
