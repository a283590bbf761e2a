//! The completed calls of a run.
ghost use Rattle.std.specs.Prelude.{◌≡◌, true, None, not, count_by, reverse, IfOk};
ghost use Rattle.ec_core.specs.Calls.{is_pending};
ghost use Rattle.ec_core.specs.declared.act.Entry.{Entry};
ghost use Rattle.ec_order.specs.Calls.{finished_calls, call_ended_by, Ending};

use crate::Call;
use ec_core::{Entry, PendingCall, PendingCalls, Run};
use ec_count::Setup;
use std::alloc::{AllocError, Global};

/// Returns the call that the entry at position i ends, if it ends one, given the call so far.
#[inline(always)]
fn call_ended_by(entry: &Entry, call: &Option<PendingCall>, i: usize) -> Option<Call>
    ensures { result ≡ call_ended_by entry.now i call.now }
{
    if entry.reply.is_pending() {
        return None;
    }
    let call = (*call)?;
    Some(Call {
        worker: entry.worker,
        op: call.op,
        reply: entry.reply,
        first: call.first,
        round: call.round,
        last: i,
    })
}

/// Adds the entry at position i to the pending calls, and returns the call that it ends, if it ends
/// one. (This and `go_on` have no `#[inline(always)]`: with them, the function that enters an entry
/// of a trace would grow so large that the compiler drops that function's own attribute.)
pub(crate) fn add_entry(
    under_way: &mut PendingCalls,
    setup: &Setup,
    entry: &Entry,
    i: usize,
) -> Option<Call>
    ensures { Ending under_way.old i entry.now result under_way.new setup.now }
{
    call_ended_by(entry, &under_way.take(setup, i, entry), i)
}

/// Adds the entry at position i, after which its call is still pending.
pub(crate) fn go_on(under_way: &mut PendingCalls, setup: &Setup, entry: &Entry, i: usize)
    requires { is_pending entry.now.reply ≡ true }
    ensures { Ending under_way.old i entry.now None under_way.new setup.now }
{
    let _ = under_way.take(setup, i, entry);
}

/// Returns how many entries of a run end a call: those whose reply is not Pending.
pub(crate) fn finished_count(run: &Run) -> usize
    ensures { result ≡ count_by (λ (x : Entry). not (is_pending x.reply)) run.now.entries }
{
    let mut count = 0;
    for i in 0..run.len() {
        if let Some(entry) = run.entry(i) {
            if !entry.reply.is_pending() {
                count += 1;
            }
        }
    }
    count
}

/// Returns the completed calls of a run, in order of their responses. It fails only when out of
/// memory.
pub fn calls(alloc: Global, run: &Run) -> Result<Vec<Call>, AllocError>
    ensures { IfOk result (λ cs.
        cs.items ≡ finished_calls run.now.setup (reverse run.now.entries)) }
{
    run.invariant();
    let mut under_way = PendingCalls::new();
    let mut calls = Vec::with_capacity(alloc, finished_count(run))?;
    for i in 0..run.len() {
        if let Some(entry) = run.entry(i) {
            let _act = entry.act;
            if let Some(call) = add_entry(&mut under_way, run.setup(), &entry, i) {
                calls.push(call)?;
            }
        }
    }
    Ok(calls)
}
