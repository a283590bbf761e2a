//! Makes calls on a kernel, one after another.
ghost use Rattle.std.specs.Prelude.{◌≡◌, ◌++◌, ◌∷◌, [], List, reverse, true, IsTrue, IfOk, OnOk, IfSome};
ghost use Rattle.std.specs.List.{filter};
ghost use Rattle.calls_core.specs.declared.history.Call.{Call};
ghost use Rattle.calls_core.specs.declared.history.Reply.TheVariants as answers;
ghost use Rattle.calls_kernel.specs.Outside.{is_call};
ghost use Rattle.calls_kernel.specs.Made.{IsReplyOf};
ghost use Rattle.calls_kernel.specs.Made as made;
ghost use Rattle.calls_replay.specs.Made.{made_of, is_made};
ghost use Rattle.calls_replay.specs.kept.Going.{AreMadeIn, IsFree, Goes};

use calls_core::{Call, Op, Order};
use calls_text::{first_cell, first_sequencer};
use ec_core::{Act, Reply, Run, StepFault};
use ec_count::{CellId, EventId, SeqId, WorkerId};
use ec_heading::Heading;
use std::alloc::Global;

/// The most components of an eventcount: a round of reads has as many steps at most.
const ROUND: usize = 16;

/// Why calls were not made.
#[derive(Clone, Copy, Debug, PartialEq, Eq)]
pub enum Stop {
    /// The kernel has no such call as that at this index of the order, refuses it, or returns
    /// another reply.
    Differs(usize),
    /// An allocation failed.
    Memory,
}

/// Returns the act that begins a call, if its object is an eventcount, a sequencer or a cell.
fn opening_act(heading: &Heading, call: &Call) -> Option<Act>
    ensures act { IfSome result (λ act. act ≡ made.act_of_call heading.now.setup call.now) }
    ensures begins { IfSome result (λ act. is_call act ≡ true) }
{
    let object = call.object;
    match call.op {
        Op::Advance => Some(Act::Advance(EventId::new(object)?)),
        Op::Read => Some(Act::Read(EventId::new(object)?)),
        Op::Await(threshold) => Some(Act::Await(EventId::new(object)?, threshold as u64)),
        Op::Ticket => {
            let place = object.checked_sub(first_sequencer(heading))?;
            Some(Act::Ticket(SeqId::new(place)?))
        }
        Op::Put(n) => {
            let place = object.checked_sub(first_cell(heading))?;
            Some(Act::Put(CellId::new(place)?, n as u64))
        }
        Op::Get => {
            let place = object.checked_sub(first_cell(heading))?;
            Some(Act::Get(CellId::new(place)?))
        }
        Op::P(_) | Op::V(_) | Op::PBoth(_, _) | Op::Produce(_) | Op::Consume => None,
    }
}

/// Returns whether the reply is this number.
fn is_number(given: Reply, n: usize) -> bool
    ensures { IsTrue result → given ≡ Reply.Number n }
{
    match given {
        Reply::Number(m) => m == n as u64,
        _ => false,
    }
}

/// Returns whether the reply of the last step suits a call that returned `done`.
fn is_done_by(op: Op, given: Reply) -> bool
    ensures { IsTrue result → IsReplyOf op answers.Done given }
{
    match (op, given) {
        (Op::Await(threshold), Reply::Number(n)) => threshold as u64 <= n,
        (_, Reply::Done) => true,
        _ => false,
    }
}

/// Returns whether the reply of the last step, `given`, suits a call that returned `reply`.
fn is_reply_of(op: Op, reply: calls_core::Reply, given: Reply) -> bool
    ensures { IsTrue result → IsReplyOf op reply given }
{
    match reply {
        calls_core::Reply::Done => is_done_by(op, given),
        calls_core::Reply::Number(n) => is_number(given, n),
        calls_core::Reply::Timeout => false,
    }
}

/// Makes a step of the call at this index of the order.
fn step(run: &mut Run, worker: WorkerId, act: Act, index: usize) -> Result<Reply, Stop>
    ensures { IfOk result (λ reply. run.new ≡ record run.old {
      entries = run.old.entries
          ++ record { worker = worker; act = act; reply = reply } ∷ [];
    }) }
{
    match run.step(worker, act) {
        Ok(reply) => Ok(reply),
        Err(StepFault::Refused(_)) => Err(Stop::Differs(index)),
        Err(StepFault::Memory) => Err(Stop::Memory),
    }
}

/// Makes all steps of a call, and returns the reply of the last. It is pending if the call waits.
fn make(run: &mut Run, worker: WorkerId, act: Act, index: usize) -> Result<Reply, Stop>
    ensures setup { IfOk result (λ reply. run.new.setup ≡ run.old.setup) }
    ensures goes { IfOk result (λ reply. is_call act ≡ true → IsFree (reverse run.old.entries)
        → Goes run.old.setup (reverse run.old.entries) worker act (reverse run.new.entries) reply) }
{
    let mut reply = step(run, worker, act, index)?;
    for _component in 1..ROUND {
        if reply != Reply::Pending {
            return Ok(reply);
        }
        reply = step(run, worker, Act::Go, index)?;
    }
    Ok(reply)
}

/// Makes a call, which must return what was recorded.
fn make_call(run: &mut Run, heading: &Heading, call: &Call, index: usize) -> Result<(), Stop>
    requires { run.old.setup ≡ heading.now.setup }
    ensures setup { OnOk result (run.new.setup ≡ run.old.setup) }
    ensures made { OnOk result ((cs : List Call)
        → AreMadeIn run.old.setup cs (reverse run.old.entries)
        → AreMadeIn run.old.setup (cs ++ call.now ∷ []) (reverse run.new.entries)) }
{
    let Some(act) = opening_act(heading, call) else {
        return Err(Stop::Differs(index));
    };
    let Some(worker) = WorkerId::new(call.worker) else {
        return Err(Stop::Differs(index));
    };
    let given = make(run, worker, act, index)?;
    if is_reply_of(call.op, call.reply, given) {
        Ok(())
    } else {
        Err(Stop::Differs(index))
    }
}

/// Returns whether a call is made: it did not time out, and is not a ticket past the limit.
///
/// Only a pending ticket can be past the limit.
pub(crate) fn is_made(limit: u64, call: &Call) -> bool
    ensures { result ≡ is_made limit call.now }
{
    match (call.op, call.reply) {
        (_, calls_core::Reply::Timeout) => false,
        (Op::Ticket, calls_core::Reply::Number(n)) => (n as u64) < limit,
        _ => true,
    }
}

/// Makes the call, if it is one of those that are made.
#[tactic(auto, using(crate::proofs::Rows::made_or_not))]
fn make_next(
    run: &mut Run,
    heading: &Heading,
    limit: u64,
    call: &Call,
    index: usize,
) -> Result<(), Stop>
    requires { run.old.setup ≡ heading.now.setup }
    ensures setup { OnOk result (run.new.setup ≡ run.old.setup) }
    ensures made { OnOk result ((cs : List Call)
        → AreMadeIn run.old.setup cs (reverse run.old.entries)
        → AreMadeIn run.old.setup (cs ++ filter (is_made limit) (call.now ∷ []))
        (reverse run.new.entries)) }
{
    if is_made(limit, call) {
        return make_call(run, heading, call, index);
    }
    Ok(())
}

/// Makes the calls of a linearization on a kernel, one after another.
///
/// The kernel has the declarations of the header. Calls that timed out, and pending tickets past
/// the limit, are left out.
pub fn replay(alloc: Global, heading: &Heading, order: &Order) -> Result<Run, Stop>
    ensures setup { IfOk result (λ run. run.setup ≡ heading.now.setup) }
    ensures made { IfOk result (λ run. AreMadeIn heading.now.setup
        (made_of heading.now.setup.limit order.now) (reverse run.entries)) }
{
    let Ok(mut run) = Run::open(alloc, heading.setup().copy()) else {
        return Err(Stop::Memory);
    };
    let limit = heading.setup().limit().get();
    for index in 0..order.len() {
        make_next(&mut run, heading, limit, &order.at(index).call, index)?;
    }
    Ok(run)
}
