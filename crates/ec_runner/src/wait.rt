//! What a worker waits for.
ghost use Rattle.std.specs.Prelude.{◌≡◌, ◌↔◌, ◌<◌, IsTrue, Some, length};
ghost use Rattle.ec_runner.specs.declared.wait.Wait.{Wait};
ghost use Rattle.ec_runner.specs.BoardModel.{await_fallen_short, past_of, unmet};
ghost use Rattle.ec_runner.specs.RunReports.{WaitsForever};

use ec_core::{Act, Run};
use ec_count::{EventId, WorkerId};

/// What a waiter waits for: the total of an eventcount has to reach a threshold.
#[derive(Clone, Copy, Debug, PartialEq, Eq)]
pub(crate) struct Wait {
    pub event: EventId,
    pub threshold: u64,
}

/// Returns the await whose last round fell short, if the worker's latest entry ended that round.
fn await_fallen_short(run: &Run, worker: WorkerId) -> Option<Wait>
    ensures { result ≡ await_fallen_short run.now.setup worker (past_of run.now) }
{
    let call = run.world().under_way(worker)?;
    match call.op() {
        Act::Await(event, threshold) if call.index() == 0 => Some(Wait { event, threshold }),
        _ => None,
    }
}

/// Returns this await, if the total has not reached its threshold.
fn unmet(run: &Run, wait: Option<Wait>) -> Option<Wait>
    requires { (a : Wait) → wait ≡ Some a → a.event < length run.now.setup.events }
    ensures { result ≡ unmet (past_of run.now) wait }
{
    let wait = wait?;
    let total = run.world().total(wait.event)?;
    if total < wait.threshold {
        Some(wait)
    } else {
        None
    }
}

/// Returns the await of a worker whose last round fell short, if the worker's latest entry ended
/// that round and the total has not reached the threshold since.
pub(crate) fn unmet_await(run: &Run, worker: WorkerId) -> Option<Wait>
    ensures { result ≡ unmet (past_of run.now)
        (await_fallen_short run.now.setup worker (past_of run.now)) }
{
    run.invariant();
    let wait = await_fallen_short(run, worker);
    unmet(run, wait)
}

/// Returns whether the worker's pending call is an await that fell short, whose threshold the total
/// has not reached.
pub(crate) fn waits_forever(run: &Run, worker: WorkerId) -> bool
    ensures { IsTrue result ↔ WaitsForever run.now worker }
{
    unmet_await(run, worker).is_some()
}
