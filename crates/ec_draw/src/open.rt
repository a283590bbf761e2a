//! The bars of pending calls.
ghost use Rattle.std.specs.Prelude.{◌≡◌, ◌<◌, ◌++◌, ◌∷◌, [], IfOk, OnOk, reverse};
ghost use Rattle.ec_draw.specs.Open.{begins, begun_at, pending_bars, open_bars_of, open_call};

use crate::Window;
use ec_core::{Act, Entry, Run};
use ec_count::WorkerId;
use std::alloc::{AllocError, Global};

/// A pending call.
#[derive(Clone, Copy, Debug, PartialEq, Eq)]
pub struct PendingBar {
    /// The worker whose call it is.
    pub worker: WorkerId,
    /// The act that began it.
    pub op: Act,
    /// The position of its first entry.
    pub first: usize,
}

/// Returns whether an entry is one of a worker, and begins a call.
fn begins(worker: WorkerId, entry: &Entry) -> bool
    ensures { result ≡ begins worker entry.now }
{
    entry.worker.get() == worker.get() && !matches!(entry.act, Act::Go)
}

/// Returns the position of the latest entry of a worker that began a call; 0 if there is none.
fn begun_at(run: &Run, worker: WorkerId) -> usize
    ensures { result ≡ begun_at worker (reverse run.now.entries) }
{
    let mut end = run.len();
    while end > 0 {
        end -= 1;
        if let Some(entry) = run.entry(end) {
            if begins(worker, &entry) {
                return end;
            }
        }
    }
    0
}

/// Returns the call of a worker that is pending at the end of a run, `None` if there is none.
#[tactic(auto, using(crate::proofs::Stepping::open_some, crate::proofs::Stepping::open_none))]
fn open_call(run: &Run, worker: WorkerId) -> Option<PendingBar>
    ensures { result ≡ open_call worker (reverse run.now.entries) }
{
    match run.world().under_way(worker) {
        Some(call) => Some(PendingBar {
            worker,
            op: call.op(),
            first: begun_at(run, worker),
        }),
        None => None,
    }
}

/// Adds the pending call of a worker, by its number, if it has one that is shown.
fn add_open(
    bars: &mut Vec<PendingBar>,
    run: &Run,
    window: Window,
    number: usize,
) -> Result<(), AllocError>
    requires { number < 16 }
    ensures { OnOk result
        (bars.new.items ≡ bars.old.items ++ open_bars_of window number (reverse run.now.entries)) }
{
    let Some(worker) = WorkerId::new(number) else {
        return Ok(());
    };
    if let Some(begun) = open_call(run, worker) {
        if begun.first < window.to {
            bars.extend_from_slice(&[begun])?;
        }
    }
    Ok(())
}

/// Returns the calls that are pending at the end of a run and are shown, in the order of their
/// workers.
#[tactic(auto, using(crate::proofs::Stepping::no_open, crate::proofs::Stepping::more_open))]
pub(crate) fn pending_bars(
    alloc: Global,
    run: &Run,
    window: Window,
) -> Result<Vec<PendingBar>, AllocError>
    ensures { IfOk result (λ os. os.items ≡ pending_bars run.now.setup window run.now.entries) }
{
    run.invariant();
    let mut bars = Vec::new(alloc);
    for number in 0..run.setup().workers() {
        add_open(&mut bars, run, window, number)?;
    }
    Ok(bars)
}
