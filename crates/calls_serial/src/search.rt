//! Searches in the state of the pass.
ghost use Rattle.std.specs.Prelude.{◌≡◌, ◌<◌, ◌≤◌, ◌↔◌, length, take, MatchOption, IsTrue, false};
ghost use Rattle.calls_serial.specs.kept.Stages.{helds, is_put, pending_puts, Begins, IsOver};
ghost use Rattle.calls_serial.specs.kept.Stages.{IsFound, IsEarly, IsWithin};
ghost use Rattle.calls_serial.specs.kept.Passing.{first_of};

use crate::stage::Stage;
use calls_core::{Call, Op, PendingCall};

/// Which completed put a get may return the value of.
#[derive(Clone, Copy, Debug)]
pub enum PutChoice {
    /// The get may return the value of the stage at this index.
    At(usize),
    /// The get can return the value of no completed put. The link shows it, if one is needed.
    Shut(Option<usize>),
}

/// Returns whether an operation is a put.
fn is_put(op: Op) -> bool
    ensures { result ≡ is_put op }
{
    matches!(op, Op::Put(_))
}

/// Returns the value that a put stores, or `None` for another operation.
pub fn put_value(op: Op) -> Option<usize>
    ensures { MatchOption result (is_put op ≡ false) (λ v. op ≡ Op.Put v) }
{
    match op {
        Op::Put(value) => Some(value),
        _ => None,
    }
}

/// Returns the first put among pending calls.
pub fn pending_put(pending: &[PendingCall]) -> Option<PendingCall>
    ensures { result ≡ first_of (pending_puts pending.now) }
{
    for call in pending {
        if is_put(call.op) {
            return Some(*call);
        }
    }
    None
}

/// Returns whether a put was completed before a position. The initial value has no put and counts
/// as completed.
fn is_over(put: Option<Call>, at: usize) -> bool
    ensures { IsTrue result ↔ IsOver at put }
{
    match put {
        Some(call) => call.last < at,
        None => true,
    }
}

/// Returns whether a get that was invoked at `first` may return the value of stage `i`, the last
/// stage whose put was completed by then.
fn early(stages: &[Stage], i: usize, first: usize, value: usize) -> PutChoice
    requires { i < length stages.now }
    ensures within { IsWithin (length stages.now) result }
    ensures found { IsEarly (helds stages.now) first value i result }
{
    if stages[i].value != value {
        return PutChoice::Shut(None);
    }
    if i + 1 < stages.len() && stages[i + 1].moment < first {
        return PutChoice::Shut(stages[i + 1].link);
    }
    PutChoice::At(i)
}

/// Finds a put whose value a get invoked at `first` may return, among the first `completed` stages.
pub fn search(stages: &[Stage], completed: usize, first: usize, value: usize) -> PutChoice
    requires { completed ≤ length stages.now }
    ensures within { IsWithin (length stages.now) result }
    ensures found { Begins (take completed (helds stages.now))
        → IsFound (helds stages.now) completed first value result }
{
    let mut i = completed;
    while i > 0 {
        i -= 1;
        if is_over(stages[i].put, first) {
            return early(stages, i, first, value);
        }
        if stages[i].value == value {
            return PutChoice::At(i);
        }
    }
    PutChoice::Shut(None)
}
