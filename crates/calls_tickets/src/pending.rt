//! Searches among the missing numbers and the pending tickets.
ghost use Rattle.std.specs.Prelude.{◌≡◌, MatchOption};
ghost use Rattle.calls_tickets.specs.Faults.{ticket_number};
ghost use Rattle.calls_tickets.specs.kept.Watching.{IsHoleAt, NoHole};
ghost use Rattle.calls_tickets.specs.kept.Watching.{IsPaired};

use calls_core::{NotedCall, Reply};

/// Returns the number of a reply.
pub fn number(reply: Reply) -> usize
    ensures { result ≡ ticket_number reply }
{
    match reply {
        Reply::Done => 0,
        Reply::Number(n) => n,
        Reply::Timeout => 0,
    }
}

/// Returns the index of a number among the missing ones, `None` if it is not missing.
pub fn hole_index(holes: &[usize], n: usize) -> Option<usize>
    ensures { MatchOption result (NoHole holes.now n) (IsHoleAt holes.now n) }
{
    for (k, hole) in holes.iter().enumerate() {
        if *hole == n {
            return Some(k);
        }
    }
    None
}

/// Returns whether each missing number may be returned by the pending ticket with the same index.
pub fn are_paired(holes: &[usize], pending: &[NotedCall]) -> bool
    ensures { IsPaired holes.now pending.now result }
{
    if holes.len() > pending.len() {
        return false;
    }
    for (i, hole) in holes.iter().enumerate() {
        if pending[i].noted > *hole {
            return false;
        }
    }
    true
}
