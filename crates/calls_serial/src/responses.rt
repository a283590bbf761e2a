//! The responses of gets and puts.
ghost use Rattle.std.specs.Prelude.{◌≡◌, ◌∷◌, reverse, IfOk};
ghost use Rattle.calls_serial.specs.kept.Stages.{pending_puts, gets_of_link};
ghost use Rattle.calls_serial.specs.kept.Passing.{first_of, completed_of, EndsGet, EndsCall};

use crate::changes::{add_get, add_late, end_put};
use crate::outcome::Fault;
use crate::search::{PutChoice, pending_put, search};
use crate::stage::{Link, Pass};
use calls_core::{Call, PendingCall, Reply};
use std::alloc::{AllocError, Global};

/// Returns a get, and the gets of the links by which it can return no value, the latest first.
fn chain(
    alloc: Global,
    links: &[Link],
    get: Call,
    because: Option<usize>,
) -> Result<Vec<Call>, AllocError>
    ensures { IfOk result (λ v. v.items ≡ get ∷ gets_of_link because (reverse links.now)) }
{
    let mut gets = Vec::new(alloc);
    gets.push(get)?;
    let mut next = because;
    let mut i = links.len();
    while i > 0 {
        i -= 1;
        if next == Some(i) {
            gets.push(links[i].get)?;
            next = links[i].because;
        }
    }
    Ok(gets)
}

/// Returns how many of `n` stages have a completed put, or the initial value.
fn completed_stages(pending: &[PendingCall], n: usize) -> usize
    ensures { result ≡ completed_of (first_of (pending_puts pending.now)) n }
{
    match pending_put(pending) {
        Some(_) => n.saturating_sub(1),
        None => n,
    }
}

/// Adds the response of a get, or returns the fault that it shows.
fn end_get(
    alloc: Global,
    pass: &mut Pass,
    get: Call,
    value: usize,
) -> Result<Option<Fault>, AllocError>
    ensures { IfOk result (EndsGet pass.old pass.new get value) }
{
    let n = pass.stages.len();
    let m = completed_stages(&pass.pending, n);
    match search(&pass.stages, m, get.first, value) {
        PutChoice::At(i) => {
            add_get(&mut pass.stages, i, get)?;
            Ok(None)
        }
        PutChoice::Shut(because) => {
            if m < n && pass.stages[m].value == value {
                add_late(&mut pass.stages, &mut pass.links, Link { get, because })?;
                return Ok(None);
            }
            let gets = chain(alloc, &pass.links, get, because)?;
            Ok(Some(Fault { gets }))
        }
    }
}

/// Adds the response of a call that was removed from the pending ones, or returns its fault.
pub fn respond(alloc: Global, pass: &mut Pass, call: Call) -> Result<Option<Fault>, AllocError>
    ensures { IfOk result (EndsCall pass.old pass.new call) }
{
    match call.reply {
        Reply::Number(value) => end_get(alloc, pass, call, value),
        Reply::Done => {
            end_put(&mut pass.stages, call);
            Ok(None)
        }
        Reply::Timeout => Ok(None),
    }
}
