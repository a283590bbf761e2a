//! Points by an index of the advances.
ghost use Rattle.std.specs.Prelude.{◌≡◌, ℕ, ◌<◌, ◌+◌, [], ◌∷◌, ◌++◌, length, reverse, slice_set, IfOk, OnOk, IfSome};
ghost use Rattle.ec_order.specs.Index.{moment_of_advance, moments_in, IsIndex, NotesAct, point_in, advanced_event};

use crate::Call;
use ec_core::{Act, Run};
use ec_numbers::NumberList;
use std::alloc::{AllocError, Global};

/// Returns the eventcount that an act advances.
#[inline(always)]
pub(crate) fn advanced_event(act: Act) -> Option<usize>
    ensures value { result ≡ advanced_event act }
    ensures small { IfSome result (λ e. e < 32) }
{
    match act {
        Act::Advance(event) => Some(event.get()),
        _ => None,
    }
}

/// Adds a moment to those of an eventcount.
fn add_moment(lists: &mut Vec<NumberList>, event: usize, moment: usize) -> Result<(), AllocError>
    requires { event < length lists.old.items }
    ensures long { length lists.new.items ≡ length lists.old.items }
    ensures added { OnOk result ((v : _)
        × (v.list ≡ moments_in lists.old.items event ++ moment ∷ [])
        × (lists.new.items ≡ slice_set lists.old.items event v)) }
{
    let list = &mut lists[event];
    list.push(moment as u64)?;
    Ok(())
}

/// Adds the moment after an act to those of the eventcount that it advances, if it advances one.
fn note(lists: &mut Vec<NumberList>, act: Act, moment: usize) -> Result<(), AllocError>
    requires { length lists.old.items ≡ 32 }
    ensures long { length lists.new.items ≡ 32 }
    ensures notes { OnOk result (NotesAct lists.old.items act moment lists.new.items) }
{
    if let Some(event) = advanced_event(act) {
        add_moment(lists, event, moment)?;
    }
    Ok(())
}

/// Returns an index with no moment.
fn no_moments(alloc: Global) -> Result<Vec<NumberList>, AllocError>
    ensures long { IfOk result (λ ls. length ls.items ≡ 32) }
    ensures value { IfOk result (λ ls. (e : ℕ) → moments_in ls.items e ≡ []) }
{
    let mut lists = Vec::new(alloc);
    for event in 0..32usize {
        lists.push(NumberList::new(alloc))?;
    }
    Ok(lists)
}

/// Returns for each eventcount the moments after its advances, in order.
pub(crate) fn index(alloc: Global, run: &Run) -> Result<Vec<NumberList>, AllocError>
    ensures long { IfOk result (λ ls. length ls.items ≡ 32) }
    ensures value { IfOk result (λ ls. IsIndex (reverse run.now.entries) ls.items) }
{
    let mut lists = no_moments(alloc)?;
    for i in 0..run.len() {
        if let Some(entry) = run.entry(i) {
            note(&mut lists, entry.act, i + 1)?;
        }
    }
    Ok(lists)
}

/// Returns the moment after the r-th advance, given the moments after each; moment 0 for r = 0.
#[inline(always)]
fn moment_of_advance(moments: &NumberList, r: u64) -> usize
    ensures { result ≡ moment_of_advance moments.now.list r }
{
    if r == 0 {
        0
    } else {
        moments.get((r - 1) as usize).unwrap_or(0) as usize
    }
}

/// Returns the point of a call. For a read or an await it is the later of the start of its last
/// round and the moment after the advance that made the total its answer. For any other call it is
/// its position.
#[inline(always)]
pub(crate) fn point(lists: &[NumberList], call: &Call) -> usize
    requires { length lists.now ≡ 32 }
    ensures { result ≡ point_in lists.now call.now }
{
    match call.op {
        Act::Read(event) | Act::Await(event, _) => {
            let moments = &lists[event.get()];
            call.round
                .max(moment_of_advance(moments, call.reply.number()))
        }
        _ => call.last,
    }
}
