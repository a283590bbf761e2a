//! The items that a count is about.
ghost use Rattle.std.specs.Prelude.{◌≡◌, ℕ, IfOk};
ghost use Rattle.calls_buffers.specs.Counts.{untaken};
ghost use Rattle.calls_buffers.specs.kept.Items.{counts};
ghost use Rattle.calls_buffers.specs.Accesses.{taken_item, produced_item, put_item};

use calls_core::{Call, Op, Reply};
use std::alloc::{AllocError, Global};
use std::collections::HashSet;

/// Items.
#[derive(Drop)]
pub(crate) enum Items {
    /// All of them.
    Any,
    /// This one.
    One(usize),
    /// Those that are not in the set.
    Without(HashSet<usize>),
}

impl Items {
    /// Returns whether an item is counted.
    pub(crate) fn counts(&self, value: usize) -> bool
        ensures { result ≡ counts self.now value }
    {
        match self {
            Items::Any => true,
            Items::One(item) => value == *item,
            Items::Without(set) => !set.contains(&value),
        }
    }
}

/// Returns the item that a call took out of the buffer.
pub(crate) fn taken_item(call: &Call) -> Option<usize>
    ensures { result ≡ taken_item call.now.op call.now.reply }
{
    match call.reply {
        Reply::Number(value) => {
            match call.op {
                Op::Consume => Some(value),
                _ => None,
            }
        }
        Reply::Done | Reply::Timeout => None,
    }
}

/// Returns the item that a produce asks to put into the buffer.
pub(crate) fn produced_item(op: Op) -> Option<usize>
    ensures { result ≡ produced_item op }
{
    match op {
        Op::Produce(value) => Some(value),
        _ => None,
    }
}

/// Returns the item that a call put into the buffer.
pub(crate) fn put_item(call: &Call) -> Option<usize>
    ensures { result ≡ put_item call.now.op call.now.reply }
{
    match call.reply {
        Reply::Done => produced_item(call.op),
        Reply::Number(_) | Reply::Timeout => None,
    }
}

/// Lists the items that no consume returned which was invoked up to a position.
pub(crate) fn untaken(alloc: Global, at: usize, done: &[Call]) -> Result<Items, AllocError>
    ensures { IfOk result (λ items. (v : ℕ) → counts items v ≡ untaken at done.now v) }
{
    let mut taken = HashSet::new(alloc);
    for call in done {
        if call.first <= at {
            if let Some(item) = taken_item(call) {
                taken.insert(item)?;
            }
        }
    }
    Ok(Items::Without(taken))
}
