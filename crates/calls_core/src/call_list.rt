//! The calls of one object in order, in little memory.
ghost use Rattle.std.specs.Prelude.{◌≡◌, ◌<◌, ◌++◌, ◌∷◌, [], length, map, get_or, set, IfOk, OnOk};
ghost use Rattle.std.specs.List.Sorted.{IsPermutation};
ghost use Rattle.calls_core.specs.declared.history.Call.{Call};
ghost use Rattle.calls_core.specs.Points.{placed_one, with_response};
ghost use Rattle.calls_core.specs.kept.Packed.{unpack_call};

use crate::packed::PackedCall;
use crate::{Call, Order, Placed, Reply};
use std::alloc::{AllocError, Global};
use std::marker::Model;

/// Calls, each in 20 bytes or each in full.
#[derive(Debug, Drop)]
enum Width {
    Narrow(Vec<PackedCall>),
    Wide(Vec<Call>),
}

/// Calls of one object, in order.
///
/// A call takes 20 bytes. The first one that doesn't fit widens the whole list, which then stays
/// wide.
#[derive(Debug, Drop)]
pub struct CallList {
    list: Width,
}

impl Model for CallList {
    ghost use Rattle.std.specs.Prelude.{List};
    ghost use Rattle.calls_core.specs.declared.history.Call.{Call};
    ghost use Rattle.calls_core.specs.kept.Packed.{calls_in};

    ghost Value = { List Call };

    ghost view = { λ c. calls_in c.list };
}

/// Returns the calls of a list in full, with room for one more.
#[inline(never)]
fn widen(list: &Vec<PackedCall>) -> Result<Vec<Call>, AllocError>
    ensures { IfOk result (λ wide. wide.items ≡ map unpack_call list.now.items) }
{
    let mut wide = Vec::with_capacity(*list.allocator(), list.len() + 1)?;
    for packed in list {
        wide.push(packed.unpack())?;
    }
    Ok(wide)
}

impl CallList {
    /// Returns an empty list.
    pub fn new(alloc: Global) -> CallList
        ensures { result ≡ [] }
    {
        CallList {
            list: Width::Narrow(Vec::new(alloc)),
        }
    }

    /// Adds a call at the end.
    pub fn push(&mut self, call: Call) -> Result<(), AllocError>
        ensures { OnOk result (self.new ≡ self.old ++ call ∷ []) }
    {
        match &mut self.list {
            Width::Narrow(list) => match PackedCall::of(&call) {
                Some(packed) => list.push(packed)?,
                None => {
                    let mut wide = widen(list)?;
                    wide.push(call)?;
                    self.list = Width::Wide(wide);
                }
            },
            Width::Wide(list) => list.push(call)?,
        }
        Ok(())
    }

    /// Returns how many calls there are.
    #[inline(always)]
    pub fn len(&self) -> usize
        ensures { result ≡ length self.now }
    {
        match &self.list {
            Width::Narrow(list) => list.len(),
            Width::Wide(list) => list.len(),
        }
    }

    /// Returns the call at an index.
    #[inline(always)]
    pub fn at(&self, i: usize) -> Call
        requires { i < length self.now }
        ensures { (d : Call) → result ≡ get_or self.now i d }
    {
        match &self.list {
            Width::Narrow(list) => list[i].unpack(),
            Width::Wide(list) => list[i],
        }
    }

    /// Sets what the call at index `i` returns, and the position of its response.
    pub fn set_response(&mut self, i: usize, reply: Reply, last: usize) -> Result<(), AllocError>
        requires { i < length self.old }
        ensures { OnOk result ((d : Call) → self.new ≡ set self.old i (with_response last reply
            (get_or self.old i d))) }
    {
        let call = Call {
            reply,
            last,
            ..self.at(i)
        };
        self.set(i, call)
    }

    /// Replaces the call at an index.
    fn set(&mut self, i: usize, call: Call) -> Result<(), AllocError>
        requires { i < length self.old }
        ensures { OnOk result (self.new ≡ set self.old i call) }
    {
        match &mut self.list {
            Width::Narrow(list) => match PackedCall::of(&call) {
                Some(packed) => list[i] = packed,
                None => {
                    let mut wide = widen(list)?;
                    wide[i] = call;
                    self.list = Width::Wide(wide);
                }
            },
            Width::Wide(list) => list[i] = call,
        }
        Ok(())
    }

    /// Exchanges the calls at two indices.
    pub fn swap(&mut self, i: usize, j: usize)
        requires first { i < length self.old }
        requires second { j < length self.old }
        ensures { IsPermutation self.old self.new }
    {
        match &mut self.list {
            Width::Narrow(list) => list.swap(i, j),
            Width::Wide(list) => list.swap(i, j),
        }
    }

    /// Appends the calls with their points to an order.
    ///
    /// The point of a call is right after the latest invocation of the calls up to it.
    pub fn append_to(&self, order: &mut Order) -> Result<(), AllocError>
        ensures { OnOk result (order.new ≡ order.old ++ placed_one 0 self.now) }
    {
        let mut latest = 0;
        for i in 0..self.len() {
            let call = self.at(i);
            // (the position of the response is greater, so the sum exists)
            let next = call.first.checked_add(1).ok_or(AllocError)?;
            latest = next.max(latest);
            order.push(Placed {
                point: latest,
                call,
            })?;
        }
        Ok(())
    }
}
