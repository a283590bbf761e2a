//! The completed calls of a history in order of their points, found while it is streamed.
ghost use Rattle.std.specs.Prelude.{◌≡◌, ◌+◌, ◌<◌, ◌^◌, true, false, List, [], Some, IfOk, IfSome, OnOk};
ghost use Rattle.ec_core.specs.declared.act.Entry.{Entry};
ghost use Rattle.ec_core.specs.Acceptance.{IsAccepted};
ghost use Rattle.ec_core.specs.Calls.{is_go};
ghost use Rattle.ec_order.specs.AdvanceLogModel.{FollowsReading};
ghost use Rattle.ec_order.specs.Walk.{is_one_entry_act, IsDue};
ghost use Rattle.ec_order.specs.Linearizer.{linearized_entries, due_moment, read_comes, IsLinearizer, PutsByPoint, TakesIn, IsGoodLinearization};

use crate::advances::Advances;
use crate::bit_vec::{BitIter, BitVec};
use crate::linearized_reads::LinearizedReads;
use crate::scan::{add_entry, go_on};
use crate::{Call, LinearizedEntry, OrderFault};
use ec_core::{Act, Audit, Entries, Entry, PendingCalls, Segments};
use ec_count::Setup;
use std::alloc::{AllocError, Global};
use std::marker::Model;

/// The completed calls of a history in order of their points, found while the history is streamed.
/// Each entry is passed to it once, by `take`. It stores a call of one entry, such as an advance or
/// a read that returns at once, as that entry. It stores a completed read or await of more entries
/// as one entry and its point. For every entry it stores one bit. The moment of an advance is
/// stored only while a read or an await of its eventcount is pending.
#[derive(Drop)]
pub struct Linearizer<'a> {
    setup: &'a Setup,
    under_way: PendingCalls,
    advances: Advances,
    marks: BitVec,
    one_entry_calls: Segments,
    readings: LinearizedReads,
    out_of_memory: bool,
}

impl<'a> Model for Linearizer<'a> {
    ghost use Rattle.ec_order.specs.Linearizer.{LinearizerModel};

    ghost Value = { LinearizerModel };

    ghost view = { λ s. record { setup = s.setup.now; under_way = s.under_way; advances = s.advances; marks = s.marks; one_entry_calls = s.one_entry_calls; readings = s.readings; out_of_memory = s.out_of_memory } };
}

/// Adds an entry that ends a read or an await, by its act and the call, and stores the call by its
/// point.
fn store_read(
    readings: &mut LinearizedReads,
    advances: &mut Advances,
    act: Act,
    call: &Call,
) -> Result<(), AllocError>
    ensures kept { OnOk result (PutsByPoint advances.old call.now readings.old readings.new) }
    ensures followed { FollowsReading advances.old act (Some call.now) advances.new }
{
    let point = advances.point(call);
    advances.end(act, call);
    let entry = Entry {
        worker: call.worker,
        act: call.op,
        reply: call.reply,
    };
    readings.put(point, &entry)
}

impl<'a> Linearizer<'a> {
    /// Returns a linearizer before the first entry of a history on this setup.
    pub fn open(alloc: Global, setup: &'a Setup) -> Result<Self, OrderFault>
        ensures setup { IfOk result (λ linearizer. linearizer.setup ≡ setup.now) }
        ensures first { IfOk result (λ linearizer. IsLinearizer linearizer []) }
    {
        Ok(Linearizer {
            setup,
            under_way: PendingCalls::new(),
            advances: Advances::none(alloc)?,
            marks: BitVec::new(alloc),
            one_entry_calls: Segments::open(alloc)?,
            readings: LinearizedReads::open(alloc)?,
            out_of_memory: false,
        })
    }

    /// Adds the next entry, at this position.
    #[tactic(auto, using(crate::proofs::Timing::takes_alone, crate::proofs::Timing::takes_pending))]
    #[inline(always)]
    fn gather(&mut self, place: usize, entry: &Entry) -> Result<(), AllocError>
        requires { place + 1 < 2 ^ 64 }
        ensures setup { self.new.setup ≡ self.old.setup }
        ensures kept { OnOk result (TakesIn self.old place entry.now self.new) }
    {
        self.setup.invariant();
        if !entry.reply.is_pending() {
            if let Act::Go = entry.act {
                return self.end(place, entry);
            }
            self.advances.note(entry.act, place + 1)?;
            self.marks.push(true)?;
            self.one_entry_calls.push(*entry)?;
            return Ok(());
        }
        self.marks.push(false)?;
        go_on(&mut self.under_way, self.setup, entry, place);
        self.advances.begin(entry.act);
        Ok(())
    }

    /// Adds a go that ends a read or an await, at this position. (It is apart from `gather`, which
    /// is inlined into a function that is already large.)
    #[tactic(auto, using(crate::proofs::Timing::takes_none, crate::proofs::Timing::takes_one))]
    #[inline(never)]
    fn end(&mut self, place: usize, entry: &Entry) -> Result<(), AllocError>
        requires { is_go entry.now.act ≡ true }
        ensures setup { self.new.setup ≡ self.old.setup }
        ensures kept { OnOk result (TakesIn self.old place entry.now self.new) }
    {
        self.setup.invariant();
        self.marks.push(false)?;
        match add_entry(&mut self.under_way, self.setup, entry, place) {
            Some(call) => store_read(&mut self.readings, &mut self.advances, entry.act, &call),
            None => {
                self.advances.begin(entry.act);
                Ok(())
            }
        }
    }

    /// Returns the completed calls of the entries so far in order of their points, which is a
    /// linearization of them. Returns `Err` if an allocation failed for one of the entries.
    pub fn calls(&self) -> Result<Linearization<'_>, OrderFault>
        ensures value { (past : List Entry) → IsLinearizer self.now past → IsAccepted self.now.setup past → IfOk result (λ calls. calls ≡ linearized_entries self.now.setup past) }
        ensures good { (past : List Entry) → IsLinearizer self.now past → IsAccepted self.now.setup past → IfOk result (λ calls. IsGoodLinearization self.now.setup past calls) }
    {
        self.setup.invariant();
        if self.out_of_memory {
            return Err(OrderFault::Memory);
        }
        Ok(Linearization {
            marks: self.marks.iter(),
            one_entry_calls: self.one_entry_calls.entries(),
            readings: &self.readings,
            position: 0,
            given: 0,
        })
    }
}

impl<'a> Audit for Linearizer<'a> {
    ghost use Rattle.ec_order.specs.Linearizer.{LinearizesOn};

    ghost represents = { LinearizesOn };

    #[inline(always)]
    fn take(&mut self, place: usize, _op: &Act, entry: &Entry) {
        if !self.out_of_memory && self.gather(place, entry).is_err() {
            self.out_of_memory = true;
        }
    }
}

/// Returns whether each entry with this act is a whole call. One of a read or an await may not be:
/// it may go on by `go` entries.
#[inline(always)]
fn is_one_entry_act(act: Act) -> bool
    ensures { result ≡ is_one_entry_act act }
{
    !matches!(act, Act::Read(_) | Act::Await(_, _) | Act::Go)
}

/// Returns whether the next entry is a read or an await that returns at once.
#[inline(always)]
fn read_comes(marks: &BitIter<'_>, one_entry_calls: &Entries<'_>) -> bool
    ensures { result ≡ read_comes marks.now one_entry_calls.now }
{
    let Some(true) = marks.peek() else {
        return false;
    };
    match one_entry_calls.peek() {
        Some(entry) => !is_one_entry_act(entry.act),
        None => false,
    }
}

/// Returns the read or await at a place among those of more than one entry, if it is due at a
/// moment. At one point a read or an await that returns at once comes before these, since it ends
/// there.
#[inline(always)]
fn due(
    readings: &LinearizedReads,
    i: usize,
    moment: usize,
    marks: &BitIter<'_>,
    one_entry_calls: &Entries<'_>,
) -> Option<LinearizedEntry>
    ensures value { IsDue (due_moment (read_comes marks.now one_entry_calls.now)) readings.now i moment result }
    ensures within { IfSome result (λ _. i + 1 < 2 ^ 64) }
{
    let linearized = readings.due(i, moment)?;
    if linearized.point == moment && read_comes(marks, one_entry_calls) {
        return None;
    }
    Some(linearized)
}

/// An iterator over completed calls in order of their points. A contract sees it as the list of
/// those that are left.
#[derive(Drop)]
pub struct Linearization<'a> {
    marks: BitIter<'a>,
    one_entry_calls: Entries<'a>,
    readings: &'a LinearizedReads,
    position: usize,
    given: usize,
}

impl<'a> Model for Linearization<'a> {
    ghost use Rattle.std.specs.Prelude.{◌+◌, ◌<◌, ◌^◌, List, drop, length};
    ghost use Rattle.ec_order.specs.declared.linearized_entry.LinearizedEntry.{LinearizedEntry};
    ghost use Rattle.ec_order.specs.Linearizer.{entries_from_moment};

    ghost Value = { List LinearizedEntry };

    ghost view = { λ s. entries_from_moment s.position s.marks s.one_entry_calls (drop s.given s.readings.now) };

    ghost invariant = { λ s. s.position + length s.marks < 2 ^ 64 };
}

impl<'a> Iterator for Linearization<'a> {
    ghost use Rattle.std.specs.Iterator.{YieldsFirst, item_count};

    type Item = LinearizedEntry;

    ghost next_gives = { YieldsFirst (λ s. s) };

    ghost remaining = { item_count (λ s. s) };

    fn next(&mut self) -> Option<LinearizedEntry> {
        loop {
            if let Some(linearized) = due(
                self.readings,
                self.given,
                self.position,
                &self.marks,
                &self.one_entry_calls,
            ) {
                self.given += 1;
                return Some(linearized);
            }
            let point = self.position;
            let Some(is_whole) = self.marks.next() else {
                return None;
            };
            self.position += 1;
            if is_whole {
                if let Some(entry) = self.one_entry_calls.next() {
                    return Some(LinearizedEntry { point, entry });
                }
            }
        }
    }
}
