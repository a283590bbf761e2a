//! The deliveries of a run.
ghost use Rattle.std.specs.Prelude.{◌≡◌, ◌<◌, false, List, [], length, reverse, IfOk, IfErr, IfSome, OnOk};
ghost use Rattle.ec_core.specs.Audits.{IsAuditFault};
ghost use Rattle.ec_core.specs.Ending.{EndsAt};
ghost use Rattle.ec_core.specs.declared.act.Entry.{Entry};
ghost use Rattle.ec_buffer.specs.Auditing.{RepresentsDeliveries};
ghost use Rattle.ec_buffer.specs.Collecting.{cell_index, put_place, get_place, writers_after, list_after};
ghost use Rattle.ec_buffer.specs.Follows.{FollowsBuffer, buffer_rules};
ghost use Rattle.ec_buffer.specs.Items.{AreDeliveries};

use crate::lists::Lists;
use crate::{BufferShape, Delivery};
use ec_core::{Act, Audit, AuditFault, Entry, Run, Tracker, walk};
use ec_count::{CellId, Setup, WorkerId};
use std::alloc::Global;
use std::marker::Model;

/// Returns the index of a cell in the buffer, counted from 0, if it is one of the buffer's cells.
fn cell_index(shape: &BufferShape, cell: CellId) -> Option<usize>
    ensures value { result ≡ cell_index shape.now cell }
    ensures few { IfSome result (λ place. place < 256) }
{
    if shape.is_cell(cell) {
        Some(cell.get() - shape.first_cell().get())
    } else {
        None
    }
}

/// Records the worker of a put as the last writer of its cell.
fn note_put(shape: &BufferShape, entry: &Entry, writers: &mut [WorkerId; 256])
    ensures { writers.new ≡ writers_after (put_place shape.now entry.now.act) entry.now.worker writers.old }
{
    if let Act::Put(cell, _) = entry.act {
        if let Some(place) = cell_index(shape, cell) {
            writers[place] = entry.worker;
        }
    }
}

/// Adds the delivery of a get, if the entry is one, unless an allocation has failed before.
/// Returns whether one has failed.
fn add_fails(
    out_of_memory: bool,
    shape: &BufferShape,
    entry: &Entry,
    writers: &[WorkerId; 256],
    list: &mut Vec<Delivery>,
) -> bool
    ensures before { result ≡ false → out_of_memory ≡ false }
    ensures added { result ≡ false → list.new.items ≡ list_after (get_place shape.now entry.now.act) entry.now writers.now list.old.items }
{
    if out_of_memory {
        return true;
    }
    if let Act::Get(cell) = entry.act {
        if let Some(place) = cell_index(shape, cell) {
            let delivery = Delivery {
                number: list.len() as u64,
                producer: writers[place],
                consumer: entry.worker,
                item: entry.reply.number(),
            };
            return list.push(delivery).is_err();
        }
    }
    false
}

/// The audit of a buffer in a pass over a run. An entry whose call is not on the buffer may be left
/// out.
#[derive(Drop)]
pub struct DeliveryAudit<'a> {
    lists: Lists<'a>,
    tracker: Tracker,
    writers: [WorkerId; 256],
    list: Vec<Delivery>,
    out_of_memory: bool,
}

impl<'a> Model for DeliveryAudit<'a> {
    ghost use Rattle.ec_buffer.specs.Auditing.{DeliveryAuditModel};

    ghost Value = { DeliveryAuditModel };

    ghost view = { λ s. record { shape = s.lists.shape.now; setup = s.lists.setup.now; tracked = s.tracker; writers = s.writers; list = s.list.items; out_of_memory = s.out_of_memory } };
}

impl<'a> Audit for DeliveryAudit<'a> {
    ghost use Rattle.ec_buffer.specs.Auditing.{DeliversOn};

    ghost represents = { DeliversOn };

    #[inline(never)]
    fn take(&mut self, place: usize, op: &Act, entry: &Entry) {
        let shape = self.lists.shape;
        self.out_of_memory = add_fails(
            self.out_of_memory,
            shape,
            entry,
            &self.writers,
            &mut self.list,
        );
        note_put(shape, entry, &mut self.writers);
        self.tracker.take(&self.lists, place, op, entry);
    }
}

impl<'a> DeliveryAudit<'a> {
    /// Makes the audit before the first entry of a run on this setup. Allocates nothing.
    pub fn new(alloc: Global, shape: &'a BufferShape, setup: &'a Setup) -> Self
        ensures shape { result.shape ≡ shape.now }
        ensures setup { result.setup ≡ setup.now }
        ensures first { RepresentsDeliveries result [] }
    {
        let lists = Lists::new(shape, setup);
        let tracker = Tracker::new(&lists);
        DeliveryAudit {
            lists,
            tracker,
            writers: [WorkerId::default(); 256],
            list: Vec::new(alloc),
            out_of_memory: false,
        }
    }

    /// Returns the deliveries after the entries so far, as `deliveries` lists them.
    pub fn finish(self) -> Result<Vec<Delivery>, AuditFault>
        ensures followed { (h : List Entry) → EndsAt self.entry.setup (RepresentsDeliveries self.entry) h → OnOk result (FollowsBuffer self.entry.setup self.entry.shape (reverse h)) }
        ensures list { (h : List Entry) → EndsAt self.entry.setup (RepresentsDeliveries self.entry) h → IfOk result (λ list. AreDeliveries self.entry.setup self.entry.shape h list.items) }
        ensures err { (h : List Entry) → EndsAt self.entry.setup (RepresentsDeliveries self.entry) h → IfErr result (IsAuditFault (buffer_rules self.entry.setup self.entry.shape) h) }
    {
        self.lists.shape.invariant();
        self.tracker.finding()?;
        if self.out_of_memory {
            return Err(AuditFault::Memory);
        }
        Ok(self.list)
    }

    /// Returns the deliveries after all entries of a run, as `deliveries` lists them.
    pub fn deliveries(self, run: &Run) -> Result<Vec<Delivery>, AuditFault>
        requires setup { self.setup ≡ run.now.setup }
        requires represents { RepresentsDeliveries self (reverse run.now.entries) }
        ensures followed { OnOk result (FollowsBuffer run.now.setup self.entry.shape (reverse run.now.entries)) }
        ensures list { IfOk result (λ list. AreDeliveries run.now.setup self.entry.shape run.now.entries list.items) }
        ensures err { IfErr result (IsAuditFault (buffer_rules run.now.setup self.entry.shape) run.now.entries) }
    {
        run.invariant();
        self.finish()
    }
}

/// Returns the deliveries of a buffer in a run, by number: one for each get that was made. If the
/// workers don't follow the buffer's call lists, the error has the first entry that breaks them.
pub fn deliveries(
    alloc: Global,
    run: &Run,
    shape: &BufferShape,
) -> Result<Vec<Delivery>, AuditFault>
    ensures followed { OnOk result (FollowsBuffer run.now.setup shape.now (reverse run.now.entries)) }
    ensures list { IfOk result (λ list. AreDeliveries run.now.setup shape.now run.now.entries list.items) }
    ensures err { IfErr result (IsAuditFault (buffer_rules run.now.setup shape.now) run.now.entries) }
{
    let mut audit = DeliveryAudit::new(alloc, shape, run.setup());
    walk(run, &mut audit);
    audit.deliveries(run)
}
