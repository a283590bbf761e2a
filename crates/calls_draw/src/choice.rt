//! The workers and the objects that are drawn.
ghost use Rattle.std.specs.Prelude.{◌<◌, length, IsSome};

use crate::view::CallsView;
use calls_core::Op;
use calls_text::{first_cell, first_group, first_sequencer};
use ec_count::Target;
use ec_heading::{Group, Heading};
use std::alloc::{AllocError, Global};

/// What a name chooses.
#[derive(Clone, Copy, Debug, PartialEq, Eq)]
pub(crate) enum SelectedItem {
    /// A worker.
    Worker(usize),
    /// Some objects: the index of the first, and how many they are.
    Objects(usize, usize),
    /// The semaphore with this index among the groups.
    Semaphore(usize),
}

/// What is drawn.
#[derive(Drop)]
pub(crate) struct Selection {
    workers: Vec<SelectedItem>,
    objects: Vec<SelectedItem>,
}

/// Returns what the group at an index chooses, `None` if a history has no calls of it.
fn group_chosen(heading: &Heading, place: usize) -> Option<SelectedItem> {
    match heading.groups().get(place) {
        Some(Group::Semaphore(_)) => Some(SelectedItem::Semaphore(place)),
        Some(Group::Database(_) | Group::Buffer(_)) => {
            Some(SelectedItem::Objects(first_group(heading).saturating_add(place), 1))
        }
        _ => None,
    }
}

/// Returns what a name of a worker chooses.
fn worker_chosen(heading: &Heading, name: &[u8]) -> Option<SelectedItem> {
    match heading.worker(name) {
        Some(worker) => Some(SelectedItem::Worker(worker.get())),
        None => None,
    }
}

/// Returns what the name of a target chooses, `None` if it is a worker.
fn target_chosen(heading: &Heading, target: Target) -> Option<SelectedItem> {
    match target {
        Target::Worker(_) => None,
        Target::Event(event) => Some(SelectedItem::Objects(event.get(), 1)),
        Target::Sequencer(sequencer) => {
            let index = first_sequencer(heading).saturating_add(sequencer.get());
            Some(SelectedItem::Objects(index, 1))
        }
        Target::Cells(first, count) => {
            let index = first_cell(heading).saturating_add(first.get());
            Some(SelectedItem::Objects(index, count))
        }
        Target::Group(place) => group_chosen(heading, place),
    }
}

/// Returns what a name of an object chooses.
fn object_chosen(heading: &Heading, name: &[u8]) -> Option<SelectedItem> {
    match heading.names().find_bytes(name) {
        Some(target) => target_chosen(heading, target),
        None => cell_chosen(heading, name),
    }
}

/// Returns what the name of one cell of a block chooses.
fn cell_chosen(heading: &Heading, name: &[u8]) -> Option<SelectedItem> {
    match heading.cell(name) {
        Some(cell) => {
            let index = first_cell(heading).saturating_add(cell.get());
            Some(SelectedItem::Objects(index, 1))
        }
        None => None,
    }
}

/// Returns what each of these names of workers chooses. A name that is not declared is skipped.
fn workers_chosen(
    alloc: Global,
    heading: &Heading,
    names: &[&str],
) -> Result<Vec<SelectedItem>, AllocError> {
    names
        .iter()
        .filter_map(|name| worker_chosen(heading, name.as_bytes()))
        .collect(alloc)
}

/// Returns what each of these names of objects chooses. A name that is not declared is skipped.
fn objects_chosen(
    alloc: Global,
    heading: &Heading,
    names: &[&str],
) -> Result<Vec<SelectedItem>, AllocError> {
    names
        .iter()
        .filter_map(|name| object_chosen(heading, name.as_bytes()))
        .collect(alloc)
}

/// Returns the first of these names that is not that of a worker.
pub(crate) fn unknown_worker<'a>(heading: &Heading, names: &[&'a str]) -> Option<&'a str>
    ensures { IsSome result → 0 < length names.now }
{
    for name in names {
        if worker_chosen(heading, name.as_bytes()).is_none() {
            return Some(*name);
        }
    }
    None
}

/// Returns the first of these names that is not that of an object.
pub(crate) fn unknown_object<'a>(heading: &Heading, names: &[&'a str]) -> Option<&'a str>
    ensures { IsSome result → 0 < length names.now }
{
    for name in names {
        if object_chosen(heading, name.as_bytes()).is_none() {
            return Some(*name);
        }
    }
    None
}

/// Returns whether a call with this operation uses the semaphore at an index.
pub(crate) fn uses_semaphore(op: Op, place: usize) -> bool {
    match op {
        Op::P(i) | Op::V(i) => i == place,
        Op::PBoth(i, j) => i == place || j == place,
        _ => false,
    }
}

impl SelectedItem {
    /// Returns whether a call of this object with this operation is chosen.
    fn has(self, object: usize, op: Op) -> bool {
        match self {
            SelectedItem::Worker(_) => false,
            SelectedItem::Objects(first, count) => { first <= object && object - first < count }
            SelectedItem::Semaphore(place) => uses_semaphore(op, place),
        }
    }
}

impl Selection {
    /// Returns what a view chooses.
    pub(crate) fn of(
        alloc: Global,
        heading: &Heading,
        view: &CallsView<'_>,
    ) -> Result<Selection, AllocError> {
        Ok(Selection {
            workers: workers_chosen(alloc, heading, view.workers)?,
            objects: objects_chosen(alloc, heading, view.objects)?,
        })
    }

    /// Returns whether a worker is drawn.
    pub(crate) fn has_worker(&self, worker: usize) -> bool {
        self.workers.is_empty()
            || self
                .workers
                .iter()
                .any(|it| *it == SelectedItem::Worker(worker))
    }

    /// Returns whether calls of this object with this operation are drawn.
    pub(crate) fn has_object(&self, object: usize, op: Op) -> bool {
        self.objects.is_empty() || self.objects.iter().any(|it| it.has(object, op))
    }

    /// Returns whether the panel of a semaphore is drawn.
    pub(crate) fn has_semaphore(&self, place: usize) -> bool {
        self.has_object(usize::MAX, Op::V(place))
    }

    /// Returns whether a call is drawn.
    pub(crate) fn has(&self, worker: usize, object: usize, op: Op) -> bool {
        self.has_worker(worker) && self.has_object(object, op)
    }
}
