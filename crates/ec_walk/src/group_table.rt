//! Which groups an act may be on, found by the object that it names.
ghost use Rattle.std.specs.Prelude.{◌≡◌, ◌≢◌, ℕ, ◌+◌, ◌<◌, ◌≤◌, ◌^◌, Bool, false, IsTrue, List, length, Some, slice_get};
ghost use Rattle.ec_heading.specs.declared.group.Group.{Group};
ghost use Rattle.ec_walk.specs.Walks.{names, sees_every_call, act_on, CoversFirst, Covers, CoversAct, CoversAt, IsTable};

use ec_core::Act;
use ec_count::{CellId, EventId, SeqId, filled};
use ec_heading::Group;

/// Groups whose numbers follow one another: from `first` on, before `end`.
#[derive(Clone, Copy, Debug)]
pub(crate) struct Span {
    pub(crate) first: usize,
    pub(crate) end: usize,
}

impl Span {
    /// Returns whether there is no group among these.
    #[inline(always)]
    pub(crate) fn is_empty(&self) -> bool
        ensures yes { IsTrue result → self.now.end ≤ self.now.first }
        ensures no { result ≡ false → self.now.first < self.now.end }
    {
        self.end <= self.first
    }

    /// Returns whether there is exactly one group.
    #[inline(always)]
    pub(crate) fn is_one(&self) -> bool
        ensures yes { IsTrue result → self.now.end ≡ self.now.first + 1 }
        ensures no { result ≡ false → self.now.end ≢ self.now.first + 1 }
    {
        self.first < self.end && self.end - self.first == 1
    }
}

/// No group.
const NOWHERE: Span = Span {
    first: usize::MAX,
    end: 0,
};

/// The least span of the groups of each object, as `act_on` numbers them, and that of the wide
/// groups.
///
/// In a header each span has at most one group: its groups share no object, and at most one is a
/// `both`.
#[derive(Drop)]
pub(crate) struct GroupTable {
    objects: [Span; 320],
    wide: Span,
}

/// Returns whether an act names an object of a group. The objects of `both` are those of its common
/// semaphore.
pub(crate) fn names(group: &Group, act: &Act) -> bool
    ensures { result ≡ names group.now act.now }
{
    match group {
        Group::Buffer(shape) => ec_buffer::is_on(shape, act),
        Group::Database(shape) => ec_database::is_on(shape, act),
        Group::Semaphore(shape) => ec_semaphore::is_on(shape, act),
        Group::Both(shape) => ec_semaphore::is_on(shape, act),
    }
}

/// Adds the group with this number, which comes after all of the span.
fn reaching(span: Span, number: usize) -> Span
    requires { number + 1 < 2 ^ 64 }
    ensures alone { span.end ≤ span.first → result.first ≡ number }
    ensures more { span.first < span.end → result.first ≡ span.first }
    ensures end { result.end ≡ number + 1 }
{
    let first = if span.is_empty() { number } else { span.first };
    Span {
        first,
        end: number + 1,
    }
}

/// Returns whether a group is wide: whether it is about each call of its users, as `both` is.
///
/// Within a critical section of `both` a worker makes no other call.
pub(crate) fn sees_every_call(group: &Group) -> bool
    ensures { result ≡ sees_every_call group.now }
{
    matches!(group, Group::Both(_))
}

/// Adds the group with this number, if it passes a test.
fn with_group(span: Span, number: usize, passes: bool) -> Span
    requires { number + 1 < 2 ^ 64 }
    ensures { (groups : List Group) (test : Group → Bool) (group : Group) → slice_get groups number ≡ Some group → passes ≡ test group
        → CoversFirst groups test span number → CoversFirst groups test result (number + 1) }
{
    if passes { reaching(span, number) } else { span }
}

/// Returns the least span of the groups of which an act names an object.
fn span_of(groups: &[Group], act: &Act) -> Span
    ensures { CoversAct groups.now act.now result }
{
    let mut span = NOWHERE;
    for number in 0..groups.len() {
        span = with_group(span, number, names(&groups[number], act));
    }
    span
}

/// Returns the least span of the wide groups.
fn wide_span(groups: &[Group]) -> Span
    ensures { Covers groups.now sees_every_call result }
{
    let mut span = NOWHERE;
    for number in 0..groups.len() {
        span = with_group(span, number, sees_every_call(&groups[number]));
    }
    span
}

/// Returns an act on the object with this number: eventcounts first, then sequencers, then cells.
fn act_on(object: usize) -> Act
    requires { object < 320 }
    ensures { result ≡ act_on object }
{
    if object < 32 {
        Act::Read(EventId::new(object).unwrap())
    } else if object < 64 {
        Act::Ticket(SeqId::new(object - 32).unwrap())
    } else {
        Act::Get(CellId::new(object - 64).unwrap())
    }
}

/// Returns the least span of the groups of each object.
fn object_spans(groups: &[Group]) -> [Span; 320]
    ensures { (n : ℕ) → n < 320 → CoversAt groups.now (act_on n) result n }
{
    let mut spans = filled(NOWHERE);
    for object in 0..320 {
        spans[object] = span_of(groups, &act_on(object));
    }
    spans
}

impl GroupTable {
    pub(crate) fn new(groups: &[Group]) -> Self
        ensures { IsTable groups.now result }
    {
        GroupTable {
            objects: object_spans(groups),
            wide: wide_span(groups),
        }
    }

    /// Returns the least span of the groups of which an act names an object.
    #[inline(always)]
    pub(crate) fn of(&self, act: &Act) -> Span
        ensures { (groups : List Group) → IsTable groups self.now → CoversAct groups act.now result }
    {
        match act {
            Act::Advance(event) | Act::Read(event) | Act::Await(event, _) | Act::Hand(event, _) =>
                self.objects[event.get()],
            Act::Go => NOWHERE,
            Act::Ticket(sequencer) => self.objects[32 + sequencer.get()],
            Act::Put(cell, _) | Act::Get(cell) => self.objects[64 + cell.get()],
        }
    }

    /// Returns the least span of the wide groups.
    #[inline(always)]
    pub(crate) fn wide(&self) -> Span
        ensures { (groups : List Group) → IsTable groups self.now
            → Covers groups sees_every_call result }
    {
        self.wide
    }
}
