//! The panels below the rows: the numbers and the values of the objects.
use crate::choice::uses_semaphore;
use crate::items::{ItemBlocks, held_steps, room_of};
use crate::picture::Picture;
use crate::sink::PutResult;
use calls_core::{Kind, Op, Order, Reply};
use calls_shapes::{CountFilter, Step, Tally, Track, start_of, steps_of, tallies_of};
use std::alloc::{AllocError, Global};

/// What a panel shows.
#[derive(Clone, Copy, Debug, PartialEq, Eq)]
pub(crate) enum Subject {
    /// The count of the eventcount with this index.
    Count(usize),
    /// The numbers of the sequencer with this index.
    Numbers(usize),
    /// The units of a semaphore: the index of its object, and its own among the groups.
    Units(usize, usize),
    /// The values of the cell or database with this index.
    Values(usize),
    /// The items of the buffer with this index: how many there are.
    Items(usize),
}

/// The least and the greatest number at a moment.
#[derive(Clone, Copy, Debug, PartialEq, Eq)]
pub(crate) struct Bounds {
    pub(crate) least: usize,
    pub(crate) most: usize,
}

/// A step of a curve: the number from the linearization point of a shown call on.
#[derive(Clone, Copy, Debug, PartialEq, Eq)]
pub(crate) struct CurveStep {
    pub(crate) point: usize,
    pub(crate) x: u64,
    pub(crate) value: usize,
    pub(crate) op: Op,
}

/// The numbers of an object.
#[derive(Drop)]
pub(crate) struct Panel {
    pub(crate) subject: Subject,
    /// The number at the first column.
    pub(crate) before: usize,
    /// Its steps: one for each call that it shows and whose point is in the window.
    pub(crate) spots: Vec<CurveStep>,
    /// Its bounds at each moment that is shown; empty if it shows values.
    pub(crate) bounds: Vec<Bounds>,
    /// The items of a buffer.
    pub(crate) items: ItemBlocks,
}

impl Subject {
    /// Returns the track of the object that it shows; of a buffer, that of the items put in.
    fn track(self) -> Track {
        match self {
            Subject::Count(object) | Subject::Numbers(object) | Subject::Values(object) => Track {
                object,
                index: 0,
            },
            Subject::Units(object, index) => Track { object, index },
            Subject::Items(object) => Track { object, index: 2 },
        }
    }

    /// Returns the index of its object.
    pub(crate) fn object(self) -> usize {
        self.track().object
    }

    /// Returns whether it shows what a call of this object does.
    pub(crate) fn shows(self, object: usize, op: Op) -> bool {
        match self {
            Subject::Units(_, place) => uses_semaphore(op, place),
            _ => object == self.object(),
        }
    }

    /// Returns whether a certificate on this object is about what it shows. One on semaphores is,
    /// if it has a stair of the units added to this one.
    pub(crate) fn is_of(self, object: usize, spans: &[calls_shapes::Stair]) -> bool {
        match self {
            Subject::Units(_, place) => {
                spans
                    .iter()
                    .any(|stair| stair.span.counted == CountFilter::Adding(place))
            }
            _ => object == self.object(),
        }
    }
}

/// Returns the bounds of a number that is raised by each of the calls that are counted.
fn raised_bounds(start: usize, tally: &Tally) -> Bounds {
    Bounds {
        least: start.saturating_add(tally.returned),
        most: start.saturating_add(tally.called),
    }
}

/// Returns the bounds of a number that is raised by some calls and lowered by others, and is at most
/// the limit.
fn moved_bounds(start: usize, limit: usize, given: &Tally, taken: &Tally) -> Bounds {
    let least = start.saturating_add(given.returned);
    let most = start.saturating_add(given.called);
    Bounds {
        least: least.saturating_sub(taken.called),
        most: most.saturating_sub(taken.returned).min(limit),
    }
}

/// Returns the bounds at the moments that are shown of a number that goes up by ones.
fn count_bounds(
    alloc: Global,
    picture: &Picture<'_>,
    start: usize,
    counted: CountFilter,
) -> Result<Vec<Bounds>, AllocError> {
    let window = picture.window();
    let tallies = tallies_of(alloc, &picture.events, counted)?;
    let shown = tallies.get(window.from..).unwrap_or(&[]);
    let count = window.len().saturating_add(1);
    shown
        .iter()
        .take(count)
        .map(|tally| raised_bounds(start, tally))
        .collect(alloc)
}

/// Returns the bounds at the moments that are shown of a number that some calls raise and others
/// lower.
fn bounds_between(
    alloc: Global,
    picture: &Picture<'_>,
    (start, limit): (usize, usize),
    raising: CountFilter,
    lowering: CountFilter,
) -> Result<Vec<Bounds>, AllocError> {
    let window = picture.window();
    let given = tallies_of(alloc, &picture.events, raising)?;
    let taken = tallies_of(alloc, &picture.events, lowering)?;
    let mut bounds = Vec::new(alloc);
    for position in window.from..=window.to {
        if let (Some(given), Some(taken)) = (given.get(position), taken.get(position)) {
            bounds.push(moved_bounds(start, limit, given, taken))?;
        }
    }
    Ok(bounds)
}

/// Returns the bounds of what this shows, at the moments that are shown.
fn bounds_of(
    alloc: Global,
    picture: &Picture<'_>,
    subject: Subject,
    start: usize,
) -> Result<Vec<Bounds>, AllocError> {
    match subject {
        Subject::Count(k) => count_bounds(alloc, picture, start, CountFilter::Advances(k)),
        Subject::Numbers(k) => count_bounds(alloc, picture, start, CountFilter::Tickets(k)),
        Subject::Units(_, i) => {
            let (raising, lowering) = (CountFilter::Adding(i), CountFilter::Taking(i));
            bounds_between(alloc, picture, (start, usize::MAX), raising, lowering)
        }
        Subject::Items(k) => {
            let (raising, lowering) = (CountFilter::Produces(k), CountFilter::Consumes(k));
            let room = room_of(picture, k);
            bounds_between(alloc, picture, (start, room), raising, lowering)
        }
        Subject::Values(_) => Ok(Vec::new(alloc)),
    }
}

/// Returns the last of these values before a position, `start` if there is none.
fn value_before(start: usize, steps: &[Step], position: usize) -> usize {
    let before = steps.iter().rev().find(|step| step.point < position);
    before.map_or(start, |step| step.value)
}

/// Returns the indices of the calls of an object in a linearization.
fn indices_of(alloc: Global, order: &Order, object: usize) -> Result<Vec<usize>, AllocError> {
    let mut indices = Vec::new(alloc);
    for i in 0..order.len() {
        if order.at(i).call.object == object {
            indices.push(i)?;
        }
    }
    Ok(indices)
}

/// Returns the steps of a number: one for each of its calls whose point is in the window.
fn spots_of(
    alloc: Global,
    picture: &Picture<'_>,
    subject: Subject,
    steps: &[Step],
) -> Result<Vec<CurveStep>, AllocError> {
    let mut spots = Vec::new(alloc);
    let indices = indices_of(alloc, &picture.order, subject.object())?;
    for (i, step) in indices.iter().zip(steps) {
        if *i < picture.order.len() {
            let placed = picture.order.at(*i);
            let op = placed.call.op;
            if picture.window().has_point(step.point) && subject.shows(placed.call.object, op) {
                spots.push(CurveStep {
                    point: step.point,
                    x: picture.x_of(*i),
                    value: step.value,
                    op,
                })?;
            }
        }
    }
    Ok(spots)
}

/// Returns the numbers of what this shows along the linearization.
fn numbers_of(
    alloc: Global,
    picture: &Picture<'_>,
    subject: Subject,
) -> Result<Vec<Step>, AllocError> {
    match subject {
        Subject::Items(object) => held_steps(alloc, picture, object),
        _ => steps_of(alloc, picture.kinds, &picture.order, subject.track()),
    }
}

/// Returns the panel of what this shows.
fn panel_of(alloc: Global, picture: &Picture<'_>, subject: Subject) -> Result<Panel, AllocError> {
    let start = start_of(picture.kinds, subject.track());
    let steps = numbers_of(alloc, picture, subject)?;
    Ok(Panel {
        subject,
        before: value_before(start, &steps, picture.window().from),
        spots: spots_of(alloc, picture, subject, &steps)?,
        bounds: bounds_of(alloc, picture, subject, start)?,
        items: ItemBlocks::of(alloc, picture, subject, &steps)?,
    })
}

/// Returns whether a panel shows what some drawn call does.
fn is_shown(picture: &Picture<'_>, subject: Subject) -> bool {
    picture
        .shown
        .iter()
        .any(|bar| subject.shows(bar.object, bar.op))
}

/// Adds the panel of what this shows, if it shows what some drawn call does.
fn add_panel(
    alloc: Global,
    panels: &mut Vec<Panel>,
    picture: &Picture<'_>,
    subject: Subject,
) -> PutResult {
    if is_shown(picture, subject) {
        panels.push(panel_of(alloc, picture, subject)?)?;
    }
    Ok(())
}

/// Adds the panels of the semaphores that are chosen.
fn add_semaphores(
    alloc: Global,
    panels: &mut Vec<Panel>,
    picture: &Picture<'_>,
    object: usize,
    count: usize,
) -> PutResult {
    for place in 0..count {
        if picture.choice.has_semaphore(place) {
            add_panel(alloc, panels, picture, Subject::Units(object, place))?;
        }
    }
    Ok(())
}

/// Returns the panels of the objects of the calls that are drawn.
pub(crate) fn panels_of(alloc: Global, picture: &Picture<'_>) -> Result<Vec<Panel>, AllocError> {
    let mut panels = Vec::new(alloc);
    for (object, kind) in picture.kinds.iter().enumerate() {
        let subject = match kind {
            Kind::Eventcount(_) => Subject::Count(object),
            Kind::Sequencer => Subject::Numbers(object),
            Kind::Cell | Kind::Database(_) => Subject::Values(object),
            Kind::Semaphores(units) => {
                add_semaphores(alloc, &mut panels, picture, object, units.len())?;
                continue;
            }
            Kind::Buffer(_) => Subject::Items(object),
        };
        add_panel(alloc, &mut panels, picture, subject)?;
    }
    Ok(panels)
}

/// Returns the number that a call says of its object. An await says its threshold if it is done,
/// and one less if it gave up. A consume returns an item, and says no number.
pub(crate) fn implied_number(op: Op, reply: Reply) -> Option<usize> {
    if matches!(op, Op::Consume) {
        return None;
    }
    match (op, reply) {
        (_, Reply::Number(n)) => Some(n),
        (Op::Await(v), Reply::Done) => Some(v),
        (Op::Await(v), Reply::Timeout) => Some(v.saturating_sub(1)),
        _ => None,
    }
}
