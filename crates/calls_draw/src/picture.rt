//! What is drawn of a history.
use crate::choice::Selection;
use crate::grid::{Grid, LEFT};
use crate::history::FoundHistory;
use crate::limits::{Limit, limits_of};
use crate::lines::EventLines;
use crate::view::{CallsView, Window, window_of};
use calls_core::{Action, Call, Event, Kind, Op, Order, Part, PendingCall, Reply};
use calls_shapes::{Bars, Stair, StairSpan, bars_of, faulty_calls, spans_of, stair_of};
use calls_text::Lists;
use calls_verdict::{Fault, Refusal, Verdict};
use ec_heading::Heading;
use std::alloc::{AllocError, Global};

/// A call, with its end if it has one.
#[derive(Clone, Copy, Debug, PartialEq, Eq)]
pub(crate) struct Bar {
    pub(crate) worker: usize,
    pub(crate) object: usize,
    pub(crate) op: Op,
    pub(crate) first: usize,
    pub(crate) end: Option<(usize, Reply)>,
}

/// The outline of a bar that a certificate names or counts.
#[derive(Clone, Copy, Debug, PartialEq, Eq)]
pub(crate) enum BarOutline {
    /// The certificate names its call.
    Hot,
    /// The certificate counts its call.
    Warm,
}

/// The evidence that a history is rejected.
#[derive(Drop)]
pub(crate) struct Evidence<'a> {
    pub(crate) refusal: &'a Refusal,
    /// The calls that the fault names.
    pub(crate) faulty: Vec<Call>,
    /// Its stairs.
    pub(crate) stairs: Vec<Stair>,
    /// Its limits of numbers of items.
    pub(crate) limits: Vec<Limit>,
}

/// What is drawn of a history.
#[derive(Drop)]
pub(crate) struct Picture<'a> {
    pub(crate) heading: &'a Heading,
    /// The lines of the events.
    pub(crate) lines: EventLines<'a>,
    pub(crate) lists: &'a Lists,
    pub(crate) kinds: &'a [Kind],
    pub(crate) events: Part<'a>,
    pub(crate) bars: Bars,
    /// The bars that are drawn.
    pub(crate) shown: Vec<Bar>,
    /// The calls in a linearization; empty if the history has none or is not decided.
    pub(crate) order: Order,
    /// For each event the linearization point of the call that it invokes, 0 if it has none.
    pub(crate) points: Vec<usize>,
    /// The x of the point of each call of `order`, in pixels.
    pub(crate) xs: Vec<u64>,
    pub(crate) evidence: Option<Evidence<'a>>,
    pub(crate) choice: Selection,
    pub(crate) grid: Grid,
    /// The number of the line of the event at position 0.
    pub(crate) first_line: u64,
    /// Whether all calls are of one object.
    pub(crate) is_single: bool,
    /// What `check` says of the text, in lines.
    pub(crate) note: &'a [u8],
}

impl Bar {
    /// Returns the bar of a completed call.
    pub(crate) fn of(call: &Call) -> Bar {
        Bar {
            worker: call.worker,
            object: call.object,
            op: call.op,
            first: call.first,
            end: Some((call.last, call.reply)),
        }
    }

    /// Returns the bar of a pending call.
    pub(crate) fn open(call: &PendingCall) -> Bar {
        Bar {
            worker: call.worker,
            object: call.object,
            op: call.op,
            first: call.first,
            end: None,
        }
    }

    /// Returns whether it is drawn.
    fn is_shown(&self, choice: &Selection, window: Window) -> bool {
        window.meets(self.first, self.last()) && choice.has(self.worker, self.object, self.op)
    }

    /// Returns the position of its end, `usize::MAX` if it is pending.
    pub(crate) fn last(&self) -> usize {
        match self.end {
            Some((last, _)) => last,
            None => usize::MAX,
        }
    }
}

/// Returns the stairs of these courses.
fn stairs_of(
    alloc: Global,
    events: &Part<'_>,
    spans: &[StairSpan],
) -> Result<Vec<Stair>, AllocError> {
    let mut stairs = Vec::new(alloc);
    for span in spans {
        stairs.push(stair_of(alloc, events, *span)?)?;
    }
    Ok(stairs)
}

/// Returns the evidence that a history is rejected.
fn evidence_of<'a>(
    alloc: Global,
    kinds: &[Kind],
    events: &Part<'_>,
    refusal: &'a Refusal,
) -> Result<Evidence<'a>, AllocError> {
    let spans = spans_of(alloc, kinds, refusal.object, &refusal.fault)?;
    Ok(Evidence {
        refusal,
        faulty: faulty_calls(alloc, events, &refusal.fault)?,
        stairs: stairs_of(alloc, events, &spans)?,
        limits: limits_of(alloc, &refusal.fault)?,
    })
}

impl<'a> Evidence<'a> {
    /// Returns the outline of a bar, `None` if the certificate neither names nor counts its call.
    pub(crate) fn outline(&self, bar: &Bar) -> Option<BarOutline> {
        if self.faulty.iter().any(|call| call.first == bar.first) {
            return Some(BarOutline::Hot);
        }
        let is_counted = self.stairs.iter().any(|stair| counts(&stair.span, bar));
        if is_counted || self.may_have_drawn(bar) {
            return Some(BarOutline::Warm);
        }
        None
    }

    /// Returns whether a ticket may have drawn a number up to that of the faulty one, if the fault
    /// is that too few tickets did.
    fn may_have_drawn(&self, bar: &Bar) -> bool {
        let Fault::Ticket(calls_tickets::Fault::Drawn(call)) = &self.refusal.fault else {
            return false;
        };
        let is_low = match (bar.end, call.reply) {
            (Some((_, Reply::Number(n))), Reply::Number(most)) => n <= most,
            (None, _) => true,
            _ => false,
        };
        is_low && bar.object == self.refusal.object
    }

    /// Returns whether it is of a cell or database whose values are distinct.
    pub(crate) fn is_distinct(&self) -> bool {
        matches!(
            self.refusal.fault,
            Fault::Value(calls_cells::Fault::Distinct(_))
        )
    }

    /// Returns whether it is about how many items are in a buffer.
    pub(crate) fn is_of_held(&self) -> bool {
        matches!(
            self.refusal.fault,
            Fault::Items(calls_buffers::Fault::Crowded { .. })
        )
    }

    /// Returns whether the calls that it names are drawn as blocks in lanes.
    pub(crate) fn has_lanes(&self) -> bool {
        match &self.refusal.fault {
            Fault::Value(_) => true,
            Fault::Items(_) => self.stairs.is_empty() && self.limits.is_empty(),
            _ => false,
        }
    }

    /// Returns the least position among the faulty event and the invocations of the calls that it
    /// names.
    fn earliest_call(&self) -> usize {
        let mut least = self.refusal.at;
        for call in &self.faulty {
            least = least.min(call.first);
        }
        least
    }

    /// Returns the least position among these and those of its limits.
    fn earliest(&self) -> usize {
        let mut least = self.earliest_call();
        for limit in &self.limits {
            least = least.min(limit.at);
        }
        least
    }
}

/// Returns whether a course counts the call of a bar.
fn counts(span: &StairSpan, bar: &Bar) -> bool {
    match bar.end {
        Some((last, reply)) => span.has_completed(&Call {
            worker: bar.worker,
            object: bar.object,
            op: bar.op,
            reply,
            first: bar.first,
            last,
        }),
        None => span.has_pending(&PendingCall {
            worker: bar.worker,
            object: bar.object,
            op: bar.op,
            first: bar.first,
        }),
    }
}

/// How many events are shown before the first one that a certificate names.
const BEFORE: usize = 4;

/// The fewest events that are shown of a long history that is rejected.
const FEWEST: usize = 20;

/// Returns the first event that is shown if none is chosen, and there is room for all from it on.
pub(crate) fn usual_from(evidence: &Option<Evidence<'_>>, count: usize) -> usize {
    match evidence {
        Some(evidence) => {
            let from = evidence.earliest().saturating_sub(BEFORE);
            let from = from.min(count.saturating_sub(FEWEST));
            if from < FEWEST { 0 } else { from }
        }
        None => 0,
    }
}

/// Returns how many calls in a row from an index on have the same point.
fn same_points(order: &Order, i: usize) -> usize {
    let point = point_at(order, i);
    let mut count = 0usize;
    for j in i..order.len() {
        if order.at(j).point != point {
            return count;
        }
        count = count.saturating_add(1);
    }
    count
}

/// Returns the point of the call at an index.
fn point_at(order: &Order, i: usize) -> usize {
    if i < order.len() {
        order.at(i).point
    } else {
        0
    }
}

/// Returns the x of the point of each call of a linearization. Calls of one point are side by side.
fn point_xs(alloc: Global, grid: Grid, order: &Order) -> Result<Vec<u64>, AllocError> {
    let mut xs = Vec::new(alloc);
    let mut first = 0;
    let mut count = 0;
    for i in 0..order.len() {
        if i >= count {
            first = i;
            count = i.saturating_add(same_points(order, i));
        }
        let rank = i.saturating_sub(first);
        xs.push(grid.point(order.at(i).point, rank, count.saturating_sub(first)))?;
    }
    Ok(xs)
}

/// Returns for each event the point of the call that it invokes, 0 if it has none.
fn points_of(alloc: Global, events: &Part<'_>, order: &Order) -> Result<Vec<usize>, AllocError> {
    let mut points = vec![in alloc; 0usize; events.len()]?;
    for i in 0..order.len() {
        let placed = order.at(i);
        if let Some(point) = points.get_mut(placed.call.first) {
            *point = placed.point;
        }
    }
    Ok(points)
}

/// Returns the object of an invocation.
fn invoked_object(event: &Event) -> Option<usize> {
    match event.action {
        Action::Invoke(object, _) => Some(object),
        Action::Respond(_) => None,
    }
}

/// Returns whether all calls are of one object, which then needs no name. Semaphores need theirs.
fn has_one_object(events: &Part<'_>, kinds: &[Kind]) -> bool {
    let mut first = None;
    for i in 0..events.len() {
        if let Some(object) = invoked_object(&events.at(i)) {
            if first.is_some_and(|k| k != object) {
                return false;
            }
            first = Some(object);
        }
    }
    match first {
        Some(object) => !matches!(kinds.get(object), Some(Kind::Semaphores(_))),
        None => true,
    }
}

/// Returns the bars that are drawn: the completed ones, and then the pending ones.
fn shown_bars(
    alloc: Global,
    bars: &Bars,
    choice: &Selection,
    window: Window,
) -> Result<Vec<Bar>, AllocError> {
    let completed = bars.completed.iter().map(|call| Bar::of(call));
    let pending = bars.pending.iter().map(|call| Bar::open(call));
    completed
        .chain(pending)
        .filter(|bar| bar.is_shown(choice, window))
        .collect(alloc)
}

/// Returns the linearization of a verdict, empty if it has none.
fn order_of(alloc: Global, verdict: &Verdict) -> Result<Order, AllocError> {
    let mut copy = Order::new(alloc);
    if let Verdict::Linearizable(order) = verdict {
        for i in 0..order.len() {
            copy.push(order.at(i))?;
        }
    }
    Ok(copy)
}

impl<'a> Picture<'a> {
    /// Returns what is drawn of a history, with this note on its text.
    pub(crate) fn of(
        alloc: Global,
        view: &CallsView<'_>,
        found: &'a FoundHistory<'_>,
        note: &'a [u8],
    ) -> Result<Picture<'a>, AllocError> {
        let recording = &found.judged.read.recording;
        let heading = recording.heading();
        let kinds = recording.kinds();
        let events = found.events();
        let evidence = match found.refusal() {
            Some(refusal) => Some(evidence_of(alloc, kinds, &events, refusal)?),
            None => None,
        };
        let usual = usual_from(&evidence, events.len());
        let window = window_of(view, events.len(), usual);
        let choice = Selection::of(alloc, heading, view)?;
        let bars = bars_of(alloc, &events)?;
        let order = order_of(alloc, &found.judged.verdict)?;
        Ok(Picture {
            heading,
            lines: found.lines(alloc)?,
            lists: recording.lists(),
            kinds,
            shown: shown_bars(alloc, &bars, &choice, window)?,
            bars,
            points: points_of(alloc, &events, &order)?,
            xs: point_xs(alloc, Grid::new(window), &order)?,
            order,
            evidence,
            choice,
            grid: Grid::new(window),
            first_line: found.first_line(),
            is_single: has_one_object(&events, kinds),
            events,
            note,
        })
    }

    /// Returns the events that are shown.
    pub(crate) fn window(&self) -> Window {
        self.grid.window
    }

    /// Returns how many workers are declared.
    pub(crate) fn workers(&self) -> usize {
        self.heading.setup().workers()
    }

    /// Returns how many of the workers before this one are drawn.
    pub(crate) fn rows_before(&self, worker: usize) -> usize {
        let mut rows = 0usize;
        for other in 0..worker {
            if self.choice.has_worker(other) {
                rows = rows.saturating_add(1);
            }
        }
        rows
    }

    /// Returns the bars of a worker that are drawn, in the order of their invocations.
    pub(crate) fn bars_of(&self, alloc: Global, worker: usize) -> Result<Vec<Bar>, AllocError> {
        self.shown
            .iter()
            .filter(|bar| bar.worker == worker)
            .copied()
            .collect(alloc)
    }

    /// Returns the point of a call, 0 if it has none.
    pub(crate) fn point_of(&self, bar: &Bar) -> usize {
        self.points.get(bar.first).copied().unwrap_or(0)
    }

    /// Returns the x of the point of the call at an index of the linearization.
    pub(crate) fn x_of(&self, i: usize) -> u64 {
        self.xs.get(i).copied().unwrap_or(LEFT)
    }
}
