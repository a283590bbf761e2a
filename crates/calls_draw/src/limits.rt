//! Limits of how many items there are, were put in or were taken, which show a fault of a buffer.
use crate::grid::LEFT;
use crate::picture::Picture;
use crate::scale::{Range, Scale};
use crate::sink::{Pen, end_text, put_line, start_text, xy};
use calls_buffers::Flow;
use calls_schedule::Bound;
use calls_turns::{Clash, Crowd, Step};
use calls_verdict::Fault;
use std::alloc::{AllocError, Global};

/// What is known of a number of items.
#[derive(Clone, Copy, Debug, PartialEq, Eq)]
pub(crate) enum Claim {
    /// At least so many were put in or taken, from the position on.
    Least(Flow, usize),
    /// At most so many were, before the position.
    Most(Flow, usize),
    /// At least so many are in the buffer after the event at the position.
    Held(usize),
    /// So many of so many first ones were not taken before the position, which can't be.
    Left(usize, usize),
}

/// A limit of a number of items, and a position.
#[derive(Clone, Copy, Debug, PartialEq, Eq)]
pub(crate) struct Limit {
    pub(crate) at: usize,
    pub(crate) claim: Claim,
}

/// Returns the limit by a bound on how many items were taken.
fn limit_of(bound: &Bound) -> Limit {
    let claim = if bound.jobs <= bound.due {
        Claim::Most(Flow::Out, bound.due.saturating_sub(bound.jobs))
    } else {
        Claim::Left(bound.jobs, bound.due)
    };
    Limit {
        at: bound.at,
        claim,
    }
}

/// Adds the limits by these bounds.
fn add_bounds(limits: &mut Vec<Limit>, bounds: &[Bound]) -> Result<(), AllocError> {
    for bound in bounds {
        limits.push(limit_of(bound))?;
    }
    Ok(())
}

/// Returns how many items at most can be moved.
fn most_of(clash: &Clash) -> usize {
    match clash {
        Clash::Closed(turn) => *turn,
        Clash::Few { shortages, .. } => shortages.first().map_or(0, |shortage| shortage.turn),
        Clash::Full(crowd) => crowd.turn,
    }
}

/// Returns the position by which no more can be moved, after these steps.
fn place_of(steps: &[Step], clash: &Clash) -> usize {
    match clash {
        Clash::Full(crowd) => crowd.at,
        Clash::Closed(_) | Clash::Few { .. } => steps.last().map_or(0, |step| step.at),
    }
}

/// Adds how many items have to be moved for those that consumes do not return.
fn add_crowd(limits: &mut Vec<Limit>, flow: Flow, crowd: &Crowd) -> Result<(), AllocError> {
    limits.push(Limit {
        at: crowd.at,
        claim: Claim::Least(flow, crowd.turn.saturating_add(1)),
    })?;
    Ok(())
}

/// Adds the limits by these steps, and how many items at most can be moved.
fn add_steps(
    limits: &mut Vec<Limit>,
    flow: Flow,
    steps: &[Step],
    clash: &Clash,
) -> Result<(), AllocError> {
    for step in steps {
        limits.push(Limit {
            at: step.at,
            claim: Claim::Least(flow, step.count),
        })?;
    }
    if let Clash::Full(crowd) = clash {
        add_crowd(limits, flow, crowd)?;
    }
    limits.push(Limit {
        at: place_of(steps, clash),
        claim: Claim::Most(flow, most_of(clash)),
    })?;
    Ok(())
}

/// Returns the limits that show a fault.
pub(crate) fn limits_of(alloc: Global, fault: &Fault) -> Result<Vec<Limit>, AllocError> {
    let mut limits = Vec::new(alloc);
    let Fault::Items(fault) = fault else {
        return Ok(limits);
    };
    match fault {
        calls_buffers::Fault::Crowded {
            call,
            left,
            pending,
        } => limits.push(Limit {
            at: call.last,
            claim: Claim::Held(left.saturating_sub(*pending)),
        })?,
        calls_buffers::Fault::Overdue { bounds } => add_bounds(&mut limits, bounds)?,
        calls_buffers::Fault::Outrun { flow, steps, clash } => {
            add_steps(&mut limits, *flow, steps, clash)?;
        }
        _ => {}
    }
    Ok(limits)
}

impl Limit {
    /// Returns the number at which it is drawn.
    pub(crate) fn number(&self) -> usize {
        match self.claim {
            Claim::Least(_, n) | Claim::Most(_, n) | Claim::Held(n) => n,
            Claim::Left(_, _) => 0,
        }
    }

    /// Returns whether it ends at its position.
    fn ends(&self) -> bool {
        matches!(self.claim, Claim::Most(_, _) | Claim::Left(_, _))
    }

    /// Returns the style class of its line.
    fn class(&self) -> &'static [u8] {
        match self.claim {
            Claim::Most(_, _) => b"given",
            _ => b"stair",
        }
    }
}

/// Returns the range, extended to the numbers of these limits.
pub(crate) fn limits_range(range: Range, limits: &[Limit]) -> Range {
    let mut range = range;
    for limit in limits {
        range = range.with(limit.number());
    }
    range
}

/// Puts what happened to so many items.
fn put_moved(out: &mut Pen<'_>, n: usize, flow: Flow) {
    out.put_number(n as u64);
    match flow {
        Flow::In => out.put(b" put in"),
        Flow::Out => out.put(b" taken"),
    }
}

/// Puts what a limit says, in words.
pub(crate) fn put_claim(out: &mut Pen<'_>, limit: &Limit) {
    match limit.claim {
        Claim::Least(flow, n) => {
            out.put(b"at least ");
            put_moved(out, n, flow);
        }
        Claim::Most(flow, n) => {
            out.put(b"at most ");
            put_moved(out, n, flow);
        }
        Claim::Held(n) => {
            out.put(b"at least ");
            out.put_number(n as u64);
            out.put(b" inside");
        }
        Claim::Left(jobs, due) => {
            out.put(b"of the first ");
            out.put_number(due as u64);
            out.put(b", ");
            out.put_number(jobs as u64);
            out.put(b" not taken");
        }
    }
}

/// Puts a limit as a line of text.
pub(crate) fn put_limit_line(out: &mut Pen<'_>, limit: &Limit) {
    out.put(b"limit: ");
    put_claim(out, limit);
    match limit.claim {
        Claim::Least(_, _) => out.put(b" from event "),
        Claim::Most(_, _) | Claim::Left(_, _) => out.put(b" to event "),
        Claim::Held(_) => out.put(b" at event "),
    }
    out.put_number(limit.at as u64);
    out.put(b"\n");
}

/// Returns the x's between which a limit is drawn.
fn ends_of(picture: &Picture<'_>, limit: &Limit) -> (u64, u64) {
    let x = picture.grid.x(limit.at);
    match limit.claim {
        Claim::Least(_, _) => (x, picture.grid.right()),
        Claim::Held(_) => (x, picture.grid.x(limit.at.saturating_add(1))),
        Claim::Most(_, _) | Claim::Left(_, _) => (LEFT, x),
    }
}

/// Puts a limit: a line, and its words at its position, above a line that begins there and below one
/// that ends there.
fn put_limit(out: &mut Pen<'_>, picture: &Picture<'_>, scale: &Scale, limit: &Limit) {
    let y = scale.y(limit.number());
    let (from, to) = ends_of(picture, limit);
    put_line(out, limit.class(), xy(from, y), xy(to, y));
    if limit.ends() {
        start_text(
            out,
            b"why end",
            xy(to.saturating_sub(5), y.saturating_add(12)),
        );
    } else {
        start_text(out, b"why", xy(from.saturating_add(4), y.saturating_sub(5)));
    }
    put_claim(out, limit);
    end_text(out);
}

/// Puts these limits.
pub(crate) fn put_limits(
    out: &mut Pen<'_>,
    picture: &Picture<'_>,
    scale: &Scale,
    limits: &[Limit],
) {
    for limit in limits {
        put_limit(out, picture, scale, limit);
    }
}
