//! The panels of numbers: bands, curves, and the thresholds of pending awaits.
use crate::grid::LEFT;
use crate::panels::{Bounds, Panel, Subject, implied_number};
use crate::picture::{Bar, Picture};
use crate::scale::{Range, Scale};
use crate::sink::{
    Pen, end_path, end_text, go_across, go_along, put_circle, put_line, put_number, start_path,
    start_text, xy,
};
use crate::words::{put_subject, put_worker};
use calls_core::Op;

/// Returns the threshold of a pending await.
fn awaited_threshold(bar: &Bar) -> Option<usize> {
    match (bar.op, bar.end) {
        (Op::Await(n), None) => Some(n),
        _ => None,
    }
}

/// Returns the range, extended to these bounds.
fn bounds_range(range: Range, bounds: &[Bounds]) -> Range {
    let mut range = range;
    for one in bounds {
        range = range.with(one.least).with(one.most);
    }
    range
}

/// Returns the range of the numbers that a panel shows. A pending await's threshold is left out if
/// it is more than 40 above the greatest bound.
pub(crate) fn range_of(picture: &Picture<'_>, panel: &Panel) -> Range {
    let first = match panel.bounds.first() {
        Some(bounds) => bounds.least,
        None => panel.before,
    };
    let mut range = bounds_range(Range::of(first), &panel.bounds);
    let most = range.high.saturating_add(40);
    for bar in &picture.shown {
        if panel.subject.shows(bar.object, bar.op) {
            let waited = awaited_threshold(bar).filter(|n| *n <= most);
            range = waited.map_or(range, |n| range.with(n));
        }
    }
    range
}

/// Puts the name of a panel to the left of it.
pub(crate) fn put_panel_name(out: &mut Pen<'_>, picture: &Picture<'_>, subject: Subject, y: u64) {
    start_text(out, b"name", xy(LEFT - 34, y));
    put_subject(out, picture, subject);
    end_text(out);
}

/// The most numbers that are written at the left of a panel.
const NUMBERS: usize = 16;

/// Puts the numbers at the left of a panel, and a line for each.
pub(crate) fn put_scale(out: &mut Pen<'_>, picture: &Picture<'_>, scale: &Scale) {
    let Range { low, high } = scale.range;
    let step = scale.range.step();
    let right = picture.grid.right();
    for i in 0..NUMBERS {
        let n = low.saturating_add(step.saturating_mul(i));
        if n > high {
            return;
        }
        let y = scale.y(n);
        put_line(out, b"grid", xy(LEFT, y), xy(right, y));
        let at = xy(LEFT - 5, y.saturating_add(3));
        put_number(out, b"scale", at, n as u64);
    }
}

/// Puts the upper edge of a band.
fn put_most(out: &mut Pen<'_>, picture: &Picture<'_>, scale: &Scale, panel: &Panel) {
    let from = picture.window().from;
    for (i, bounds) in panel.bounds.iter().enumerate() {
        go_along(out, scale.y(bounds.most).saturating_sub(2));
        go_across(out, picture.grid.x(from.saturating_add(i)));
    }
}

/// Puts the lower edge of a band, from right to left.
fn put_least(out: &mut Pen<'_>, picture: &Picture<'_>, scale: &Scale, panel: &Panel) {
    let from = picture.window().from;
    for (i, bounds) in panel.bounds.iter().enumerate().rev() {
        go_along(out, scale.y(bounds.least).saturating_add(2));
        go_across(out, picture.grid.moment(from.saturating_add(i)));
    }
}

/// Puts the band between the bounds.
pub(crate) fn put_band(out: &mut Pen<'_>, picture: &Picture<'_>, scale: &Scale, panel: &Panel) {
    let Some(first) = panel.bounds.first() else {
        return;
    };
    let at = xy(LEFT, scale.y(first.most).saturating_sub(2));
    start_path(out, b"band", at);
    put_most(out, picture, scale, panel);
    put_least(out, picture, scale, panel);
    end_path(out, true);
}

/// Puts the curve of the number along the linearization.
pub(crate) fn put_curve(out: &mut Pen<'_>, picture: &Picture<'_>, scale: &Scale, panel: &Panel) {
    let at = xy(LEFT, scale.y(panel.before));
    start_path(out, b"curve", at);
    for spot in &panel.spots {
        go_across(out, spot.x);
        go_along(out, scale.y(spot.value));
    }
    go_across(out, picture.grid.right());
    end_path(out, false);
}

/// Puts a dot on the curve for each read and await.
pub(crate) fn put_seen(out: &mut Pen<'_>, scale: &Scale, panel: &Panel) {
    for spot in &panel.spots {
        if matches!(spot.op, Op::Read | Op::Await(_)) {
            let at = xy(spot.x, scale.y(spot.value));
            put_circle(out, b"seen", at, 3);
        }
    }
}

/// Puts the threshold of a pending await, and the worker that waits for it.
fn put_waiting(
    out: &mut Pen<'_>,
    picture: &Picture<'_>,
    scale: &Scale,
    bar: &Bar,
    threshold: usize,
) {
    let y = scale.y(threshold).saturating_sub(3);
    let x = picture.grid.x(bar.first);
    let right = picture.grid.right();
    put_line(out, b"waits", xy(x, y), xy(right, y));
    let at = xy(x.saturating_add(3), y.saturating_sub(4));
    start_text(out, b"small", at);
    put_worker(out, picture, bar.worker);
    out.put(b" waits for ");
    out.put_number(threshold as u64);
    end_text(out);
}

/// Puts the thresholds of the pending awaits.
pub(crate) fn put_awaited(out: &mut Pen<'_>, picture: &Picture<'_>, scale: &Scale, panel: &Panel) {
    for bar in &picture.shown {
        if panel.subject.shows(bar.object, bar.op) {
            if let Some(threshold) = awaited_threshold(bar).filter(|n| *n <= scale.range.high) {
                put_waiting(out, picture, scale, bar, threshold);
            }
        }
    }
}

/// Puts the number that each completed ticket drew, from its invocation to its response.
pub(crate) fn put_levels(out: &mut Pen<'_>, picture: &Picture<'_>, scale: &Scale, panel: &Panel) {
    for bar in &picture.shown {
        if panel.subject.shows(bar.object, bar.op) {
            if let Some((last, reply)) = bar.end {
                let said = implied_number(bar.op, reply);
                put_level(out, picture, scale, b"level", (bar.first, last), said);
            }
        }
    }
}

/// Puts the number that a call says, if it says one, from its invocation to its response.
pub(crate) fn put_level(
    out: &mut Pen<'_>,
    picture: &Picture<'_>,
    scale: &Scale,
    class: &[u8],
    ends: (usize, usize),
    said: Option<usize>,
) {
    if let Some(n) = said {
        let y = scale.y(n);
        put_line(
            out,
            class,
            xy(picture.grid.x(ends.0), y),
            xy(picture.grid.x(ends.1), y),
        );
    }
}
