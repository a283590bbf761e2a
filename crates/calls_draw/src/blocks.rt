//! The panels of cells and databases: values as blocks.
use crate::grid::LEFT;
use crate::panels::{CurveStep, Panel};
use crate::picture::{Evidence, Picture};
use crate::sink::{Pen, Pixel, end_text, put_line, put_rect, start_text, xy};
use crate::words::put_value;
use calls_core::{Call, Op, Reply};

/// The height of a block and the gap below it, in pixels.
pub(crate) const BLOCK: u64 = 22;

/// Puts a block with a value.
pub(crate) fn put_block(
    out: &mut Pen<'_>,
    picture: &Picture<'_>,
    class: &[u8],
    object: usize,
    value: usize,
    at: Pixel,
    width: u64,
) {
    put_rect(out, class, at, width, BLOCK - 4);
    let middle = xy(at.x.saturating_add(width / 2), at.y.saturating_add(13));
    start_text(out, b"middle", middle);
    put_value(out, picture, object, value);
    end_text(out);
}

/// Returns the x at which a block ends: that of the first put among these steps, or the right edge.
fn end_of(picture: &Picture<'_>, spots: &[CurveStep]) -> u64 {
    let next = spots.iter().find(|spot| matches!(spot.op, Op::Put(_)));
    next.map_or(picture.grid.right(), |spot| spot.x)
}

/// Puts the values along the linearization, a block from each put to the next.
pub(crate) fn put_values(out: &mut Pen<'_>, picture: &Picture<'_>, panel: &Panel, top: u64) {
    let object = panel.subject.object();
    let spots = panel.spots.as_slice();
    let end = end_of(picture, spots);
    let first = xy(LEFT, top);
    let width = end.saturating_sub(LEFT);
    put_block(out, picture, b"block", object, panel.before, first, width);
    for (i, spot) in spots.iter().enumerate() {
        if matches!(spot.op, Op::Put(_)) {
            let rest = spots.get(i.saturating_add(1)..).unwrap_or(&[]);
            let width = end_of(picture, rest).saturating_sub(spot.x);
            let at = xy(spot.x, top);
            put_block(out, picture, b"block", object, spot.value, at, width);
        }
    }
}

/// Returns the value or item that a call stores, or that it returned.
fn value_of(call: &Call) -> usize {
    match (call.op, call.reply) {
        (Op::Put(n) | Op::Produce(n), _) => n,
        (_, Reply::Number(n)) => n,
        _ => 0,
    }
}

/// Returns how many distinct values these calls have.
fn lanes_in(calls: &[Call]) -> usize {
    let mut lanes = 0usize;
    for (i, call) in calls.iter().enumerate() {
        let before = calls.get(..i).unwrap_or(&[]);
        let is_new = before.iter().all(|other| value_of(other) != value_of(call));
        if is_new {
            lanes = lanes.saturating_add(1);
        }
    }
    lanes
}

/// Returns the lane of a value: how many distinct values the calls before its first one have.
fn lane_of(calls: &[Call], value: usize) -> usize {
    let first = calls.iter().position(|call| value_of(call) == value);
    lanes_in(calls.get(..first.unwrap_or(0)).unwrap_or(&[]))
}

/// Returns the height of all lanes of a certificate, in pixels.
pub(crate) fn lanes_height(evidence: &Evidence<'_>) -> u64 {
    let lanes = lanes_in(evidence.faulty.as_slice()) as u64;
    lanes.saturating_mul(BLOCK)
}

/// Returns the y of the top of a call's lane.
fn lane_y(calls: &[Call], call: &Call, top: u64) -> u64 {
    let lane = lane_of(calls, value_of(call)) as u64;
    top.saturating_add(lane.saturating_mul(BLOCK))
}

/// Puts a line from the response of a call to the invocation of another, if it precedes that one.
fn put_before(
    out: &mut Pen<'_>,
    picture: &Picture<'_>,
    calls: &[Call],
    one: &Call,
    other: &Call,
    top: u64,
) {
    if one.last >= other.first {
        return;
    }
    let half = BLOCK / 2 - 2;
    let from = xy(
        picture.grid.x(one.last),
        lane_y(calls, one, top).saturating_add(half),
    );
    let to = xy(
        picture.grid.x(other.first),
        lane_y(calls, other, top).saturating_add(half),
    );
    put_line(out, b"stair", from, to);
}

/// Puts a line between neighbouring calls if one precedes the other. If the values of a cell
/// alternate, the four calls are two pairs.
fn put_ties(out: &mut Pen<'_>, picture: &Picture<'_>, evidence: &Evidence<'_>, top: u64) {
    let calls = evidence.faulty.as_slice();
    if let [a, b, c, d] = calls {
        if evidence.is_distinct() {
            put_before(out, picture, calls, a, b, top);
            put_before(out, picture, calls, c, d, top);
            return;
        }
    }
    for (i, call) in calls.iter().enumerate() {
        if let Some(other) = calls.get(i.saturating_add(1)) {
            put_before(out, picture, calls, call, other, top);
            put_before(out, picture, calls, other, call, top);
        }
    }
}

/// Puts the calls of a certificate as blocks, in one lane for each value.
pub(crate) fn put_lanes(
    out: &mut Pen<'_>,
    picture: &Picture<'_>,
    evidence: &Evidence<'_>,
    top: u64,
) {
    let object = evidence.refusal.object;
    let calls = evidence.faulty.as_slice();
    put_ties(out, picture, evidence, top);
    for call in calls {
        let x = picture.grid.x(call.first);
        let width = picture.grid.x(call.last).saturating_sub(x);
        let at = xy(x, lane_y(calls, call, top));
        put_block(
            out,
            picture,
            b"block hot",
            object,
            value_of(call),
            at,
            width,
        );
    }
}
