//! The rows of the workers: bars, and marks at the linearization points.
use crate::grid::{LEFT, TOP, below, row};
use crate::lines::parts_of;
use crate::picture::{Bar, BarOutline, Picture};
use crate::sink::{
    Pen, Pixel, PutResult, end_text, put_attribute, put_diamond, put_line, put_number, put_rect,
    put_text, start_text, xy,
};
use crate::words::{class_of, put_whole, put_worker};
use calls_core::{Op, Reply};
use std::alloc::Global;

/// Half the height of a bar.
const HALF: u64 = 11;

/// Puts the titles of the numbers above the columns, and how many events there are if not all are
/// shown.
pub(crate) fn put_column_names(out: &mut Pen<'_>, picture: &Picture<'_>) {
    let x = LEFT - 14;
    start_text(out, b"scale", xy(x, 20));
    out.put(b"event");
    if picture.window().len() < picture.events.len() {
        out.put(b" of ");
        out.put_number(picture.events.len() as u64);
    }
    end_text(out);
    put_text(out, b"scale", xy(x, 32), b"line");
}

/// Puts the columns of the events.
pub(crate) fn put_columns(out: &mut Pen<'_>, picture: &Picture<'_>, rows: usize) {
    let window = picture.window();
    for position in window.from..window.to {
        let x = picture.grid.x(position);
        put_number(out, b"event", xy(x, 20), position as u64);
        let line = picture.first_line.saturating_add(position as u64);
        put_number(out, b"line", xy(x, 32), line);
        let from = xy(x, 38);
        let to = xy(x, below(rows));
        put_line(out, b"grid", from, to);
    }
}

/// Puts a text, in smaller letters if it needs more than this room.
fn put_squeezed(out: &mut Pen<'_>, class: &[u8], at: Pixel, text: &[u8], room: u64) {
    let letters = text.len() as u64;
    out.put(b"<text class='");
    out.put(class);
    if letters.saturating_mul(6) > room {
        if letters.saturating_mul(5) > room {
            out.put(b" tiny");
        } else {
            out.put(b" long");
        }
    }
    out.put(b"'");
    put_attribute(out, b"x", at.x);
    put_attribute(out, b"y", at.y);
    out.put(b">");
    put_cut(out, text, room);
    end_text(out);
}

/// Puts as much of a text as this room has in small letters, and `~` if that is not all.
fn put_cut(out: &mut Pen<'_>, text: &[u8], room: u64) {
    let most = (room.saturating_mul(2) / 7).max(2) as usize;
    if text.len() <= most {
        out.put(text);
        return;
    }
    out.put(text.get(..most.saturating_sub(1)).unwrap_or(text));
    out.put(b"~");
}

/// Puts the outline of a bar, if a certificate names or counts it.
fn put_outline(out: &mut Pen<'_>, picture: &Picture<'_>, bar: &Bar, at: Pixel, width: u64) {
    let Some(evidence) = &picture.evidence else {
        return;
    };
    let class: &[u8] = match evidence.outline(bar) {
        Some(BarOutline::Hot) => b"hot",
        Some(BarOutline::Warm) => b"warm",
        None => return,
    };
    let place = xy(at.x.saturating_sub(3), at.y.saturating_sub(3));
    put_rect(out, class, place, width.saturating_add(6), 28);
}

/// Puts the rectangle of a bar.
fn put_bar_rect(out: &mut Pen<'_>, bar: &Bar, at: Pixel, width: u64) {
    out.put(b"<rect class='bar ");
    out.put(class_of(bar.op));
    if bar.end.is_none() {
        out.put(b" open");
    }
    out.put(b"' rx='4'");
    put_attribute(out, b"x", at.x);
    put_attribute(out, b"y", at.y);
    put_attribute(out, b"width", width);
    put_attribute(out, b"height", HALF.saturating_mul(2));
    out.put(b"/>\n");
}

/// Puts a bar with its texts. The next bar of the row begins at the position `next`.
fn put_bar(out: &mut Pen<'_>, picture: &Picture<'_>, bar: &Bar, next: usize, y: u64) {
    let x = picture.grid.x(bar.first);
    let end = picture.grid.x(bar.last());
    let at = xy(x.saturating_add(2), y.saturating_sub(HALF));
    let width = end.saturating_sub(x).saturating_sub(4).max(4);
    let room = picture.grid.x(next).saturating_sub(x);
    out.put(b"<g><title>");
    put_whole(out, picture, bar);
    out.put(b"</title>\n");
    put_bar_rect(out, bar, at, width);
    put_outline(out, picture, bar, at, width);
    put_labels(out, picture, bar, xy(x, y), room);
    put_returned(out, picture, bar, xy(end, y), room);
    out.put(b"</g>\n");
}

/// Puts what a call returned below the end of its bar, nothing if that is `done`.
fn put_returned(out: &mut Pen<'_>, picture: &Picture<'_>, bar: &Bar, at: Pixel, room: u64) {
    let Some((last, reply)) = bar.end else {
        return;
    };
    if matches!(reply, Reply::Done) {
        return;
    }
    let place = xy(at.x.saturating_sub(2), at.y.saturating_add(25));
    let text = picture.lines.event_text(last);
    put_squeezed(out, b"reply", place, text, room.max(40));
}

/// Puts the operation of a call above its bar, and the object if there are several.
fn put_labels(out: &mut Pen<'_>, picture: &Picture<'_>, bar: &Bar, at: Pixel, room: u64) {
    let x = at.x.saturating_add(2);
    let low = xy(x, at.y.saturating_sub(18));
    let high = xy(x, at.y.saturating_sub(28));
    let act = picture.lines.event_text(bar.first);
    let (verb, object, rest) = parts_of(act);
    let verb = act.get(..verb.len()).unwrap_or(act);
    match (picture.is_single, bar.op) {
        (true, _) => put_act(out, low, verb, rest, room),
        (false, Op::PBoth(_, _)) => {
            put_squeezed(out, b"act", high, verb, room);
            let both = act.get(verb.len().saturating_add(1)..).unwrap_or(object);
            put_squeezed(out, b"act", low, both, room);
        }
        (false, _) => {
            put_act(out, high, verb, rest, room);
            put_squeezed(out, b"act", low, object, room);
        }
    }
}

/// Puts a verb, and the arguments of a call other than its object.
fn put_act(out: &mut Pen<'_>, at: Pixel, verb: &[u8], rest: &[u8], room: u64) {
    let letters = (verb.len() as u64).saturating_add(1);
    let used = letters.saturating_mul(6);
    put_squeezed(out, b"act", at, verb, room);
    if !rest.is_empty() {
        let place = xy(at.x.saturating_add(used), at.y);
        put_squeezed(out, b"act", place, rest, room.saturating_sub(used).max(12));
    }
}

/// Puts the name of a worker, and the line of its row.
fn put_row_name(out: &mut Pen<'_>, picture: &Picture<'_>, worker: usize, y: u64) {
    let at = xy(LEFT - 14, y.saturating_add(4));
    start_text(out, b"name", at);
    put_worker(out, picture, worker);
    end_text(out);
    let right = picture.grid.right();
    put_line(out, b"zero", xy(LEFT, y), xy(right, y));
}

/// Puts the row of a worker.
fn put_row(alloc: Global, out: &mut Pen<'_>, picture: &Picture<'_>, worker: usize) -> PutResult {
    let y = row(picture.rows_before(worker));
    put_row_name(out, picture, worker, y);
    let bars = picture.bars_of(alloc, worker)?;
    for (i, bar) in bars.iter().enumerate() {
        let next = match bars.get(i.saturating_add(1)) {
            Some(next) => next.first,
            None => picture.window().to,
        };
        put_bar(out, picture, bar, next, y);
    }
    Ok(())
}

/// Puts the rows of the workers.
pub(crate) fn put_rows(alloc: Global, out: &mut Pen<'_>, picture: &Picture<'_>) -> PutResult {
    for worker in 0..picture.workers() {
        if picture.choice.has_worker(worker) {
            put_row(alloc, out, picture, worker)?;
        }
    }
    Ok(())
}

/// Puts the marks at the linearization points of the calls that are drawn.
pub(crate) fn put_marks(out: &mut Pen<'_>, picture: &Picture<'_>) {
    for i in 0..picture.order.len() {
        let placed = picture.order.at(i);
        let call = &placed.call;
        let is_shown = picture.window().has_point(placed.point)
            && picture.choice.has(call.worker, call.object, call.op);
        if is_shown {
            let y = row(picture.rows_before(call.worker));
            put_diamond(out, xy(picture.x_of(i), y));
        }
    }
}

/// Puts the column of the first faulty event.
pub(crate) fn put_faulty_column(out: &mut Pen<'_>, picture: &Picture<'_>, rows: usize) {
    let Some(evidence) = &picture.evidence else {
        return;
    };
    let at = evidence.refusal.at;
    if !picture.window().meets(at, at) {
        return;
    }
    let x = picture.grid.x(at);
    let half = picture.grid.width / 3;
    let place = xy(x.saturating_sub(half), TOP - 8);
    let height = below(rows).saturating_sub(TOP - 8);
    put_rect(out, b"wrong", place, half.saturating_mul(2), height);
}
