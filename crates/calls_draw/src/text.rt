//! The whole picture, as a text for a terminal.
use crate::limits::put_limit_line;
use crate::panels::{CurveStep, Panel, Subject, panels_of};
use crate::picture::{Bar, Evidence, Picture};
use crate::sink::{Pen, PutResult};
use crate::words::{put_subject, put_value, put_whole, put_worker, worker_letters};
use calls_core::Op;
use calls_shapes::Stair;
use ec_text::CachedDecimal;
use std::alloc::Global;

/// The width of the column of names, in letters.
const NAME: usize = 18;

/// The width of the column of an event, in letters: the last is that of the event, those before it
/// are the moment before the event.
#[derive(Clone, Copy, Debug, PartialEq, Eq)]
struct ColumnWidth {
    count: usize,
}

/// Returns the width that the columns of a picture need.
fn column_width(picture: &Picture<'_>) -> ColumnWidth {
    let last = picture
        .window()
        .to
        .saturating_add(picture.first_line as usize);
    if last < 1000 {
        ColumnWidth { count: 4 }
    } else {
        ColumnWidth { count: 8 }
    }
}

/// Puts a byte `count` times.
fn put_times(out: &mut Pen<'_>, byte: u8, count: usize) {
    for _place in 0..count {
        out.put_byte(byte);
    }
}

/// Puts a number, right-aligned in a width.
fn put_padded(out: &mut Pen<'_>, n: u64, width: usize) {
    let digits = CachedDecimal::new(n).digits();
    put_times(out, b' ', width.saturating_sub(digits.bytes().len()));
    out.put_number(n);
}

/// Puts the spaces that fill the column of names after this many letters.
fn put_rest_of_name(out: &mut Pen<'_>, letters: usize) {
    put_times(out, b' ', NAME.saturating_sub(letters));
}

/// Puts a row of numbers after a word: for each event that is shown, `first` and its position
/// added.
fn put_heads(
    out: &mut Pen<'_>,
    word: &[u8],
    picture: &Picture<'_>,
    first: u64,
    width: ColumnWidth,
) {
    let window = picture.window();
    out.put(word);
    put_rest_of_name(out, word.len());
    for position in window.from..window.to {
        put_padded(out, first.saturating_add(position as u64), width.count);
    }
    out.put(b"\n");
}

/// Puts the moment before a position: dashes within a call, with a star at its linearization point.
fn put_moment(
    out: &mut Pen<'_>,
    picture: &Picture<'_>,
    bars: &[Bar],
    position: usize,
    width: ColumnWidth,
) {
    let room = width.count.saturating_sub(1);
    let open = bars
        .iter()
        .find(|bar| bar.first < position && position <= bar.last());
    let Some(bar) = open else {
        put_times(out, b' ', room);
        return;
    };
    if picture.point_of(bar) == position {
        out.put(b"-*");
        put_times(out, b'-', room.saturating_sub(2));
    } else {
        put_times(out, b'-', room);
    }
}

/// Puts the mark at a position: of an invocation, a response, the inside of a bar, or nothing.
fn put_event(out: &mut Pen<'_>, bars: &[Bar], position: usize) {
    if bars.iter().any(|bar| bar.first == position) {
        out.put(b"(");
    } else if bars.iter().any(|bar| bar.last() == position) {
        out.put(b")");
    } else if bars
        .iter()
        .any(|bar| bar.first < position && position < bar.last())
    {
        out.put(b"-");
    } else {
        out.put(b" ");
    }
}

/// Puts the row of a worker.
fn put_row(
    alloc: Global,
    out: &mut Pen<'_>,
    picture: &Picture<'_>,
    worker: usize,
    width: ColumnWidth,
) -> PutResult {
    let bars = picture.bars_of(alloc, worker)?;
    let window = picture.window();
    put_worker(out, picture, worker);
    put_rest_of_name(out, worker_letters(picture, worker));
    for position in window.from..window.to {
        put_moment(out, picture, &bars, position, width);
        put_event(out, &bars, position);
    }
    put_moment(out, picture, &bars, window.to, width);
    if bars.iter().any(|bar| bar.last() >= window.to) {
        out.put(b">");
    }
    out.put(b"\n");
    Ok(())
}

/// Puts the rows of the workers.
fn put_rows(
    alloc: Global,
    out: &mut Pen<'_>,
    picture: &Picture<'_>,
    width: ColumnWidth,
) -> PutResult {
    for worker in 0..picture.workers() {
        if picture.choice.has_worker(worker) {
            put_row(alloc, out, picture, worker, width)?;
        }
    }
    Ok(())
}

/// Returns the number of a panel immediately before the event at a position.
fn number_at(panel: &Panel, position: usize) -> usize {
    let last = panel.spots.iter().rev().find(|spot| spot.point <= position);
    last.map_or(panel.before, |spot| spot.value)
}

/// Puts the number of an object along the linearization, before each event.
fn put_numbers(out: &mut Pen<'_>, picture: &Picture<'_>, panel: &Panel, width: ColumnWidth) {
    let window = picture.window();
    put_rest_of_name(out, 5);
    for position in window.from..=window.to {
        let number = number_at(panel, position) as u64;
        put_padded(out, number, width.count.saturating_sub(1));
        out.put(b" ");
    }
    out.put(b"\n");
}

/// Puts a row of bounds after a word, before each event.
fn put_bounds(out: &mut Pen<'_>, word: &[u8], numbers: &[usize], width: ColumnWidth) {
    out.put(word);
    put_rest_of_name(out, word.len());
    for number in numbers {
        put_padded(out, *number as u64, width.count.saturating_sub(1));
        out.put(b" ");
    }
    out.put(b"\n");
}

/// Puts the rows of a panel of numbers.
fn put_panel_rows(
    alloc: Global,
    out: &mut Pen<'_>,
    picture: &Picture<'_>,
    panel: &Panel,
    width: ColumnWidth,
) -> PutResult {
    let least: Vec<usize> = panel.bounds.iter().map(|it| it.least).collect(alloc)?;
    let most: Vec<usize> = panel.bounds.iter().map(|it| it.most).collect(alloc)?;
    put_subject(out, picture, panel.subject);
    out.put(b"\n");
    if picture.order.len() > 0 {
        out.put(b"count");
        put_numbers(out, picture, panel, width);
    }
    put_bounds(out, b"least", &least, width);
    put_bounds(out, b"most", &most, width);
    Ok(())
}

/// Puts a value of a cell or a database, and the linearization point from which on it has that
/// value.
fn put_later(out: &mut Pen<'_>, picture: &Picture<'_>, panel: &Panel, spot: &CurveStep) {
    let object = panel.subject.object();
    put_subject(out, picture, panel.subject);
    out.put(b" ");
    put_value(out, picture, object, spot.value);
    out.put(b", from point ");
    out.put_number(spot.point as u64);
    out.put(b"\n");
}

/// Puts the values of a cell or a database along the linearization.
fn put_values(out: &mut Pen<'_>, picture: &Picture<'_>, panel: &Panel) {
    let object = panel.subject.object();
    put_subject(out, picture, panel.subject);
    out.put(b" ");
    put_value(out, picture, object, panel.before);
    out.put(b" before\n");
    for spot in &panel.spots {
        if matches!(spot.op, Op::Put(_)) {
            put_later(out, picture, panel, spot);
        }
    }
}

/// Puts the panels.
fn put_panels(
    alloc: Global,
    out: &mut Pen<'_>,
    picture: &Picture<'_>,
    width: ColumnWidth,
) -> PutResult {
    let panels = panels_of(alloc, picture)?;
    for panel in &panels {
        if !matches!(panel.subject, Subject::Values(_)) {
            put_panel_rows(alloc, out, picture, panel, width)?;
        } else if picture.order.len() > 0 {
            put_values(out, picture, panel);
        }
    }
    Ok(())
}

/// Puts a line for each call that is drawn.
fn put_calls(out: &mut Pen<'_>, picture: &Picture<'_>) {
    for bar in &picture.shown {
        put_whole(out, picture, bar);
        out.put(b"\n");
    }
}

/// Puts a line for each call that a certificate names.
fn put_named(out: &mut Pen<'_>, picture: &Picture<'_>, evidence: &Evidence<'_>) {
    for call in &evidence.faulty {
        let mut bar = Bar::of(call);
        if call.last >= picture.events.len() {
            bar.end = None;
        }
        out.put(b"named: ");
        put_whole(out, picture, &bar);
        out.put(b"\n");
    }
}

/// Puts the line of a stair.
fn put_stair(out: &mut Pen<'_>, stair: &Stair) {
    out.put(b"stair: ");
    out.put_number(stair.span.base as u64);
    out.put(b" from event ");
    out.put_number(stair.span.from as u64);
    if !stair.rises.is_empty() {
        out.put(b", up at");
    }
    for rise in &stair.rises {
        out.put(b" ");
        out.put_number(*rise as u64);
    }
    out.put(b", to event ");
    out.put_number(stair.span.to as u64);
    out.put(b"\n");
}

/// Puts the lines of the stairs.
fn put_stairs(out: &mut Pen<'_>, evidence: &Evidence<'_>) {
    for stair in &evidence.stairs {
        put_stair(out, stair);
    }
}

/// Puts the lines of the limits.
fn put_limits(out: &mut Pen<'_>, evidence: &Evidence<'_>) {
    for limit in &evidence.limits {
        put_limit_line(out, limit);
    }
}

/// Puts a picture as a text.
pub(crate) fn put_plain(alloc: Global, out: &mut Pen<'_>, picture: &Picture<'_>) -> PutResult {
    let width = column_width(picture);
    put_heads(out, b"event", picture, 0, width);
    put_heads(out, b"line", picture, picture.first_line, width);
    put_rows(alloc, out, picture, width)?;
    put_panels(alloc, out, picture, width)?;
    out.put(b"\n");
    put_calls(out, picture);
    if let Some(evidence) = &picture.evidence {
        put_named(out, picture, evidence);
        put_stairs(out, evidence);
        put_limits(out, evidence);
    }
    out.put(picture.note);
    Ok(())
}
