//! The picture as SVG.

use crate::elements::{PutResult, put_line, put_number, put_row_name, xy};
use crate::findings::{put_arrow, put_shade};
use crate::note::{NoteLines, put_note};
use crate::shapes::{put_bar, put_dot, put_mark, put_open_bar};
use crate::sheet::{LEFT, Scale, Sheet, greatest, least};
use crate::style::{OPENING, STYLE};
use ec_count::WorkerId;
use ec_draw::{Curve, CurveSource, Dot};
use std::alloc::Global;

/// Puts the beginning of a picture.
fn put_header(out: &mut String, width: u64, height: u64) -> PutResult {
    write!(out, "{OPENING} width='{width}' height='{height}'")?;
    write!(out, " viewBox='0 0 {width} {height}'>\n{STYLE}")
}

/// Puts the row of a worker.
fn put_row(out: &mut String, sheet: &Sheet<'_>, worker: WorkerId) -> PutResult {
    let y = sheet.row(worker);
    let name = sheet.names.worker(worker);
    put_row_name(out, xy(124, y + 47), name)?;
    let from = xy(LEFT, y + 43);
    put_line(out, "zero", from, from.at(sheet.width()))
}

/// Puts the rows of the workers that are drawn.
fn put_rows(out: &mut String, sheet: &Sheet<'_>) -> PutResult {
    for number in 0..sheet.workers {
        if let Some(worker) = WorkerId::new(number) {
            if sheet.chosen.draws_worker(worker) {
                put_row(out, sheet, worker)?;
            }
        }
    }
    Ok(())
}

/// Puts the column of an entry.
fn put_column(out: &mut String, sheet: &Sheet<'_>, dot: &Dot) -> PutResult {
    let x = sheet.edge(dot.position);
    let y = sheet.below();
    put_line(out, "grid", xy(x, 34), xy(x, y))?;
    let x = sheet.centre(dot.position);
    put_number(out, "entry", xy(x, 30), dot.position as u64)
}

/// Puts the line of a curve. It is at a moment's number up to the middle of the next entry's
/// column.
fn put_path(out: &mut String, scale: &Scale, curve: &Curve) -> PutResult {
    let class = match curve.object {
        CurveSource::Count(_) => "curve",
        CurveSource::Balance(_) => "balance",
    };
    let first = curve.heights.first().copied().unwrap_or(0);
    write!(out, "<path class='{class}' d='M 136 {}", scale.level(first))?;
    let mut x = 178u64;
    for number in curve.heights.as_slice() {
        write!(out, " V {} H {x}", scale.level(*number))?;
        x = x.saturating_add(84);
    }
    out.push_str("'/>\n")
}

/// Puts a curve, with its name and its least and its greatest number.
fn put_curve(out: &mut String, sheet: &Sheet<'_>, number: usize, curve: &Curve) -> PutResult {
    let y = sheet.base(number);
    let from = xy(LEFT, y);
    put_line(out, "zero", from, from.at(sheet.width()))?;
    put_row_name(out, xy(124, y - 20), sheet.names.curve(&curve.object))?;
    put_number(out, "count", xy(124, y), least(curve))?;
    if least(curve) != greatest(curve) {
        put_number(out, "count", xy(124, y - 44), greatest(curve))?;
    }
    put_path(out, &sheet.scale(number, curve), curve)
}

/// Puts the curves that are drawn.
fn put_curves(out: &mut String, sheet: &Sheet<'_>) -> PutResult {
    for (number, curve) in sheet.picture.curves.iter().enumerate() {
        if sheet.chosen.draws_curve(&curve.object) {
            put_curve(out, sheet, number, curve)?;
        }
    }
    Ok(())
}

/// Puts what is drawn before the calls: the rows, the columns and the curves.
fn put_back(out: &mut String, sheet: &Sheet<'_>) -> PutResult {
    put_rows(out, sheet)?;
    for dot in sheet.picture.dots.as_slice() {
        put_column(out, sheet, dot)?;
    }
    put_curves(out, sheet)
}

/// Puts what the audits of groups find.
fn put_findings(out: &mut String, sheet: &Sheet<'_>) -> PutResult {
    for shade in sheet.picture.shades.as_slice() {
        if sheet.chosen.draws_shade(shade) {
            put_shade(out, sheet, shade)?;
        }
    }
    for arrow in sheet.picture.arrows.as_slice() {
        if sheet.chosen.draws_arrow(arrow) {
            put_arrow(out, sheet, arrow)?;
        }
    }
    Ok(())
}

/// Puts the bars of the calls.
fn put_bars(out: &mut String, sheet: &Sheet<'_>) -> PutResult {
    for placed in sheet.picture.calls.as_slice() {
        if sheet.chosen.draws(placed.call.worker, &placed.call.op) {
            put_bar(out, sheet, placed)?;
        }
    }
    for begun in sheet.picture.begun.as_slice() {
        if sheet.chosen.draws(begun.worker, &begun.op) {
            put_open_bar(out, sheet, begun)?;
        }
    }
    Ok(())
}

/// Puts the dots of the entries, and the marks at the linearization points.
fn put_dots_and_points(out: &mut String, sheet: &Sheet<'_>) -> PutResult {
    for dot in sheet.picture.dots.as_slice() {
        if sheet.chosen.draws(dot.worker, &dot.op) {
            put_dot(out, sheet, dot)?;
        }
    }
    for placed in sheet.picture.calls.as_slice() {
        if sheet.chosen.draws(placed.call.worker, &placed.call.op) {
            put_mark(out, sheet, placed)?;
        }
    }
    Ok(())
}

/// Puts a picture as SVG.
pub(crate) fn put_svg(out: &mut String, alloc: Global, sheet: &Sheet<'_>) -> PutResult {
    let note_lines = NoteLines::of(alloc, sheet)?;
    put_header(
        out,
        note_lines.width(sheet),
        sheet.height() + note_lines.height(),
    )?;
    put_back(out, sheet)?;
    put_findings(out, sheet)?;
    put_bars(out, sheet)?;
    put_dots_and_points(out, sheet)?;
    put_note(out, sheet, &note_lines)?;
    out.push_str("</svg>\n")
}
