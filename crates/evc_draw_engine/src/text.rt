//! The picture as a text for a terminal.

use crate::elements::PutResult;
use crate::names::Name;
use crate::note::NoteLines;
use crate::sheet::Sheet;
use crate::words::{put_call_words, put_delivery_words, put_pending_words, put_version_words};
use ec_count::WorkerId;
use ec_draw::{Curve, Dot};
use std::alloc::Global;

/// Returns whether the rows may have a number of more than three digits.
fn has_long(sheet: &Sheet<'_>) -> bool {
    let mut curves = sheet.picture.curves.iter();
    1000 <= sheet.picture.window.to
        || curves.any(|curve| {
            sheet.chosen.draws_curve(&curve.object) && curve.heights.iter().any(|n| 1000 <= *n)
        })
}

/// Returns the width of the cells of all rows.
fn cell_width(sheet: &Sheet<'_>) -> usize {
    if has_long(sheet) { 8 } else { 4 }
}

/// Puts the name of a row.
fn put_row_name(out: &mut String, name: Name<'_>) -> PutResult {
    write!(out, "{name}")?;
    for _letter in name.len()..23 {
        out.push_str(" ")?;
    }
    Ok(())
}

/// Puts the row of the entries. Its first cell, that of the moment before them, is empty.
fn put_entries(out: &mut String, sheet: &Sheet<'_>, width: usize) -> PutResult {
    put_row_name(out, Name(b"entry"))?;
    put_cell(out, width, false, "")?;
    let dots = sheet.picture.dots.as_slice();
    for dot in dots {
        put_number(out, width, dot.position as u64)?;
    }
    if let Some(note) = &sheet.note {
        let has_entry = dots.iter().any(|dot| dot.position == note.position);
        if sheet.picture.window.shows(note.position) && !has_entry {
            put_cell(out, width, false, "!")?;
        }
    }
    out.push_str("\n")
}

/// Puts a word at the right end of a cell, after dashes if a call continues there.
fn put_cell(out: &mut String, width: usize, goes_on: bool, word: &str) -> PutResult {
    match (width, goes_on) {
        (4, false) => write!(out, "{word:>4}"),
        (4, true) => write!(out, "{word:->4}"),
        (_, false) => write!(out, "{word:>8}"),
        (_, true) => write!(out, "{word:->8}"),
    }
}

/// Puts a cell with a number.
fn put_number(out: &mut String, width: usize, number: u64) -> PutResult {
    match width {
        4 => write!(out, "{number:>4}"),
        _ => write!(out, "{number:>8}"),
    }
}

/// Returns whether a drawn call of a worker continues in an entry's column.
fn goes_on(sheet: &Sheet<'_>, worker: WorkerId, position: usize) -> bool {
    let mut calls = sheet.picture.calls.iter();
    let mut begun = sheet.picture.begun.iter();
    calls.any(|placed| {
        let call = &placed.call;
        call.worker == worker
            && call.first < position
            && position <= call.last
            && sheet.chosen.draws_object(&call.op)
    }) || begun.any(|begun| {
        begun.worker == worker && begun.first < position && sheet.chosen.draws_object(&begun.op)
    })
}

/// Puts the cell of an entry in the row of a worker.
fn put_entry(
    out: &mut String,
    sheet: &Sheet<'_>,
    width: usize,
    worker: WorkerId,
    dot: &Dot,
) -> PutResult {
    let goes_on = goes_on(sheet, worker, dot.position);
    if dot.worker != worker || !sheet.chosen.draws_object(&dot.op) {
        return put_cell(out, width, goes_on, "");
    }
    match dot.component {
        Some(component) => {
            let mut digits = itoa::Buffer::new();
            put_cell(out, width, goes_on, digits.format(component))
        }
        None => put_cell(out, width, goes_on, "*"),
    }
}

/// Puts the row of a worker.
fn put_worker(out: &mut String, sheet: &Sheet<'_>, width: usize, worker: WorkerId) -> PutResult {
    put_row_name(out, sheet.names.worker(worker))?;
    put_cell(out, width, false, "")?;
    for dot in sheet.picture.dots.as_slice() {
        put_entry(out, sheet, width, worker, dot)?;
    }
    out.push_str("\n")
}

/// Puts the rows of the workers that are drawn.
fn put_workers(out: &mut String, sheet: &Sheet<'_>, width: usize) -> PutResult {
    for number in 0..sheet.workers {
        if let Some(worker) = WorkerId::new(number) {
            if sheet.chosen.draws_worker(worker) {
                put_worker(out, sheet, width, worker)?;
            }
        }
    }
    Ok(())
}

/// Puts the row of a curve: the number before the first entry, and after each.
fn put_curve(out: &mut String, sheet: &Sheet<'_>, width: usize, curve: &Curve) -> PutResult {
    put_row_name(out, sheet.names.curve(&curve.object))?;
    for number in curve.heights.as_slice() {
        put_number(out, width, *number)?;
    }
    out.push_str("\n")
}

/// Puts the rows.
fn put_rows(out: &mut String, sheet: &Sheet<'_>) -> PutResult {
    let width = cell_width(sheet);
    put_entries(out, sheet, width)?;
    put_workers(out, sheet, width)?;
    for curve in sheet.picture.curves.as_slice() {
        if sheet.chosen.draws_curve(&curve.object) {
            put_curve(out, sheet, width, curve)?;
        }
    }
    out.push_str("\n")
}

/// Puts a line for each call that is drawn.
fn put_calls(out: &mut String, sheet: &Sheet<'_>) -> PutResult {
    for placed in sheet.picture.calls.as_slice() {
        if sheet.chosen.draws(placed.call.worker, &placed.call.op) {
            put_call_words(out, sheet.names, placed)?;
            out.push_str("\n")?;
        }
    }
    for begun in sheet.picture.begun.as_slice() {
        if sheet.chosen.draws(begun.worker, &begun.op) {
            put_pending_words(out, sheet.names, begun)?;
            out.push_str("\n")?;
        }
    }
    Ok(())
}

/// Puts a line for each drawn delivery and accepted try.
fn put_findings(out: &mut String, sheet: &Sheet<'_>) -> PutResult {
    for arrow in sheet.picture.arrows.as_slice() {
        if sheet.chosen.draws_arrow(arrow) {
            put_delivery_words(out, sheet.names, arrow)?;
            out.push_str("\n")?;
        }
    }
    for shade in sheet.picture.shades.as_slice() {
        if sheet.chosen.draws_shade(shade) {
            put_version_words(out, sheet.names, shade)?;
            out.push_str("\n")?;
        }
    }
    Ok(())
}

/// Puts a picture as a text.
pub(crate) fn put_text(out: &mut String, alloc: Global, sheet: &Sheet<'_>) -> PutResult {
    put_rows(out, sheet)?;
    put_calls(out, sheet)?;
    put_findings(out, sheet)?;
    NoteLines::of(alloc, sheet)?.put_lines(out)
}
