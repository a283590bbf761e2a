//! The whole picture, as SVG.
ghost use Rattle.std.specs.Prelude.{◌<◌, length, IfSome};

use crate::blocks::{BLOCK, lanes_height, put_lanes, put_values};
use crate::certificate::{evidence_in, evidence_range, put_evidence};
use crate::curves::{
    put_awaited, put_band, put_curve, put_levels, put_panel_name, put_scale, put_seen, range_of,
};
use crate::grid::below;
use crate::items::{put_items, put_room};
use crate::panels::{Panel, Subject, panels_of};
use crate::picture::{Evidence, Picture};
use crate::rows::{put_column_names, put_columns, put_faulty_column, put_marks, put_rows};
use crate::scale::{Range, Scale};
use crate::sink::{Pen, PutResult, put_attribute, put_text, xy};
use crate::style::{OPENING, STYLE};
use ec_text::cut_line;
use std::alloc::Global;

/// The height of the gap between two panels.
const GAP: u64 = 34;

/// The height of a number of a panel, and if limits have words above and below their lines.
const NUMBER: u64 = 20;

const LIMIT: u64 = 30;

/// The width of a letter of a note, and how many letters a line of it has room for in any picture.
const LETTER: u64 = 8;

const LETTERS: usize = 150;

/// The width of the margin for words to the right of the columns.
const MARGIN: u64 = 70;

/// The height of a line of a note.
const NOTE: u64 = 17;

/// Returns the range of the numbers of a panel that are drawn with evidence: of those put into a
/// buffer, or taken, only 0.
fn refused_range(picture: &Picture<'_>, panel: &Panel, evidence: &Evidence<'_>) -> Range {
    match panel.subject {
        Subject::Items(_) if !evidence.is_of_held() => Range::of(0),
        _ => range_of(picture, panel),
    }
}

/// Returns the range of the numbers of a panel, extended to those of its evidence.
fn whole_range(picture: &Picture<'_>, panel: &Panel) -> Range {
    match evidence_in(picture, panel) {
        Some(evidence) => {
            let range = refused_range(picture, panel, evidence);
            evidence_range(picture, range, evidence)
        }
        None => range_of(picture, panel),
    }
}

/// Returns the scale of a panel that begins at a height.
fn scale_of(picture: &Picture<'_>, panel: &Panel, top: u64) -> Scale {
    let unit = match evidence_in(picture, panel) {
        Some(evidence) if !evidence.limits.is_empty() => LIMIT,
        _ => NUMBER,
    };
    Scale::new(whole_range(picture, panel), unit, top)
}

/// Returns the height of a panel.
fn panel_height(picture: &Picture<'_>, panel: &Panel) -> u64 {
    match (panel.subject, evidence_in(picture, panel)) {
        (_, Some(evidence)) if evidence.has_lanes() => lanes_height(evidence),
        (Subject::Values(_), _) => BLOCK,
        _ => {
            let scale = scale_of(picture, panel, 0);
            scale.height.saturating_add(panel.items.height())
        }
    }
}

/// Returns the y at which the panels end.
fn panels_end(picture: &Picture<'_>, rows: usize, panels: &[Panel]) -> u64 {
    let mut y = below(rows).saturating_add(GAP);
    for panel in panels {
        y = y
            .saturating_add(panel_height(picture, panel))
            .saturating_add(GAP);
    }
    y
}

/// Returns how many letters of a note there is room for in a line, if a picture is so wide.
fn letters_in(width: u64) -> usize {
    ((width / LETTER) as usize).max(LETTERS)
}

/// Returns where a line is cut: at its last space before so many letters, if it has more.
fn cut_of(line: &[u8], letters: usize) -> Option<usize> {
    line.get(..letters)?.iter().rposition(|byte| *byte == b' ')
}

/// Returns the first line of a note, up to a space if it has more letters than so many, and what is
/// behind it.
fn first_piece(note: &[u8], letters: usize) -> Option<(&[u8], &[u8])>
    ensures { IfSome result (λ p. length p.1.now < length note.now) }
{
    let (line, behind) = cut_line(note)?;
    match cut_of(line, letters) {
        Some(at) => Some((note.get(..at)?, note.get(at.saturating_add(1)..)?)),
        None => Some((line, behind)),
    }
}

/// Returns how many lines a note has, and how many letters the longest one has.
fn measure_note(note: &[u8], letters: usize) -> (u64, u64) {
    let mut lines = 0u64;
    let mut longest = 0u64;
    let mut rest = note;
    while let Some((line, behind)) = first_piece(rest, letters) {
        lines = lines.saturating_add(1);
        longest = longest.max(line.len() as u64);
        rest = behind;
    }
    (lines, longest)
}

/// Puts the beginning of a picture.
fn put_header(out: &mut Pen<'_>, width: u64, height: u64) {
    out.put(OPENING);
    put_attribute(out, b"width", width);
    put_attribute(out, b"height", height);
    out.put(b" viewBox='0 0 ");
    out.put_number(width);
    out.put(b" ");
    out.put_number(height);
    out.put(b"'>\n");
    out.put(STYLE);
}

/// Puts a panel of numbers.
fn put_numbers(out: &mut Pen<'_>, picture: &Picture<'_>, panel: &Panel, top: u64) {
    let scale = scale_of(picture, panel, top);
    put_scale(out, picture, &scale);
    match evidence_in(picture, panel) {
        Some(evidence) => put_refused(out, picture, panel, &scale, evidence),
        None => put_accepted(out, picture, panel, &scale),
    }
}

/// Puts a panel of numbers with the evidence against its object.
fn put_refused(
    out: &mut Pen<'_>,
    picture: &Picture<'_>,
    panel: &Panel,
    scale: &Scale,
    evidence: &Evidence<'_>,
) {
    match panel.subject {
        Subject::Count(_) => put_band(out, picture, scale, panel),
        Subject::Numbers(_) => put_levels(out, picture, scale, panel),
        Subject::Items(_) if evidence.is_of_held() => {
            put_band(out, picture, scale, panel);
            put_room(out, picture, scale, panel);
        }
        Subject::Items(_) | Subject::Units(_, _) | Subject::Values(_) => {}
    }
    put_evidence(out, picture, scale, panel.subject, evidence);
}

/// Puts a panel of numbers without evidence.
fn put_accepted(out: &mut Pen<'_>, picture: &Picture<'_>, panel: &Panel, scale: &Scale) {
    put_band(out, picture, scale, panel);
    if matches!(panel.subject, Subject::Numbers(_)) {
        put_levels(out, picture, scale, panel);
    }
    if picture.order.len() > 0 {
        put_curve(out, picture, scale, panel);
        put_seen(out, scale, panel);
        put_items(out, picture, scale, panel);
    }
    put_room(out, picture, scale, panel);
    put_awaited(out, picture, scale, panel);
}

/// Returns the y of the name of a panel: to the left of the panel, or above it if its numbers are
/// long.
fn name_y(picture: &Picture<'_>, panel: &Panel, top: u64) -> u64 {
    let is_long = !matches!(panel.subject, Subject::Values(_))
        && whole_range(picture, panel).high > 9999;
    if is_long {
        return top.saturating_sub(12);
    }
    let middle = panel_height(picture, panel) / 2;
    top.saturating_add(middle).saturating_add(4)
}

/// Puts a panel.
fn put_panel(out: &mut Pen<'_>, picture: &Picture<'_>, panel: &Panel, top: u64) {
    put_panel_name(out, picture, panel.subject, name_y(picture, panel, top));
    match (panel.subject, evidence_in(picture, panel)) {
        (_, Some(evidence)) if evidence.has_lanes() => put_lanes(out, picture, evidence, top),
        (Subject::Values(_), _) => {
            if picture.order.len() > 0 {
                put_values(out, picture, panel, top);
            }
        }
        _ => put_numbers(out, picture, panel, top),
    }
}

/// Puts the panels.
fn put_panels(out: &mut Pen<'_>, picture: &Picture<'_>, rows: usize, panels: &[Panel]) {
    let mut y = below(rows).saturating_add(GAP);
    for panel in panels {
        put_panel(out, picture, panel, y);
        y = y
            .saturating_add(panel_height(picture, panel))
            .saturating_add(GAP);
    }
}

/// Puts the lines of a note.
fn put_note(out: &mut Pen<'_>, picture: &Picture<'_>, letters: usize, top: u64) {
    let class: &[u8] = if picture.evidence.is_some() {
        b"fault"
    } else {
        b"remark"
    };
    let mut y = top;
    let mut rest = picture.note;
    while let Some((line, behind)) = first_piece(rest, letters) {
        put_text(out, class, xy(24, y), line);
        y = y.saturating_add(NOTE);
        rest = behind;
    }
}

/// Puts a picture as SVG.
pub(crate) fn put_svg(alloc: Global, out: &mut Pen<'_>, picture: &Picture<'_>) -> PutResult {
    let panels = panels_of(alloc, picture)?;
    let rows = picture.rows_before(picture.workers());
    let end = panels_end(picture, rows, panels.as_slice());
    let right = picture.grid.right().saturating_add(MARGIN);
    let letters = letters_in(right);
    let (lines, longest) = measure_note(picture.note, letters);
    let width = longest.saturating_mul(LETTER).max(right);
    let height = end.saturating_add(lines.saturating_mul(NOTE));
    put_header(out, width.saturating_add(24), height);
    put_column_names(out, picture);
    put_columns(out, picture, rows);
    put_rows(alloc, out, picture)?;
    put_marks(out, picture);
    put_faulty_column(out, picture, rows);
    put_panels(out, picture, rows, panels.as_slice());
    put_note(out, picture, letters, end);
    out.put(b"</svg>\n");
    Ok(())
}
