//! What the audits of groups find: shades over accepted tries, and arrows from puts to gets.
ghost use Rattle.std.specs.Prelude.{◌≤◌};

use crate::elements::{PutResult, put_rect, xy};
use crate::sheet::{ROW, Sheet};
use crate::words::{put_delivery_words, put_version_words};
use ec_draw::{Arrow, Shade};

/// Puts a shade over its columns in the row of its reader.
pub(crate) fn put_shade(out: &mut String, sheet: &Sheet<'_>, shade: &Shade) -> PutResult {
    out.push_str("<g class='version'><title>")?;
    put_version_words(out, sheet.names, shade)?;
    out.push_str("</title>\n")?;
    let x = sheet.edge(shade.span.first);
    let y = sheet.row(shade.accepted.worker) + 2;
    let width = sheet.end_of(shade.span.last).saturating_sub(x);
    put_rect(out, xy(x, y), width, 72)?;
    out.push_str("</g>\n")
}

/// Returns the x of an end of an arrow.
fn end_place(sheet: &Sheet<'_>, position: usize) -> u64 {
    if sheet.picture.window.shows(position) {
        sheet.centre(position)
    } else {
        sheet.edge(position)
    }
}

/// Returns the y of the edge of a row's bars that is nearer to another row.
fn facing(y: u64, other: u64) -> u64
    requires { y ≤ 2000 }
{
    if y < other { y + 54 } else { y + 32 }
}

/// Returns the y at which an arrow goes along a row, on the side of another row.
fn lane(y: u64, other: u64, number: u64) -> u64
    requires { y ≤ 2000 }
{
    let side = if other < y { y } else { y + ROW };
    (side + 4 * (number % 3)).saturating_sub(4)
}

/// Puts the arrow of a delivery. It goes along the consumer's row, in one of three lanes.
pub(crate) fn put_arrow(out: &mut String, sheet: &Sheet<'_>, arrow: &Arrow) -> PutResult {
    out.push_str("<g class='delivery'><title>")?;
    put_delivery_words(out, sheet.names, arrow)?;
    out.push_str("</title>\n")?;
    let produced = sheet.row(arrow.delivery.producer);
    let consumed = sheet.row(arrow.delivery.consumer);
    let (from, to) = (end_place(sheet, arrow.put), end_place(sheet, arrow.got));
    let start = facing(produced, consumed);
    let along = lane(consumed, produced, arrow.delivery.number);
    let end = facing(consumed, produced);
    write!(
        out,
        "<path class='arrow' d='M {from} {start} V {along} H {to} V {end}'/>\n</g>\n"
    )
}
