//! The elements of a picture.
ghost use Rattle.std.specs.Prelude.{◌≡◌, ◌≤◌};

use crate::names::Name;
use std::alloc::AllocError;

/// The outcome of a function that puts something: an error if memory ran out.
pub(crate) type PutResult = Result<(), AllocError>;

/// The coordinates of a pixel in a picture.
#[derive(Clone, Copy)]
pub(crate) struct Pixel {
    pub(crate) x: u64,
    pub(crate) y: u64,
}

/// Returns the pixel with these coordinates.
pub(crate) fn xy(x: u64, y: u64) -> Pixel
    ensures across { result.x ≡ x }
    ensures down { result.y ≡ y }
{
    Pixel { x, y }
}

impl Pixel {
    /// Returns the pixel with the same y and another x.
    pub(crate) fn at(self, x: u64) -> Pixel {
        Pixel { x, y: self.y }
    }
}

pub(crate) fn put_line(out: &mut String, class: &str, from: Pixel, to: Pixel) -> PutResult {
    let (x1, y1, x2, y2) = (from.x, from.y, to.x, to.y);
    write!(
        out,
        "<line class='{class}' x1='{x1}' y1='{y1}' x2='{x2}' y2='{y2}'/>\n"
    )
}

pub(crate) fn put_rect(out: &mut String, at: Pixel, width: u64, height: u64) -> PutResult {
    let Pixel { x, y } = at;
    write!(
        out,
        "<rect rx='6' x='{x}' y='{y}' width='{width}' height='{height}'/>\n"
    )
}

/// Puts the beginning of a text. Its class has a second word, `small`, if that is not empty.
pub(crate) fn put_text_start(out: &mut String, class: &str, small: &str, at: Pixel) -> PutResult {
    write!(
        out,
        "<text class='{class}{small}' x='{}' y='{}'>",
        at.x, at.y
    )
}

pub(crate) fn put_text_end(out: &mut String) -> PutResult {
    out.push_str("</text>\n")
}

pub(crate) fn put_number(out: &mut String, class: &str, at: Pixel, number: u64) -> PutResult {
    put_text_start(out, class, "", at)?;
    write!(out, "{number}")?;
    put_text_end(out)
}

/// Puts the name to the left of a row.
pub(crate) fn put_row_name(out: &mut String, at: Pixel, name: Name<'_>) -> PutResult {
    let small = if name.len() > 17 { " long" } else { "" };
    put_text_start(out, "name", small, at)?;
    write!(out, "{name}")?;
    put_text_end(out)
}

/// Returns the class with which a text of this many letters fits its column.
pub(crate) fn squeeze(letters: usize) -> &'static str {
    match letters {
        ..14 => "",
        14..17 => " long",
        _ => " tiny",
    }
}

/// Returns how many digits a number has.
pub(crate) fn digits(number: u64) -> usize
    ensures { result ≤ 20 }
{
    let mut digits = itoa::Buffer::new();
    digits.format(number).len()
}
