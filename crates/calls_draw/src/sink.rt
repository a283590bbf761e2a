//! The elements of an SVG picture.
use ec_text::Output;
use std::alloc::AllocError;

/// The writer of a picture, to a list of bytes.
pub(crate) type Pen<'a> = Output<'a, Vec<u8>>;

/// The outcome of a function that puts something: an error if memory ran out.
pub(crate) type PutResult = Result<(), AllocError>;

/// The coordinates of a pixel in a picture.
#[derive(Clone, Copy, Debug, PartialEq, Eq)]
pub(crate) struct Pixel {
    pub(crate) x: u64,
    pub(crate) y: u64,
}

/// Returns the pixel with these coordinates.
pub(crate) fn xy(x: u64, y: u64) -> Pixel {
    Pixel { x, y }
}

/// Puts a byte of a text, escaped if XML needs it. One that is not printable ASCII becomes a
/// question mark.
fn put_escaped_byte(out: &mut Pen<'_>, byte: u8) {
    match byte {
        b'<' => out.put(b"&lt;"),
        b'>' => out.put(b"&gt;"),
        b'&' => out.put(b"&amp;"),
        b' '..=b'~' => out.put_byte(byte),
        _ => out.put(b"?"),
    }
}

/// Puts a text, escaped.
pub(crate) fn put_escaped(out: &mut Pen<'_>, text: &[u8]) {
    for byte in text {
        put_escaped_byte(out, *byte);
    }
}

/// Puts an attribute with a number.
pub(crate) fn put_attribute(out: &mut Pen<'_>, name: &[u8], n: u64) {
    out.put(b" ");
    out.put(name);
    out.put(b"='");
    out.put_number(n);
    out.put(b"'");
}

/// Puts the beginning of an element: its name and its class.
fn put_open(out: &mut Pen<'_>, name: &[u8], class: &[u8]) {
    out.put(b"<");
    out.put(name);
    out.put(b" class='");
    out.put(class);
    out.put(b"'");
}

/// Puts a line.
pub(crate) fn put_line(out: &mut Pen<'_>, class: &[u8], from: Pixel, to: Pixel) {
    put_open(out, b"line", class);
    put_attribute(out, b"x1", from.x);
    put_attribute(out, b"y1", from.y);
    put_attribute(out, b"x2", to.x);
    put_attribute(out, b"y2", to.y);
    out.put(b"/>\n");
}

/// Puts a rectangle.
pub(crate) fn put_rect(out: &mut Pen<'_>, class: &[u8], at: Pixel, width: u64, height: u64) {
    put_open(out, b"rect", class);
    put_attribute(out, b"x", at.x);
    put_attribute(out, b"y", at.y);
    put_attribute(out, b"width", width);
    put_attribute(out, b"height", height);
    out.put(b"/>\n");
}

/// Puts a circle.
pub(crate) fn put_circle(out: &mut Pen<'_>, class: &[u8], at: Pixel, r: u64) {
    put_open(out, b"circle", class);
    put_attribute(out, b"cx", at.x);
    put_attribute(out, b"cy", at.y);
    put_attribute(out, b"r", r);
    out.put(b"/>\n");
}

/// Puts the mark of a linearization point: a diamond.
pub(crate) fn put_diamond(out: &mut Pen<'_>, at: Pixel) {
    out.put(b"<path class='mark' d='M ");
    out.put_number(at.x);
    out.put(b" ");
    out.put_number(at.y);
    out.put(b" m 0 -6 l 5 6 l -5 6 l -5 -6 z'/>\n");
}

/// Puts the beginning of a text.
pub(crate) fn start_text(out: &mut Pen<'_>, class: &[u8], at: Pixel) {
    put_open(out, b"text", class);
    put_attribute(out, b"x", at.x);
    put_attribute(out, b"y", at.y);
    out.put(b">");
}

/// Puts the end of a text.
pub(crate) fn end_text(out: &mut Pen<'_>) {
    out.put(b"</text>\n");
}

/// Puts a text.
pub(crate) fn put_text(out: &mut Pen<'_>, class: &[u8], at: Pixel, text: &[u8]) {
    start_text(out, class, at);
    put_escaped(out, text);
    end_text(out);
}

/// Puts a number as a text.
pub(crate) fn put_number(out: &mut Pen<'_>, class: &[u8], at: Pixel, n: u64) {
    start_text(out, class, at);
    out.put_number(n);
    end_text(out);
}

/// Puts the beginning of a path.
pub(crate) fn start_path(out: &mut Pen<'_>, class: &[u8], at: Pixel) {
    put_open(out, b"path", class);
    out.put(b" d='M ");
    out.put_number(at.x);
    out.put(b" ");
    out.put_number(at.y);
}

/// Puts a horizontal piece of a path.
pub(crate) fn go_across(out: &mut Pen<'_>, x: u64) {
    out.put(b" H ");
    out.put_number(x);
}

/// Puts a vertical piece of a path.
pub(crate) fn go_along(out: &mut Pen<'_>, y: u64) {
    out.put(b" V ");
    out.put_number(y);
}

/// Puts the end of a path.
pub(crate) fn end_path(out: &mut Pen<'_>, closes: bool) {
    if closes {
        out.put(b" Z");
    }
    out.put(b"'/>\n");
}
