//! The lines of a text, by their numbers.
ghost use Rattle.std.specs.Prelude.{◌≡◌, ◌≤◌, ◌<◌, ◌==◌, IfSome, length};
ghost use Rattle.std.specs.List.{position_from};
ghost use Rattle.ec_explain.specs.TextLines.{text_before_line, text_after_lines, text_after_line};
ghost use Rattle.ec_explain.specs.TextLines.{first_line, line_at, lines_in, position_or_end};

/// Returns the index of the first such byte.
fn position_of(sign: u8, bytes: &[u8]) -> Option<usize>
    ensures value { result ≡ position_from (λ b. b == sign) 0 bytes.now }
    ensures within { IfSome result (λ place. place < length bytes.now) }
{
    bytes.iter().position(|b| *b == sign)
}

/// Returns the index of the first such byte; the length if there is none.
pub fn position_or_end(sign: u8, bytes: &[u8]) -> usize
    ensures value { result ≡ position_or_end sign bytes.now }
    ensures within { result ≤ length bytes.now }
{
    match position_of(sign, bytes) {
        Some(place) => place,
        None => bytes.len(),
    }
}

/// Returns what follows the first line.
fn text_after_line(text: &[u8]) -> &[u8]
    ensures { result.now ≡ text_after_line text.now }
{
    let end = position_or_end(b'\n', text);
    if end < text.len() {
        &text[end + 1..]
    } else {
        &[]
    }
}

/// Returns what follows the first `lines` lines.
fn text_after_lines(lines: u64, text: &[u8]) -> &[u8]
    ensures { result.now ≡ text_after_lines lines text.now }
{
    let mut rest = text;
    for _line in 0..lines {
        rest = text_after_line(rest);
    }
    rest
}

/// Returns the first line, without its LF.
fn first_line(text: &[u8]) -> &[u8]
    ensures { result.now ≡ first_line text.now }
{
    &text[..position_or_end(b'\n', text)]
}

/// Returns a line of a text, without its LF. Lines are counted from 1.
pub fn line_at(number: u64, text: &[u8]) -> &[u8]
    ensures { result.now ≡ line_at number text.now }
{
    first_line(text_after_lines(number.saturating_sub(1), text))
}

/// Returns all that precedes a line.
pub fn text_before_line(number: u64, text: &[u8]) -> &[u8]
    ensures { result.now ≡ text_before_line number text.now }
{
    let rest = text_after_lines(number.saturating_sub(1), text);
    &text[..text.len().saturating_sub(rest.len())]
}

/// Returns how many lines a text has, without a last one that has no LF.
pub(crate) fn lines_in(text: &[u8]) -> usize
    ensures value { result ≡ lines_in text.now }
    ensures few { result ≤ length text.now }
{
    text.iter().filter(|b| **b == b'\n').count()
}
