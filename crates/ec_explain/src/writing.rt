//! What is found wrong with a text, as lines.
ghost use Rattle.std.specs.Prelude.{◌≡◌};
ghost use Rattle.std.specs.List.{flat_map};
ghost use Rattle.ec_heading.specs.Spelling.{ended_line, reply_word};
ghost use Rattle.ec_text.specs.Puts.{Puts};
ghost use Rattle.ec_explain.specs.Findings.{plain, plain_byte, shown_from, shown_bytes, spaces};
ghost use Rattle.ec_explain.specs.Findings.{line_seen, line_text, right_text, see_text};
ghost use Rattle.ec_explain.specs.Findings.{spot_or_none, finding_text};

use crate::finding::{Finding, LinePosition};
use crate::lines::line_at;
use ec_core::Reply;
use ec_text::Output;
use std::io::Write;

/// Returns a byte as it is shown: `?` if it is no printable ASCII.
fn plain(byte: u8) -> u8
    ensures { result ≡ plain byte }
{
    if byte >= 32 && byte < 127 { byte } else { b'?' }
}

/// Puts bytes as they are shown.
fn put_plain_bytes<W: Write>(out: &mut Output<'_, W>, bytes: &[u8])
    ensures { Puts out.old out.new (flat_map plain_byte bytes.now) }
{
    for byte in bytes {
        out.put_byte(plain(*byte));
    }
}

/// Puts so many spaces.
fn put_spaces<W: Write>(out: &mut Output<'_, W>, count: usize)
    ensures { Puts out.old out.new (spaces count) }
{
    for _space in 0..count {
        out.put(b" ");
    }
}

/// Returns the index of the first byte that is shown of a line.
fn shown_from(place: usize) -> usize
    ensures { result ≡ shown_from place }
{
    if place < 80 { 0 } else { place - 60 }
}

/// Returns the bytes that are shown of a line, at most 100.
fn shown_bytes(place: usize, line: &[u8]) -> &[u8]
    ensures { result.now ≡ shown_bytes place line.now }
{
    let from = shown_from(place).min(line.len());
    let shown = &line[from..];
    &shown[..shown.len().min(100)]
}

/// Puts the number of a line, and what is shown of the line.
#[tactic(auto, unfolding(crate::specs::Findings::line_text))]
fn put_numbered<W: Write>(out: &mut Output<'_, W>, spot: &LinePosition, line: &[u8])
    ensures { Puts out.old out.new (line_text spot.now line.now) }
{
    out.put(b"line ");
    out.put_number(spot.number);
    out.put(b":\n    ");
    put_plain_bytes(out, shown_bytes(spot.place, line));
    out.put(b"\n    ");
}

/// Puts the line that shows a cause, if one does, and a mark under the place.
fn put_spot_or_none<W: Write>(out: &mut Output<'_, W>, spot: &Option<LinePosition>, text: &[u8])
    ensures { Puts out.old out.new (spot_or_none spot.now text.now) }
{
    if let Some(spot) = spot {
        put_numbered(out, spot, line_at(spot.number, text));
        put_spaces(out, spot.place.saturating_sub(shown_from(spot.place)));
        out.put(b"^\n");
    }
}

/// Puts the word of a reply.
fn put_reply<W: Write>(out: &mut Output<'_, W>, reply: Reply)
    ensures { Puts out.old out.new (reply_word reply) }
{
    match reply {
        Reply::Done => out.put(b"done"),
        Reply::Pending => out.put(b"pending"),
        Reply::Number(n) => out.put_number(n),
    }
}

/// Puts the right reply, if only the reply is wrong.
fn put_right<W: Write>(out: &mut Output<'_, W>, right: &Option<Reply>)
    ensures { Puts out.old out.new (right_text right.now) }
{
    if let Some(reply) = right {
        out.put(b"The right reply is ");
        put_reply(out, *reply);
        out.put(b".\n");
    }
}

/// Puts another line that shows why, with its number.
#[tactic(auto, unfolding(crate::specs::Findings::line_seen))]
pub fn put_line_seen<W: Write>(out: &mut Output<'_, W>, number: u64, place: usize, line: &[u8])
    ensures { Puts out.old out.new (line_seen number place line.now) }
{
    out.put(b"See line ");
    out.put_number(number);
    out.put(b": ");
    put_plain_bytes(out, shown_bytes(place, line));
    out.put(b"\n");
}

/// Puts another line that shows why, if one does.
fn put_see<W: Write>(out: &mut Output<'_, W>, see: Option<usize>, text: &[u8])
    ensures { Puts out.old out.new (see_text see text.now) }
{
    if let Some(number) = see {
        let number = number as u64;
        put_line_seen(out, number, 0, line_at(number, text));
    }
}

/// Puts a sentence as a line.
fn put_line<W: Write>(out: &mut Output<'_, W>, sentence: &[u8])
    ensures { Puts out.old out.new (ended_line sentence.now) }
{
    out.put(sentence);
    out.put(b"\n");
}

/// Puts what is found wrong with a text, and how to mend it.
///
/// First comes the line with a mark under the place, if a line shows it. Then come a sentence on
/// what is wrong, the right reply and another line that shows why, if there are such, and what more
/// is known. A sentence on how to mend it is last.
#[tactic(auto, unfolding(crate::specs::Findings::finding_text))]
pub fn put_finding<W: Write>(out: &mut Output<'_, W>, finding: &Finding, more: &[u8], text: &[u8])
    ensures { Puts out.old out.new (finding_text finding.now more.now text.now) }
{
    put_spot_or_none(out, &finding.spot, text);
    put_line(out, finding.cause.sentence());
    put_right(out, &finding.right);
    put_see(out, finding.see, text);
    out.put(more);
    put_line(out, finding.cause.remedy());
}
