//! The note on a faulty line.
ghost use Rattle.std.specs.Prelude.{◌≤◌};

use crate::elements::{PutResult, put_line, put_text_end, put_text_start, squeeze, xy};
use crate::names::{Plain, ReplyText};
use crate::sheet::Sheet;
use ec_core::Act;
use ec_count::WorkerId;
use ec_draw::{Curve, Dot, Window};
use ec_trace::TraceFault;
use std::alloc::{AllocError, Global};

/// A faulty line.
#[derive(Clone, Copy)]
pub(crate) struct Note<'a> {
    /// Its number in the text, from 1 on.
    pub(crate) number: u64,
    pub(crate) line: &'a [u8],
    pub(crate) fault: TraceFault,
    /// The position of its entry in the history.
    pub(crate) position: usize,
}

/// The round of a read or an await whose reply is wrong.
#[derive(Drop)]
struct Round {
    worker: WorkerId,
    /// The number of the eventcount.
    event: usize,
    /// The position at which it began, if that is shown.
    begun: Option<usize>,
}

impl Round {
    /// Returns whether an entry belongs to it.
    fn has(&self, dot: &Dot) -> bool {
        dot.worker == self.worker && self.begun.unwrap_or(0) <= dot.position
    }
}

/// Returns the round of a faulty line, if its entry is the last one that is shown, and is of a read
/// or an await.
fn round_of(note: &Note<'_>, dots: &[Dot]) -> Option<Round> {
    let last = dots.last()?;
    let (Act::Read(event) | Act::Await(event, _)) = last.op else {
        return None;
    };
    if last.position != note.position {
        return None;
    }
    let worker = last.worker;
    let own = dots.iter().rev();
    let first = own
        .filter(|dot| dot.worker == worker && dot.component == Some(0))
        .next();
    Some(Round {
        worker,
        event: event.get(),
        begun: first.map(|dot| dot.position),
    })
}

/// Returns what is wrong with a line, and the right reply if it is the reply.
fn fault_words(alloc: Global, fault: &TraceFault) -> Result<String, AllocError> {
    match *fault {
        TraceFault::BadLine(_) => String::from_str(alloc, "no line that can stand here"),
        TraceFault::Refused(_, refusal) => format!(in alloc; "refused: {}", refusal.name()),
        TraceFault::WrongReply(_, right) => {
            format!(in alloc; "the right reply is {}", ReplyText(right))
        }
        TraceFault::Unfinished => String::from_str(alloc, "unfinished"),
        TraceFault::TooLarge => String::from_str(alloc, "too large"),
        TraceFault::Read => String::from_str(alloc, "a read failed"),
        TraceFault::Memory => String::from_str(alloc, "no memory"),
    }
}

/// Returns the count at a moment that is shown.
fn height_at(window: Window, curve: &Curve, moment: usize) -> u64 {
    let column = moment.saturating_sub(window.from);
    curve.heights.get(column).copied().unwrap_or(0)
}

/// Returns the words on the total of a round's eventcount: when the round began, and at the faulty
/// entry.
fn total_words(
    alloc: Global,
    sheet: &Sheet<'_>,
    note: &Note<'_>,
    round: &Round,
    curve: &Curve,
) -> Result<String, AllocError> {
    let window = sheet.picture.window;
    let name = sheet.names.curve(&curve.object);
    let last = height_at(window, curve, note.position);
    match round.begun {
        Some(begun) => {
            let first = height_at(window, curve, begun);
            format!(in alloc; "total of {name}: {first} when the round began, {last} at this entry")
        }
        None => format!(in alloc; "total of {name}: {last} at this entry"),
    }
}

/// Adds a line on what each entry of a round read, with the entry's line in the text.
fn add_reads(
    lines: &mut Vec<String>,
    alloc: Global,
    note: &Note<'_>,
    round: &Round,
    dots: &[Dot],
) -> PutResult {
    for dot in dots {
        if let (true, Some(component), Some(number)) = (round.has(dot), dot.component, dot.number) {
            let before = note.position.saturating_sub(dot.position) as u64;
            let line = note.number.saturating_sub(before);
            lines.push(format!(in alloc; "line {line}: component {component} was {number}")?)?;
        }
    }
    Ok(())
}

/// Returns the lines of the note on a faulty line.
fn lines_of(alloc: Global, sheet: &Sheet<'_>, note: &Note<'_>) -> Result<Vec<String>, AllocError> {
    let mut lines = Vec::new(alloc);
    let words = Plain(&note.line[..note.line.len().min(100)]);
    lines.push(format!(in alloc; "line {}: {words}", note.number)?)?;
    lines.push(fault_words(alloc, &note.fault)?)?;
    let dots = sheet.picture.dots.as_slice();
    if let Some(round) = round_of(note, dots) {
        if let Some(curve) = sheet.picture.curves.get(round.event) {
            lines.push(total_words(alloc, sheet, note, &round, curve)?)?;
        }
        add_reads(&mut lines, alloc, note, &round, dots)?;
    }
    Ok(lines)
}

/// The lines of the note on a faulty line; empty if there is no such line.
#[derive(Drop)]
pub(crate) struct NoteLines {
    lines: Vec<String>,
}

impl NoteLines {
    pub(crate) fn of(alloc: Global, sheet: &Sheet<'_>) -> Result<NoteLines, AllocError> {
        let lines = match &sheet.note {
            Some(note) => lines_of(alloc, sheet, note)?,
            None => Vec::new(alloc),
        };
        Ok(NoteLines { lines })
    }

    /// Returns the width of a picture with the note.
    pub(crate) fn width(&self, sheet: &Sheet<'_>) -> u64 {
        if self.lines.is_empty() {
            sheet.width()
        } else {
            sheet.width().max(900)
        }
    }

    /// Returns the height of the note.
    pub(crate) fn height(&self) -> u64
        ensures { result ≤ 1000 }
    {
        match self.lines.len().min(50) as u64 {
            0 => 0,
            lines => 16 + 14 * lines,
        }
    }

    /// Puts the note as lines, after an empty one.
    pub(crate) fn put_lines(&self, out: &mut String) -> PutResult {
        if !self.lines.is_empty() {
            out.push_str("\n")?;
        }
        for line in self.lines.as_slice() {
            write!(out, "{}\n", line.as_str())?;
        }
        Ok(())
    }
}

/// Returns the reply in a line, after `= `; empty if it has none.
fn reply_in(line: &[u8]) -> &[u8] {
    match line.iter().position(|byte| *byte == b'=') {
        Some(place) => line.get(place.saturating_add(2)..).unwrap_or(b""),
        None => b"",
    }
}

/// Puts the wrong reply of a faulty line, struck out, before the right one.
fn put_wrong_reply(out: &mut String, sheet: &Sheet<'_>, note: &Note<'_>, dot: &Dot) -> PutResult {
    if !sheet.chosen.draws(dot.worker, &dot.op) {
        return Ok(());
    }
    let reply = reply_in(note.line);
    let shown = Plain(&reply[..reply.len().min(16)]);
    let at = xy(sheet.edge(dot.position) + 3, sheet.row(dot.worker) + 66);
    put_text_start(out, "struck", squeeze(reply.len()), at)?;
    write!(out, "= {shown}")?;
    put_text_end(out)
}

/// Puts a band over the column of a faulty line, and its wrong reply if it has one.
fn put_column(out: &mut String, sheet: &Sheet<'_>, note: &Note<'_>) -> PutResult {
    if !sheet.picture.window.shows(note.position) {
        return Ok(());
    }
    let x = sheet.centre(note.position);
    put_line(out, "wrong", xy(x, 34), xy(x, sheet.below()))?;
    match (note.fault, sheet.picture.dots.last()) {
        (TraceFault::WrongReply(_, _), Some(dot)) => put_wrong_reply(out, sheet, note, dot),
        _ => Ok(()),
    }
}

/// Puts the note on a faulty line below the picture, and marks the line's column.
pub(crate) fn put_note(out: &mut String, sheet: &Sheet<'_>, note_lines: &NoteLines) -> PutResult {
    if let Some(note) = &sheet.note {
        put_column(out, sheet, note)?;
    }
    let mut y = sheet.height();
    for line in note_lines.lines.as_slice() {
        put_text_start(out, "fault", "", xy(16, y))?;
        write!(out, "{}", line.as_str())?;
        put_text_end(out)?;
        y = y.saturating_add(14);
    }
    Ok(())
}
