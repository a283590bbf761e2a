//! The words at the shapes: names and operations, as the history's text has them.
use crate::lines::parts_of;
use crate::panels::Subject;
use crate::picture::{Bar, Picture};
use crate::sink::Pen;
use calls_core::{Kind, Op};
use ec_count::{Target, WorkerId};

/// Returns the style class of a call with this operation.
pub(crate) fn class_of(op: Op) -> &'static [u8] {
    match op {
        Op::Advance => b"advance",
        Op::Read => b"read",
        Op::Await(_) => b"await",
        Op::Ticket => b"ticket",
        Op::P(_) | Op::PBoth(_, _) => b"p",
        Op::V(_) => b"v",
        Op::Put(_) => b"put",
        Op::Get => b"get",
        Op::Produce(_) => b"produce",
        Op::Consume => b"consume",
    }
}

/// Puts the name of a worker.
pub(crate) fn put_worker(out: &mut Pen<'_>, picture: &Picture<'_>, worker: usize) {
    let Some(id) = WorkerId::new(worker) else {
        return;
    };
    if let Some(name) = picture.heading.names().name_of(Target::Worker(id)) {
        out.put(name.as_bytes());
    }
}

/// Returns how many letters the name of a worker has.
pub(crate) fn worker_letters(picture: &Picture<'_>, worker: usize) -> usize {
    match WorkerId::new(worker) {
        Some(id) => {
            let name = picture.heading.names().name_of(Target::Worker(id));
            name.map_or(0, |name| name.len())
        }
        None => 0,
    }
}

/// Returns the name of what a panel shows, as a call of it has it.
fn name_by(act: &[u8], op: Op, subject: Subject) -> &[u8] {
    let (_, object, rest) = parts_of(act);
    match (subject, op) {
        (Subject::Units(_, place), Op::PBoth(_, other)) if other == place => rest,
        _ => object,
    }
}

/// Puts the name of what a panel shows.
pub(crate) fn put_subject(out: &mut Pen<'_>, picture: &Picture<'_>, subject: Subject) {
    let shown = picture
        .shown
        .iter()
        .find(|bar| subject.shows(bar.object, bar.op));
    if let Some(bar) = shown {
        out.put(name_by(picture.lines.event_text(bar.first), bar.op, subject));
    }
}

/// Puts the numbers of a list, with a space between two.
fn put_list(out: &mut Pen<'_>, list: &[u64]) {
    for (i, n) in list.iter().enumerate() {
        if i > 0 {
            out.put(b" ");
        }
        out.put_number(*n);
    }
}

/// Puts `count` zeros, with a space between two.
fn put_zeros(out: &mut Pen<'_>, count: usize) {
    for i in 0..count {
        out.put(if i > 0 {
            b" 0".as_slice()
        } else {
            b"0".as_slice()
        });
    }
}

/// Puts a value of a cell or a database. A database has lists as values: its value n is the list n
/// - 1, and 0 is all zeros.
pub(crate) fn put_value(out: &mut Pen<'_>, picture: &Picture<'_>, object: usize, value: usize) {
    match picture.kinds.get(object) {
        Some(Kind::Database(count)) if value == 0 => put_zeros(out, *count),
        Some(Kind::Database(_)) => {
            let list = picture.lists.get(value.saturating_sub(1));
            put_list(out, list.unwrap_or(&[]));
        }
        _ => out.put_number(value as u64),
    }
}

/// Puts the linearization point of a call, if it has one.
fn put_point(out: &mut Pen<'_>, picture: &Picture<'_>, bar: &Bar) {
    let point = picture.point_of(bar);
    if point > 0 {
        out.put(b", point ");
        out.put_number(point as u64);
    }
}

/// Puts the positions of the invocation and the response of a call.
fn put_span(out: &mut Pen<'_>, bar: &Bar) {
    match bar.end {
        Some((last, _)) => {
            out.put(b", events ");
            out.put_number(bar.first as u64);
            out.put(b" to ");
            out.put_number(last as u64);
        }
        None => {
            out.put(b", from event ");
            out.put_number(bar.first as u64);
        }
    }
}

/// Puts all that is known of a call.
pub(crate) fn put_whole(out: &mut Pen<'_>, picture: &Picture<'_>, bar: &Bar) {
    put_worker(out, picture, bar.worker);
    out.put(b" ");
    out.put(picture.lines.event_text(bar.first));
    out.put(b" = ");
    match bar.end {
        Some((last, _)) => out.put(picture.lines.event_text(last)),
        None => out.put(b"pending"),
    }
    put_span(out, bar);
    put_point(out, picture, bar);
}
