//! The evidence that a history is rejected, in the panel of its object.
use crate::curves::put_level;
use crate::grid::LEFT;
use crate::limits::{limits_range, put_limits};
use crate::panels::{Panel, Subject, implied_number};
use crate::picture::{Evidence, Picture};
use crate::scale::{Range, Scale};
use crate::sink::{
    Pen, Pixel, end_path, end_text, go_across, go_along, put_line, start_path, start_text, xy,
};
use calls_core::{Call, Op, Reply};
use calls_shapes::{CountFilter, Portion, Stair};

/// Returns the evidence that the history is rejected, if this panel shows the object of the fault.
pub(crate) fn evidence_in<'a, 'b>(
    picture: &'b Picture<'a>,
    panel: &Panel,
) -> Option<&'b Evidence<'a>> {
    let evidence = picture.evidence.as_ref()?;
    let is_its = panel
        .subject
        .is_of(evidence.refusal.object, evidence.stairs.as_slice());
    if is_its { Some(evidence) } else { None }
}

/// Returns the number of a stair at the first column.
fn number_before(picture: &Picture<'_>, stair: &Stair) -> usize {
    let from = picture.window().from;
    let before = stair.rises.iter().filter(|rise| **rise < from).count();
    stair.span.base.saturating_add(before)
}

/// Returns the number of a stair at its end.
fn number_at_end(stair: &Stair) -> usize {
    stair.span.base.saturating_add(stair.rises.len())
}

/// Returns the range, extended to the numbers of the evidence.
pub(crate) fn evidence_range(
    picture: &Picture<'_>,
    range: Range,
    evidence: &Evidence<'_>,
) -> Range {
    let mut range = stairs_range(picture, range, evidence.stairs.as_slice());
    range = limits_range(range, evidence.limits.as_slice());
    for call in &evidence.faulty {
        range = implied_number(call.op, call.reply).map_or(range, |n| range.with(n));
        range = missed_threshold(call).map_or(range, |n| range.with(n));
    }
    range
}

/// Returns the threshold of an await that returned a number below it.
fn missed_threshold(call: &Call) -> Option<usize> {
    match (call.op, call.reply) {
        (Op::Await(threshold), Reply::Number(n)) if n < threshold => Some(threshold),
        _ => None,
    }
}

/// Returns the range, extended to the numbers of these stairs.
fn stairs_range(picture: &Picture<'_>, range: Range, stairs: &[Stair]) -> Range {
    let mut range = range;
    for stair in stairs {
        let low = number_before(picture, stair);
        range = range.with(low).with(number_at_end(stair));
    }
    range
}

/// Returns the style class of a stair.
fn stair_class(stair: &Stair) -> &'static [u8] {
    match stair.span.counted {
        CountFilter::Adding(_) | CountFilter::Consumes(_) => b"given",
        _ => b"stair",
    }
}

/// Returns the words before the number at the end of a stair.
fn stair_words(stair: &Stair) -> &'static [u8] {
    match (stair.span.counted, stair.span.portion) {
        (CountFilter::Adding(_), _) => b"given: ",
        (CountFilter::Taking(_), _) => b"taken: ",
        (CountFilter::Produces(_), _) => b"put in: ",
        (CountFilter::Consumes(_), _) => b"at most ",
        (_, Portion::Called) => b"at most ",
        _ => b"at least ",
    }
}

/// Puts the number at the end of a stair.
fn put_stair_end(out: &mut Pen<'_>, at: Pixel, stair: &Stair) {
    let place = xy(at.x.saturating_sub(5), at.y.saturating_sub(5));
    start_text(out, b"why end", place);
    out.put(stair_words(stair));
    out.put_number(number_at_end(stair) as u64);
    end_text(out);
}

/// Puts a stair.
fn put_stair(out: &mut Pen<'_>, picture: &Picture<'_>, scale: &Scale, stair: &Stair) {
    let from = picture.window().from;
    let mut number = number_before(picture, stair);
    let x = if stair.span.from == 0 {
        LEFT
    } else {
        picture.grid.x(stair.span.from)
    };
    start_path(out, stair_class(stair), xy(x, scale.y(number)));
    for rise in &stair.rises {
        if *rise >= from {
            number = number.saturating_add(1);
            go_across(out, picture.grid.x(*rise));
            go_along(out, scale.y(number));
        }
    }
    let end = picture.grid.x(stair.span.to);
    go_across(out, end);
    end_path(out, false);
    put_stair_end(out, xy(end, scale.y(number)), stair);
}

/// Puts the stairs.
fn put_stairs(out: &mut Pen<'_>, picture: &Picture<'_>, scale: &Scale, stairs: &[Stair]) {
    for stair in stairs {
        put_stair(out, picture, scale, stair);
    }
}

/// Puts the number that a call says, with a word before it.
fn put_implied_words(out: &mut Pen<'_>, picture: &Picture<'_>, scale: &Scale, call: &Call) {
    let Some(n) = implied_number(call.op, call.reply) else {
        return;
    };
    let at = xy(
        picture.grid.x(call.last).saturating_add(4),
        scale.y(n).saturating_add(14),
    );
    start_text(out, b"why", at);
    out.put(implied_words(call));
    out.put_number(n as u64);
    end_text(out);
}

/// Returns the word before the number that a call says.
fn implied_words(call: &Call) -> &'static [u8] {
    match (call.op, call.reply) {
        (Op::Await(_), Reply::Done) => b"reached ",
        (Op::Await(_), Reply::Timeout) => b"at most ",
        _ => b"returned ",
    }
}

/// Puts the numbers that these calls say, each number in words only once.
fn put_implied_numbers(out: &mut Pen<'_>, picture: &Picture<'_>, scale: &Scale, calls: &[Call]) {
    for (i, call) in calls.iter().enumerate() {
        let said = implied_number(call.op, call.reply);
        put_level(out, picture, scale, b"said", (call.first, call.last), said);
        let before = calls.get(..i).unwrap_or(&[]);
        if before
            .iter()
            .all(|other| implied_number(other.op, other.reply) != said)
        {
            put_implied_words(out, picture, scale, call);
        }
    }
}

/// Puts a line from the end of the first stair to the number that the first faulty call says.
fn put_tie(out: &mut Pen<'_>, picture: &Picture<'_>, scale: &Scale, evidence: &Evidence<'_>) {
    let (Some(stair), Some(call)) = (evidence.stairs.first(), evidence.faulty.first()) else {
        return;
    };
    let Some(n) = implied_number(call.op, call.reply) else {
        return;
    };
    let x = picture.grid.x(stair.span.to);
    let from = xy(x, scale.y(number_at_end(stair)));
    put_line(out, b"tie", from, xy(x, scale.y(n)));
}

/// Puts a line from the response of the first ticket to the invocation of the second, if their
/// numbers differ.
fn put_turn(out: &mut Pen<'_>, picture: &Picture<'_>, scale: &Scale, calls: &[Call]) {
    let [one, other] = calls else {
        return;
    };
    let (Some(n), Some(m)) = (
        implied_number(one.op, one.reply),
        implied_number(other.op, other.reply),
    ) else {
        return;
    };
    if n != m {
        let from = xy(picture.grid.x(one.last), scale.y(n));
        let to = xy(picture.grid.x(other.first), scale.y(m));
        put_line(out, b"tie", from, to);
    }
}

/// Puts the threshold of the first call, if that is an await that returned a number below it.
fn put_missed(out: &mut Pen<'_>, picture: &Picture<'_>, scale: &Scale, calls: &[Call]) {
    let Some(call) = calls.first() else {
        return;
    };
    let Some(threshold) = missed_threshold(call) else {
        return;
    };
    let y = scale.y(threshold);
    let from = picture.grid.x(call.first);
    let to = picture.grid.x(call.last);
    put_line(out, b"waits", xy(from, y), xy(to, y));
    let at = xy(to.saturating_add(4), y.saturating_add(3));
    start_text(out, b"why", at);
    out.put(b"awaited ");
    out.put_number(threshold as u64);
    end_text(out);
}

/// Puts the evidence that a history is rejected.
pub(crate) fn put_evidence(
    out: &mut Pen<'_>,
    picture: &Picture<'_>,
    scale: &Scale,
    subject: Subject,
    evidence: &Evidence<'_>,
) {
    put_stairs(out, picture, scale, evidence.stairs.as_slice());
    put_implied_numbers(out, picture, scale, evidence.faulty.as_slice());
    match subject {
        Subject::Count(_) => {
            put_tie(out, picture, scale, evidence);
            put_missed(out, picture, scale, evidence.faulty.as_slice());
        }
        Subject::Numbers(_) => put_turn(out, picture, scale, evidence.faulty.as_slice()),
        Subject::Items(_) => put_limits(out, picture, scale, evidence.limits.as_slice()),
        Subject::Units(_, _) | Subject::Values(_) => {}
    }
}
