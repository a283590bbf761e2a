//! The words on a shape: the title of its element, or its line in a text.

use crate::elements::PutResult;
use crate::names::{ActText, Names, ReplyText, kind};
use ec_core::{Act, Reply};
use ec_count::{EventId, WorkerId};
use ec_draw::{Arrow, PendingBar, Shade};
use ec_order::Placed;

/// Puts a call in the words of an entry of a trace.
fn put_call(
    out: &mut String,
    names: &Names<'_>,
    worker: WorkerId,
    act: Act,
    reply: Reply,
) -> PutResult {
    let asked = ActText { names, act };
    let returned = ReplyText(reply);
    write!(
        out,
        "{} {}{asked} = {returned}",
        names.worker(worker),
        kind(&act)
    )
}

/// Puts a completed call, with its first and last entries and its linearization point.
pub(crate) fn put_call_words(out: &mut String, names: &Names<'_>, placed: &Placed) -> PutResult {
    let call = &placed.call;
    put_call(out, names, call.worker, call.op, call.reply)?;
    let (first, last, point) = (call.first, call.last, placed.point);
    write!(out, ", entries {first} to {last}, point {point}")
}

/// Puts a pending call, with its first entry.
pub(crate) fn put_pending_words(
    out: &mut String,
    names: &Names<'_>,
    begun: &PendingBar,
) -> PutResult {
    put_call(out, names, begun.worker, begun.op, Reply::Pending)?;
    write!(out, ", under way from entry {}", begun.first)
}

/// Puts what the audit of a group found: the word for it, the group, and its number.
fn put_finding(
    out: &mut String,
    names: &Names<'_>,
    what: &str,
    event: EventId,
    number: u64,
) -> PutResult {
    write!(out, "{what} {} {number}", names.group(event))
}

/// Puts a delivery, and the entries at which its item was put and got.
pub(crate) fn put_delivery_words(out: &mut String, names: &Names<'_>, arrow: &Arrow) -> PutResult {
    let delivery = &arrow.delivery;
    put_finding(out, names, "delivery", arrow.count, delivery.number)?;
    let (producer, consumer) = (
        names.worker(delivery.producer),
        names.worker(delivery.consumer),
    );
    let (item, put, got) = (delivery.item, arrow.put, arrow.got);
    write!(
        out,
        " {producer} {consumer} {item}, put at entry {put}, got at entry {got}"
    )
}

/// Puts an accepted try, with the values that it got and its first and last entries.
pub(crate) fn put_version_words(out: &mut String, names: &Names<'_>, shade: &Shade) -> PutResult {
    let accepted = &shade.accepted;
    put_finding(out, names, "version", shade.count, accepted.version)?;
    write!(out, " {}", names.worker(accepted.worker))?;
    for value in accepted.values.as_slice() {
        write!(out, " {value}")?;
    }
    write!(out, ", entries {} to {}", shade.span.first, shade.span.last)
}
