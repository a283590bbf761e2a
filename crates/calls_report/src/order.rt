//! A linearization of a history, as text.
ghost use Rattle.std.specs.Prelude.{◌≡◌, List};
ghost use Rattle.std.specs.List.{flat_map};
ghost use Rattle.ec_text.specs.Puts.{Puts};
ghost use Rattle.calls_report.specs.Orders.{head_text, tail_text, order_line, order_lines};
ghost use Rattle.calls_report.specs.Orders.{shown_reply};

use crate::words::Speaker;
use calls_core::{Call, Order, Placed};
use ec_text::Output;
use std::io::Write;

/// Puts what a call returned, after a space, or that it is pending. `end` is the number of events.
fn put_reply<W: Write>(out: &mut Output<'_, W>, speaker: &Speaker<'_>, end: usize, call: &Call)
    ensures { Puts out.old out.new (shown_reply speaker.now.heading speaker.now.lists end call.now) }
{
    if call.last == end {
        out.put(b" pending");
    } else {
        speaker.put_reply(out, call.object, call.op, call.reply);
    }
}

/// Puts the point and the worker of a call.
fn put_head<W: Write>(out: &mut Output<'_, W>, speaker: &Speaker<'_>, placed: &Placed)
    ensures { Puts out.old out.new (head_text speaker.now.heading placed.now) }
{
    out.put_number(placed.point as u64);
    out.put(b" ");
    speaker.put_worker(out, placed.call.worker);
    out.put(b" ");
}

/// Puts what a call returned, and the end of its line.
fn put_tail<W: Write>(out: &mut Output<'_, W>, speaker: &Speaker<'_>, end: usize, call: &Call)
    ensures { Puts out.old out.new (tail_text speaker.now.heading speaker.now.lists end call.now) }
{
    out.put(b" =");
    put_reply(out, speaker, end, call);
    out.put(b"\n");
}

/// Puts the line of a call.
fn put_line<W: Write>(out: &mut Output<'_, W>, speaker: &Speaker<'_>, end: usize, placed: &Placed)
    ensures { Puts out.old out.new (order_line speaker.now.heading speaker.now.lists end
        placed.now) }
{
    let call = &placed.call;
    put_head(out, speaker, placed);
    speaker.put_call(out, call.object, call.op);
    put_tail(out, speaker, end, call);
}

/// Puts the lines of a linearization.
pub fn put_order<W: Write>(
    out: &mut Output<'_, W>,
    speaker: &Speaker<'_>,
    end: usize,
    order: &Order,
)
    ensures { Puts out.old out.new (order_lines speaker.now.heading speaker.now.lists end order.now) }
{
    for i in 0..order.len() {
        put_line(out, speaker, end, &order.at(i));
    }
}
