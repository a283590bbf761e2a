//! Why the calls of a buffer have no linearization, in words.
ghost use Rattle.std.specs.Prelude.{◌≡◌, decimal};
ghost use Rattle.ec_text.specs.Puts.{Puts};
ghost use Rattle.calls_report.specs.Items.{room_of, room_in, some, by_line, put_item, taken_item};
ghost use Rattle.calls_report.specs.Items.{room_text, pending_text, unproduced_text};
ghost use Rattle.calls_report.specs.Items.{overfull_text, crowded_text, counts_text, of_all};
ghost use Rattle.calls_report.specs.Items.{overtaken_text, passed_text, squeezed_text};
ghost use Rattle.calls_report.specs.Items.{returned_item, untaken_text, unmade_text, any_pending};
ghost use Rattle.calls_report.specs.Items.{in_buffer, not_next_text, no_item_text, no_room_text};
ghost use Rattle.calls_report.specs.Items.{only_pending, gave_up_on_text, made_room_text, gave_up_text};
ghost use Rattle.calls_report.specs.Faults.{item_text};
ghost use Rattle.calls_report.specs.Items.{most_text, at_most, bound_text, next_bound};
ghost use Rattle.calls_report.specs.Items.{further_bounds, chain_text, overdue_text};

use crate::outruns::put_outrun;
use crate::refusal::Site;
use calls_buffers::Fault;
use calls_core::{Call, Op, Reply};
use calls_schedule::Bound;
use calls_text::first_group;
use ec_heading::Group;
use ec_text::Output;
use std::io::Write;

/// Returns how many items a buffer has room for, or 0 for another group.
fn room_of(group: &Group) -> usize
    ensures { result ≡ room_of group.now }
{
    match *group {
        Group::Buffer(shape) => shape.cells(),
        _ => 0,
    }
}

/// Puts the item of a produce.
fn put_produced<W: Write>(out: &mut Output<'_, W>, call: &Call)
    ensures { Puts out.old out.new (decimal (put_item call.now.op)) }
{
    match call.op {
        Op::Produce(value) => out.put_number(value as u64),
        _ => out.put_number(0),
    }
}

/// Puts the item that a consume returned.
fn put_consumed<W: Write>(out: &mut Output<'_, W>, call: &Call)
    ensures { Puts out.old out.new (decimal (taken_item call.now.reply)) }
{
    match call.reply {
        Reply::Number(value) => out.put_number(value as u64),
        _ => out.put_number(0),
    }
}

/// Puts what a consume returned.
fn put_returned_item<W: Write>(out: &mut Output<'_, W>, call: &Call)
    ensures { Puts out.old out.new (returned_item call.now) }
{
    out.put(b"returned ");
    put_consumed(out, call);
}

/// Puts a number, and a noun in the singular or the plural.
pub(crate) fn put_some<W: Write>(out: &mut Output<'_, W>, n: usize, noun: &[u8])
    ensures { Puts out.old out.new (some n noun.now) }
{
    out.put_number(n as u64);
    out.put(b" ");
    out.put(noun);
    if n != 1 {
        out.put(b"s");
    }
}

/// Returns how many items the buffer has room for.
pub(crate) fn room(site: &Site<'_>) -> usize
    ensures { result ≡ room_in site.now }
{
    let heading = site.speaker.heading;
    let place = site.object.saturating_sub(first_group(heading));
    match heading.groups().get(place) {
        Some(group) => room_of(group),
        None => 0,
    }
}

/// Puts how many items the buffer has room for.
fn put_capacity<W: Write>(out: &mut Output<'_, W>, site: &Site<'_>)
    ensures { Puts out.old out.new (decimal (room_in site.now)) }
{
    out.put_number(room(site) as u64);
}

/// Puts a line as the end of what is counted.
pub(crate) fn put_by_line<W: Write>(out: &mut Output<'_, W>, site: &Site<'_>, position: usize)
    ensures { Puts out.old out.new (by_line site.now position) }
{
    out.put(b"by line ");
    site.put_line(out, position);
    out.put(b", ");
}

/// Puts how much room there is, in words.
pub(crate) fn put_room<W: Write>(out: &mut Output<'_, W>, site: &Site<'_>)
    ensures { Puts out.old out.new (room_text site.now) }
{
    out.put(b"room for ");
    put_capacity(out, site);
}

/// Puts how many of the consumes called up to a position are pending, and how much room there is.
fn put_pending<W: Write>(out: &mut Output<'_, W>, site: &Site<'_>, n: usize)
    ensures { Puts out.old out.new (pending_text site.now n) }
{
    out.put(b", with ");
    out.put_number(n as u64);
    out.put(b" of these pending and ");
    put_room(out, site);
}

/// Puts that an item was returned more often than it was put in.
fn put_unproduced<W: Write>(
    out: &mut Output<'_, W>,
    site: &Site<'_>,
    consume: &Call,
    taken: usize,
    put: usize,
)
    ensures { Puts out.old out.new (unproduced_text site.now consume.now taken put) }
{
    put_by_line(out, site, consume.last);
    put_some(out, taken, b"consume");
    out.put(b" had returned ");
    put_consumed(out, consume);
    out.put(b", but only ");
    put_some(out, put, b"produce");
    out.put(b" called by then can have put it in");
}

/// Puts that more was put in than there was room for.
fn put_overfull<W: Write>(
    out: &mut Output<'_, W>,
    site: &Site<'_>,
    call: &Call,
    put: usize,
    taken: usize,
)
    ensures { Puts out.old out.new (overfull_text site.now call.now put taken) }
{
    put_by_line(out, site, call.last);
    put_some(out, put, b"produce");
    out.put(b" had returned done, but only ");
    put_some(out, taken, b"consume");
    out.put(b" called by then can have taken an item, with ");
    put_room(out, site);
}

/// Puts that more items were left than there was room for.
fn put_crowded<W: Write>(
    out: &mut Output<'_, W>,
    site: &Site<'_>,
    call: &Call,
    left: usize,
    pending: usize,
)
    ensures { Puts out.old out.new (crowded_text site.now call.now left pending) }
{
    put_by_line(out, site, call.last);
    put_some(out, left, b"item");
    out.put(b" had been put in that no consume called by then has returned");
    put_pending(out, site, pending);
}

/// Puts how many of the produces and consumes of an item there were.
fn put_counts<W: Write>(
    out: &mut Output<'_, W>,
    site: &Site<'_>,
    put: &Call,
    consume: &Call,
    before: usize,
    later: usize,
    all: usize,
)
    ensures { Puts out.old out.new (counts_text site.now put.now consume.now before later all) }
{
    out.put(b": ");
    put_some(out, before, b"produce");
    out.put(b" by line ");
    site.put_line(out, put.last);
    out.put(b" and ");
    put_some(out, later, b"consume");
    out.put(b" after line ");
    site.put_line(out, consume.last);
    out.put(b", of ");
    put_some(out, all, b"produce");
    out.put(b" in all");
}

/// Puts these counts, if there was not one produce.
fn put_of_all<W: Write>(
    out: &mut Output<'_, W>,
    site: &Site<'_>,
    put: &Call,
    consume: &Call,
    before: usize,
    later: usize,
    all: usize,
)
    ensures { Puts out.old out.new (of_all site.now put.now consume.now before later all) }
{
    if all != 1 {
        put_counts(out, site, put, consume, before, later, all);
    }
}

/// Puts that an item was taken after one that was put in later.
fn put_overtaken<W: Write>(
    out: &mut Output<'_, W>,
    site: &Site<'_>,
    put: &Call,
    consume: &Call,
    before: usize,
    later: usize,
    all: usize,
)
    ensures { Puts out.old out.new (overtaken_text site.now put.now consume.now before later all) }
{
    put_by_line(out, site, put.last);
    put_produced(out, put);
    out.put(b" was produced before ");
    put_consumed(out, consume);
    out.put(b", but consumed after line ");
    site.put_line(out, consume.last);
    out.put(b" had returned that");
    put_of_all(out, site, put, consume, before, later, all);
}

/// Puts that items were put in that no consume called up to a position has returned.
fn put_untaken<W: Write>(out: &mut Output<'_, W>, site: &Site<'_>, untaken: usize, by: usize)
    ensures { Puts out.old out.new (untaken_text site.now untaken by) }
{
    put_some(out, untaken, b"item");
    out.put(b" had been put in that no consume called by line ");
    site.put_line(out, by);
    out.put(b" has returned");
}

/// Puts that the item of a consume was not yet produced.
fn put_unmade<W: Write>(out: &mut Output<'_, W>, site: &Site<'_>, earlier: &Call, consume: &Call)
    ensures { Puts out.old out.new (unmade_text site.now earlier.now consume.now) }
{
    out.put(b", but by line ");
    site.put_line(out, earlier.last);
    out.put(b", before any ");
    put_consumed(out, consume);
    out.put(b" was produced, ");
}

/// Puts how many of the consumes are pending.
fn put_only_pending<W: Write>(out: &mut Output<'_, W>, n: usize)
    ensures { Puts out.old out.new (only_pending n) }
{
    out.put(b", with only ");
    out.put_number(n as u64);
    out.put(b" of these consumes pending");
}

/// Puts this, if any is.
fn put_any_pending<W: Write>(out: &mut Output<'_, W>, pending: usize)
    ensures { Puts out.old out.new (any_pending pending) }
{
    if pending != 0 {
        put_only_pending(out, pending);
    }
}

/// Puts that items were not taken, and one that was put in later was.
fn put_passed<W: Write>(
    out: &mut Output<'_, W>,
    site: &Site<'_>,
    put: &Call,
    consume: &Call,
    left: usize,
    pending: usize,
)
    ensures { Puts out.old out.new (passed_text site.now put.now consume.now left pending) }
{
    site.put_earlier(out, consume.last);
    put_returned_item(out, consume);
    put_unmade(out, site, put, consume);
    put_untaken(out, site, left, consume.last);
    put_any_pending(out, pending);
}

/// Puts that the buffer was full, and one item more was put in.
fn put_squeezed<W: Write>(
    out: &mut Output<'_, W>,
    site: &Site<'_>,
    full: &Call,
    put: &Call,
    left: usize,
    pending: usize,
)
    ensures { Puts out.old out.new (squeezed_text site.now full.now put.now left pending) }
{
    put_by_line(out, site, full.last);
    put_untaken(out, site, left, put.last);
    put_pending(out, site, pending);
    out.put(b"; and ");
    put_produced(out, put);
    out.put(b", put in once, by then, was not taken by line ");
    site.put_line(out, full.last);
}

/// Puts how many items at most had been taken.
fn put_most<W: Write>(out: &mut Output<'_, W>, n: usize)
    ensures { Puts out.old out.new (most_text n) }
{
    out.put(b", so at most ");
    out.put_number(n as u64);
    out.put(b" had");
}

/// Puts how many items at most had been taken, if they can be so few.
fn put_at_most<W: Write>(out: &mut Output<'_, W>, bound: &Bound)
    ensures { Puts out.old out.new (at_most bound.now) }
{
    if bound.jobs <= bound.due {
        put_most(out, bound.due - bound.jobs);
    }
}

/// Puts that items that had not been taken before a line are among the first ones.
fn put_bound<W: Write>(out: &mut Output<'_, W>, site: &Site<'_>, bound: &Bound)
    ensures { Puts out.old out.new (bound_text site.now bound.now) }
{
    out.put(b"of the first ");
    put_some(out, bound.due, b"item");
    out.put(b", ");
    out.put_number(bound.jobs as u64);
    out.put(b" had not been taken before line ");
    site.put_line(out, bound.at);
    put_at_most(out, bound);
}

/// Puts a bound after a semicolon.
fn put_next_bound<W: Write>(out: &mut Output<'_, W>, site: &Site<'_>, bound: &Bound)
    ensures { Puts out.old out.new (next_bound site.now bound.now) }
{
    out.put(b"; ");
    put_bound(out, site, bound);
}

/// Puts bounds, each after a semicolon.
fn put_further<W: Write>(out: &mut Output<'_, W>, site: &Site<'_>, bounds: &[Bound])
    ensures { Puts out.old out.new (further_bounds site.now bounds.now) }
{
    for bound in bounds {
        put_next_bound(out, site, bound);
    }
}

/// Puts a bound, and further ones, each after a semicolon.
fn put_chain<W: Write>(out: &mut Output<'_, W>, site: &Site<'_>, first: &Bound, further: &[Bound])
    ensures { Puts out.old out.new (chain_text site.now first.now further.now) }
{
    put_bound(out, site, first);
    put_further(out, site, further);
}

/// Puts that items have to be among more of the first ones than there can be.
fn put_overdue<W: Write>(out: &mut Output<'_, W>, site: &Site<'_>, bounds: &[Bound])
    ensures { Puts out.old out.new (overdue_text site.now bounds.now) }
{
    if let [first, further @ ..] = bounds {
        put_chain(out, site, first, further);
    }
}

/// Puts what the calls of a buffer show.
pub(crate) fn put_items<W: Write>(out: &mut Output<'_, W>, site: &Site<'_>, fault: &Fault)
    ensures { Puts out.old out.new (item_text site.now fault.now) }
{
    match fault {
        Fault::Unproduced {
            consume,
            taken,
            put,
        } => put_unproduced(out, site, consume, *taken, *put),
        Fault::Overfull { call, put, taken } => put_overfull(out, site, call, *put, *taken),
        Fault::Crowded {
            call,
            left,
            pending,
        } => put_crowded(out, site, call, *left, *pending),
        Fault::Overtaken {
            put,
            consume,
            before,
            later,
            all,
        } => put_overtaken(out, site, put, consume, *before, *later, *all),
        Fault::Passed {
            put,
            consume,
            left,
            pending,
        } => put_passed(out, site, put, consume, *left, *pending),
        Fault::Squeezed {
            full,
            put,
            left,
            pending,
        } => put_squeezed(out, site, full, put, *left, *pending),
        Fault::Overdue { bounds } => put_overdue(out, site, bounds),
        Fault::Outrun { flow, steps, clash } => put_outrun(out, site, *flow, steps, clash),
    }
}

/// Puts the name of the buffer.
fn put_in_buffer<W: Write>(out: &mut Output<'_, W>, site: &Site<'_>)
    ensures { Puts out.old out.new (in_buffer site.now) }
{
    out.put(b" in ");
    site.speaker.put_store(out, site.object);
}

/// Puts that a consume returned an item, and this one was next.
pub(crate) fn put_not_next<W: Write>(
    out: &mut Output<'_, W>,
    site: &Site<'_>,
    call: &Call,
    next: usize,
)
    ensures { Puts out.old out.new (not_next_text site.now call.now next) }
{
    put_returned_item(out, call);
    out.put(b", but the next item");
    put_in_buffer(out, site);
    out.put(b" was ");
    out.put_number(next as u64);
}

/// Puts that a consume returned an item, and none was left.
pub(crate) fn put_no_item<W: Write>(out: &mut Output<'_, W>, site: &Site<'_>, call: &Call)
    ensures { Puts out.old out.new (no_item_text site.now call.now) }
{
    put_returned_item(out, call);
    out.put(b", but no item was left");
    put_in_buffer(out, site);
}

/// Puts that a produce returned, and there was no room for its item.
pub(crate) fn put_no_room<W: Write>(out: &mut Output<'_, W>, site: &Site<'_>, call: &Call)
    ensures { Puts out.old out.new (no_room_text site.now call.now) }
{
    out.put(b"put ");
    put_produced(out, call);
    out.put(b" in, but no room was left");
    put_in_buffer(out, site);
}

/// Puts that a produce gave up, and a consume had returned its item.
fn put_gave_up_on<W: Write>(out: &mut Output<'_, W>, item: usize)
    ensures { Puts out.old out.new (gave_up_on_text item) }
{
    out.put(b"gave up on ");
    out.put_number(item as u64);
    out.put(b", but a consume had returned it");
}

/// Puts that a consume gave up, and a produce had needed the room that it made.
fn put_made_room<W: Write>(out: &mut Output<'_, W>, site: &Site<'_>)
    ensures { Puts out.old out.new (made_room_text site.now) }
{
    out.put(b"gave up, but there was room");
    put_in_buffer(out, site);
    out.put(b" only if it took an item");
}

/// Puts that a call gave up, and must have taken effect.
pub(crate) fn put_gave_up<W: Write>(out: &mut Output<'_, W>, site: &Site<'_>, op: Op)
    ensures { Puts out.old out.new (gave_up_text site.now op) }
{
    match op {
        Op::Produce(item) => put_gave_up_on(out, item),
        _ => put_made_room(out, site),
    }
}
