//! Writes the result for a history.
use calls_buffers::Flow;
use calls_core::{Call, Op, Placed, Reply};
use calls_schedule::Bound;
use calls_turns::{Clash, Crowd, Reason, Step};
use calls_verdict::{Cause, Fault, Misuse, Refusal, Undecided, Verdict};
use std::io;
use std::io::Write;

/// Writes the position at which a monitor stopped, or `-`.
pub fn write_stop<W: Write>(out: &mut W, at: Option<usize>) -> io::Result<()> {
    match at {
        Some(at) => writeln!(out, "{at}"),
        None => writeln!(out, "-"),
    }
}

/// Writes why the events are no history.
pub fn write_misuse<W: Write>(out: &mut W, index: usize, misuse: Misuse) -> io::Result<()> {
    let name = match misuse {
        Misuse::OutOfOrder => "out of order",
        Misuse::Busy => "busy",
        Misuse::NotTaken => "not taken",
        Misuse::Idle => "idle",
        Misuse::Unsuited => "unsuited",
    };
    writeln!(out, "misuse {index} {name}")
}

/// Writes the operation of a call.
fn write_op<W: Write>(out: &mut W, op: Op) -> io::Result<()> {
    match op {
        Op::Advance => write!(out, "advance"),
        Op::Read => write!(out, "read"),
        Op::Await(threshold) => write!(out, "await {threshold}"),
        Op::Ticket => write!(out, "ticket"),
        Op::P(index) => write!(out, "p {index}"),
        Op::V(index) => write!(out, "v {index}"),
        Op::PBoth(first, second) => write!(out, "pboth {first} {second}"),
        Op::Put(value) => write!(out, "put {value}"),
        Op::Get => write!(out, "get"),
        Op::Produce(item) => write!(out, "produce {item}"),
        Op::Consume => write!(out, "consume"),
    }
}

/// Writes a line of an order.
fn write_placed<W: Write>(out: &mut W, placed: &Placed) -> io::Result<()> {
    let call = placed.call;
    write!(out, "{} {} {} ", placed.point, call.worker, call.object)?;
    write_op(out, call.op)?;
    match call.reply {
        Reply::Done => writeln!(out, " = done"),
        Reply::Number(n) => writeln!(out, " = {n}"),
        Reply::Timeout => writeln!(out, " = timeout"),
    }
}

/// Writes the positions of a call after a word.
fn write_call<W: Write>(out: &mut W, call: &Call) -> io::Result<()> {
    write!(out, " {}-{}", call.first, call.last)
}

/// Writes a word and the positions of calls.
fn write_named<W: Write>(out: &mut W, name: &str, calls: &[Call]) -> io::Result<()> {
    write!(out, "{name}")?;
    for call in calls {
        write_call(out, call)?;
    }
    writeln!(out)
}

/// Writes a fault of an eventcount.
fn write_count<W: Write>(out: &mut W, fault: calls_counts::Fault) -> io::Result<()> {
    match fault {
        calls_counts::Fault::Below(call) => write_named(out, "below", &[call]),
        calls_counts::Fault::Few(call) => write_named(out, "few", &[call]),
        calls_counts::Fault::Many(call) => write_named(out, "many", &[call]),
        calls_counts::Fault::Since(call, earlier) => write_named(out, "since", &[call, earlier]),
    }
}

/// Writes a fault of a sequencer.
fn write_ticket<W: Write>(out: &mut W, fault: calls_tickets::Fault) -> io::Result<()> {
    match fault {
        calls_tickets::Fault::Twice(one, other) => write_named(out, "twice", &[one, other]),
        calls_tickets::Fault::Turned(one, other) => write_named(out, "turned", &[one, other]),
        calls_tickets::Fault::Drawn(call) => write_named(out, "drawn", &[call]),
    }
}

/// Writes a fault of a cell or a database.
fn write_value<W: Write>(out: &mut W, fault: &calls_cells::Fault) -> io::Result<()> {
    match fault {
        calls_cells::Fault::Distinct(distinct) => match *distinct {
            calls_distinct::Fault::Nowhere(get) => write_named(out, "nowhere", &[get]),
            calls_distinct::Fault::Stale(call, get) => write_named(out, "stale", &[call, get]),
            calls_distinct::Fault::Alternate(a, b, c, d) => {
                write_named(out, "alternate", &[a, b, c, d])
            }
        },
        calls_cells::Fault::Serial(serial) => write_named(out, "chain", serial.gets.as_slice()),
    }
}

/// Writes bounds on how many items were taken.
fn write_bounds<W: Write>(out: &mut W, bounds: &[Bound]) -> io::Result<()> {
    write!(out, "overdue")?;
    for bound in bounds {
        write!(out, " {}:{}/{}", bound.at, bound.jobs, bound.due)?;
    }
    writeln!(out)
}

/// Writes that more items are put in than are returned and there is room for.
fn write_crowd<W: Write>(out: &mut W, crowd: &Crowd) -> io::Result<()> {
    write!(out, " full {}@{} {}", crowd.turn, crowd.at, crowd.known)?;
    for share in &crowd.shares {
        write!(out, " {}/{}*{}", share.takers, share.turns, share.item)?;
        if let Some(after) = share.after {
            write!(out, "@{after}")?;
        }
    }
    writeln!(out)
}

/// Writes why not so many items can be put in or taken.
fn write_clash<W: Write>(out: &mut W, clash: &Clash) -> io::Result<()> {
    match clash {
        Clash::Closed(turn) => writeln!(out, " closed {turn}"),
        Clash::Few { shortages, others } => {
            write!(out, " few")?;
            for shortage in shortages {
                write!(out, " {}:{}", shortage.at, shortage.turn)?;
                write!(out, "/{}-{}", shortage.turns, shortage.takers)?;
                write!(out, "*{}", shortage.item)?;
            }
            writeln!(out, " +{others}")
        }
        Clash::Full(crowd) => write_crowd(out, crowd),
    }
}

/// Writes how many items are put in or taken at least.
fn write_steps<W: Write>(out: &mut W, flow: Flow, steps: &[Step], clash: &Clash) -> io::Result<()> {
    match flow {
        Flow::In => write!(out, "outrun in")?,
        Flow::Out => write!(out, "outrun out")?,
    }
    for step in steps {
        write!(out, " {}:{}", step.at, step.count)?;
        if let Reason::Takers {
            item,
            after,
            takers,
        } = step.reason
        {
            write!(out, "/{takers}*{item}")?;
            if let Some(after) = after {
                write!(out, "@{after}")?;
            }
        }
    }
    write_clash(out, clash)
}

/// Writes a fault of a buffer.
fn write_items<W: Write>(out: &mut W, fault: &calls_buffers::Fault) -> io::Result<()> {
    use calls_buffers::Fault;

    match fault {
        Fault::Unproduced { consume, .. } => write_named(out, "unproduced", &[*consume]),
        Fault::Overfull { call, .. } => write_named(out, "overfull", &[*call]),
        Fault::Crowded { call, .. } => write_named(out, "crowded", &[*call]),
        Fault::Overtaken { put, consume, .. } => write_named(out, "overtaken", &[*put, *consume]),
        Fault::Passed { put, consume, .. } => write_named(out, "passed", &[*put, *consume]),
        Fault::Squeezed { full, put, .. } => write_named(out, "squeezed", &[*full, *put]),
        Fault::Overdue { bounds } => write_bounds(out, bounds.as_slice()),
        Fault::Outrun { flow, steps, clash } => write_steps(out, *flow, steps.as_slice(), clash),
    }
}

/// Writes a refusal.
fn write_refusal<W: Write>(out: &mut W, refusal: &Refusal) -> io::Result<()> {
    write!(out, "refused {} {} ", refusal.at, refusal.object)?;
    match &refusal.fault {
        Fault::Count(fault) => write_count(out, *fault),
        Fault::Ticket(fault) => write_ticket(out, *fault),
        Fault::Units(fault) => {
            write!(out, "taken {}", fault.index)?;
            write_call(out, &fault.call)?;
            writeln!(out)
        }
        Fault::Value(fault) => write_value(out, fault),
        Fault::Items(fault) => write_items(out, fault),
    }
}

/// Writes that an object is not decided.
fn write_open<W: Write>(out: &mut W, open: &Undecided) -> io::Result<()> {
    match open.cause {
        Cause::Values(cause) => writeln!(
            out,
            "undecided {} {} {} {}",
            open.object, cause.value, cause.first.first, cause.second.first
        ),
        Cause::Unfound(position) => writeln!(out, "undecided {} from {position}", open.object),
    }
}

/// Writes a verdict.
pub fn write_verdict<W: Write>(out: &mut W, verdict: &Verdict) -> io::Result<()> {
    match verdict {
        Verdict::Linearizable(order) => {
            writeln!(out, "linearizable")?;
            for i in 0..order.len() {
                write_placed(out, &order.at(i))?;
            }
            writeln!(out, "end")
        }
        Verdict::Refused(refusal) => write_refusal(out, refusal),
        Verdict::NotDecided(open) => write_open(out, open),
    }
}
