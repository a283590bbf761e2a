//! The states of the workers at the end of a schedule.
ghost use Rattle.std.specs.Prelude.{◌≡◌, ◌++◌, ◌≤◌, ◌+◌, IfOk, OnOk, length, reverse};
ghost use Rattle.std.specs.List.{list_any};
ghost use Rattle.ec_text.specs.Puts.{Puts};
ghost use Rattle.evc_explain_engine.specs.WorkerEnds.{await_of_act, awaiting_end, can_continue};
ghost use Rattle.evc_explain_engine.specs.WorkerEnds.{deadlock_text, end_lines, end_of, end_text};
ghost use Rattle.evc_explain_engine.specs.WorkerEnds.{ends_from, ends_text, has_turn, is_deadlock};
ghost use Rattle.evc_explain_engine.specs.WorkerEnds.{is_waiting, pending_await, run_ends_text};
ghost use Rattle.evc_explain_engine.specs.WorkerEnds.{running_end, turn_text};

use crate::explanation::{put_count, whole};
use ec_core::{Act, Refusal, Run};
use ec_count::{EventId, WorkerId};
use ec_heading::Heading;
use ec_machine::Outcome;
use ec_text::Output;
use ec_trace::Spellings;
use std::alloc::{AllocError, Global};
use std::io::Write;

/// A pending await.
#[derive(Clone, Copy, Debug, PartialEq, Eq)]
pub(crate) struct PendingAwait {
    pub(crate) event: EventId,
    pub(crate) threshold: u64,
}

/// The state of a worker at the end of a schedule.
#[derive(Clone, Copy, Debug, PartialEq, Eq)]
pub(crate) enum End {
    /// Its program has ended.
    Over,
    /// It waits, and this is the count.
    Waits(PendingAwait, u64),
    /// The threshold of its await is reached, and it has not read that yet.
    Reached(PendingAwait),
    /// The schedule has no turn of it.
    Still,
    /// The schedule has too few turns of it.
    Late,
    /// Its last act is refused.
    Refused(Refusal),
    /// The value of its next command is too large.
    TooLarge,
}

/// Returns what an act awaits, if it is an await.
fn await_of_act(op: Act) -> Option<PendingAwait>
    ensures { result ≡ await_of_act op }
{
    match op {
        Act::Await(event, threshold) => Some(PendingAwait { event, threshold }),
        _ => None,
    }
}

/// Returns the pending await of a worker at the end of a run.
fn pending_await(run: &Run, worker: WorkerId) -> Option<PendingAwait>
    ensures { result ≡ pending_await worker (reverse run.now.entries) }
{
    match run.world().under_way(worker) {
        Some(call) => await_of_act(call.op()),
        None => None,
    }
}

/// Returns the state of a worker with this pending await, if this is the count.
fn awaiting_end(awaited: PendingAwait, count: u64) -> End
    ensures { result ≡ awaiting_end awaited count }
{
    if count < awaited.threshold {
        End::Waits(awaited, count)
    } else {
        End::Reached(awaited)
    }
}

/// Returns the state of a worker that has not ended; `moved` says whether it has a turn.
fn running_end(run: &Run, moved: bool, awaited: Option<PendingAwait>) -> End
    ensures { result ≡ running_end run.now.setup (reverse run.now.entries) moved awaited }
{
    match awaited {
        Some(awaited) => {
            let count = run.world().total(awaited.event).unwrap_or(0);
            awaiting_end(awaited, count)
        }
        None => { if moved { End::Late } else { End::Still } }
    }
}

/// Returns whether a schedule has a turn of a worker.
fn has_turn(schedule: &[WorkerId], worker: WorkerId) -> bool
    ensures { result ≡ has_turn schedule.now worker }
{
    schedule.iter().any(|named| named.get() == worker.get())
}

/// Returns the state of a worker at the end of a run, by the outcome of its program.
fn end_of(run: &Run, schedule: &[WorkerId], worker: WorkerId, outcome: &Outcome) -> End
    ensures { result
        ≡ end_of run.now.setup (reverse run.now.entries) schedule.now worker outcome.now }
{
    match *outcome {
        Outcome::Running => running_end(
            run,
            has_turn(schedule, worker),
            pending_await(run, worker),
        ),
        Outcome::Refused(refusal) => End::Refused(refusal),
        Outcome::ValueTooLarge => End::TooLarge,
        Outcome::Finished | Outcome::Stopped | Outcome::OutOfTurns | Outcome::Memory => End::Over,
    }
}

/// Adds the states of the workers from `first` on.
fn add_ends(
    ends: &mut Vec<End>,
    run: &Run,
    schedule: &[WorkerId],
    first: usize,
    outcomes: &[Outcome],
) -> Result<(), AllocError>
    requires { first + length outcomes.now ≤ 16 }
    ensures { OnOk result (ends.new.items ≡ ends.old.items ++ ends_from run.now.setup
        (reverse run.now.entries) schedule.now first outcomes.now) }
{
    let [outcome, rest @ ..] = outcomes else {
        return Ok(());
    };
    let Some(worker) = WorkerId::new(first) else {
        return Ok(());
    };
    ends.extend_from_slice(&[end_of(run, schedule, worker, outcome)])?;
    add_ends(ends, run, schedule, first + 1, rest)
}

/// Returns the states of the workers at the end of a run of a schedule.
pub(crate) fn ends_of(
    alloc: Global,
    run: &Run,
    schedule: &[WorkerId],
    outcomes: &[Outcome],
) -> Result<Vec<End>, AllocError>
    requires { length outcomes.now ≤ 16 }
    ensures items { IfOk result (λ ends. ends.items ≡ ends_from run.now.setup
        (reverse run.now.entries) schedule.now 0 outcomes.now) }
    ensures each { IfOk result (λ ends. length ends.items ≡ length outcomes.now) }
{
    let mut ends = Vec::new(alloc);
    add_ends(&mut ends, run, schedule, 0, outcomes)?;
    Ok(ends)
}

/// Puts the state of a worker.
#[tactic(auto, unfolding(crate::specs::WorkerEnds::end_text))]
fn put_end<W: Write>(
    out: &mut Output<'_, W>,
    spellings: &Spellings<'_>,
    worker: WorkerId,
    end: &End,
)
    ensures { Puts out.old out.new (end_text spellings.now worker end.now) }
{
    let name = spellings.worker(worker);
    match end {
        End::Waits(awaited, count) => {
            let event = spellings.event(awaited.event);
            out.put(name);
            out.put(b" waits for ");
            out.put(event);
            put_count(out, b" to reach ", awaited.threshold, b"; ");
            out.put(event);
            put_count(out, b" is ", *count, b".\n");
        }
        End::Reached(awaited) => {
            out.put(name);
            out.put(b" has not read yet that ");
            out.put(spellings.event(awaited.event));
            put_count(out, b" has reached ", awaited.threshold, b".\n");
        }
        End::Still => {
            out.put(name);
            out.put(b" never moves: the schedule has no turn of it.\n");
        }
        End::Late => {
            out.put(name);
            out.put(b" has not ended: the schedule ends too early for it.\n");
        }
        End::Refused(refusal) => {
            out.put(name);
            out.put(b" has ended: its last act is refused by ");
            out.put(refusal.name().as_bytes());
            out.put(b".\n");
        }
        End::TooLarge => {
            out.put(name);
            out.put(b" has ended: its next value is too large.\n");
        }
        End::Over => {}
    }
}

/// Puts the states of the workers from `first` on.
fn put_end_lines<W: Write>(
    out: &mut Output<'_, W>,
    spellings: &Spellings<'_>,
    first: usize,
    ends: &[End],
)
    requires { first + length ends.now ≤ 16 }
    ensures { Puts out.old out.new (end_lines spellings.now first ends.now) }
{
    let [end, rest @ ..] = ends else {
        return;
    };
    let Some(worker) = WorkerId::new(first) else {
        return;
    };
    put_end(out, spellings, worker, end);
    put_end_lines(out, spellings, first + 1, rest);
}

/// Returns whether a worker waits.
fn is_waiting(end: &End) -> bool
    ensures { result ≡ is_waiting end.now }
{
    matches!(end, End::Waits(_, _))
}

/// Returns whether a worker can go on.
fn can_continue(end: &End) -> bool
    ensures { result ≡ can_continue end.now }
{
    matches!(end, End::Reached(_) | End::Still | End::Late)
}

/// Returns whether some worker waits.
fn any_waits(ends: &[End]) -> bool
    ensures { result ≡ list_any is_waiting ends.now }
{
    ends.iter().any(|end| is_waiting(end))
}

/// Returns whether some worker can go on.
pub(crate) fn any_can_continue(ends: &[End]) -> bool
    ensures { result ≡ list_any can_continue ends.now }
{
    ends.iter().any(|end| can_continue(end))
}

/// Returns whether the workers are deadlocked: some wait, and none can go on.
fn is_deadlock(ends: &[End]) -> bool
    ensures { result ≡ is_deadlock ends.now }
{
    any_waits(ends) && !any_can_continue(ends)
}

/// Puts that no worker can go on, if it is so.
fn put_deadlock<W: Write>(out: &mut Output<'_, W>, ends: &[End])
    ensures { Puts out.old out.new (deadlock_text ends.now) }
{
    if is_deadlock(ends) {
        out.put(b"No worker can go on: all that have not ended wait.\n");
    }
}

/// Puts the states of the workers, and whether they are deadlocked.
#[tactic(auto, unfolding(crate::specs::WorkerEnds::ends_text))]
pub(crate) fn put_ends<W: Write>(out: &mut Output<'_, W>, heading: &Heading, ends: &[End])
    requires { length ends.now ≤ 16 }
    ensures { Puts out.old out.new (ends_text heading.now.words ends.now) }
{
    let spellings = Spellings::new(heading.words());
    put_end_lines(out, &spellings, 0, ends);
    put_deadlock(out, ends);
}

/// Returns the states of the workers at the end of a run of a schedule, in words.
pub(crate) fn run_ends_text(
    alloc: Global,
    heading: &Heading,
    run: &Run,
    schedule: &[WorkerId],
    outcomes: &[Outcome],
) -> Result<Vec<u8>, AllocError>
    requires { length outcomes.now ≤ 16 }
    ensures { IfOk result (λ bytes. bytes.items
        ≡ run_ends_text heading.now.words run.now schedule.now
        outcomes.now) }
{
    let ends = ends_of(alloc, run, schedule, outcomes)?;
    let mut bytes = Vec::new(alloc);
    let mut out = Output::new(&mut bytes);
    put_ends(&mut out, heading, ends.as_slice());
    let done = out.finish();
    out.into_writer();
    whole(bytes, done)
}

/// Puts which turn is of a worker that has ended.
#[tactic(auto, unfolding(crate::specs::WorkerEnds::turn_text))]
fn put_turn<W: Write>(out: &mut Output<'_, W>, heading: &Heading, place: usize, worker: WorkerId)
    ensures { Puts out.old out.new (turn_text heading.now.words place worker) }
{
    let spellings = Spellings::new(heading.words());
    put_count(
        out,
        b"At place ",
        place as u64,
        b" of the schedule, counted from 0, it names ",
    );
    out.put(spellings.worker(worker));
    out.put(b".\n");
}

/// Returns which turn is of a worker that has ended, as bytes.
pub(crate) fn turn_bytes(
    alloc: Global,
    heading: &Heading,
    place: usize,
    worker: WorkerId,
) -> Result<Vec<u8>, AllocError>
    ensures { IfOk result (λ bytes. bytes.items ≡ turn_text heading.now.words place worker) }
{
    let mut bytes = Vec::new(alloc);
    let mut out = Output::new(&mut bytes);
    put_turn(&mut out, heading, place, worker);
    let done = out.finish();
    out.into_writer();
    whole(bytes, done)
}
