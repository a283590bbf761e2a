//! Which histories of calls have no trace of steps.
ghost use Rattle.std.specs.Prelude.{◌≡◌, ◌++◌, codes, decimal, IfSome};
ghost use Rattle.std.specs.Option.{IfNone};
ghost use Rattle.ec_text.specs.Puts.{Puts, IsWrittenOut};
ghost use Rattle.calls_replay.specs.Obstacles.{HasZeros, IsPlain, IsFirstBegun, IsObstacle, line_of};
ghost use Rattle.calls_replay.specs.Obstacles.{is_group_action, first_of_group, obstacle_note};

use calls_core::Action;
use calls_text::{Read, Recording, first_group};
use ec_count::EventId;
use ec_heading::Heading;
use ec_text::Output;
use ec_trace::Spellings;
use std::io::Write;

/// Why a history has no trace of steps.
#[derive(Clone, Copy, Debug, PartialEq, Eq)]
pub enum Obstacle {
    /// The initial count of an eventcount is not 0, and no step made it.
    Begun(EventId),
    /// The event at this position is on a semaphore, a database or a buffer.
    OfGroup(usize),
    /// Another history follows from this line on.
    Second(u64),
}

/// Returns the first eventcount whose initial count is not 0.
fn first_begun(recording: &Recording) -> Option<EventId>
    ensures some { IfSome result (λ e. IsFirstBegun recording.now e) }
    ensures none { IfNone result (HasZeros recording.now) }
{
    let setup = recording.heading().setup();
    setup.invariant();
    for n in 0..setup.events() {
        if let Some(event) = EventId::new(n) {
            if recording.start(event) != 0 {
                return Some(event);
            }
        }
    }
    None
}

/// Returns whether an action invokes a call of a semaphore, a database or a buffer.
fn is_group_action(heading: &Heading, action: Action) -> bool
    ensures { result ≡ is_group_action heading.now action }
{
    match action {
        Action::Invoke(object, _) => object >= first_group(heading) - 1,
        Action::Respond(_) => false,
    }
}

/// Returns the position of the first call of a semaphore, a database or a buffer.
fn first_of_group(recording: &Recording) -> Option<usize>
    ensures { result ≡ first_of_group recording.now }
{
    let events = recording.events();
    for i in 0..events.len() {
        if is_group_action(recording.heading(), events.at(i).action) {
            return Some(i);
        }
    }
    None
}

/// Returns why a history has no trace of steps.
pub(crate) fn find_obstacle(read: &Read<'_>) -> Option<Obstacle>
    ensures some { IfSome result
        (IsObstacle read.now.recording read.now.number read.now.rest.now) }
    ensures none { IfNone result (IsPlain read.now.recording read.now.rest.now) }
{
    if !read.rest.is_empty() {
        return Some(Obstacle::Second(read.number));
    }
    if let Some(event) = first_begun(&read.recording) {
        return Some(Obstacle::Begun(event));
    }
    let position = first_of_group(&read.recording)?;
    Some(Obstacle::OfGroup(position))
}

/// Returns the number of the line of the event at a position.
fn line_of(read: &Read<'_>, position: usize) -> u64
    ensures { result ≡ line_of read.now.recording read.now.number position }
{
    let events = read.recording.events().len() as u64;
    let first = read.number.saturating_sub(1).saturating_sub(events);
    first.saturating_add(position as u64)
}

/// Puts that the initial count of an eventcount is not 0.
fn put_begun<N: Write>(notes: &mut Output<'_, N>, name: &[u8])
    ensures { Puts notes.old notes.new (codes "no trace: the count of " ++ name.now
        ++ codes " is not 0 at the beginning\n") }
{
    notes.put(b"no trace: the count of ");
    notes.put(name);
    notes.put(b" is not 0 at the beginning\n");
}

/// Puts the number of a line, and why there is no trace.
fn put_at_line<N: Write>(notes: &mut Output<'_, N>, line: u64, words: &[u8])
    ensures { Puts notes.old notes.new (codes "line " ++ decimal line ++ words.now) }
{
    notes.put(b"line ");
    notes.put_number(line);
    notes.put(words);
}

/// Puts why a history has no trace of steps.
fn put_obstacle<N: Write>(notes: &mut Output<'_, N>, read: &Read<'_>, obstacle: Obstacle)
    ensures { Puts notes.old notes.new (obstacle_note read.now.recording read.now.number obstacle) }
{
    match obstacle {
        Obstacle::Begun(event) => {
            let spellings = Spellings::new(read.recording.heading().words());
            put_begun(notes, spellings.event(event));
        }
        Obstacle::OfGroup(position) => put_at_line(
            notes,
            line_of(read, position),
            b": no trace: the call is of a semaphore, a database or a buffer\n",
        ),
        Obstacle::Second(line) => put_at_line(
            notes,
            line,
            b": no trace: another history follows\n",
        ),
    }
}

/// Reports why a history has no trace of steps.
pub(crate) fn report_obstacle<N: Write>(
    notes: &mut Output<'_, N>,
    read: &Read<'_>,
    obstacle: Obstacle,
)
    ensures puts { Puts notes.old notes.new (obstacle_note read.now.recording read.now.number
        obstacle) }
    ensures written { IsWrittenOut notes.new }
{
    put_obstacle(notes, read, obstacle);
    notes.flush();
}
