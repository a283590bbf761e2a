//! Finds the buffers that a header declares with one producer and one consumer.
ghost use Rattle.std.specs.Prelude.{◌≡◌, IfOk};
ghost use Rattle.calls_watch.specs.Spsc.{has_one_taker, is_spsc_group, AreListed};
ghost use Rattle.calls_watch.specs.kept.Texts.{is_unwatched_group, is_unwatched, declares_unwatched};

use calls_monitor::has_fit_room;
use calls_text::first_group;
use ec_count::{SeqId, Setup, Target};
use ec_heading::{Group, Heading};
use std::alloc::{AllocError, Global};

/// Returns whether exactly one worker may draw from the sequencer.
fn has_one_taker(setup: &Setup, sequencer: SeqId) -> bool
    ensures { result ≡ has_one_taker setup.now sequencer }
{
    matches!(setup.takers(sequencer), [_])
}

/// Returns whether the group is a buffer with one producer and one consumer that can be judged
/// event by event.
fn is_spsc_group(setup: &Setup, group: &Group) -> bool
    ensures { result ≡ is_spsc_group setup.now group.now }
{
    match *group {
        Group::Buffer(shape) => {
            has_one_taker(setup, shape.put_seq())
                && has_one_taker(setup, shape.take_seq())
                && has_fit_room(shape.cells())
        }
        _ => false,
    }
}

/// Returns the indices of the buffers with one producer and one consumer that can be judged event
/// by event.
pub(crate) fn spsc_buffers(alloc: Global, heading: &Heading) -> Result<Vec<usize>, AllocError>
    ensures { IfOk result (λ v. AreListed heading.now v.items) }
{
    heading.setup().invariant();
    let first = first_group(heading);
    let mut found = Vec::new(alloc);
    for (i, group) in heading.groups().iter().enumerate() {
        if is_spsc_group(heading.setup(), group) {
            found.push(first + i)?;
        }
    }
    Ok(found)
}

/// Returns whether calls of the group are only decided at the end of the history.
fn is_unwatched_group(setup: &Setup, group: &Group) -> bool
    ensures { result ≡ is_unwatched_group setup.now group.now }
{
    match *group {
        Group::Database(_) => true,
        Group::Buffer(_) => !is_spsc_group(setup, group),
        _ => false,
    }
}

/// Returns whether calls of what is declared are only decided at the end of the history.
fn is_unwatched(heading: &Heading, target: &Target) -> bool
    ensures { result ≡ is_unwatched heading.now target.now }
{
    match *target {
        Target::Cells(_, _) => true,
        Target::Group(i) => match heading.groups().get(i) {
            Some(group) => is_unwatched_group(heading.setup(), group),
            None => false,
        },
        _ => false,
    }
}

/// Returns whether one of these declarations is so.
fn declares_unwatched(heading: &Heading, targets: &[Target]) -> bool
    ensures { result ≡ declares_unwatched heading.now targets.now }
{
    match targets {
        [] => false,
        [target, rest @ ..] => is_unwatched(heading, target) || declares_unwatched(heading, rest),
    }
}

/// Returns whether the text of a history may be needed at its end.
pub(crate) fn needs_text(heading: &Heading) -> bool
    ensures { result ≡ declares_unwatched heading.now heading.now.declarations }
{
    declares_unwatched(heading, heading.declarations())
}
