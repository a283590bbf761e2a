//! The commands that are left of a program with its repeats unrolled, kept as counters.
ghost use Rattle.std.specs.Prelude.{◌≡◌, ◌+◌, ◌≤◌, ◌<◌, ◌++◌, ◌∷◌, [], MatchOption, IfSome, IfNone, length, true};
ghost use Rattle.ec_machine.specs.Limits.{nesting, nesting_one, is_sound, is_sound_one};
ghost use Rattle.ec_machine.specs.Unrolled.{unroll, unroll_command, repeated, is_single};
ghost use Rattle.ec_machine.specs.kept.Left.{left_of, frame_commands, FrameFits, FramesFit};

use crate::Command;
use arrayvec::ArrayVec;
use std::marker::Model;

/// A block that is being executed: its rest, the whole block, and how many times it is to be
/// executed after that.
#[derive(Clone, Copy)]
pub(crate) struct Frame<'a> {
    rest: &'a [Command],
    block: &'a [Command],
    times: u64,
}

impl<'a> Default for Frame<'a> {
    fn default() -> Self {
        Frame {
            rest: &[],
            block: &[],
            times: 0,
        }
    }
}

/// Adds a frame for what is left of a block, if anything is.
fn push_rest<'a>(
    frames: &mut ArrayVec<Frame<'a>, 5>,
    rest: &'a [Command],
    block: &'a [Command],
    times: u64,
)
    requires fit { FramesFit 0 frames.old.items }
    requires room { length frames.old.items < 5 }
    requires block_some { 0 < length block.now }
    requires sound { (is_sound rest.now ≡ true) × (is_sound block.now ≡ true) }
    requires nesting { (length frames.old.items + nesting rest.now ≤ 4) × (length frames.old.items + nesting block.now ≤ 4) }
    ensures left { left_of frames.new.items ≡ (unroll rest.now ++ repeated times (unroll block.now)) ++ left_of frames.old.items }
    ensures fit { FramesFit 0 frames.new.items }
    ensures few { length frames.new.items ≤ length frames.old.items + 1 }
{
    if !rest.is_empty() {
        frames.push(Frame { rest, block, times });
    } else if times > 0 {
        frames.push(Frame {
            rest: block,
            block,
            times: times - 1,
        });
    }
}

/// Returns the first command of a command with its repeats unrolled. If the command is a repeat,
/// frames for what remains of it are added.
fn enter<'a>(frames: &mut ArrayVec<Frame<'a>, 5>, command: &'a Command) -> &'a Command
    requires fit { FramesFit 0 frames.old.items }
    requires sound { is_sound_one command.now ≡ true }
    requires nesting { length frames.old.items + nesting_one command.now ≤ 5 }
    ensures left { unroll_command command.now ++ left_of frames.old.items ≡ result.now ∷ left_of frames.new.items }
    ensures fit { FramesFit 0 frames.new.items }
    ensures single { is_single result.now ≡ true }
    ensures sound { is_sound_one result.now ≡ true }
{
    match command {
        Command::Repeat(count, block) => {
            let [first, rest @ ..] = block.as_slice() else {
                return command;
            };
            push_rest(frames, rest, block.as_slice(), *count - 1);
            enter(frames, first)
        }
        _ => command,
    }
}

/// Removes and returns the innermost frame.
fn pop_frame<'a>(frames: &mut ArrayVec<Frame<'a>, 5>) -> Option<Frame<'a>>
    requires fit { FramesFit 0 frames.old.items }
    ensures none { IfNone result (left_of frames.old.items ≡ []) }
    ensures same { IfNone result (frames.new ≡ frames.old) }
    ensures left { IfSome result (λ f. left_of frames.old.items ≡ frame_commands f ++ left_of frames.new.items) }
    ensures fit { FramesFit 0 frames.new.items }
    ensures fits { IfSome result (λ f. FrameFits (length frames.new.items) f) }
{
    match frames.pop() {
        None => None,
        Some(frame) => Some(frame),
    }
}

/// The commands that are left.
#[derive(Drop)]
pub(crate) struct Remaining<'a> {
    frames: ArrayVec<Frame<'a>, 5>,
}

impl<'a> Model for Remaining<'a> {
    ghost use Rattle.std.specs.Prelude.{List};
    ghost use Rattle.ec_machine.specs.declared.command.Command.{Command};
    ghost use Rattle.ec_machine.specs.contracts.command.Command as command;
    ghost use Rattle.std.specs.Coded.{codes};

    ghost Value = { List Command };

    ghost coded = { Prim.hlevel (codes, command.the_row.coded) };

    ghost use Rattle.ec_machine.specs.kept.Left.{left_of, FramesFit};

    ghost view = { λ r. left_of r.frames.items };

    ghost invariant = { λ r. FramesFit 0 r.frames.items };
}

impl<'a> Remaining<'a> {
    /// Returns all commands of a block.
    pub(crate) fn new(block: &'a [Command]) -> Self
        requires sound { is_sound block.now ≡ true }
        requires nesting { nesting block.now ≤ 4 }
        ensures { result ≡ unroll block.now }
    {
        let mut frames = ArrayVec::new();
        if block.is_empty() {
            return Remaining { frames };
        }
        push_rest(&mut frames, block, block, 0);
        Remaining { frames }
    }

    /// Removes and returns the first command.
    pub(crate) fn take(&mut self) -> Option<&'a Command>
        ensures left { MatchOption result ((self.old ≡ []) × (self.new ≡ [])) (λ c. self.old ≡ c.now ∷ self.new) }
        ensures single { IfSome result (λ c. (is_single c.now ≡ true) × (is_sound_one c.now ≡ true)) }
    {
        let frame = pop_frame(&mut self.frames)?;
        let [first, rest @ ..] = frame.rest else {
            unreachable!();
        };
        push_rest(&mut self.frames, rest, frame.block, frame.times);
        Some(enter(&mut self.frames, first))
    }
}
