//! The arrows of deliveries.
ghost use Rattle.std.specs.Prelude.{◌≡◌, ◌++◌, ◌∷◌, [], false, if◌then◌else◌, OnOk, map, reverse};
ghost use Rattle.std.specs.List.{filter};
ghost use Rattle.ec_draw.specs.Arrows.{RepresentsMoves, arrow_of, group_arrows, is_in, is_move};
ghost use Rattle.ec_draw.specs.Arrows.{move_position};
ghost use Rattle.ec_heading.specs.declared.group.Group.TheVariants as groups;

use crate::Window;
use ec_buffer::{BufferShape, Delivery, DeliveryAudit, is_on};
use ec_core::{Act, Audit, AuditFault, Entry, Run};
use ec_count::{EventId, Setup};
use std::alloc::{AllocError, Global};
use std::marker::Model;

/// What is done with an item.
#[derive(Clone, Copy, Debug, PartialEq, Eq)]
enum Move {
    Put,
    Get,
}

/// A delivery of a buffer, and where its item was put and got.
#[derive(Clone, Copy, Debug, PartialEq, Eq)]
pub struct Arrow {
    /// The eventcount of the buffer's puts.
    pub count: EventId,
    pub delivery: Delivery,
    /// The position of the entry that put it.
    pub put: usize,
    /// The position of the entry that got it.
    pub got: usize,
}

/// Returns whether an act puts into a buffer, or gets from it.
fn is_move(what: Move, shape: &BufferShape, act: &Act) -> bool
    ensures { result ≡ is_move what shape.now act.now }
{
    match (what, act) {
        (Move::Put, Act::Put(_, _)) => is_on(shape, act),
        (Move::Get, Act::Get(_)) => is_on(shape, act),
        _ => false,
    }
}

/// Adds the position of an act to the list, if the act is such a move.
fn note_move(
    list: &mut Vec<usize>,
    what: Move,
    shape: &BufferShape,
    place: usize,
    act: &Act,
) -> Result<(), AllocError>
    ensures { OnOk result
        (list.new.items ≡ list.old.items ++ (if is_move what shape.now act.now then place ∷ []
        else [])) }
{
    if is_move(what, shape, act) {
        list.push(place)?;
    }
    Ok(())
}

/// Adds a position as `note_move` does, unless an earlier addition failed. Returns whether any has
/// failed.
fn add_fails(
    out_of_memory: bool,
    list: &mut Vec<usize>,
    what: Move,
    shape: &BufferShape,
    place: usize,
    act: &Act,
) -> bool
    ensures before { result ≡ false → out_of_memory ≡ false }
    ensures noted { result ≡ false
        → list.new.items ≡ list.old.items ++ (if is_move what shape.now act.now then place ∷ []
        else []) }
{
    out_of_memory || note_move(list, what, shape, place, act).is_err()
}

/// The audit of a buffer in a pass over a run, and the positions of the puts and the gets so far.
#[derive(Drop)]
pub(crate) struct Moves<'a> {
    audit: DeliveryAudit<'a>,
    shape: &'a BufferShape,
    puts: Vec<usize>,
    gets: Vec<usize>,
    out_of_memory: bool,
}

impl<'a> Model for Moves<'a> {
    ghost use Rattle.ec_draw.specs.Arrows.{MovesModel};

    ghost Value = { MovesModel };

    ghost view = { λ s. record {
      audit = s.audit;
      shape = s.shape.now;
      puts = s.puts.items;
      gets = s.gets.items;
      out_of_memory = s.out_of_memory;
    } };
}

impl<'a> Audit for Moves<'a> {
    ghost use Rattle.ec_draw.specs.Arrows.{MovesOn};

    ghost represents = { MovesOn };

    fn take(&mut self, place: usize, op: &Act, entry: &Entry) {
        let Moves {
            audit,
            shape,
            puts,
            gets,
            out_of_memory,
        } = self;
        *out_of_memory = add_fails(*out_of_memory, puts, Move::Put, shape, place, &entry.act);
        *out_of_memory = add_fails(*out_of_memory, gets, Move::Get, shape, place, &entry.act);
        audit.take(place, op, entry);
    }
}

impl<'a> Moves<'a> {
    /// Returns the state before the first entry of a run with this setup. It allocates nothing.
    pub(crate) fn new(alloc: Global, shape: &'a BufferShape, setup: &'a Setup) -> Self
        ensures shape { result.shape ≡ shape.now }
        ensures setup { result.audit.setup ≡ setup.now }
        ensures first { RepresentsMoves result [] }
    {
        Moves {
            audit: DeliveryAudit::new(alloc, shape, setup),
            shape,
            puts: Vec::new(alloc),
            gets: Vec::new(alloc),
            out_of_memory: false,
        }
    }
}

/// Returns the position of a move by its number.
fn move_position(list: &[usize], number: u64) -> usize
    ensures { result ≡ move_position list.now number }
{
    list.get(number as usize).copied().unwrap_or(0)
}

/// Returns the arrow of a delivery.
fn arrow_of(shape: &BufferShape, puts: &[usize], gets: &[usize], delivery: &Delivery) -> Arrow
    ensures { result ≡ arrow_of shape.now puts.now gets.now delivery.now }
{
    Arrow {
        count: shape.in_count(),
        delivery: *delivery,
        put: move_position(puts, delivery.number),
        got: move_position(gets, delivery.number),
    }
}

/// Adds an arrow, if at least one of its ends is shown.
fn add_arrow(arrows: &mut Vec<Arrow>, arrow: Arrow, window: Window) -> Result<(), AllocError>
    ensures { OnOk result
        (arrows.new.items ≡ arrows.old.items ++ filter (is_in window) (arrow ∷ [])) }
{
    if window.shows(arrow.put) || window.shows(arrow.got) {
        arrows.push(arrow)?;
    }
    Ok(())
}

/// Adds the arrows of deliveries.
fn add_deliveries(
    arrows: &mut Vec<Arrow>,
    shape: &BufferShape,
    puts: &[usize],
    gets: &[usize],
    list: &[Delivery],
    window: Window,
) -> Result<(), AllocError>
    ensures { OnOk result
        (arrows.new.items ≡ arrows.old.items
        ++ filter (is_in window) (map (arrow_of shape.now puts.now gets.now) list.now)) }
{
    for delivery in list {
        add_arrow(arrows, arrow_of(shape, puts, gets, delivery), window)?;
    }
    Ok(())
}

/// Adds the arrows of a buffer from its state after a whole run, if its workers follow its rules.
pub(crate) fn add_buffer(
    arrows: &mut Vec<Arrow>,
    run: &Run,
    shape: &BufferShape,
    moves: Moves<'_>,
    window: Window,
) -> Result<(), AllocError>
    requires shape { moves.shape ≡ shape.now }
    requires setup { moves.audit.setup ≡ run.now.setup }
    requires represents { RepresentsMoves moves (reverse run.now.entries) }
    ensures { OnOk result
        (arrows.new.items ≡ arrows.old.items ++ group_arrows run.now.setup window run.now.entries
        (groups.Buffer shape.now)) }
{
    run.invariant();
    shape.invariant();
    let Moves {
        audit,
        puts,
        gets,
        out_of_memory,
        ..
    } = moves;
    match audit.deliveries(run) {
        Ok(list) => {
            if out_of_memory {
                return Err(AllocError);
            }
            add_deliveries(
                arrows,
                shape,
                puts.as_slice(),
                gets.as_slice(),
                list.as_slice(),
                window,
            )
        }
        Err(AuditFault::NotFollowed { .. }) => Ok(()),
        Err(AuditFault::Memory) => Err(AllocError),
    }
}
