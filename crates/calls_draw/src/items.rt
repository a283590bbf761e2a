//! The panels of buffers: how many items there are, and the items as blocks.
use crate::blocks::{BLOCK, put_block};
use crate::grid::LEFT;
use crate::panels::{Panel, Subject};
use crate::picture::Picture;
use crate::scale::Scale;
use crate::sink::{Pen, end_text, put_line, start_text, xy};
use calls_core::{Call, Kind, Op, Reply};
use calls_shapes::{Step, Track, steps_of};
use std::alloc::{AllocError, Global};

/// An item that was put into a buffer.
#[derive(Clone, Copy, Debug, PartialEq, Eq)]
struct StoredItem {
    item: usize,
    /// The index of its produce in the linearization.
    put: usize,
    /// The index of its consume, `None` if it is never taken.
    taken: Option<usize>,
}

/// An item from its produce to its consume.
#[derive(Clone, Copy, Debug, PartialEq, Eq)]
pub(crate) struct ItemBlock {
    item: usize,
    lane: usize,
    from: u64,
    to: u64,
}

/// The items of a buffer along a linearization.
#[derive(Drop)]
pub(crate) struct ItemBlocks {
    blocks: Vec<ItemBlock>,
    /// How many lanes they have: the greatest number of items at once.
    lanes: usize,
}

/// The most lanes of blocks; if there are more items at once, none is drawn.
const LANES: usize = 16;

/// The height of the gap above the lanes.
const ABOVE: u64 = 10;

/// Returns how many items there are after each call of a buffer.
pub(crate) fn held_steps(
    alloc: Global,
    picture: &Picture<'_>,
    object: usize,
) -> Result<Vec<Step>, AllocError> {
    let takes = steps_of(
        alloc,
        picture.kinds,
        &picture.order,
        Track { object, index: 1 },
    )?;
    let puts = steps_of(
        alloc,
        picture.kinds,
        &picture.order,
        Track { object, index: 2 },
    )?;
    let mut held = Vec::new(alloc);
    for (put, taken) in puts.iter().zip(takes.iter()) {
        held.push(Step {
            point: put.point,
            value: put.value.saturating_sub(taken.value),
        })?;
    }
    Ok(held)
}

/// Adds the item of a produce, or the consume of the first item that was not taken; so many were.
/// Returns how many were taken after the call.
fn follow_item(
    items: &mut Vec<StoredItem>,
    taken: usize,
    i: usize,
    call: &Call,
) -> Result<usize, AllocError> {
    match (call.op, call.reply) {
        (Op::Produce(item), Reply::Done) => {
            items.push(StoredItem {
                item,
                put: i,
                taken: None,
            })?;
            Ok(taken)
        }
        (Op::Consume, Reply::Number(_)) => {
            if let Some(first) = items.get_mut(taken) {
                first.taken = Some(i);
            }
            Ok(taken.saturating_add(1))
        }
        _ => Ok(taken),
    }
}

/// Returns the items of a buffer, in the order in which they were put in.
fn stored_items(
    alloc: Global,
    picture: &Picture<'_>,
    object: usize,
) -> Result<Vec<StoredItem>, AllocError> {
    let mut items = Vec::new(alloc);
    let mut taken = 0usize;
    for i in 0..picture.order.len() {
        let placed = picture.order.at(i);
        if placed.call.object == object {
            taken = follow_item(&mut items, taken, i, &placed.call)?;
        }
    }
    Ok(items)
}

/// Returns the linearization point of the call at an index.
fn point_at(picture: &Picture<'_>, i: usize) -> usize {
    if i < picture.order.len() {
        picture.order.at(i).point
    } else {
        0
    }
}

/// Returns whether an item is in the buffer at a moment that is shown.
fn is_shown(picture: &Picture<'_>, stored: &StoredItem) -> bool {
    let window = picture.window();
    let is_left = match stored.taken {
        Some(i) => window.from <= point_at(picture, i),
        None => true,
    };
    is_left && point_at(picture, stored.put) <= window.to
}

/// Returns the block of the item with this number.
fn block_of(picture: &Picture<'_>, lanes: usize, k: usize, stored: &StoredItem) -> ItemBlock {
    let to = match stored.taken {
        Some(i) => picture.x_of(i),
        None => picture.grid.right(),
    };
    ItemBlock {
        item: stored.item,
        lane: k % lanes.max(1),
        from: picture.x_of(stored.put),
        to,
    }
}

/// Returns the blocks of the items that are shown. Item k is in lane k modulo the number of lanes,
/// so that no two of a lane overlap: the first one is taken before there is no room for another.
fn blocks_of(
    alloc: Global,
    picture: &Picture<'_>,
    object: usize,
    lanes: usize,
) -> Result<Vec<ItemBlock>, AllocError> {
    let items = stored_items(alloc, picture, object)?;
    let mut blocks = Vec::new(alloc);
    for (k, stored) in items.iter().enumerate() {
        if is_shown(picture, stored) {
            blocks.push(block_of(picture, lanes, k, stored))?;
        }
    }
    Ok(blocks)
}

/// Returns the greatest of these values.
fn greatest(steps: &[Step]) -> usize {
    let mut most = 0usize;
    for step in steps {
        most = most.max(step.value);
    }
    most
}

impl ItemBlocks {
    /// Returns the items of a panel with these steps; none, if it is of no buffer, or if there are
    /// too many at once.
    pub(crate) fn of(
        alloc: Global,
        picture: &Picture<'_>,
        subject: Subject,
        steps: &[Step],
    ) -> Result<ItemBlocks, AllocError> {
        let lanes = greatest(steps);
        match subject {
            Subject::Items(object) if lanes <= LANES => Ok(ItemBlocks {
                blocks: blocks_of(alloc, picture, object, lanes)?,
                lanes,
            }),
            _ => Ok(ItemBlocks {
                blocks: Vec::new(alloc),
                lanes: 0,
            }),
        }
    }

    /// Returns the height of the lanes and of the gap above them, in pixels.
    pub(crate) fn height(&self) -> u64 {
        if self.lanes == 0 {
            return 0;
        }
        ABOVE.saturating_add((self.lanes as u64).saturating_mul(BLOCK))
    }
}

/// Puts the items of a panel below its numbers.
pub(crate) fn put_items(out: &mut Pen<'_>, picture: &Picture<'_>, scale: &Scale, panel: &Panel) {
    let object = panel.subject.object();
    let top = scale.below().saturating_add(ABOVE);
    for block in &panel.items.blocks {
        let down = (block.lane as u64).saturating_mul(BLOCK);
        let at = xy(block.from, top.saturating_add(down));
        let width = block.to.saturating_sub(block.from);
        put_block(out, picture, b"block", object, block.item, at, width);
    }
}

/// Returns how many items a buffer has room for; of another object there is no limit.
pub(crate) fn room_of(picture: &Picture<'_>, object: usize) -> usize {
    match picture.kinds.get(object) {
        Some(Kind::Buffer(room)) => *room,
        _ => usize::MAX,
    }
}

/// Puts how many items a buffer has room for, if that is among the numbers that are drawn.
pub(crate) fn put_room(out: &mut Pen<'_>, picture: &Picture<'_>, scale: &Scale, panel: &Panel) {
    let Some(Kind::Buffer(room)) = picture.kinds.get(panel.subject.object()) else {
        return;
    };
    if scale.range.low <= *room && *room <= scale.range.high {
        let y = scale.y(*room).saturating_sub(3);
        put_line(out, b"waits", xy(LEFT, y), xy(picture.grid.right(), y));
        start_text(out, b"small", xy(LEFT + 3, y.saturating_sub(4)));
        out.put(b"room for ");
        out.put_number(*room as u64);
        end_text(out);
    }
}
