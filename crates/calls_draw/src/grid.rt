//! Where positions and rows are in a picture, in pixels.
use crate::view::Window;

/// Where the first column begins.
pub(crate) const LEFT: u64 = 164;

/// The height of the row of a worker.
pub(crate) const ROW: u64 = 66;

/// Where the first row begins.
pub(crate) const TOP: u64 = 46;

/// The columns of the events that are shown.
#[derive(Clone, Copy, Debug, PartialEq, Eq)]
pub(crate) struct Grid {
    pub(crate) window: Window,
    pub(crate) width: u64,
}

impl Grid {
    /// Returns the columns of these events: the fewer there are, the wider.
    pub(crate) fn new(window: Window) -> Grid {
        let width = match window.len() {
            0..=24 => 60,
            25..=60 => 44,
            61..=120 => 32,
            _ => 24,
        };
        Grid { window, width }
    }

    /// Returns the x of the event at a position, or of the nearer edge if it is not shown.
    pub(crate) fn x(&self, position: usize) -> u64 {
        if position < self.window.from {
            return LEFT;
        }
        if position >= self.window.to {
            return self.right();
        }
        let column = (position - self.window.from) as u64;
        LEFT.saturating_add(column.saturating_mul(self.width))
            .saturating_add(self.width / 2)
    }

    /// Returns the x at which the last column ends.
    pub(crate) fn right(&self) -> u64 {
        let columns = self.window.len() as u64;
        LEFT.saturating_add(columns.saturating_mul(self.width))
    }

    /// Returns the x at which the moment before the event at a position begins.
    pub(crate) fn moment(&self, position: usize) -> u64 {
        if position <= self.window.from {
            LEFT
        } else {
            self.x(position - 1)
        }
    }

    /// Returns the x of the linearization point of a call. The calls of one point are spread evenly
    /// over the moment before its event: `rank` of them come before this one, `count` is their
    /// number.
    pub(crate) fn point(&self, point: usize, rank: usize, count: usize) -> u64 {
        let from = self.moment(point);
        let to = self.x(point);
        let room = to.saturating_sub(from);
        let part = room.saturating_mul((rank as u64).saturating_add(1));
        from.saturating_add(part / (count as u64).saturating_add(1).max(1))
    }
}

/// Returns the y of the middle of a row.
pub(crate) fn row(number: usize) -> u64 {
    TOP.saturating_add((number as u64).saturating_mul(ROW))
        .saturating_add(ROW / 2)
        .saturating_add(4)
}

/// Returns the y below this many rows.
pub(crate) fn below(rows: usize) -> u64 {
    TOP.saturating_add((rows as u64).saturating_mul(ROW))
        .saturating_add(10)
}
