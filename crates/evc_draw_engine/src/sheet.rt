//! The parts of a picture, and their coordinates, in pixels.
ghost use Rattle.std.specs.Prelude.{◌≤◌};

use crate::names::Names;
use crate::note::Note;
use ec_count::WorkerId;
use ec_draw::{Curve, Picture, Selection};

/// The width of an entry's column.
pub(crate) const COLUMN: u64 = 84;

/// The height of a worker's row.
pub(crate) const ROW: u64 = 76;

/// The x at which the columns begin.
pub(crate) const LEFT: u64 = 136;

/// The shapes of a picture, which of them are drawn, and their names.
#[derive(Clone, Copy)]
pub(crate) struct Sheet<'a> {
    pub(crate) names: &'a Names<'a>,
    pub(crate) chosen: &'a Selection,
    pub(crate) workers: usize,
    pub(crate) picture: &'a Picture,
    /// The faulty line, if there is one.
    pub(crate) note: Option<Note<'a>>,
}

impl<'a> Sheet<'a> {
    /// Returns the x of the left edge of a moment's column.
    pub(crate) fn edge(&self, moment: usize) -> u64
        ensures low { 136 ≤ result }
        ensures high { result ≤ 33736 }
    {
        LEFT + COLUMN * self.picture.window.column(moment) as u64
    }

    /// Returns the x of the right edge of an entry's column.
    pub(crate) fn end_of(&self, position: usize) -> u64
        ensures low { 136 ≤ result }
        ensures high { result ≤ 33736 }
    {
        self.edge(position.saturating_add(1))
    }

    /// Returns the x of the middle of an entry's column.
    pub(crate) fn centre(&self, position: usize) -> u64
        ensures { result ≤ 33778 }
    {
        self.edge(position) + COLUMN / 2
    }

    /// Returns the width of the picture without the note on a faulty line.
    pub(crate) fn width(&self) -> u64
        ensures { result ≤ 33800 }
    {
        200 + COLUMN * self.picture.window.columns() as u64
    }

    /// Returns the y of the top of a worker's row.
    pub(crate) fn row(&self, worker: WorkerId) -> u64
        ensures { result ≤ 1256 }
    {
        40 + ROW * self.chosen.workers_before(worker.get()) as u64
    }

    /// Returns the y at which the rows end.
    pub(crate) fn below(&self) -> u64
        ensures low { 60 ≤ result }
        ensures high { result ≤ 1276 }
    {
        60 + ROW * self.chosen.workers_before(self.workers) as u64
    }

    /// Returns how many of the first `number` curves are drawn.
    fn curves_before(&self, number: usize) -> u64
        ensures { result ≤ 96 }
    {
        let drawn = self.picture.curves.iter().take(number);
        drawn
            .filter(|curve| self.chosen.draws_curve(&curve.object))
            .count()
            .min(96) as u64
    }

    /// Returns the y of the least number of a curve, which is curve `number` of the picture.
    pub(crate) fn base(&self, number: usize) -> u64
        ensures low { 124 ≤ result }
        ensures high { result ≤ 9404 }
    {
        self.below() + 84 * self.curves_before(number) + 64
    }

    /// Returns the height of the picture without the note on a faulty line.
    pub(crate) fn height(&self) -> u64
        ensures { result ≤ 9400 }
    {
        self.below() + 84 * self.curves_before(self.picture.curves.len()) + 30
    }

    /// Returns the x at which the bar of a call with this first entry begins.
    pub(crate) fn bar_from(&self, first: usize) -> u64
        ensures { result ≤ 33739 }
    {
        let left = self.edge(first);
        if first < self.picture.window.from {
            left
        } else {
            left + 3
        }
    }

    /// Returns the x at which the bar of a call with this last entry ends.
    pub(crate) fn bar_to(&self, last: usize) -> u64
        ensures { result ≤ 33800 }
    {
        if last < self.picture.window.to {
            self.end_of(last) - 3
        } else {
            self.width()
        }
    }

    /// Returns the scale of a curve, which is curve `number` of the picture.
    pub(crate) fn scale(&self, number: usize, curve: &Curve) -> Scale {
        let (low, high) = (least(curve), greatest(curve));
        Scale {
            base: self.base(number),
            low,
            span: high.saturating_sub(low),
        }
    }
}

/// The vertical scale of a curve. Its least number is at the y `base`.
#[derive(Clone, Copy)]
pub(crate) struct Scale {
    base: u64,
    low: u64,
    span: u64,
}

impl Scale {
    /// Returns the y of a number.
    pub(crate) fn level(&self, number: u64) -> u64 {
        let span = self.span.clamp(1, 1000);
        let rise = 52 * number.saturating_sub(self.low).min(span) / span;
        self.base.saturating_sub(rise)
    }
}

/// Returns the least number of a curve.
pub(crate) fn least(curve: &Curve) -> u64 {
    curve.heights.iter().copied().min().unwrap_or(0)
}

/// Returns the greatest number of a curve.
pub(crate) fn greatest(curve: &Curve) -> u64 {
    curve.heights.iter().copied().max().unwrap_or(0)
}
