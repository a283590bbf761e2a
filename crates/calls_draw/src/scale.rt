//! The heights of the numbers in a panel, in pixels.

/// The numbers of a panel, from the least to the greatest.
#[derive(Clone, Copy, Debug, PartialEq, Eq)]
pub(crate) struct Range {
    pub(crate) low: usize,
    pub(crate) high: usize,
}

/// The vertical extent of a panel, and the range of its numbers.
#[derive(Clone, Copy, Debug, PartialEq, Eq)]
pub(crate) struct Scale {
    pub(crate) range: Range,
    pub(crate) top: u64,
    pub(crate) height: u64,
}

impl Range {
    /// Returns the range of one number.
    pub(crate) fn of(n: usize) -> Range {
        Range { low: n, high: n }
    }

    /// Returns the range, extended to a number.
    pub(crate) fn with(self, n: usize) -> Range {
        Range {
            low: self.low.min(n),
            high: self.high.max(n),
        }
    }

    /// Returns the difference between its ends, at least 1.
    fn reach(self) -> u64 {
        (self.high.saturating_sub(self.low) as u64).max(1)
    }

    /// Returns the difference between two numbers that are written at the left of a panel.
    pub(crate) fn step(self) -> usize {
        match self.reach() {
            0..=12 => 1,
            13..=60 => 5,
            61..=120 => 10,
            121..=250 => 20,
            other => (other / 10).max(1) as usize,
        }
    }
}

impl Scale {
    /// Returns the scale of a panel that begins at a height. `unit` is the height of a number, if there
    /// are not many.
    pub(crate) fn new(range: Range, unit: u64, top: u64) -> Scale {
        let height = range.reach().saturating_mul(unit).max(40).min(220);
        Scale { range, top, height }
    }

    /// Returns the y of a number, or of the nearer edge if it is out of range.
    pub(crate) fn y(&self, n: usize) -> u64 {
        let reach = self.range.reach();
        // (so that the product below is not too great)
        let unit = (reach / 4096).saturating_add(1);
        let above = self.range.high.saturating_sub(n) as u64 / unit;
        let down = above.saturating_mul(self.height) / (reach / unit).max(1);
        self.top.saturating_add(down.min(self.height))
    }

    /// Returns the y at which it ends.
    pub(crate) fn below(&self) -> u64 {
        self.top.saturating_add(self.height)
    }
}
