//! Counts of indices, below any of them.
use std::alloc::{AllocError, Global};

/// How many indices were added, in blocks of 1, of 2, of 4, and so on.
#[derive(Drop)]
pub(crate) struct Tally {
    /// The counts of the blocks of each size.
    levels: Vec<Vec<usize>>,
}

impl Tally {
    /// Returns the tally of no indices, for those below n.
    pub(crate) fn new(alloc: Global, n: usize) -> Result<Self, AllocError> {
        let mut levels = Vec::new(alloc);
        let mut size = n;
        for _ in 0..usize::BITS {
            if size > 0 {
                levels.push(vec![in alloc; 0; size]?)?;
            }
            size /= 2;
        }
        Ok(Tally { levels })
    }

    /// Adds an index.
    pub(crate) fn add(&mut self, index: usize) {
        let mut block = index;
        for level in self.levels.iter_mut() {
            if block < level.len() {
                level[block] = level[block].saturating_add(1);
            }
            block /= 2;
        }
    }

    /// Returns how many indices below this one were added.
    pub(crate) fn below(&self, index: usize) -> usize {
        let mut sum: usize = 0;
        let mut block = index;
        for level in &self.levels {
            if block % 2 == 1 {
                sum = sum.saturating_add(level.get(block - 1).copied().unwrap_or(0));
            }
            block /= 2;
        }
        sum
    }
}
