//! The advances of one eventcount.
ghost use Rattle.std.specs.Prelude.{◌≡◌, ◌<◌, ◌++◌, ◌∷◌, max, [], OnOk, OnErr};
ghost use Rattle.ec_order.specs.AdvanceLogModel.{moment_since, BeginsRead, EndsRead, AddsAdvance};

use ec_numbers::NumberList;
use std::alloc::{AllocError, Global};
use std::marker::Model;

/// The advances of one eventcount, and how many reads and awaits of it are pending. The moment
/// after an advance is stored only while such a call is pending; `before` counts the advances
/// before the stored ones. (The numbers saturate: in an accepted history none reaches its maximum.)
#[derive(Drop)]
pub(crate) struct AdvanceLog {
    before: usize,
    moments: NumberList,
    readers: u8,
}

impl Model for AdvanceLog {
    ghost use Rattle.ec_order.specs.AdvanceLogModel.{AdvanceLogModel};

    ghost Value = { AdvanceLogModel };

    ghost view = { λ s. record { before = s.before; moments = s.moments.list; readers = s.readers } };
}

impl AdvanceLog {
    /// Makes a log with no advance, and no pending call.
    pub(crate) fn new(alloc: Global) -> Self
        ensures { result ≡ record { before = 0; moments = []; readers = 0 } }
    {
        AdvanceLog {
            before: 0,
            moments: NumberList::new(alloc),
            readers: 0,
        }
    }

    /// Adds an advance, by the moment after it. It allocates only for a moment that is stored.
    #[inline(always)]
    pub(crate) fn add_advance(&mut self, moment: usize) -> Result<(), AllocError>
        ensures ok { OnOk result (AddsAdvance self.old moment self.new) }
        ensures err { OnErr result (0 < self.old.readers) }
    {
        if self.readers == 0 {
            self.before = self.before.saturating_add(1);
            return Ok(());
        }
        push_moment(&mut self.moments, moment)
    }

    /// Counts one more read or await that is pending.
    pub(crate) fn begin(&mut self)
        ensures { BeginsRead self.old self.new }
    {
        self.readers = self.readers.saturating_add(1);
    }

    /// Ends a read or an await that was pending. With the last one the moments are dropped, and
    /// their memory is used again.
    pub(crate) fn end(&mut self)
        ensures { EndsRead self.old self.new }
    {
        self.readers = self.readers.saturating_sub(1);
        if self.readers > 0 {
            return;
        }
        self.before = self.before.saturating_add(self.moments.len());
        self.moments.truncate(0);
    }

    /// Returns the point of a read or an await whose last round began at this position, and which
    /// returned this number.
    pub(crate) fn point(&self, round: usize, number: u64) -> usize
        ensures { result ≡ max round (moment_since self.now number) }
    {
        let before = self.before as u64;
        if number <= before {
            return round;
        }
        let place = (number - before - 1) as usize;
        round.max(self.moments.get(place).unwrap_or(0) as usize)
    }
}

/// Stores one more moment. (It is a function of its own, so that the code that every entry runs
/// stays small.)
#[inline(never)]
fn push_moment(moments: &mut NumberList, moment: usize) -> Result<(), AllocError>
    ensures { OnOk result (moments.new.list ≡ moments.old.list ++ moment ∷ []) }
{
    moments.push(moment as u64)
}
