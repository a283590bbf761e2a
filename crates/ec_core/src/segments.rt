//! Lists of entries in segments.
ghost use Rattle.std.specs.Prelude.{◌≡◌, ◌+◌, ◌^◌, ◌<◌, [], ◌∷◌, ◌++◌, length, slice_get, IfOk, IfSome, OnOk, OnErr};
ghost use Rattle.ec_core.specs.kept.Packed.{concat_segments, IsSegmented};

use crate::segment::{SEGMENT, Segment};
use crate::{Entries, Entry};
use std::alloc::{AllocError, Global};
use std::marker::Model;
use std::mem;

/// The greatest number of full segments: far more than fit in any memory.
const SEGMENTS_MAX: usize = 1 << 51;

/// A list of entries that grows by segments, so that it is never copied.
///
/// An entry takes 4 bytes in it, which never move, and 4 more for most numbers. A segment has room
/// for one such number per entry. If there are more, it allocates more room, and its numbers may
/// move.
#[derive(Drop)]
pub struct Segments {
    full: Vec<Segment>,
    last: Segment,
}

impl Model for Segments {
    ghost use Rattle.std.specs.Prelude.{List};
    ghost use Rattle.ec_core.specs.declared.act.Entry.{Entry};

    ghost Value = { List Entry };

    ghost use Rattle.ec_core.specs.kept.Packed.{concat_segments, IsSegmented};

    ghost view = { λ s. concat_segments s.full.items s.last };

    ghost invariant = { λ s. IsSegmented s.full.items s.last };
}

impl Segments {
    /// Makes an empty list, with room for the first segment: 4096 entries.
    pub fn open(alloc: Global) -> Result<Self, AllocError>
        ensures { IfOk result (λ list. list ≡ []) }
    {
        let last = Segment::open(alloc)?;
        Ok(Segments {
            full: Vec::new(alloc),
            last,
        })
    }

    /// Returns the allocator that the list was opened with.
    pub(crate) fn allocator(&self) -> Global {
        self.last.allocator()
    }

    /// Returns how many entries it has.
    pub fn len(&self) -> usize
        ensures { result ≡ length self.now }
    {
        self.full.len() * SEGMENT + self.last.len()
    }

    /// Returns the entry at a position, counted from 0.
    #[inline(always)]
    pub fn get(&self, i: usize) -> Option<Entry>
        ensures value { result ≡ slice_get self.now i }
        ensures within { IfSome result (λ _. i + 1 < 2 ^ 64) }
    {
        entry_at(&self.full, &self.last, i)
    }

    /// Returns its entries in order.
    pub fn entries(&self) -> Entries<'_>
        ensures { result ≡ self.now }
    {
        Entries::of(&self.full, &self.last)
    }

    /// Returns a copy of the list, by the same allocator.
    pub(crate) fn copy(&self) -> Result<Self, AllocError>
        ensures { IfOk result (λ list. list ≡ self.now) }
    {
        let mut list = Segments::open(self.allocator())?;
        for entry in self.entries() {
            list.push(entry)?;
        }
        Ok(list)
    }

    /// Adds an entry at the end; if an allocation fails, changes nothing.
    #[inline(always)]
    pub fn push(&mut self, entry: Entry) -> Result<(), AllocError>
        ensures ok { OnOk result (self.new ≡ self.old ++ entry ∷ []) }
        ensures err { OnErr result (self.new ≡ self.old) }
    {
        if self.last.len() == SEGMENT {
            begin_segment(&mut self.full, &mut self.last)?;
        }
        self.last.push(&entry)
    }
}

/// Adds the filled last segment to the full ones, and begins the next.
///
/// All memory for this is allocated before anything is changed.
fn begin_segment(full: &mut Vec<Segment>, last: &mut Segment) -> Result<(), AllocError>
    ensures few { OnOk result (length full.old.items < 2 ^ 51) }
    ensures filled { OnOk result (full.new.items ≡ full.old.items ++ last.old ∷ []) }
    ensures fresh { OnOk result (last.new ≡ []) }
    ensures full_stays { OnErr result (full.new.items ≡ full.old.items) }
    ensures last_stays { OnErr result (last.new ≡ last.old) }
{
    if full.len() >= SEGMENTS_MAX {
        return Err(AllocError);
    }
    full.reserve(1)?;
    let fresh = Segment::open(last.allocator())?;
    let filled = mem::replace(last, fresh);
    let _ = full.push(filled);
    Ok(())
}

/// Returns the entry of the segments at a position, counted from 0.
#[inline(always)]
fn entry_at(full: &Vec<Segment>, last: &Segment, i: usize) -> Option<Entry>
    requires { IsSegmented full.now.items last.now }
    ensures value { result ≡ slice_get (concat_segments full.now.items last.now) i }
    ensures within { IfSome result (λ _. i + 1 < 2 ^ 64) }
{
    let place = i / SEGMENT;
    if place < full.len() {
        let segment = &full[place];
        return segment.get(i % SEGMENT);
    }
    last.get(i - full.len() * SEGMENT)
}
