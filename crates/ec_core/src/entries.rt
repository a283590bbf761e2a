//! The entries of a list, in order.
ghost use Rattle.std.specs.Prelude.{◌≡◌, ◌+◌, ◌^◌, ◌<◌, ◌∷◌, ◌++◌, [], None, Some, drop, slice_get, IfSome};
ghost use Rattle.std.specs.List.{flat_map};
ghost use Rattle.std.specs.Option.{IfNone};
ghost use Rattle.ec_core.specs.kept.Packed.{concat_segments};

use crate::Entry;
use crate::segment::{EntryIter, Segment};
use std::marker::Model;

/// An iterator over the entries of a run or of another list, in order.
///
/// In contracts it is the list of the entries that are left: those of a segment, then those of the
/// segments after it.
#[derive(Drop)]
pub struct Entries<'a> {
    full: &'a [Segment],
    last: &'a Segment,
    begun: usize,
    left: EntryIter<'a>,
}

impl<'a> Model for Entries<'a> {
    ghost use Rattle.std.specs.Prelude.{List, ◌++◌, ◌∷◌, [], drop};
    ghost use Rattle.std.specs.List.{flat_map};
    ghost use Rattle.ec_core.specs.declared.act.Entry.{Entry};

    ghost Value = { List Entry };

    ghost view = { λ s. s.left ++ flat_map (λ xs. xs) (drop s.begun (s.full.now ++ s.last.now ∷ [])) };
}

impl<'a> Entries<'a> {
    /// Returns all entries of some segments.
    pub(crate) fn of(full: &'a [Segment], last: &'a Segment) -> Self
        ensures { result ≡ concat_segments full.now last.now }
    {
        Entries {
            full,
            last,
            begun: 0,
            left: EntryIter::none(),
        }
    }

    /// Returns the next entry without advancing the iterator; `None` if no entry is left.
    #[inline(always)]
    pub fn peek(&self) -> Option<Entry>
        ensures { result ≡ slice_get self.now 0 }
    {
        first_entry(self.full, self.last, self.begun, self.left.copy())
    }
}

/// Returns the first of the entries that are left.
///
/// Its arguments are the parts of an iterator, so that these may stay in registers in a loop.
#[cold]
#[inline(never)]
fn first_entry(full: &[Segment], last: &Segment, begun: usize, left: EntryIter<'_>) -> Option<Entry>
    ensures { result ≡ slice_get (left.entry ++ flat_map (λ xs. xs) (drop begun (full.now ++ last.now ∷ []))) 0 }
{
    let mut entries = Entries {
        full,
        last,
        begun,
        left,
    };
    entries.next()
}

impl<'a> Iterator for Entries<'a> {
    ghost use Rattle.std.specs.Iterator.{YieldsFirst, item_count};

    type Item = Entry;

    ghost next_gives = { YieldsFirst (λ s. s) };

    ghost remaining = { item_count (λ s. s) };

    #[inline(always)]
    fn next(&mut self) -> Option<Entry> {
        loop {
            if let Some(entry) = self.left.next() {
                return Some(entry);
            }
            let Some(segment) = segment_at(self.full, self.last, self.begun) else {
                return None;
            };
            self.left = segment.entries();
            self.begun += 1;
        }
    }
}

/// Returns the segment at a position, counted from 0. The last one comes after the full ones.
fn segment_at<'a>(full: &'a [Segment], last: &'a Segment, place: usize) -> Option<&'a Segment>
    ensures some { IfSome result (λ segment. slice_get (full.now ++ last.now ∷ []) place ≡ Some segment.now) }
    ensures within { IfSome result (λ _. place + 1 < 2 ^ 64) }
    ensures none { IfNone result (slice_get (full.now ++ last.now ∷ []) place ≡ None) }
{
    if place < full.len() {
        Some(&full[place])
    } else if place == full.len() {
        Some(last)
    } else {
        None
    }
}
