//! A cache of prefixes of entries that were parsed.
//!
//! The prefix of an entry is its line up to the space before the reply, as `a read E =`. Values
//! apart, the entries of a trace have few different prefixes. So a prefix that was parsed recently
//! is found by its bytes, and only the reply is parsed, and the value of an await or a put. A key
//! contains the bytes, so no loop compares them.
ghost use Rattle.std.specs.Prelude.{◌≡◌, ℕ, List, Some, IfSome};
ghost use Rattle.ec_trace.specs.Entries.{entry_of};
ghost use Rattle.ec_trace.specs.kept.LineCache.{HasPrefix, HasNumber, EndsIn, SpellsAs, IsCachedPrefix, IsLineCache, has_value, with_value};
ghost use Rattle.ec_trace.specs.kept.PackedBytes.{key_bytes};
ghost use Rattle.ec_heading.specs.EntryWords.{NameTable};

use crate::entry::read_entry;
use crate::packed_bytes::PackedBytes;
use ec_core::{Act, Entry, Reply};
use ec_count::WorkerId;
use ec_heading::Heading;
use ec_text::number_at_end;
use std::alloc::{AllocError, Global};
use std::marker::Model;

/// How many slots the hash table has at first. If these are too few, it gets four times as many, up
/// to `PLACES_MAX`: enough for the puts and gets of 16 workers on 256 cells.
const PLACES: usize = 256;

const PLACES_MAX: usize = 65536;

/// What a free slot contains. No prefix has this number.
const FREE: u16 = u16::MAX;

/// The key of a prefix, and the worker and the act of each entry with this prefix.
///
/// Of an await or a put the prefix ends before the value, and the value of the act is arbitrary.
#[derive(Clone, Copy)]
pub(crate) struct CachedPrefix {
    key: PackedBytes,
    worker: WorkerId,
    act: Act,
}

/// Returns the first of a key's two slots if it is free, otherwise the second.
fn place_for(numbers: &[u16], key: &PackedBytes) -> usize {
    let first = key.place(numbers.len());
    match numbers.get(first) {
        Some(&FREE) => first,
        _ => first ^ 1,
    }
}

/// Stores the number of a prefix in a slot, if there is such a slot.
fn set_number_at(numbers: &mut [u16], place: usize, number: usize) {
    if let (Some(held), Ok(number)) = (numbers.get_mut(place), u16::try_from(number)) {
        *held = number;
    }
}

/// Returns a hash table of so many slots, with the numbers of these prefixes.
fn spread(alloc: Global, prefixes: &[CachedPrefix], places: usize) -> Result<Vec<u16>, AllocError> {
    let mut numbers = Vec::with_capacity(alloc, places)?;
    numbers.resize(places, FREE)?;
    for (number, known) in prefixes.iter().enumerate() {
        let place = place_for(&numbers, &known.key);
        set_number_at(&mut numbers, place, number);
    }
    Ok(numbers)
}

/// Replaces a prefix by another.
#[tactic(auto, using(crate::proofs::CacheLemmas::kept))]
fn replace(prefixes: &mut Vec<CachedPrefix>, number: usize, known: CachedPrefix)
    ensures { (names : NameTable) → IsLineCache names prefixes.old.items → IsCachedPrefix names known → IsLineCache names prefixes.new.items }
{
    if number < prefixes.len() {
        prefixes[number] = known;
    }
}

/// The prefixes that were parsed recently, and a hash table of their numbers.
///
/// The number of a prefix is in one of two slots, by the bytes of the prefix. The prefixes
/// themselves are stored without gaps, so free slots need little memory. The table grows with their
/// number.
#[derive(Drop)]
pub(crate) struct LineCache {
    prefixes: Vec<CachedPrefix>,
    numbers: Vec<u16>,
    /// How many prefixes were stored since the table grew.
    put: usize,
}

impl Model for LineCache {
    ghost use Rattle.std.specs.Prelude.{List};
    ghost use Rattle.ec_trace.specs.declared.line_cache.CachedPrefix.{CachedPrefix};

    ghost Value = { List CachedPrefix };

    ghost view = { λ s. s.prefixes.items };
}

impl LineCache {
    /// Returns an empty cache, with no slots yet.
    pub(crate) fn none(alloc: Global) -> Self
        ensures { (names : NameTable) → IsLineCache names result }
    {
        LineCache {
            prefixes: Vec::new(alloc),
            numbers: Vec::new(alloc),
            put: 0,
        }
    }

    /// Returns the prefix in a slot, if it has this key.
    #[inline(always)]
    fn at(&self, place: usize, key: &PackedBytes) -> Option<&CachedPrefix>
        ensures { (names : NameTable) → IsLineCache names self.now → IfSome result (λ f. SpellsAs names (key_bytes key.now) f.now.worker f.now.act) }
    {
        let number = *self.numbers.get(place)?;
        match self.prefixes.get(number as usize) {
            Some(known) if known.key.is(key) => Some(known),
            _ => None,
        }
    }

    /// Returns what is cached of a prefix, if it was parsed recently.
    #[inline(always)]
    #[tactic(auto, using(crate::proofs::CacheLemmas::found))]
    fn find(&self, prefix: &[u8]) -> Option<&CachedPrefix>
        ensures { (names : NameTable) → IsLineCache names self.now → IfSome result (λ f. SpellsAs names prefix.now f.now.worker f.now.act) }
    {
        let key = PackedBytes::of(prefix)?;
        let place = key.place(self.numbers.len());
        match self.at(place, &key) {
            Some(known) => Some(known),
            None => self.at(place ^ 1, &key),
        }
    }

    /// Adds a prefix, and stores its number in a slot, if there is memory and a number for it.
    #[tactic(auto, using(crate::proofs::CacheLemmas::kept_behind))]
    fn add(&mut self, place: usize, known: CachedPrefix)
        ensures { (names : NameTable) → IsLineCache names self.old → IsCachedPrefix names known → IsLineCache names self.new }
    {
        let _act = known.act;
        let number = self.prefixes.len();
        if number < FREE as usize && self.prefixes.push(known).is_ok() {
            set_number_at(&mut self.numbers, place, number);
        }
    }

    /// Stores a prefix in one of its two slots. If neither is free, it replaces another prefix.
    fn put(&mut self, known: CachedPrefix)
        ensures { (names : NameTable) → IsLineCache names self.old → IsCachedPrefix names known → IsLineCache names self.new }
    {
        let place = place_for(&self.numbers, &known.key);
        match self.numbers.get(place) {
            Some(&FREE) => self.add(place, known),
            Some(&number) => replace(&mut self.prefixes, number as usize, known),
            None => {}
        }
    }

    /// Grows the hash table to so many slots, if there is memory for that.
    #[cold]
    fn widen(&mut self, places: usize)
        ensures { self.new ≡ self.old }
    {
        let alloc = *self.numbers.allocator();
        if let Ok(wider) = spread(alloc, &self.prefixes, places) {
            self.numbers = wider;
        }
    }

    /// Counts one more prefix that is stored, and grows the hash table if half as many were stored
    /// as it has slots.
    fn reserve(&mut self)
        ensures { self.new ≡ self.old }
    {
        let places = self.numbers.len();
        if self.put < places / 2 {
            self.put += 1;
            return;
        }
        self.put = 0;
        if places < PLACES_MAX {
            self.widen(PLACES.max(places * 4));
        }
    }

    /// Stores the prefix of an entry, if it has a key.
    #[tactic(auto, using(crate::proofs::CacheLemmas::told_of))]
    fn store(&mut self, prefix: &[u8], entry: &Entry)
        ensures { (names : NameTable) → IsLineCache names self.old → SpellsAs names prefix.now entry.now.worker entry.now.act → IsLineCache names self.new }
    {
        let Some(key) = PackedBytes::of(prefix) else {
            return;
        };
        self.reserve();
        let known = CachedPrefix {
            key,
            worker: entry.worker,
            act: entry.act,
        };
        self.put(known);
    }

    /// Stores the prefix of an entry, up to its value if its act has one.
    #[tactic(auto, using(crate::proofs::CacheLemmas::tells, crate::proofs::CacheLemmas::opens))]
    fn store_part(&mut self, prefix: &[u8], entry: &Entry)
        ensures { (names : NameTable) (line : List ℕ) → IsLineCache names self.old → HasPrefix line prefix.now → entry_of names line ≡ Some entry.now → IsLineCache names self.new }
    {
        if !is_valued(&entry.act) {
            self.store(prefix, entry);
            return;
        }
        let Some((opening, _value)) = cut_value(prefix) else {
            return;
        };
        self.store(opening, entry);
    }

    /// Returns the entry that a line encodes, and stores its prefix.
    pub(crate) fn parse_entry(&mut self, heading: &Heading, line: &[u8]) -> Option<Entry>
        ensures value { result ≡ entry_of heading.now.words line.now }
        ensures kept { IsLineCache heading.now.words self.old
            → IsLineCache heading.now.words self.new }
    {
        let entry = read_entry(heading, line)?;
        if let Some((prefix, _reply)) = cut_reply(line) {
            self.store_part(prefix, &entry);
        }
        Some(entry)
    }

    /// Returns the entry with this prefix, which has no value, and this reply, if the prefix was
    /// parsed recently.
    #[inline(always)]
    pub(crate) fn entry_with_reply(&self, prefix: &[u8], reply: Reply) -> Option<Entry>
        ensures { (names : NameTable) (line : List ℕ) → IsLineCache names self.now → EndsIn line prefix.now reply → IfSome result (λ e. entry_of names line ≡ Some e) }
    {
        let known = self.find(prefix)?;
        if is_valued(&known.act) {
            return None;
        }
        Some(Entry {
            worker: known.worker,
            act: known.act,
            reply,
        })
    }

    /// Returns the entry with this prefix before its value, this value and this reply, if the
    /// prefix was parsed recently.
    #[inline(always)]
    pub(crate) fn entry_with_value(&self, opening: &[u8], value: u64, reply: Reply) -> Option<Entry>
        ensures { (names : NameTable) (line prefix : List ℕ) → IsLineCache names self.now → EndsIn line prefix reply → HasNumber prefix opening.now value → IfSome result (λ e. entry_of names line ≡ Some e) }
    {
        let known = self.find(opening)?;
        if !is_valued(&known.act) {
            return None;
        }
        Some(Entry {
            worker: known.worker,
            act: with_value(known.act, value),
            reply,
        })
    }
}

/// Returns whether an act has a value.
#[inline(always)]
fn is_valued(act: &Act) -> bool
    ensures { result ≡ has_value act.now }
{
    matches!(*act, Act::Await(_, _) | Act::Put(_, _))
}

/// Returns the act with another value, if it has one.
#[inline(always)]
fn with_value(act: Act, value: u64) -> Act
    ensures { result ≡ with_value act value }
{
    match act {
        Act::Await(event, _) => Act::Await(event, value),
        Act::Put(cell, _) => Act::Put(cell, value),
        other => other,
    }
}

/// Returns the parts of a prefix that ends in a value and `=`: what precedes the value, and the
/// value.
#[inline(always)]
pub(crate) fn cut_value(prefix: &[u8]) -> Option<(&[u8], u64)>
    ensures { IfSome result (λ p. HasNumber prefix.now p.0.now p.1) }
{
    match prefix {
        [.., last, _, _] if last.is_ascii_digit() => {}
        _ => return None,
    }
    let head = prefix.strip_suffix(b" =".as_slice())?;
    let (space, value) = number_at_end(head)?;
    Some((&head[..space], value))
}

/// Returns the parts of a line that ends in a reply: the prefix before the reply, and the reply.
#[inline(always)]
#[tactic(auto, using(crate::proofs::CacheLemmas::ends))]
pub(crate) fn cut_reply(line: &[u8]) -> Option<(&[u8], Reply)>
    ensures { IfSome result (λ p. EndsIn line.now p.0.now p.1) }
{
    match line {
        [.., b'e'] => Some((line.strip_suffix(b" done".as_slice())?, Reply::Done)),
        [.., b'g'] => Some((line.strip_suffix(b" pending".as_slice())?, Reply::Pending)),
        _ => {
            let (space, answer) = number_at_end(line)?;
            Some((&line[..space], Reply::Number(answer)))
        }
    }
}
