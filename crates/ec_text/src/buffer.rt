//! Byte buffers of fixed size.
ghost use Rattle.std.specs.Prelude.{◌≡◌, ◌↔◌, ◌+◌, ◌≤◌, ◌++◌, [], List, IsTrue, false, length, take, ◌-◌, ◌<◌, slice_get, slice_set, decimal};

use itoa::write_digits;
use std::marker::Model;
use std::simd::prelude::*;

/// Copies the first N bytes of a list into a table at a position, by one load and one store.
#[inline(always)]
fn write_prefix<const N: usize>(table: &mut [u8], place: usize, bytes: &[u8])
    requires bytes { N ≤ length bytes.now }
    requires room { place + N ≤ length table.old }
    ensures prefix { take (place + N) table.new ≡ take place table.old ++ take N bytes.now }
    ensures len { length table.new ≡ length table.old }
{
    Simd::<u8, N>::from_slice(bytes).copy_to_slice(&mut table[place..]);
}

/// Copies N to 2 N bytes into a table at a position: the first N of them, and the last N.
fn write_ends<const N: usize>(table: &mut [u8], place: usize, bytes: &[u8])
    requires covers { (N ≤ length bytes.now) × (length bytes.now ≤ N + N) }
    requires room { place + length bytes.now ≤ length table.old }
    ensures prefix { take (place + length bytes.now) table.new ≡ take place table.old ++ bytes.now }
    ensures len { length table.new ≡ length table.old }
{
    let last = bytes.len() - N;
    write_prefix::<N>(table, place, bytes);
    write_prefix::<N>(table, place + last, &bytes[last..]);
}

/// Copies bytes into a table at a position.
///
/// At most 32 bytes take two stores of one size, which may overlap. For a literal the compiler
/// chooses that size. The function is inlined without `#[inline(always)]`: with it, its callers
/// would count as very large, and not be inlined themselves.
fn write_at(table: &mut [u8], place: usize, bytes: &[u8])
    requires { place + length bytes.now ≤ length table.old }
    ensures prefix { take (place + length bytes.now) table.new ≡ take place table.old ++ bytes.now }
    ensures len { length table.new ≡ length table.old }
{
    match bytes.len() {
        0 => {}
        1 => write_ends::<1>(table, place, bytes),
        2..=3 => write_ends::<2>(table, place, bytes),
        4..=7 => write_ends::<4>(table, place, bytes),
        8..=15 => write_ends::<8>(table, place, bytes),
        16..=32 => write_ends::<16>(table, place, bytes),
        many => table[place..place + many].copy_from_slice(bytes),
    }
}

/// A text of at most 32 bytes, ready to be put.
///
/// All 32 bytes of its table are copied at once, by one load and one store, whatever its length. So
/// a word that is put often is stored as such a text.
#[derive(Drop)]
pub struct InlineText {
    bytes: [u8; 32],
    len: usize,
}

impl Model for InlineText {
    ghost use Rattle.std.specs.Prelude.{◌≡◌, ◌≤◌, ℕ, List, length, take};

    ghost Value = { List ℕ };

    ghost view = { λ t. take t.len t.bytes };

    ghost invariant = { λ t. (t.len ≤ 32) × (length t.bytes ≡ 32) };
}

impl InlineText {
    /// Makes an empty text.
    #[inline(always)]
    pub fn new() -> Self
        ensures { result ≡ [] }
    {
        InlineText {
            bytes: [0; 32],
            len: 0,
        }
    }

    /// Returns the decimal digits of a number. They are written into a longer table, and the 32
    /// bytes from the first digit on are copied at once.
    #[inline(always)]
    pub(crate) fn of_number(n: u64) -> Self
        ensures { result ≡ decimal n }
    {
        let mut table = [0; 52];
        let start = write_digits(n, &mut table, 20);
        let mut text = InlineText::new();
        write_prefix::<32>(&mut text.bytes, 0, &table[start..]);
        text.len = 20 - start;
        text
    }

    /// Appends bytes if the text then has at most 32, and returns whether it did.
    #[inline(always)]
    pub fn take_in(&mut self, bytes: &[u8]) -> bool
        ensures taken { IsTrue result → self.new ≡ self.old ++ bytes.now }
        ensures kept { result ≡ false → self.new ≡ self.old }
        ensures room { IsTrue result ↔ (length self.old + length bytes.now ≤ 32) }
    {
        if bytes.len() > 32 - self.len {
            return false;
        }
        write_at(&mut self.bytes, self.len, bytes);
        self.len += bytes.len();
        true
    }

    /// Returns the bytes of the text.
    #[inline(always)]
    pub fn bytes(&self) -> &[u8]
        ensures value { result.now ≡ self.now }
        ensures short { length self.now ≤ 32 }
    {
        &self.bytes[..self.len]
    }
}

/// A buffer of at most 8192 bytes.
#[derive(Drop)]
pub(crate) struct Buffer {
    bytes: [u8; 8192],
    len: usize,
}

impl Model for Buffer {
    ghost use Rattle.std.specs.Prelude.{◌≡◌, ◌≤◌, ℕ, List, length, take};

    ghost Value = { List ℕ };

    ghost view = { λ t. take t.len t.bytes };

    ghost invariant = { λ t. (t.len ≤ 8192) × (length t.bytes ≡ 8192) };
}

impl Buffer {
    /// Makes an empty buffer.
    pub(crate) fn new() -> Self
        ensures { result ≡ [] }
    {
        Buffer {
            bytes: [0; 8192],
            len: 0,
        }
    }

    /// Returns the bytes of the buffer.
    pub(crate) fn as_slice(&self) -> &[u8]
        ensures { result.now ≡ self.now }
    {
        &self.bytes[..self.len]
    }

    /// Drops all bytes.
    pub(crate) fn clear(&mut self)
        ensures { self.new ≡ [] }
    {
        self.len = 0;
    }

    /// Appends bytes if there is room for all of them, and returns whether it did.
    #[inline(always)]
    pub(crate) fn take_in(&mut self, bytes: &[u8]) -> bool
        ensures taken { IsTrue result → self.new ≡ self.old ++ bytes.now }
        ensures kept { result ≡ false → self.new ≡ self.old }
        ensures room { IsTrue result ↔ (length self.old + length bytes.now ≤ 8192) }
    {
        if bytes.len() > 8192 - self.len {
            return false;
        }
        write_at(&mut self.bytes, self.len, bytes);
        self.len += bytes.len();
        true
    }

    /// Appends bytes and a short text, and returns whether it did.
    ///
    /// It does so if there are at most 32 bytes, and room for 32 bytes and the longest short text.
    #[inline(always)]
    pub(crate) fn take_in_short(&mut self, before: &[u8], text: &InlineText) -> bool
        ensures taken { IsTrue result → self.new ≡ self.old ++ (before.now ++ text.now) }
        ensures kept { result ≡ false → self.new ≡ self.old }
    {
        if before.len() > 32 || self.len > 8192 - 64 {
            return false;
        }
        let place = self.len + before.len();
        write_at(&mut self.bytes, self.len, before);
        write_prefix::<32>(&mut self.bytes, place, &text.bytes);
        self.len = place + text.len;
        true
    }

    /// Appends bytes and a short text with this last byte instead of its own, as `take_in_short`
    /// does.
    #[inline(always)]
    pub(crate) fn take_in_ending(&mut self, before: &[u8], text: &InlineText, last: u8) -> bool
        requires { 0 < length text.now }
        ensures taken { IsTrue result → self.new ≡ self.old ++ (before.now ++ slice_set text.now (length text.now - 1) last) }
        ensures kept { result ≡ false → self.new ≡ self.old }
    {
        if !self.take_in_short(before, text) {
            return false;
        }
        self.set_last(last);
        true
    }

    /// Replaces the last byte.
    #[inline(always)]
    fn set_last(&mut self, byte: u8)
        requires { 0 < length self.old }
        ensures { self.new ≡ slice_set self.old (length self.old - 1) byte }
    {
        self.bytes[self.len - 1] = byte;
    }
}
