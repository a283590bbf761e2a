//! The caller's buffers, as writers.
ghost use Rattle.std.specs.Prelude.{◌≡◌, ◌≤◌, ◌+◌, ◌-◌, ◌∷◌, ◌++◌, [], min, length, take, drop, Some, IsOk, IfOk};
ghost use Rattle.std.specs.Io.{WritesAtMost};
ghost use Rattle.std.specs.Io.KnownBytes.{WriteAppends};

use std::alloc::{AllocError, Global};
use std::io;
use std::io::Write;

/// A buffer of the caller, which is written from its beginning on, and how many bytes were written.
/// A write takes as many bytes as fit.
#[derive(Drop)]
pub(crate) struct Room<'a> {
    bytes: &'a mut [u8],
    pub(crate) len: usize,
    ghost within: { len ≤ length bytes.now },
}

impl<'a> Room<'a> {
    /// Returns a buffer in which nothing was written yet.
    pub(crate) fn new(bytes: &'a mut [u8]) -> Room<'a>
        ensures same { result.bytes.ghost_name ≡ bytes.entry.ghost_name }
        ensures bytes { result.bytes.now ≡ bytes.old }
        ensures len { result.len ≡ 0 }
    {
        Room { bytes, len: 0 }
    }
}

/// Copies as many bytes as fit into a buffer, after its first `at` bytes, and returns how many.
pub(crate) fn put_after(room: &mut [u8], at: usize, bytes: &[u8]) -> usize
    requires { at ≤ length room.old }
    ensures count { result ≡ min (length bytes.now) (length room.old - at) }
    ensures len { length room.new ≡ length room.old }
    ensures rest { drop (at + result) room.new ≡ drop (at + result) room.old }
    ensures prefix { take (at + result) room.new ≡ take at room.old ++ take result bytes.now }
{
    let n = bytes.len().min(room.len() - at);
    room[at..at + n].copy_from_slice(&bytes[..n]);
    n
}

/// Copies as many bytes as fit into a buffer, from its beginning on, and returns how many.
pub(crate) fn copy_prefix(room: &mut [u8], bytes: &[u8]) -> usize
    ensures within { result ≤ length room.new }
    ensures len { length room.new ≡ length room.old }
    ensures prefix { take result room.new ≡ take (length room.old) bytes.now }
    ensures rest { drop result room.new ≡ drop result room.old }
{
    put_after(room, 0, bytes)
}

impl Write for Room<'_> {
    ghost contents = { λ r. Some (r.bytes.ghost_name ∷ take r.len r.bytes.now) };

    fn write(&mut self, buf: &[u8]) -> io::Result<usize>
        ensures bound { WritesAtMost result buf.now }
        ensures bytes { WriteAppends (Some (self.old.bytes.ghost_name ∷ take self.old.len self.old.bytes.now))
            (Some (self.new.bytes.ghost_name ∷ take self.new.len self.new.bytes.now)) result buf.now }
        ensures ok { IsOk result }
    {
        let n = put_after(self.bytes, self.len, buf);
        self.len += n;
        Ok(n)
    }

    fn flush(&mut self) -> io::Result<()> {
        Ok(())
    }
}

/// A writer of notes that takes at most `room` bytes.
#[derive(Drop)]
pub(crate) struct NotesRoom {
    bytes: Vec<u8>,
    room: usize,
}

impl NotesRoom {
    /// Allocates memory for `room` bytes.
    pub(crate) fn new(alloc: Global, room: usize) -> Result<NotesRoom, AllocError>
        ensures { IfOk result (λ r. (r.bytes.items ≡ []) × (r.room ≡ room)) }
    {
        let bytes = Vec::with_capacity(alloc, room)?;
        Ok(NotesRoom { bytes, room })
    }

    /// Returns the bytes that were written.
    pub(crate) fn as_slice(&self) -> &[u8]
        ensures { result.now ≡ self.now.bytes.items }
    {
        self.bytes.as_slice()
    }
}

impl Write for NotesRoom {
    ghost contents = { λ r. Some r.bytes.items };

    fn write(&mut self, buf: &[u8]) -> io::Result<usize>
        ensures bound { WritesAtMost result buf.now }
        ensures bytes { WriteAppends (Some self.old.bytes.items) (Some self.new.bytes.items) result buf.now }
        ensures taken { IfOk result (λ n. n ≡ min (length buf.now) (self.old.room - length self.old.bytes.items)) }
    {
        let taken = buf.len().min(self.room.saturating_sub(self.bytes.len()));
        self.bytes.extend_from_slice(&buf[..taken])?;
        Ok(taken)
    }

    fn flush(&mut self) -> io::Result<()> {
        Ok(())
    }
}
