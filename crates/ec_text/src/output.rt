//! A buffered writer.
ghost use Rattle.std.specs.Prelude.{◌≡◌, ◌∷◌, ◌++◌, [], List, ℕ, false, true, IsOk, IsErr, OnOk, OnErr, IsTrue, decimal, length, slice_set, ◌+◌, ◌-◌, ◌<◌, ◌≤◌};
ghost use Rattle.std.specs.List.{flat_map};
ghost use Rattle.std.specs.Io.KnownBytes.{Appends};
ghost use Rattle.ec_text.specs.Puts.{OutputModel, Holds, Puts, AppendsPrefix, IsFresh, IsWrittenOut, at_first, with_bytes};

use crate::buffer::{Buffer, InlineText};
use crate::cached_decimal::CachedDecimal;
use crate::writing::{WriteFault, write_out};
use std::io::Write;
use std::marker::Model;

/// A writer with a buffer of 8192 bytes.
///
/// After a write that failed or wrote no byte nothing more is written: the writer then has a proper
/// prefix of what was put. A caller makes an `Output`, puts, and ends with `finish`. The prover
/// adds up the clauses `puts` of the calls between by itself, up to about five in one function.
#[derive(Drop)]
pub struct Output<'a, W: Write> {
    writer: &'a mut W,
    bytes: Buffer,
    failed: bool,
}

impl<'a, W: Write> Model for Output<'a, W> {
    ghost use Rattle.std.specs.Prelude.{[], if◌then◌else◌};
    ghost use Rattle.ec_text.specs.Puts.{OutputModel};

    ghost Value = { OutputModel };

    ghost view = { λ o. record { writer = o.writer.ghost_name; contents = W.contents o.writer.now; waiting = if o.failed then [] else o.bytes; failed = o.failed } };
}

impl<'a, W: Write> Output<'a, W> {
    /// Makes an `Output` whose buffer is empty.
    #[tactic(auto, using(crate::proofs::shared::PutLemmas::begins))]
    pub fn new(writer: &'a mut W) -> Self
        ensures value { result ≡ at_first writer.entry.ghost_name (W.contents writer.old) }
        ensures none { Holds (at_first writer.entry.ghost_name (W.contents writer.old)) result [] }
    {
        Output {
            writer,
            bytes: Buffer::new(),
            failed: false,
        }
    }

    /// Returns whether a write has failed.
    pub fn has_failed(&self) -> bool
        ensures { result ≡ self.now.failed }
    {
        self.failed
    }

    /// Writes what is in the buffer, and empties it.
    ///
    /// It doesn't call the writer's own `flush`. A failure is reported by `finish`.
    pub fn flush(&mut self)
        ensures puts { Puts self.old self.new [] }
        ensures written { IsWrittenOut self.new }
        ensures nothing { self.old.waiting ≡ [] → self.new ≡ self.old }
        ensures stays { self.old.failed ≡ true → self.new ≡ self.old }
    {
        if self.failed {
            self.bytes.clear();
            return;
        }
        let done = write_out(self.writer, self.bytes.as_slice());
        self.failed = done.is_err();
        self.bytes.clear();
    }

    /// Puts bytes after those that were put before. A failure is reported by `finish`.
    ///
    /// Bytes that are put after a failed write are never written. They are dropped when the buffer
    /// is full.
    #[inline(always)]
    pub fn put(&mut self, bytes: &[u8])
        ensures puts { Puts self.old self.new bytes.now }
        ensures room { self.old.failed ≡ false → length self.old.waiting + length bytes.now ≤ 8192
            → self.new ≡ with_bytes self.old bytes.now }
        ensures stays { self.old.failed ≡ true → self.new ≡ self.old }
    {
        if self.bytes.take_in(bytes) {
            return;
        }
        self.put_behind(bytes);
    }

    /// Puts bytes, and a short text after them.
    ///
    /// If the bytes are a literal, this costs little more than only the text.
    #[inline(always)]
    pub fn put_with_short(&mut self, before: &[u8], text: &InlineText)
        ensures puts { Puts self.old self.new (before.now ++ text.now) }
        ensures room { self.old.failed ≡ false → length self.old.waiting + length (before.now ++ text.now) ≤ 8192
            → self.new ≡ with_bytes self.old (before.now ++ text.now) }
        ensures stays { self.old.failed ≡ true → self.new ≡ self.old }
    {
        if self.bytes.take_in_short(before, text) {
            return;
        }
        self.put_at_end(before, text);
    }

    /// Puts bytes, and the digits of a number that is stored with them.
    #[inline(always)]
    pub fn put_with_decimal(&mut self, before: &[u8], number: &CachedDecimal)
        ensures puts { Puts self.old self.new (before.now ++ decimal number.now) }
        ensures room { self.old.failed ≡ false → length self.old.waiting + length (before.now ++ decimal number.now) ≤ 8192
            → self.new ≡ with_bytes self.old (before.now ++ decimal number.now) }
        ensures stays { self.old.failed ≡ true → self.new ≡ self.old }
    {
        let (digits, last) = number.ending();
        if self.bytes.take_in_ending(before, digits, last) {
            return;
        }
        self.put_decimal_at_end(before, number);
    }

    /// Puts a short text. It costs less than `put` of its bytes.
    #[inline(always)]
    pub fn put_short(&mut self, text: &InlineText)
        ensures puts { Puts self.old self.new text.now }
        ensures room { self.old.failed ≡ false → length self.old.waiting + length text.now ≤ 8192
            → self.new ≡ with_bytes self.old text.now }
        ensures stays { self.old.failed ≡ true → self.new ≡ self.old }
    {
        self.put_with_short(b"", text);
    }

    /// Puts the digits of a number that is stored with them.
    #[inline(always)]
    pub fn put_decimal(&mut self, number: &CachedDecimal)
        ensures puts { Puts self.old self.new (decimal number.now) }
        ensures room { self.old.failed ≡ false → length self.old.waiting + length (decimal number.now) ≤ 8192
            → self.new ≡ with_bytes self.old (decimal number.now) }
        ensures stays { self.old.failed ≡ true → self.new ≡ self.old }
    {
        self.put_with_decimal(b"", number);
    }

    /// Puts bytes and a short text that the buffer did not take in.
    #[cold]
    #[inline(never)]
    fn put_at_end(&mut self, before: &[u8], text: &InlineText)
        ensures puts { Puts self.old self.new (before.now ++ text.now) }
        ensures room { self.old.failed ≡ false → length self.old.waiting + length (before.now ++ text.now) ≤ 8192
            → self.new ≡ with_bytes self.old (before.now ++ text.now) }
        ensures stays { self.old.failed ≡ true → self.new ≡ self.old }
    {
        self.put(before);
        self.put(text.bytes());
    }

    /// Puts bytes and the digits of a number that the buffer did not take in.
    ///
    /// The text of all digits is made here. In `put_with_decimal`, which rarely needs it, each call
    /// would clear the memory for it.
    #[cold]
    #[inline(never)]
    fn put_decimal_at_end(&mut self, before: &[u8], number: &CachedDecimal)
        ensures puts { Puts self.old self.new (before.now ++ decimal number.now) }
        ensures room { self.old.failed ≡ false → length self.old.waiting + length (before.now ++ decimal number.now) ≤ 8192
            → self.new ≡ with_bytes self.old (before.now ++ decimal number.now) }
        ensures stays { self.old.failed ≡ true → self.new ≡ self.old }
    {
        self.put_at_end(before, &number.digits());
    }

    /// Puts bytes for which the buffer has too little room left.
    #[cold]
    #[inline(never)]
    fn put_behind(&mut self, bytes: &[u8])
        ensures puts { Puts self.old self.new bytes.now }
        ensures stays { self.old.failed ≡ true → self.new ≡ self.old }
    {
        self.flush();
        if self.has_failed() {
            return;
        }
        if self.bytes.take_in(bytes) {
            return;
        }
        self.put_long(bytes);
    }

    /// Writes bytes for which even the empty buffer is too small.
    fn put_long(&mut self, bytes: &[u8])
        requires { IsFresh self.old }
        ensures { Puts self.old self.new bytes.now }
    {
        self.failed = write_out(self.writer, bytes).is_err();
    }

    /// Puts one byte.
    #[inline(always)]
    pub fn put_byte(&mut self, byte: u8)
        ensures puts { Puts self.old self.new (byte ∷ []) }
        ensures room { self.old.failed ≡ false → length self.old.waiting + 1 ≤ 8192
            → self.new ≡ with_bytes self.old (byte ∷ []) }
        ensures stays { self.old.failed ≡ true → self.new ≡ self.old }
    {
        self.put(&[byte]);
    }

    /// Puts the decimal digits of a number.
    #[inline(always)]
    #[tactic(auto, using(crate::proofs::shared::DecimalLemmas::one_digit))]
    pub fn put_number(&mut self, n: u64)
        ensures puts { Puts self.old self.new (decimal n) }
        ensures room { self.old.failed ≡ false → length self.old.waiting + length (decimal n) ≤ 8192
            → self.new ≡ with_bytes self.old (decimal n) }
        ensures stays { self.old.failed ≡ true → self.new ≡ self.old }
    {
        if n < 10 {
            self.put_byte(b'0' + n as u8);
        } else {
            self.put_long_number(n);
        }
    }

    /// Puts the decimal digits of a number that may have several.
    #[inline(never)]
    fn put_long_number(&mut self, n: u64)
        ensures puts { Puts self.old self.new (decimal n) }
        ensures room { self.old.failed ≡ false → length self.old.waiting + length (decimal n) ≤ 8192
            → self.new ≡ with_bytes self.old (decimal n) }
        ensures stays { self.old.failed ≡ true → self.new ≡ self.old }
    {
        self.put_short(&InlineText::of_number(n));
    }

    /// Puts pieces, one after another.
    pub fn put_all(&mut self, pieces: &[&[u8]])
        ensures puts { Puts self.old self.new (flat_map (λ p. p.now) pieces.now) }
        ensures room { self.old.failed ≡ false → length self.old.waiting + length (flat_map (λ p. p.now) pieces.now) ≤ 8192
            → self.new ≡ with_bytes self.old (flat_map (λ p. p.now) pieces.now) }
        ensures stays { self.old.failed ≡ true → self.new ≡ self.old }
    {
        for piece in pieces {
            self.put(piece);
        }
    }

    /// Puts bytes, and writes all that is then in the buffer.
    pub fn say(&mut self, bytes: &[u8])
        ensures puts { Puts self.old self.new bytes.now }
        ensures written { IsWrittenOut self.new }
    {
        self.put(bytes);
        self.flush();
    }

    /// Writes what is in the buffer, and returns an error if any write since `new` failed.
    ///
    /// After `Ok` the writer has all that was put since `new`, after an error a proper prefix of
    /// it.
    pub fn finish(&mut self) -> Result<(), WriteFault>
        ensures same { (first : OutputModel) (all : List ℕ) → Holds first self.old all → self.new.writer ≡ first.writer }
        ensures ok { (first : OutputModel) (all : List ℕ) → Holds first self.old all → OnOk result (Appends first.contents self.new.contents all) }
        ensures err { (first : OutputModel) (all : List ℕ) → Holds first self.old all → OnErr result (AppendsPrefix first.contents self.new.contents all) }
        ensures nothing { IsFresh self.old → IsOk result × (self.new ≡ self.old) }
        ensures failed { self.old.failed ≡ true → IsErr result × (self.new ≡ self.old) }
        ensures puts { Puts self.old self.new [] }
        ensures written { IsWrittenOut self.new }
    {
        self.flush();
        if self.has_failed() {
            Err(WriteFault)
        } else {
            Ok(())
        }
    }

    /// Returns the writer, and drops what is in the buffer.
    ///
    /// A function that borrows its writer ends with this call, so that its contract can say what
    /// the writer then has.
    pub fn into_writer(self) -> &'a mut W
        ensures same { result.ghost_name ≡ self.entry.writer }
        ensures contents { W.contents result.now ≡ self.entry.contents }
    {
        let Output {
            writer,
            bytes: _,
            failed: _,
        } = self;
        writer
    }
}
