//! The bytes of an input, up to a bound.
ghost use Rattle.std.specs.Prelude.{◌≡◌, ◌≤◌, ◌<◌, ◌^◌, ◌+◌, ◌++◌, IfSome, IfOk, OnOk, length, take};
ghost use Rattle.std.specs.Io.KnownBytes.{ReadConsumes};
ghost use Rattle.std.specs.Io.{ReadsAtMost};
ghost use Rattle.ec_text.specs.Inputs.{IsInput};

use arrayvec::ArrayVec;
use std::alloc::{AllocError, Global};
use std::io;
use std::io::Read;

/// What was read of an input.
#[derive(Drop)]
pub enum Input {
    /// All of the input, or of a longer one the first bytes: one more than the bound.
    Whole(Vec<u8>),
    /// The bytes before a failed read, which is not retried.
    CutOff(Vec<u8>),
}

/// Reads the next piece into the first bytes of a full table, and returns its length.
///
/// The table stays full. The piece has at most 8192 bytes, and none only at the end.
pub fn read_piece<R: Read>(reader: &mut R, table: &mut ArrayVec<u8, 8192>) -> io::Result<usize>
    ensures len { length table.new.items ≡ length table.old.items }
    ensures bound { ReadsAtMost result table.new.items }
    ensures bytes { ReadConsumes (R.remaining reader.old) (R.remaining reader.new) result table.new.items }
{
    reader.read(table.as_mut_slice())
}

/// Appends the first n bytes of the table to the text.
fn keep_prefix(text: &mut Vec<u8>, table: &ArrayVec<u8, 8192>, n: usize) -> Result<(), AllocError>
    requires { n ≤ length table.now.items }
    ensures { OnOk result (text.new.items ≡ text.old.items ++ take n table.now.items) }
{
    let bytes = table.as_slice();
    text.extend_from_slice(&bytes[..n])
}

/// Reads an input up to its end, the first failed read, or one byte more than `most`.
///
/// That byte shows that a text is too long. The input is read in pieces of at most 8192 bytes.
pub fn read_up_to<R: Read>(alloc: Global, reader: &mut R, most: usize) -> Result<Input, AllocError>
    requires { most + 1 < 2 ^ 63 }
    ensures { IfSome (R.remaining reader.old) (λ bytes. IfOk result (IsInput most bytes (R.remaining reader.new))) }
{
    let mut table: ArrayVec<u8, 8192> = ArrayVec::from([0u8; 8192]);
    let mut text = Vec::new(alloc);
    loop {
        let room = most + 1 - text.len();
        let Ok(n) = read_piece(reader, &mut table) else {
            return Ok(Input::CutOff(text));
        };
        if n == 0 {
            return Ok(Input::Whole(text));
        }
        if n >= room {
            keep_prefix(&mut text, &table, room)?;
            return Ok(Input::Whole(text));
        }
        keep_prefix(&mut text, &table, n)?;
    }
}
