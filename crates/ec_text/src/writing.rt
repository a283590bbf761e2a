//! Writes bytes to a writer: all of them, or it is an error.
ghost use Rattle.std.specs.Prelude.{◌≡◌, [], IsOk, OnOk, OnErr};
ghost use Rattle.std.specs.Io.KnownBytes.{Appends};
ghost use Rattle.ec_text.specs.Puts.{AppendsPrefix};

use std::io::Write;
use thiserror::Error;

/// A write failed, or wrote none of its bytes.
#[derive(Clone, Copy, Debug, PartialEq, Eq, Error)]
#[error("a write failed")]
pub struct WriteFault;

/// Writes all of the bytes, or returns an error after a proper prefix of them.
///
/// It stops at the first write that fails or writes nothing, and retries none.
pub fn write_out<W: Write>(writer: &mut W, bytes: &[u8]) -> Result<(), WriteFault>
    ensures ok { OnOk result (Appends (W.contents writer.old) (W.contents writer.new) bytes.now) }
    ensures err { OnErr result (AppendsPrefix (W.contents writer.old) (W.contents writer.new) bytes.now) }
    ensures nothing { bytes.now ≡ [] → IsOk result × (writer.new ≡ writer.old) }
{
    let mut done = 0usize;
    while done < bytes.len() {
        match writer.write(&bytes[done..]) {
            Ok(0) => return Err(WriteFault),
            Ok(n) => done += n,
            Err(_) => return Err(WriteFault),
        }
    }
    Ok(())
}
