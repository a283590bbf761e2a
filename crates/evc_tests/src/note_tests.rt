//! The note of a mismatch, which no known run has, and what is written after a failed write.
use ec_count::WorkerId;
use ec_text::{InlineText, Output};
use ec_trace::read_trace;
use evc_scripts::note_mismatch;
use std::alloc::Global;
use std::io;
use std::io::{ErrorKind, Write};
use std::test::Fail;

/// A writer that takes at most so many bytes at a time. One of its writes, by number from 0, fails.
#[derive(Drop)]
struct Fickle {
    bytes: Vec<u8>,
    most: usize,
    at: usize,
    writes: usize,
}

impl Fickle {
    fn new(alloc: Global, most: usize, at: usize) -> Self {
        Fickle {
            bytes: Vec::new(alloc),
            most,
            at,
            writes: 0,
        }
    }
}

impl Write for Fickle {
    fn write(&mut self, buf: &[u8]) -> io::Result<usize> {
        let number = self.writes;
        self.writes = number.saturating_add(1);
        if number == self.at {
            return Err(io::Error::from(ErrorKind::BrokenPipe));
        }
        let n = buf.len().min(self.most);
        self.bytes.extend_from_slice(&buf[..n])?;
        Ok(n)
    }

    fn flush(&mut self) -> io::Result<()> {
        Ok(())
    }
}

/// A trace with two workers and no entry.
const TWO_WORKERS: &str = "evc-trace 1\nlimit 10\nworkers a b\nrun\nend\n";

/// Notes a mismatch of the second worker, so many times.
fn note<N: Write>(alloc: Global, notes: &mut Output<'_, N>, times: usize) -> Result<(), Fail> {
    let Ok(traced) = read_trace(alloc, &mut TWO_WORKERS.as_bytes()) else {
        return Err(Fail::new("no trace"));
    };
    for _ in 0..times {
        note_mismatch(notes, traced.heading(), WorkerId::new(1).unwrap());
    }
    Ok(())
}

#[test]
fn a_mismatch_is_noted(rt: HostRuntime) -> Result<(), Fail> {
    let mut returned = Vec::new(rt.alloc());
    note(rt.alloc(), &mut Output::new(&mut returned), 1)?;
    assert!(rt; returned.as_slice() == b"mismatch b\n".as_slice());
    Ok(())
}

#[test]
fn a_mismatch_is_noted_up_to_a_failed_write(rt: HostRuntime) -> Result<(), Fail> {
    let mut returned = Fickle::new(rt.alloc(), 1, 4);
    note(rt.alloc(), &mut Output::new(&mut returned), 2)?;
    assert!(rt; returned.bytes.as_slice() == b"mism".as_slice());
    Ok(())
}

#[test]
fn nothing_is_written_after_a_failure(rt: HostRuntime) -> Result<(), Fail> {
    let mut text = InlineText::new();
    assert!(rt; text.take_in(b"abcdefghijklmnopqrstuvwxyz012345"));
    let mut writer = Fickle::new(rt.alloc(), 8192, 0);
    let mut out = Output::new(&mut writer);
    for _ in 0..1000 {
        out.put_short(&text);
        out.put(b"\n");
    }
    assert!(rt; out.finish().is_err());
    assert!(rt; writer.bytes.is_empty());
    Ok(())
}
