//! Where answers are written: to standard output, or into a checksum.
use crate::fault::Fault;
use std::fmt::Display;
use std::io;
use std::io::{BufWriter, Stdout, Write};

/// Standard output, or a checksum of the bytes, which depends on their order.
#[derive(Drop)]
pub enum TestOutput {
    Text(BufWriter<Stdout>),
    Sum(u64),
}

impl Write for TestOutput {
    fn write(&mut self, buf: &[u8]) -> io::Result<usize> {
        match self {
            TestOutput::Text(out) => out.write(buf),
            TestOutput::Sum(sum) => {
                for byte in buf {
                    let mixed = *sum ^ *byte as u64;
                    *sum = mixed.wrapping_mul(1_099_511_628_211).rotate_left(7);
                }
                Ok(buf.len())
            }
        }
    }

    fn flush(&mut self) -> io::Result<()> {
        match self {
            TestOutput::Text(out) => out.flush(),
            TestOutput::Sum(_) => Ok(()),
        }
    }
}

impl TestOutput {
    /// Writes a text. The macros `write!` and `writeln!` call it.
    pub fn write_fmt<T: Display + Drop>(&mut self, text: T) -> Result<(), Fault> {
        Ok(Write::write_fmt(self, text)?)
    }

    /// Writes bytes.
    pub fn put(&mut self, bytes: &[u8]) -> Result<(), Fault> {
        Ok(self.write_all(bytes)?)
    }
}
