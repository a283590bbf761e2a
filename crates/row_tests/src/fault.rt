//! Why a line has no answer.
use ec_order::OrderFault;
use ec_text::WriteFault;
use std::alloc::{AllocError, AllocFailed};
use std::io;
use std::io::ErrorKind;

/// Why a line has no answer.
#[derive(Clone, Copy, Debug, PartialEq, Eq)]
pub enum Fault {
    /// The driver has no such line.
    Line,
    /// A read or a write failed.
    Write,
    /// An allocation failed.
    Memory,
}

impl From<AllocError> for Fault {
    fn from(_: AllocError) -> Self {
        Fault::Memory
    }
}

impl<T: Drop> From<AllocFailed<T>> for Fault {
    fn from(_: AllocFailed<T>) -> Self {
        Fault::Memory
    }
}

impl From<io::Error> for Fault {
    fn from(error: io::Error) -> Self {
        if error.kind() == ErrorKind::OutOfMemory {
            Fault::Memory
        } else {
            Fault::Write
        }
    }
}

impl From<WriteFault> for Fault {
    fn from(_: WriteFault) -> Self {
        Fault::Write
    }
}

impl From<OrderFault> for Fault {
    fn from(_: OrderFault) -> Self {
        Fault::Memory
    }
}
