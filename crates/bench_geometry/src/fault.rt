//! Why a measurement ends without its line.

use geometry_rows::fault::RowFault;
use opc_base::NoMemory;
use std::alloc::{AllocError, AllocFailed};
use std::io;

/// Why a measurement ends without its line.
#[derive(Debug, Drop)]
pub enum BenchFault {
    /// The words are no layer and count.
    Words,
    /// The layer can't be made.
    Row(RowFault),
    /// The words can't be read, or the line can't be printed.
    Io(io::Error),
    NoMemory,
}

impl From<RowFault> for BenchFault {
    fn from(fault: RowFault) -> Self {
        BenchFault::Row(fault)
    }
}

impl From<io::Error> for BenchFault {
    fn from(error: io::Error) -> Self {
        BenchFault::Io(error)
    }
}

impl From<NoMemory> for BenchFault {
    fn from(_: NoMemory) -> Self {
        BenchFault::NoMemory
    }
}

impl From<AllocError> for BenchFault {
    fn from(_: AllocError) -> Self {
        BenchFault::NoMemory
    }
}

impl<T: Drop> From<AllocFailed<T>> for BenchFault {
    fn from(_: AllocFailed<T>) -> Self {
        BenchFault::NoMemory
    }
}
