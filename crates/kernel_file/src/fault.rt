//! What may be wrong with a kernel file.
ghost use Rattle.std.specs.Prelude.{◌≡◌};
ghost use Rattle.kernel_file.specs.declared.fault.KernelFault.TheVariants as faults;

use std::alloc::{AllocError, AllocFailed};
use thiserror::Error;

/// Why a kernel file isn't read. Offsets count bytes from the start of the file, and kernels count from 0.
#[derive(Clone, Copy, Debug, PartialEq, Eq, Error)]
pub enum KernelFault {
    /// The file begins with the four bytes of neither format.
    #[error("bad magic")]
    BadMagic,
    /// The file ends within its head, or has another length than its count and its reach give.
    #[error("wrong length")]
    WrongLength,
    /// There are no kernels, or more than 16.
    #[error("bad count")]
    BadCount,
    /// The reach is more than 64 pixels.
    #[error("bad reach")]
    BadReach,
    /// A part of a transmission, at this offset, is more than 8 from 0.
    #[error("bad transmission at {offset}")]
    BadTransmission { offset: usize },
    /// The weight of this kernel is 0.
    #[error("bad weight of kernel {kernel}")]
    BadWeight { kernel: u16 },
    /// A part of an entry, at this offset, is further from 0 than its format allows: 2048 in the first, 128 in the second.
    #[error("bad entry at {offset}")]
    BadEntry { offset: usize },
    /// The weights sum to more than 2048.
    #[error("weights sum")]
    WeightSum,
    /// Memory ran out.
    #[error("no memory")]
    NoMemory,
}

impl From<AllocError> for KernelFault {
    ghost from_gives = { λ _ fault. fault ≡ faults.NoMemory };

    fn from(_: AllocError) -> Self {
        KernelFault::NoMemory
    }
}

impl<T: Drop> From<AllocFailed<T>> for KernelFault {
    ghost from_gives = { λ _ fault. fault ≡ faults.NoMemory };

    fn from(_: AllocFailed<T>) -> Self {
        KernelFault::NoMemory
    }
}
