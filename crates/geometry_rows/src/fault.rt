//! Why a row can't be made.

use opc_base::NoMemory;
use rect_union::UnionFault;
use std::alloc::{AllocError, AllocFailed};

/// Why a row can't be made.
#[derive(Debug, Drop)]
pub enum RowFault {
    /// These points are no polygon, or these sides no rectangle.
    NoShape,
    /// The file is no layout with a structure of this name that can be placed.
    NoLayout,
    /// The target breaks a rule of masks.
    BreaksRules,
    /// The target has too many corners.
    TooManyCorners,
    /// The target has so many fragments.
    TooManyFragments(u64),
    /// There is no fragment of this number.
    NoFragment,
    NoMemory,
}

impl From<AllocError> for RowFault {
    fn from(_: AllocError) -> Self {
        RowFault::NoMemory
    }
}

impl<T: Drop> From<AllocFailed<T>> for RowFault {
    fn from(_: AllocFailed<T>) -> Self {
        RowFault::NoMemory
    }
}

impl From<NoMemory> for RowFault {
    fn from(_: NoMemory) -> Self {
        RowFault::NoMemory
    }
}

impl From<UnionFault> for RowFault {
    fn from(fault: UnionFault) -> Self {
        match fault {
            UnionFault::TooManyCorners => RowFault::TooManyCorners,
            UnionFault::NoMemory => RowFault::NoMemory,
        }
    }
}
