//! What is wrong with a layout file.
use opc_base::NoMemory;
use std::alloc::{AllocError, AllocFailed};
use thiserror::Error;

/// What is wrong with a layout file, and at which offset. At one record the order is the order of this list.
#[derive(Clone, Copy, Debug, PartialEq, Eq, Error)]
pub enum LayoutFault {
    /// The bytes end before ENDLIB, between two records or within one.
    #[error("cut at {offset}")]
    Cut { offset: usize },
    /// A record's length is odd, or below 4.
    #[error("bad length at {offset}")]
    BadLength { offset: usize },
    /// The grammar has no record of this type and data type here.
    #[error("unexpected record {kind} at {offset}")]
    Unexpected { offset: usize, kind: u8 },
    /// This is the 65,536th BGNSTR.
    #[error("too many structures at {offset}")]
    TooManyStructures { offset: usize },
    /// The record has a body that its kind doesn't allow.
    #[error("bad body at {offset}")]
    BadBody { offset: usize },
    /// An earlier structure has the name of this STRNAME.
    #[error("duplicate name at {offset}")]
    Duplicate { offset: usize },
    /// A byte after ENDLIB isn't zero.
    #[error("trailing byte at {offset}")]
    Trailing { offset: usize },
    #[error("out of memory")]
    NoMemory,
}

impl From<NoMemory> for LayoutFault {
    ghost use Rattle.std.specs.Prelude.{◌≡◌};
    ghost use Rattle.gds_model.specs.declared.layout_fault.LayoutFault.TheVariants as layout;

    ghost from_gives = { λ _ e. e ≡ layout.NoMemory };

    fn from(_: NoMemory) -> Self {
        LayoutFault::NoMemory
    }
}

impl From<AllocError> for LayoutFault {
    ghost use Rattle.std.specs.Prelude.{◌≡◌};
    ghost use Rattle.gds_model.specs.declared.layout_fault.LayoutFault.TheVariants as layout;

    ghost from_gives = { λ _ e. e ≡ layout.NoMemory };

    fn from(_: AllocError) -> Self {
        LayoutFault::NoMemory
    }
}

impl<T: Drop> From<AllocFailed<T>> for LayoutFault {
    ghost use Rattle.std.specs.Prelude.{◌≡◌};
    ghost use Rattle.gds_model.specs.declared.layout_fault.LayoutFault.TheVariants as layout;

    ghost from_gives = { λ _ e. e ≡ layout.NoMemory };

    fn from(_: AllocFailed<T>) -> Self {
        LayoutFault::NoMemory
    }
}
