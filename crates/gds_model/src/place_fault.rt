//! Why a layout can't be expanded.
use opc_base::NoMemory;
use std::alloc::{AllocError, AllocFailed};
use thiserror::Error;

/// Why the chosen layer of a library can't be expanded. An offset is that of the element's first record.
#[derive(Clone, Copy, Debug, PartialEq, Eq, Error)]
pub enum PlaceFault {
    /// No structure has the name of the chosen top.
    #[error("no top structure")]
    NoTop,
    /// A reference names no structure.
    #[error("missing structure at {offset}")]
    Missing { offset: usize },
    /// A reference has a MAG that isn't 1.
    #[error("bad magnification at {offset}")]
    BadMag { offset: usize },
    /// A reference has an ANGLE that isn't a multiple of 90 degrees from -360 to 360.
    #[error("bad angle at {offset}")]
    BadAngle { offset: usize },
    /// An array has no columns or no rows, or a step between them that isn't whole.
    #[error("bad array at {offset}")]
    BadArray { offset: usize },
    /// A structure reaches itself through references.
    #[error("cycle through structure {structure}")]
    Cycle { structure: u32 },
    /// The placed shapes have more than 1,048,576 points; the count is at most 2^64 - 1.
    #[error("too many points {count}")]
    TooManyPoints { count: u64 },
    /// A polygon doesn't end at its first point.
    #[error("not closed at {offset}")]
    NotClosed { offset: usize },
    /// A segment is neither horizontal nor vertical.
    #[error("not rectilinear at {offset}")]
    NotRectilinear { offset: usize },
    /// The PATHTYPE of a path isn't 0, 2 or 4.
    #[error("path ends at {offset}")]
    RoundPath { offset: usize },
    /// A coordinate isn't a multiple of the grid.
    #[error("off grid at {offset}")]
    OffGrid { offset: usize },
    /// A coordinate is further than 1,048,000 pixels from 0.
    #[error("out of range at {offset}")]
    OutOfRange { offset: usize },
    /// Memory ran out.
    #[error("out of memory")]
    NoMemory,
}

impl From<NoMemory> for PlaceFault {
    ghost use Rattle.std.specs.Prelude.{◌≡◌};
    ghost use Rattle.gds_model.specs.declared.place_fault.PlaceFault.TheVariants as fault;

    ghost from_gives = { λ _ e. e ≡ fault.NoMemory };

    fn from(_: NoMemory) -> Self {
        PlaceFault::NoMemory
    }
}

impl From<AllocError> for PlaceFault {
    ghost use Rattle.std.specs.Prelude.{◌≡◌};
    ghost use Rattle.gds_model.specs.declared.place_fault.PlaceFault.TheVariants as fault;

    ghost from_gives = { λ _ e. e ≡ fault.NoMemory };

    fn from(_: AllocError) -> Self {
        PlaceFault::NoMemory
    }
}

impl<T: Drop> From<AllocFailed<T>> for PlaceFault {
    ghost use Rattle.std.specs.Prelude.{◌≡◌};
    ghost use Rattle.gds_model.specs.declared.place_fault.PlaceFault.TheVariants as fault;

    ghost from_gives = { λ _ e. e ≡ fault.NoMemory };

    fn from(_: AllocFailed<T>) -> Self {
        PlaceFault::NoMemory
    }
}
