//! The answers other than `Ok` of the outside and of memory.
ghost use Rattle.std.specs.Prelude.{◌≡◌};
ghost use Rattle.opc_base.specs.declared.fault.LoadFault.TheVariants as load;
ghost use Rattle.opc_base.specs.declared.fault.HostFault.TheVariants as host;

use std::alloc::{AllocError, AllocFailed};

/// Memory ran out. It is merged with no other fault.
#[derive(Clone, Copy, Debug, PartialEq, Eq)]
pub struct NoMemory;

impl From<AllocError> for NoMemory {
    fn from(_: AllocError) -> Self {
        NoMemory
    }
}

impl<T: Drop> From<AllocFailed<T>> for NoMemory {
    fn from(_: AllocFailed<T>) -> Self {
        NoMemory
    }
}

/// Why a file wasn't loaded: the host tells its files and has none of this name, or the load failed, or memory ran out.
#[derive(Clone, Copy, Debug, PartialEq, Eq)]
pub enum LoadFault {
    Absent,
    Failed,
    NoMemory,
}

impl From<NoMemory> for LoadFault {
    ghost from_gives = { λ _ e. e ≡ load.NoMemory };

    fn from(_: NoMemory) -> Self {
        LoadFault::NoMemory
    }
}

/// Why a file wasn't stored or a text wasn't said: the call failed, or memory ran out.
#[derive(Clone, Copy, Debug, PartialEq, Eq)]
pub enum HostFault {
    Failed,
    NoMemory,
}

impl From<NoMemory> for HostFault {
    ghost from_gives = { λ _ e. e ≡ host.NoMemory };

    fn from(_: NoMemory) -> Self {
        HostFault::NoMemory
    }
}
