//! Why a command refuses its files.

use crate::{BarKey, Which};
use cutting::CutFault;
use gds_model::{LayoutFault, PlaceFault};
use kernel_file::KernelFault;
use opc_base::{Broken, NoMemory};
use rect_union::UnionFault;
use rule_file::{MoveFault, RuleFault};
use std::alloc::AllocFailed;

/// Why the bytes of the files call for no answer. A wrapped fault is never the lower want of memory.
#[derive(Clone, Copy, Debug, PartialEq, Eq)]
pub enum EngineFault {
    /// The file has more bytes than its limit.
    TooLong { which: Which },
    /// The rule file breaks its format.
    Rules(RuleFault),
    /// A number of scatter bars doesn't suit the mask rules.
    BadBars { key: BarKey },
    /// The kernel file breaks its format.
    Kernels(KernelFault),
    /// The layout breaks its format.
    Layout(LayoutFault),
    /// The chosen layer of the layout can't be expanded.
    Place(PlaceFault),
    /// The target has more than 65,536 corners.
    TooManyCorners,
    /// The target breaks a mask rule.
    Target(Broken),
    /// The target's edges are cut into more than 32,768 fragments.
    TooManyFragments { count: u64 },
    /// The window round the target has more than 4,194,304 pixels, namely so many.
    TooWide { pixels: u64 },
    /// The moves file breaks its format.
    Moves(MoveFault),
    /// A line of the moves file, counted from 1, names no fragment.
    NoFragment { line: u32 },
    /// Memory ran out.
    NoMemory,
}

impl From<NoMemory> for EngineFault {
    ghost use Rattle.std.specs.Prelude.{◌≡◌};
    ghost use Rattle.opc_engine.specs.declared.fault.EngineFault.TheVariants as engine;

    ghost from_gives = { λ _ e. e ≡ engine.NoMemory };

    fn from(_: NoMemory) -> Self {
        EngineFault::NoMemory
    }
}

impl<T: Drop> From<AllocFailed<T>> for EngineFault {
    ghost use Rattle.std.specs.Prelude.{◌≡◌};
    ghost use Rattle.opc_engine.specs.declared.fault.EngineFault.TheVariants as engine;

    ghost from_gives = { λ _ e. e ≡ engine.NoMemory };

    fn from(_: AllocFailed<T>) -> Self {
        EngineFault::NoMemory
    }
}

impl From<KernelFault> for EngineFault {
    ghost use Rattle.opc_engine.specs.Wrapped.{wrapped_kernels};
    ghost use Rattle.std.specs.Prelude.{◌≡◌};

    ghost from_gives = { λ fault e. e ≡ wrapped_kernels fault };

    fn from(fault: KernelFault) -> Self {
        match fault {
            KernelFault::NoMemory => EngineFault::NoMemory,
            fault => EngineFault::Kernels(fault),
        }
    }
}

impl From<LayoutFault> for EngineFault {
    ghost use Rattle.opc_engine.specs.Wrapped.{wrapped_layout};
    ghost use Rattle.std.specs.Prelude.{◌≡◌};

    ghost from_gives = { λ fault e. e ≡ wrapped_layout fault };

    fn from(fault: LayoutFault) -> Self {
        match fault {
            LayoutFault::NoMemory => EngineFault::NoMemory,
            fault => EngineFault::Layout(fault),
        }
    }
}

impl From<PlaceFault> for EngineFault {
    ghost use Rattle.opc_engine.specs.Wrapped.{wrapped_place};
    ghost use Rattle.std.specs.Prelude.{◌≡◌};

    ghost from_gives = { λ fault e. e ≡ wrapped_place fault };

    fn from(fault: PlaceFault) -> Self {
        match fault {
            PlaceFault::NoMemory => EngineFault::NoMemory,
            fault => EngineFault::Place(fault),
        }
    }
}

impl From<UnionFault> for EngineFault {
    ghost use Rattle.opc_engine.specs.Wrapped.{wrapped_union};
    ghost use Rattle.std.specs.Prelude.{◌≡◌};

    ghost from_gives = { λ fault e. e ≡ wrapped_union fault };

    fn from(fault: UnionFault) -> Self {
        match fault {
            UnionFault::TooManyCorners => EngineFault::TooManyCorners,
            UnionFault::NoMemory => EngineFault::NoMemory,
        }
    }
}

impl From<RuleFault> for EngineFault {
    ghost use Rattle.opc_engine.specs.Wrapped.{wrapped_rules};
    ghost use Rattle.std.specs.Prelude.{◌≡◌};

    ghost from_gives = { λ fault e. e ≡ wrapped_rules fault };

    fn from(fault: RuleFault) -> Self {
        match fault {
            RuleFault::NoMemory => EngineFault::NoMemory,
            fault => EngineFault::Rules(fault),
        }
    }
}

impl From<CutFault> for EngineFault {
    ghost use Rattle.opc_engine.specs.Wrapped.{wrapped_cut};
    ghost use Rattle.std.specs.Prelude.{◌≡◌};

    ghost from_gives = { λ fault e. e ≡ wrapped_cut fault };

    fn from(fault: CutFault) -> Self {
        match fault {
            CutFault::TooManyFragments { count } => EngineFault::TooManyFragments { count },
            CutFault::NoMemory => EngineFault::NoMemory,
        }
    }
}

impl From<MoveFault> for EngineFault {
    ghost use Rattle.opc_engine.specs.Wrapped.{wrapped_moves};
    ghost use Rattle.std.specs.Prelude.{◌≡◌};

    ghost from_gives = { λ fault e. e ≡ wrapped_moves fault };

    fn from(fault: MoveFault) -> Self {
        match fault {
            MoveFault::NoMemory => EngineFault::NoMemory,
            fault => EngineFault::Moves(fault),
        }
    }
}
